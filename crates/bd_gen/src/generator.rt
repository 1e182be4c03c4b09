//! The image and the script together.
ghost use Rattle.std.specs.Prelude.{◌≡◌, IfOk};
ghost use Rattle.bd_gen.specs.Script.{made_script};
ghost use Rattle.bd_gen.specs.Volume.{made_volume};
ghost use Rattle.bd_image.specs.Rules.{Accepted};
ghost use Rattle.bd_image.specs.Volumes.{image_of, volume_of};
ghost use Rattle.bd_script.specs.Texts.{IsScript};

use crate::processes::made_script;
use crate::volume::made_image;
use bd_base::{Bytes, OutOfMemory, Script};
use std::alloc::Global;

/// Makes an image and a script from the number `n` (docs/FORMATS.md, "A made image and script").
///
/// The image is the same from every number. The script is within the limits of one, and its text is not too long, so
/// that it is printed and read. The error comes only where no memory is found.
pub fn make(alloc: Global, n: u64) -> Result<(Bytes, Script), OutOfMemory>
    ensures image { IfOk result (λ made. made.0 ≡ image_of made_volume) }
    ensures accepted { IfOk result (λ made. Accepted made.0) }
    ensures says { IfOk result (λ made. volume_of made.0 ≡ made_volume) }
    ensures script { IfOk result (λ made. made.1 ≡ made_script n) }
    ensures readable { IfOk result (λ made. IsScript made.1) }
{
    let image = made_image(alloc)?;
    let script = made_script(alloc, n)?;
    Ok((image, script))
}
