//! The command `make`.
ghost use Rattle.std.specs.Prelude.{◌≡◌, IfOk};
ghost use Rattle.bd_gen.specs.Script.{made_script};
ghost use Rattle.bd_gen.specs.Volume.{made_volume};
ghost use Rattle.bd_image.specs.Volumes.{image_of};
ghost use Rattle.bd_outside.specs.Around.{writing};
ghost use Rattle.bd_script.specs.Texts.{script_text};
ghost use Rattle.bd_top.specs.Ends.{Makes};

use crate::status::Status;
use crate::writes::write_both;
use bd_base::{Bytes, OutOfMemory};
use bd_gen::make;
use bd_outside::Sink;
use bd_script::print_script;
use std::alloc::Global;

/// What is made from a number, as it is written.
#[derive(Debug, Drop)]
struct Made {
    text: Bytes,
    image: Bytes,
}

/// Makes the text of the script, and the image. It takes no sink.
fn make_both(alloc: Global, n: u64) -> Result<Made, OutOfMemory>
    ensures text { IfOk result (λ made. made.text ≡ script_text (made_script n)) }
    ensures image { IfOk result (λ made. made.image ≡ image_of made_volume) }
{
    let (image, script) = make(alloc, n)?;
    let text = print_script(alloc, &script)?;
    Ok(Made { text, image })
}

/// Makes an image and a script from the number `n`. Writes the script's text to `out`, and then the
/// image to `disk`.
///
/// `Makes` (specs/Ends.antt) tells what each status means.
pub fn make_all<O: Sink, D: Sink>(alloc: Global, n: u64, out: &mut O, disk: &mut D) -> Status
    ensures { Makes n
        (writing O.Sink out.old out.new) (writing D.Sink disk.old disk.new) result }
{
    match make_both(alloc, n) {
        Ok(made) => write_both(out, disk, made.text.as_slice(), made.image.as_slice()),
        Err(OutOfMemory) => Status::OutOfMemory,
    }
}
