//! Reading an image and a script from their sources.
ghost use Rattle.std.specs.Prelude.{◌≡◌, ◌+◌, IfOk, IfErr, OnOk};
ghost use Rattle.bd_base.specs.declared.limits.TheConstants.{IMAGE_SIZE, SCRIPT_SIZE};
ghost use Rattle.bd_base.specs.Bytes.{AreBytes};
ghost use Rattle.bd_image.specs.Refusals.{RefusesBytesOfImage};
ghost use Rattle.bd_image.specs.Rules.{Accepted};
ghost use Rattle.bd_image.specs.Volumes.{AcceptedVolume, volume_of};
ghost use Rattle.bd_outside.specs.Around.{ReadAtMost, reading};
ghost use Rattle.bd_top.specs.Inputs.{IsImageRead, IsScriptRead, RefusesImage, RefusesScript};

use crate::status::{Status, Which};
use bd_base::{Bytes, IMAGE_SIZE, SCRIPT_SIZE, Script, Volume};
use bd_image::{ImageError, Rule, parse};
use bd_outside::{ReadError, Source, read_all};
use bd_script::ScriptError;
use std::alloc::Global;

/// Bytes of a program are below 256.
fn are_bytes(bytes: &[u8])
    ensures { AreBytes bytes.now }
{
    let _count = bytes.len();
}

/// The volume of these bytes.
#[tactic(auto, unfolding(bd_image::specs::Volumes::AcceptedVolume))]
fn volume_of_bytes(alloc: Global, bytes: Bytes) -> Result<Volume, ImageError>
    ensures accepted { OnOk result (Accepted bytes) }
    ensures volume { IfOk result (λ volume. volume ≡ volume_of bytes) }
    ensures sound { IfOk result (λ volume. AcceptedVolume volume) }
    ensures refused { IfErr result (RefusesBytesOfImage bytes) }
{
    are_bytes(bytes.as_slice());
    parse(alloc, bytes)
}

/// Reads the image from its source.
pub(crate) fn read_image<I: Source>(alloc: Global, image: &mut I) -> Result<Volume, Status>
    ensures ok { IfOk result (IsImageRead (reading I.Source image.old image.new)) }
    ensures err { IfErr result (RefusesImage (reading I.Source image.old image.new)) }
    ensures taken { ReadAtMost (IMAGE_SIZE + 1) (reading I.Source image.old image.new) }
{
    let bytes = match read_all(alloc, image, IMAGE_SIZE as usize) {
        Ok(bytes) => bytes,
        Err(ReadError::Fault) => return Err(Status::ReadFault(Which::Image)),
        Err(ReadError::TooLong) => {
            return Err(Status::BadImage {
                rule: Rule::Length.number(),
                place: IMAGE_SIZE + 1,
            });
        }
        Err(ReadError::OutOfMemory) => return Err(Status::OutOfMemory),
    };
    match volume_of_bytes(alloc, bytes) {
        Ok(volume) => Ok(volume),
        Err(ImageError::BadImage { rule, place }) => Err(Status::BadImage { rule, place }),
        Err(ImageError::OutOfMemory) => Err(Status::OutOfMemory),
    }
}

/// Reads the script from its source, whatever its calls are.
pub(crate) fn read_script<S: Source>(alloc: Global, script: &mut S) -> Result<Script, Status>
    ensures ok { IfOk result (IsScriptRead (reading S.Source script.old script.new)) }
    ensures err { IfErr result (RefusesScript (reading S.Source script.old script.new)) }
    ensures taken { ReadAtMost (SCRIPT_SIZE + 1) (reading S.Source script.old script.new) }
{
    let text = match read_all(alloc, script, SCRIPT_SIZE as usize) {
        Ok(text) => text,
        Err(ReadError::Fault) => return Err(Status::ReadFault(Which::Script)),
        Err(ReadError::TooLong) => return Err(Status::BadScript { line: 0, rule: 1 }),
        Err(ReadError::OutOfMemory) => return Err(Status::OutOfMemory),
    };
    match bd_script::read_script(alloc, text.as_slice()) {
        Ok(script) => Ok(script),
        Err(ScriptError::BadScript { line, rule }) => Err(Status::BadScript { line, rule }),
        Err(ScriptError::OutOfMemory) => Err(Status::OutOfMemory),
    }
}
