//! The first read in pieces of any length.
use super::{Inputs, Most, REPORT, SCRIPT, SURE, command_in_pieces, first_image, has_run};
use crate::Status;
use std::process::Abort;
use std::test::Fail;

/// Replays the first read in pieces of at most so many bytes.
fn replays_in_pieces(rt: &(impl Abort + AllocGlobal), most: usize) -> Result<(), Fail> {
    let alloc = rt.alloc();
    let inputs = Inputs {
        image: first_image(alloc)?,
        script: SCRIPT,
        journal: b"",
    };
    let words = ["replay", "image", "script", "out"];
    let pieces = Most {
        image: most,
        text: most,
        out: most,
    };
    let left = command_in_pieces(alloc, words.as_slice(), inputs, pieces, SURE)?;
    let image = first_image(alloc)?;
    has_run(rt, &left, Status::Done, REPORT, image.as_slice());
    Ok(())
}

#[test]
fn replays_from_pieces_of_any_length(rt: HostRuntime) -> Result<(), Fail> {
    for most in [1000, 4097, 100_000] {
        replays_in_pieces(&rt, most)?;
    }
    Ok(())
}
