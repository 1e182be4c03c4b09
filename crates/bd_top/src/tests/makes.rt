//! Images and scripts that are made. The bytes were worked out by hand from their formats.
use super::{Left, Plan, SURE, check_image, command};
use crate::{Status, To};
use std::alloc::Global;
use std::process::Abort;
use std::test::Fail;

/// Makes an image and a script from 7.
fn made(alloc: Global, plan: Plan) -> Result<Left, Fail> {
    let words = ["make", "7", "image", "script"];
    command(alloc, words.as_slice(), Vec::new(alloc), b"", plan)
}

/// The first lines of the script.
const FIRST_LINES: &[u8] = b"bypassd-script 1\nproc 1000\nopen f0 rw direct\nread 0 6981196 16384\n\
    write 0 8043783 2E*16384\n";

/// Expects that an image is accepted, with these numbers of blocks.
fn is_accepted(rt: &(impl Abort + AllocGlobal), image: &[u8]) -> Result<(), Fail> {
    let told = check_image(rt.alloc(), image.to_vec(rt.alloc())?, SURE)?;
    assert!(rt; told.out.held() == b"accepted blocks 16384 files 8 free 381\n".as_slice());
    Ok(())
}

#[test]
fn makes_an_image_that_is_accepted_and_its_script(rt: HostRuntime) -> Result<(), Fail> {
    // No source is read.
    let (image, script) = (Some(0), Some(0));
    let plan = Plan {
        image,
        script,
        ..SURE
    };
    let left = made(rt.alloc(), plan)?;
    assert_eq!(&rt; left.outcome.status, Status::Done);
    assert!(&rt; left.outcome.journal.is_empty() && left.outcome.trace.is_empty());
    has_lines(&rt, left.out.held(), 93_002);
    assert!(&rt; left.out.held().starts_with(FIRST_LINES));
    is_accepted(&rt, left.disk.held())
}

/// Expects that a text of this length begins as the script does.
fn has_lines(rt: &impl Abort, text: &[u8], length: usize) {
    assert_eq!(rt; text.len(), length);
    assert!(rt; text.starts_with(&FIRST_LINES[..40]));
}

/// Expects that what is made with these calls failing ends so, with so many bytes of the script and of the image.
fn leaves_a_prefix(
    rt: &(impl Abort + AllocGlobal),
    plan: Plan,
    want: Status,
    script: usize,
    image: usize,
) -> Result<(), Fail> {
    let left = made(rt.alloc(), plan)?;
    assert_eq!(rt; left.outcome.status, want);
    has_lines(rt, left.out.held(), script);
    assert_eq!(rt; left.disk.held().len(), image);
    Ok(())
}

#[test]
fn a_fault_leaves_a_prefix_of_what_is_made(rt: HostRuntime) -> Result<(), Fail> {
    let out = Some(1);
    let first = Plan { out, ..SURE };
    leaves_a_prefix(&rt, first, Status::WriteFault(To::Out), 40, 0)?;
    let disk = Some(2);
    let second = Plan { disk, ..SURE };
    leaves_a_prefix(&rt, second, Status::WriteFault(To::Disk), 93_002, 81_920)
}
