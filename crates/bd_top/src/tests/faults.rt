//! The first read with each call of each source and sink failing in turn.
use super::{
    Left, Plan, REPORT, SCRIPT, SURE, check_image, fails_of, first_image, has_run, is_refused,
    replay_image, run, words,
};
use crate::{Outcome, Status, To, Which, code};
use bd_base::List;
use bd_outside::{MemSink, SureSink, SureSource};
use std::alloc::Global;
use std::process::Abort;
use std::test::Fail;

/// What a replay of the first read leaves where these calls fail.
fn first_read(alloc: Global, plan: Plan) -> Result<Left, Fail> {
    replay_image(alloc, first_image(alloc)?, SCRIPT, plan)
}

/// What a check of its image leaves.
fn first_check(alloc: Global, plan: Plan) -> Result<Left, Fail> {
    check_image(alloc, first_image(alloc)?, plan)
}

#[test]
fn each_read_of_the_image_may_fail(rt: HostRuntime) -> Result<(), Fail> {
    // Two reads of 40,960 bytes, and one that meets the end.
    for call in 0..3 {
        let image = Some(call);
        let left = first_read(rt.alloc(), Plan { image, ..SURE })?;
        is_refused(&rt, &left, Status::ReadFault(Which::Image));
    }
    Ok(())
}

#[test]
fn each_read_of_the_script_may_fail(rt: HostRuntime) -> Result<(), Fail> {
    // Reads of 20, 20 and 13 bytes, and one that meets the end.
    for call in 0..4 {
        let script = Some(call);
        let left = first_read(rt.alloc(), Plan { script, ..SURE })?;
        is_refused(&rt, &left, Status::ReadFault(Which::Script));
    }
    Ok(())
}

#[test]
fn each_write_of_the_report_may_fail(rt: HostRuntime) -> Result<(), Fail> {
    // Writes of 40, 40, 40 and 13 bytes.
    for call in 0..4u8 {
        let out = Some(u64::from(call));
        let left = first_read(rt.alloc(), Plan { out, ..SURE })?;
        let held = &REPORT[..40 * usize::from(call)];
        has_run(&rt, &left, Status::WriteFault(To::Out), held, &[]);
    }
    Ok(())
}

#[test]
fn each_write_of_the_image_may_fail(rt: HostRuntime) -> Result<(), Fail> {
    // Two writes of 40,960 bytes.
    let image = first_image(rt.alloc())?;
    assert!(&rt; image.len() == 81_920);
    for call in 0..2u8 {
        let disk = Some(u64::from(call));
        let left = first_read(rt.alloc(), Plan { disk, ..SURE })?;
        let held = &image.as_slice()[..40_960 * usize::from(call)];
        has_run(&rt, &left, Status::WriteFault(To::Disk), REPORT, held);
    }
    Ok(())
}

/// The first calls that there are not.
const PAST_THE_LAST: Plan = Plan {
    image: Some(3),
    script: Some(4),
    journal: Some(0),
    out: Some(4),
    disk: Some(2),
};

#[test]
fn no_other_call_is_made(rt: HostRuntime) -> Result<(), Fail> {
    let image = first_image(rt.alloc())?;
    let left = first_read(rt.alloc(), PAST_THE_LAST)?;
    has_run(&rt, &left, Status::Done, REPORT, image.as_slice());
    Ok(())
}

#[test]
fn each_call_of_a_check_may_fail(rt: HostRuntime) -> Result<(), Fail> {
    for call in 0..3 {
        let image = Some(call);
        let left = first_check(rt.alloc(), Plan { image, ..SURE })?;
        is_refused(&rt, &left, Status::ReadFault(Which::Image));
    }
    // The line has 36 bytes, which one write takes.
    let out = Some(0);
    let left = first_check(rt.alloc(), Plan { out, ..SURE })?;
    is_refused(&rt, &left, Status::WriteFault(To::Out));
    Ok(())
}

#[test]
fn a_check_reads_no_script_and_writes_no_image(rt: HostRuntime) -> Result<(), Fail> {
    let (script, disk) = (Some(0), Some(0));
    let left = first_check(
        rt.alloc(),
        Plan {
            script,
            disk,
            ..SURE
        },
    )?;
    assert_eq!(&rt; left.outcome.status, Status::Done);
    Ok(())
}

/// What a command leaves whose image cannot fail.
#[derive(Drop)]
struct SureLeft {
    outcome: Outcome,
    out: MemSink,
    disk: SureSink,
}

/// Runs a command whose sources and whose image written cannot fail.
fn run_surely(
    alloc: Global,
    words: &[String],
    mut image: SureSource,
    mut script: SureSource,
    mut out: MemSink,
) -> SureLeft {
    let mut journal = SureSource::new(List::new(alloc), 1);
    let mut disk = SureSink::new(alloc, 100_000);
    let outcome = run(
        alloc,
        words,
        &mut image,
        &mut script,
        &mut journal,
        &mut out,
        &mut disk,
    );
    SureLeft { outcome, out, disk }
}

#[test]
fn a_fault_leaves_a_prefix(rt: HostRuntime) -> Result<(), Fail> {
    let alloc = rt.alloc();
    let words = words(alloc, ["replay", "image", "script", "out"].as_slice())?;
    let image = SureSource::new(List::from_vec(first_image(alloc)?), 100_000);
    let script = SureSource::new(List::from_slice(alloc, SCRIPT)?, 100);
    let out = MemSink::new(alloc, 16, fails_of(alloc, Some(1))?);
    let left = run_surely(alloc, words.as_slice(), image, script, out);
    assert_eq!(&rt; code(&left.outcome.status), 4);
    assert!(&rt; left.out.held() == b"bypassd-report 1".as_slice());
    assert!(&rt; left.disk.held().is_empty());
    Ok(())
}
