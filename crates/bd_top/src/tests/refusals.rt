//! Words, images and scripts that are refused, in their order.
use super::{
    Plan, SCRIPT, SURE, command, first_image, is_refused, joined, replay_image, run, set, words,
};
use crate::{Status, Which};
use bd_base::List;
use bd_outside::{SureSink, SureSource};
use std::process::Abort;
use std::test::Fail;

#[test]
fn does_nothing_for_words_that_say_no_command(rt: HostRuntime) -> Result<(), Fail> {
    let lines: [&[&str]; 3] = [&[], &["replay", "a", "b"], &["check", "a", "--journal"]];
    for line in lines {
        let image = first_image(rt.alloc())?;
        let left = command(rt.alloc(), line, image, SCRIPT, SURE)?;
        is_refused(&rt, &left, Status::Usage);
    }
    Ok(())
}

/// Expects that a replay of the first image refuses the script by this line and this rule.
fn is_bad_script(
    rt: &(impl Abort + AllocGlobal),
    script: &[u8],
    line: u64,
    rule: u8,
) -> Result<(), Fail> {
    let left = replay_image(rt.alloc(), first_image(rt.alloc())?, script, SURE)?;
    is_refused(rt, &left, Status::BadScript { line, rule });
    Ok(())
}

#[test]
fn refuses_scripts_without_a_reading(rt: HostRuntime) -> Result<(), Fail> {
    is_bad_script(&rt, b"", 1, 2)?;
    is_bad_script(&rt, b"bypassd-script 2\n", 1, 2)?;
    is_bad_script(&rt, b"\x7F\0", 1, 2)?;
    is_bad_script(&rt, b"bypassd-script 1\nproc 100\nopen a r\n", 3, 4)?;
    is_bad_script(&rt, b"bypassd-script 1\nproc 100\nread 0 0 16385\n", 3, 5)?;
    is_bad_script(&rt, b"bypassd-script 1\nproc 100\nopen a r direct", 3, 3)?;
    is_bad_script(&rt, b"bypassd-script 1\nsize 0\n", 2, 6)?;
    is_bad_script(&rt, b"bypassd-script 1\nproc 100\nschedule 3\n", 3, 8)
}

/// Expects that scripts with this call are refused: alone, and after a call that is built; a line without a reading is
/// told before.
fn is_not_built(rt: &(impl Abort + AllocGlobal), call: &[u8]) -> Result<(), Fail> {
    let first: &[u8] = b"bypassd-script 1\nproc 100\n";
    let alone = joined(rt.alloc(), [first, call].as_slice())?;
    is_bad_script(rt, alone.as_slice(), 3, 0)?;
    let other: &[u8] = b"bypassd-script 1\nproc 1\nproc 100\nopen a r direct\nproc 2\n";
    let last: &[u8] = b"close 0\nschedule 0\n";
    let late = joined(rt.alloc(), [other, call, last].as_slice())?;
    is_bad_script(rt, late.as_slice(), 6, 0)?;
    let schedule: &[u8] = b"schedule 9\n";
    let bad = joined(rt.alloc(), [first, call, schedule].as_slice())?;
    is_bad_script(rt, bad.as_slice(), 4, 8)
}

/// Calls that are not built, each as a line.
const NOT_BUILT: [&[u8]; 7] = [
    b"open a r plain\n",
    b"truncate 0 0\n",
    b"unlink a\n",
    b"map 0\n",
    b"close 0\n",
    b"raw-read 0 0 1\n",
    b"raw-write 0 0 41*1\n",
];

#[test]
fn refuses_calls_that_are_not_built(rt: HostRuntime) -> Result<(), Fail> {
    for call in NOT_BUILT {
        is_not_built(&rt, call)?;
    }
    Ok(())
}

#[test]
fn refuses_a_script_past_the_limit(rt: HostRuntime) -> Result<(), Fail> {
    let alloc = rt.alloc();
    let words = words(alloc, ["replay", "image", "script", "out"].as_slice())?;
    let mut image = SureSource::new(List::from_vec(first_image(alloc)?), 100_000);
    let text = vec![in alloc; b'\n'; 8_388_609]?;
    let mut script = SureSource::new(List::from_vec(text), 1_000_000);
    let mut journal = SureSource::new(List::new(alloc), 1);
    let mut out = SureSink::new(alloc, 100);
    let mut disk = SureSink::new(alloc, 100);
    let outcome = run(
        alloc,
        words.as_slice(),
        &mut image,
        &mut script,
        &mut journal,
        &mut out,
        &mut disk,
    );
    assert_eq!(&rt; outcome.status, Status::BadScript { line: 0, rule: 1 });
    assert!(&rt; out.held().is_empty() && disk.held().is_empty());
    Ok(())
}

/// Expects that a replay of an empty script over this image with these calls failing is refused so.
fn refuses_without_script(
    rt: &(impl Abort + AllocGlobal),
    image: Vec<u8>,
    plan: Plan,
    want: Status,
) -> Result<(), Fail> {
    let left = replay_image(rt.alloc(), image, b"", plan)?;
    is_refused(rt, &left, want);
    Ok(())
}

#[test]
fn tells_the_image_before_the_script(rt: HostRuntime) -> Result<(), Fail> {
    let mut bad = first_image(rt.alloc())?;
    set(&mut bad, 4096, 0x1F);
    let (rule, place) = (19, 4096);
    let script = Some(0);
    let plan = Plan { script, ..SURE };
    refuses_without_script(&rt, bad, plan, Status::BadImage { rule, place })?;
    let good = first_image(rt.alloc())?;
    let image = Some(2);
    let plan = Plan { image, ..SURE };
    refuses_without_script(&rt, good, plan, Status::ReadFault(Which::Image))
}

#[test]
fn tells_the_script_before_a_write(rt: HostRuntime) -> Result<(), Fail> {
    let (out, disk) = (Some(0), Some(0));
    let image = first_image(rt.alloc())?;
    let plan = Plan { out, disk, ..SURE };
    refuses_without_script(&rt, image, plan, Status::BadScript { line: 1, rule: 2 })
}
