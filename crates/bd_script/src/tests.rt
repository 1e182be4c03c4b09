//! Scripts that are read and written, and texts that are refused.
use crate::{ScriptError, print_script, read_script};
use std::alloc::Global;
use std::process::Abort;
use std::test::Fail;

// The lines, after the header, make a script, which is printed as they are.
fn expects_script(rt: &impl Abort, alloc: Global, lines: &str) -> Result<(), Fail> {
    let text = format!(in alloc; "bypassd-script 1\n{lines}")?;
    let script = read_script(alloc, text.as_bytes())?;
    let printed = print_script(alloc, &script)?;
    assert_eq!(rt; printed.as_slice(), text.as_bytes(), "of {lines:?}");
    Ok(())
}

// The text is refused with this line and this rule.
fn expects_refusal(rt: &impl Abort, alloc: Global, text: &str, line: u64, rule: u8) {
    let answer = match read_script(alloc, text.as_bytes()) {
        Err(ScriptError::BadScript { line, rule }) => Some((line, rule)),
        _ => None,
    };
    assert_eq!(rt; answer, Some((line, rule)), "of {text:?}");
}

// The same of a text that follows the header and a process.
fn expects_bad_line(rt: &impl Abort, alloc: Global, line: &str, rule: u8) -> Result<(), Fail> {
    let text = format!(in alloc; "bypassd-script 1\nproc 0\n{line}\n")?;
    expects_refusal(rt, alloc, text.as_str(), 3, rule);
    Ok(())
}

#[test]
fn reads_and_writes_each_line(rt: HostRuntime) -> Result<(), Fail> {
    for lines in [
        "",
        "proc 0\n",
        "proc 4294967295\nproc 1\n",
        "proc 1\nopen a r plain\nopen b.c_d-9 rw direct\n",
        "proc 1\ncreate abcdefghijklmnopqrstuvwxyz01234 15\nunlink a\n",
        "proc 1\nread 255 1099511627776 16384\nread 0 0 1\n",
        "proc 1\nwrite 0 10 68*1,65*1,6C*2,6F*1\nwrite 0 0 00*16384\n",
        "proc 1\ntruncate 7 1099511627776\nsize 7\nmap 7\nclose 7\n",
        "proc 1\nraw-read 32767 0 4096\nraw-read 0 4095 1\n",
        "proc 1\nraw-write 32767 0 00*4096\nraw-write 0 4095 FF*1\n",
        "schedule 0\n",
        "proc 1\nproc 2\nsize 0\nschedule 4 0*2 3\nschedule 1*999995\n",
    ] {
        expects_script(&rt, rt.alloc(), lines)?;
    }
    Ok(())
}

#[test]
fn refuses_bad_texts(rt: HostRuntime) -> Result<(), Fail> {
    for (text, line, rule) in [
        ("", 1, 2),
        ("\n", 1, 2),
        ("bypassd-script 2\n", 1, 2),
        ("bypassd-script 1 \n", 1, 2),
        ("bypassd-script", 1, 2),
        ("bypassd-script 1", 1, 3),
        ("bypassd-script 1\nproc 100", 2, 3),
        ("bypassd-script 1\nproc 100\nopen a r\n", 3, 4),
        ("bypassd-script 1\nproc 100\nread 0 0 16385\n", 3, 5),
        ("bypassd-script 1\nproc 100\nread 0 0 16385", 3, 3),
        ("bypassd-script 1\nproc 100\n\n", 3, 4),
        ("bypassd-script 1\nsize 0\n", 2, 6),
        ("bypassd-script 1\nschedule 0\nproc 0\n", 3, 6),
        ("bypassd-script 1\nproc 0\nschedule 0\nsize 0\n", 4, 6),
        ("bypassd-script 1\nschedule 1\n", 2, 8),
    ] {
        expects_refusal(&rt, rt.alloc(), text, line, rule);
    }
    Ok(())
}

#[test]
fn refuses_bad_lines(rt: HostRuntime) -> Result<(), Fail> {
    for (line, rule) in [
        ("", 4),
        ("proc", 4),
        ("proc ", 4),
        ("proc 00", 4),
        ("proc 1 ", 4),
        ("proc 4294967296", 5),
        ("proc 99999999999999999999999999999999", 5),
        ("Size 0", 4),
        ("size  0", 4),
        ("size 0\r", 4),
        ("size 256", 5),
        ("read 256 x 1", 4),
        ("read 0 1099511627777 1", 5),
        ("read 0 0 0", 5),
        ("open A r plain", 4),
        ("open a w plain", 4),
        ("open a r kernel", 4),
        ("create a 16", 5),
        ("create abcdefghijklmnopqrstuvwxyz012345 1", 4),
        ("write 0 0 -", 4),
        ("write 0 0 41*16385", 5),
        ("write 0 0 41*99999999999999999999", 5),
        ("write 256 0 41*0", 4),
        ("raw-read 32768 0 1", 5),
        ("raw-read 0 4096 1", 5),
        ("raw-read 0 4095 2", 5),
        ("raw-write 0 4095 41*2", 5),
        ("raw-write 0 0 -", 4),
    ] {
        expects_bad_line(&rt, rt.alloc(), line, rule)?;
    }
    Ok(())
}

#[test]
fn refuses_bad_schedules(rt: HostRuntime) -> Result<(), Fail> {
    for (line, rule) in [
        ("schedule", 4),
        ("schedule ", 4),
        ("schedule 0 ", 4),
        ("schedule 0*", 4),
        ("schedule 0*2*2", 4),
        ("schedule 0*1 x", 4),
        ("schedule 0*1", 5),
        ("schedule 0*0", 5),
        ("schedule 9 0*1000001", 5),
        ("schedule 9 0*1000000 0", 7),
        ("schedule 0*1000000 0", 7),
        ("schedule 3", 8),
        ("schedule 99999999999999999999", 8),
    ] {
        expects_bad_line(&rt, rt.alloc(), line, rule)?;
    }
    Ok(())
}

// The header, and a front, so many times a middle, and an end.
fn repeats(
    alloc: Global,
    front: &str,
    middle: &str,
    count: usize,
    end: &str,
) -> Result<String, Fail> {
    let mut text = format!(in alloc; "bypassd-script 1\n{front}")?;
    for _ in 0..count {
        text.push_str(middle)?;
    }
    text.push_str(end)?;
    Ok(text)
}

#[test]
fn refuses_too_many(rt: HostRuntime) -> Result<(), Fail> {
    for (front, middle, count, end, line, rule) in [
        ("", "proc 0\n", 16, "proc 0\n", 18, 7),
        ("proc 0\n", "size 0\n", 256, "size 0\n", 259, 7),
        ("", "schedule 0\n", 4096, "schedule 0\n", 4098, 7),
        ("schedule 0", " 0", 64, "\n", 2, 7),
        ("schedule 9", " 0", 64, "\n", 2, 7),
        ("schedule 0", " 0", 64, " 0*1\n", 2, 5),
        ("schedule 0*1", " 0", 64, " x\n", 2, 4),
    ] {
        let text = repeats(rt.alloc(), front, middle, count, end)?;
        expects_refusal(&rt, rt.alloc(), text.as_str(), line, rule);
    }
    Ok(())
}
