//! Runs, numbers and words that are written and read, and texts that are none.
use crate::text::{
    Number, SPACE, Within, direction_word, front_name, front_number, push_bytes, push_field,
    push_mode_and_how, push_number, push_number_field, push_three_numbers, push_two_numbers,
    read_direction, read_mode_and_how, read_number, read_way, split_at_byte, way_word,
};
use crate::{RunsError, push_runs, read_runs, runs};
use bd_base::{How, Mode, Way};
use std::test::Fail;

#[test]
fn writes_and_reads_runs(rt: HostRuntime) -> Result<(), Fail> {
    let alloc = rt.alloc();
    for (bytes, text) in [
        ("", "-"),
        ("A", "41*1"),
        ("AAB", "41*2,42*1"),
        ("hello", "68*1,65*1,6C*2,6F*1"),
        ("\n\0\0\0\0\0\0\0\0\0\0\0", "0A*1,00*11"),
    ] {
        let written = runs(alloc, bytes.as_bytes())?;
        assert_eq!(rt; written.as_slice(), text.as_bytes(), "of {bytes:?}");
        let read = read_runs(alloc, text.as_bytes(), bytes.len())?;
        assert_eq!(rt; read.as_slice(), bytes.as_bytes(), "from {text}");
    }
    let long = read_runs(alloc, b"FF*16384", 16_384)?;
    assert_eq!(rt; long.len(), 16_384);
    assert!(rt; long.as_slice().iter().all(|byte| *byte == 0xFF));
    Ok(())
}

#[test]
fn refuses_what_is_no_runs(rt: HostRuntime) -> Result<(), Fail> {
    for text in [
        "",
        "41*1,41*1",
        "6c*1",
        "41*01",
        "41*0",
        "41*",
        "41*1,",
        ",41*1",
        "-,41*1",
        "--",
        "41",
        "4*1",
        "41*1 ",
        "41*1;42*1",
        "41*1,,42*1",
        "G1*1",
        "41*-1",
        "41*99999999999999999999,41*1",
    ] {
        let answer = read_runs(rt.alloc(), text.as_bytes(), 9).err();
        assert_eq!(rt; answer, Some(RunsError::NotRuns), "from {text:?}");
    }
    Ok(())
}

#[test]
fn refuses_more_than_it_may_read(rt: HostRuntime) -> Result<(), Fail> {
    for (text, most) in [
        ("41*1", 0),
        ("41*10", 9),
        ("41*5,42*5", 9),
        ("41*5,42*5,43*1", 4),
        ("41*99999999999999999999", 9),
        ("41*18446744073709551615,42*1", 9),
        ("41*1,42*18446744073709551616", usize::MAX),
    ] {
        let answer = read_runs(rt.alloc(), text.as_bytes(), most).err();
        assert_eq!(rt; answer, Some(RunsError::TooMany), "from {text:?}");
    }
    Ok(())
}

#[test]
fn writes_and_reads_numbers(rt: HostRuntime) -> Result<(), Fail> {
    for (number, spelled) in [
        (0, "0"),
        (7, "7"),
        (10, "10"),
        (4096, "4096"),
        (u64::MAX, "18446744073709551615"),
    ] {
        let mut text = Vec::new(rt.alloc());
        push_number(&mut text, number)?;
        assert_eq!(rt; text.as_slice(), spelled.as_bytes());
        let read = read_number(spelled.as_bytes());
        assert_eq!(rt; read, Some(Number::Small(number)), "from {spelled}");
    }
    let large = read_number(b"18446744073709551616");
    assert_eq!(rt; large, Some(Number::Large));
    for text in ["", "00", "01", "+1", "-1", "1 ", " 1", "1a", "/", ":"] {
        assert_eq!(rt; read_number(text.as_bytes()), None, "from {text:?}");
    }
    Ok(())
}

#[test]
fn writes_fields(rt: HostRuntime) -> Result<(), Fail> {
    let mut text = Vec::new(rt.alloc());
    push_mode_and_how(&mut text, Mode::Rw, How::Plain)?;
    push_bytes(&mut text, b" ")?;
    push_field(&mut text, direction_word(true))?;
    push_field(&mut text, way_word(Way::PastKnown))?;
    push_number_field(&mut text, 5)?;
    push_two_numbers(&mut text, 6, 7)?;
    push_bytes(&mut text, b" ")?;
    push_three_numbers(&mut text, 8, 9, 10)?;
    push_bytes(&mut text, b" ")?;
    push_runs(&mut text, b"AA")?;
    assert_eq!(rt;
        text.as_slice(),
        b"rw plain wrote past-known 5 6 7 8 9 10 41*2".as_slice()
    );
    let (name, rest) = front_name(text.as_slice()).ok_or("a name")?;
    assert_eq!(rt; name, b"rw".as_slice());
    assert_eq!(rt;
        read_mode_and_how(b"rw plain"),
        Some((Mode::Rw, How::Plain))
    );
    let (_, rest) = split_at_byte(rest, SPACE).ok_or("a field")?;
    let (field, rest) = split_at_byte(rest, SPACE).ok_or("a field")?;
    assert_eq!(rt; read_direction(field), Some(true));
    let (field, rest) = split_at_byte(rest, SPACE).ok_or("a field")?;
    assert_eq!(rt; read_way(field), Some(Way::PastKnown));
    let (number, rest) = front_number(rest).ok_or("a number")?;
    assert_eq!(rt; number.within(Within { least: 5, most: 5 }), Some(5));
    assert_eq!(rt; number.within(Within { least: 6, most: 9 }), None);
    assert_eq!(rt; rest, b"6 7 8 9 10 41*2".as_slice());
    Ok(())
}
