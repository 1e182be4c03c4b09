//! What is made from a number. The calls were worked out by hand from the recurrence, and the bytes of the image from
//! its format.
use crate::make;
use bd_base::{Call, How, Mode};
use bd_script::{Script, print_script};
use std::process::Abort;
use std::test::Fail;

/// Whether the bytes stand at this place.
fn stands(image: &[u8], place: usize, bytes: &[u8]) -> bool {
    place <= image.len() && image[place..].starts_with(bytes)
}

/// The call of this number of a process.
fn call_at(script: &Script, process: usize, call: usize) -> Option<&Call> {
    script
        .processes
        .as_slice()
        .get(process)?
        .calls
        .as_slice()
        .get(call)
}

/// Whether the call reads from this place.
fn reads(script: &Script, process: usize, call: usize, place: u64) -> bool {
    matches!(call_at(script, process, call), Some(Call::Read { fd: 0, off, len: 16_384 }) if *off == place)
}

/// Whether the call writes this byte, 16,384 times, to this place.
fn writes(script: &Script, process: usize, call: usize, place: u64, byte: u8) -> bool {
    matches!(call_at(script, process, call), Some(Call::Write { fd: 0, off, bytes })
        if *off == place && bytes.len() == 16_384 && bytes.as_slice().iter().all(|b| *b == byte))
}

/// Whether the call opens this file.
fn opens(script: &Script, process: usize, call: usize, file: &[u8], way: (Mode, How)) -> bool {
    matches!(call_at(script, process, call), Some(Call::Enter { name, mode, how })
        if name.as_slice() == file && (*mode, *how) == way)
}

/// Whether the call maps the first descriptor.
fn maps(script: &Script, process: usize, call: usize) -> bool {
    matches!(call_at(script, process, call), Some(Call::Map { fd: 0 }))
}

/// Whether the call closes this descriptor.
fn closes(script: &Script, process: usize, call: usize, descriptor: u8) -> bool {
    matches!(call_at(script, process, call), Some(Call::Close { fd }) if *fd == descriptor)
}

/// Expects eight files in an image of the greatest size, all else zeros.
fn is_made_image(rt: &impl Abort, image: &[u8]) {
    assert_eq!(rt; image.len(), 67_108_864);
    assert!(rt; stands(image, 0, b"BYPDFS01\x01\0\0\0\0\x40\0\0\x10\0\0\0\0"));
    assert!(rt; stands(image, 4096, &[0xFF; 2000]));
    assert!(rt; stands(image, 6096, b"\x07\0\0"));
    assert!(rt;
        stands(
            image,
            8192,
            b"\x01\x0F\x01\0\xE8\x03\0\0\0\0\x7D\0\0\0\0\0f0\0"
        )
    );
    assert!(rt; stands(image, 8240, b"\x03\0\0\0\xD0\x07\0\0\0"));
    assert!(rt;
        stands(
            image,
            9984,
            b"\x01\x0F\x01\0\xE8\x03\0\0\0\0\x7D\0\0\0\0\0f7\0"
        )
    );
    assert!(rt; stands(image, 10_032, b"\xB3\x36\0\0\xD0\x07\0\0\0"));
    assert!(rt; image.iter().skip(10_240).all(|byte| *byte == 0));
}

#[test]
fn makes_an_image_and_a_script(rt: HostRuntime) -> Result<(), Fail> {
    let (image, script) = make(rt.alloc(), 7)?;
    is_made_image(&rt, image.as_slice());
    let processes = script.processes.as_slice();
    assert_eq!(rt; processes.len(), 16);
    assert!(rt; processes.iter().all(|process| process.calls.len() == 256));
    assert!(rt; processes.iter().map(|process| process.uid).eq(1000..1016));
    assert!(rt; script.schedule.is_empty());
    Ok(())
}

#[test]
fn makes_these_calls(rt: HostRuntime) -> Result<(), Fail> {
    let (_image, script) = make(rt.alloc(), 7)?;
    assert!(rt; opens(&script, 0, 0, b"f0", (Mode::Rw, How::Direct)));
    assert!(rt; reads(&script, 0, 1, 6_981_196));
    assert!(rt; writes(&script, 0, 2, 8_043_783, 0x2E));
    assert!(rt; reads(&script, 0, 99, 1_925_876));
    assert!(rt; opens(&script, 0, 100, b"f0", (Mode::R, How::Plain)));
    assert!(rt; closes(&script, 0, 101, 1));
    assert!(rt; maps(&script, 0, 102));
    assert!(rt; reads(&script, 0, 103, 1_466_398));
    assert!(rt; writes(&script, 0, 254, 1_224_614, 0x25));
    assert!(rt; closes(&script, 0, 255, 0));
    assert!(rt; writes(&script, 7, 103, 3_562_384, 0xD1));
    assert!(rt; reads(&script, 8, 100, 5_796_188));
    assert!(rt; maps(&script, 8, 200));
    assert!(rt; reads(&script, 8, 201, 3_756_359));
    assert!(rt; opens(&script, 15, 0, b"f7", (Mode::Rw, How::Direct)));
    assert!(rt; reads(&script, 15, 254, 938_704));
    assert!(rt; closes(&script, 15, 255, 0));
    Ok(())
}

#[test]
fn makes_other_calls_from_other_numbers(rt: HostRuntime) -> Result<(), Fail> {
    let (_image, zero) = make(rt.alloc(), 0)?;
    assert!(rt; reads(&zero, 0, 1, 3_139_091));
    assert!(rt; writes(&zero, 15, 254, 6_791_317, 0x2E));
    let (_image, greatest) = make(rt.alloc(), u64::MAX)?;
    assert!(rt; writes(&greatest, 0, 1, 7_397_168, 0x02));
    assert!(rt; writes(&greatest, 15, 254, 105_392, 0x47));
    let text = print_script(rt.alloc(), &greatest)?;
    assert_eq!(rt; text.len(), 93_055);
    Ok(())
}
