//! Whole runs with all that they leave: the report, the journal, the trace and the image.
use super::images::{blank, fill, one_file};
use super::traces::trace_text;
use super::{Inputs, SURE, command_on, first_image, joined, put};
use crate::Status;
use bd_machine::Event;
use std::alloc::Global;
use std::process::Abort;
use std::test::Fail;

mod sharing;

/// A script, and what its run leaves beside its image.
#[derive(Clone, Copy)]
struct Want<'a> {
    script: &'a [u8],
    report: &'a [u8],
    journal: &'a [u8],
    trace: &'a [u8],
}

/// Expects that a replay leaves this and this image, and that its journal is found legal.
fn leaves(
    rt: &(impl Abort + AllocGlobal),
    image: Vec<u8>,
    want: Want<'_>,
    after: &[u8],
) -> Result<(), Fail> {
    let again = image.as_slice().to_vec(rt.alloc())?;
    let text = joined(rt.alloc(), [want.report, want.journal].as_slice())?;
    writes(rt, image, want, text.as_slice(), after)?;
    is_legal(rt, again, want.script, text.as_slice())
}

/// Expects that a replay writes this text and this image, and leaves this trace.
fn writes(
    rt: &(impl Abort + AllocGlobal),
    image: Vec<u8>,
    want: Want<'_>,
    text: &[u8],
    after: &[u8],
) -> Result<(), Fail> {
    let words = ["replay", "image", "script", "out", "--journal"];
    let inputs = Inputs {
        image,
        script: want.script,
        journal: b"",
    };
    let left = command_on(rt.alloc(), words.as_slice(), inputs, SURE)?;
    assert_eq!(rt; left.outcome.status, Status::Done);
    assert!(rt; left.out.held() == text);
    assert!(rt; left.disk.held() == after);
    has_trace(rt, left.outcome.trace.as_slice(), want.trace)
}

/// Expects that a trace has this text.
fn has_trace(rt: &(impl Abort + AllocGlobal), trace: &[Event], want: &[u8]) -> Result<(), Fail> {
    let text = trace_text(rt.alloc(), trace)?;
    assert!(rt; text.as_slice() == want);
    Ok(())
}

/// Expects that the journal in this text is found legal.
fn is_legal(
    rt: &(impl Abort + AllocGlobal),
    image: Vec<u8>,
    script: &[u8],
    journal: &[u8],
) -> Result<(), Fail> {
    let words = ["verify", "image", "script", "journal"];
    let inputs = Inputs {
        image,
        script,
        journal,
    };
    let left = command_on(rt.alloc(), words.as_slice(), inputs, SURE)?;
    assert_eq!(rt; left.outcome.status, Status::Done);
    Ok(())
}

/// A direct read of five bytes.
fn first() -> Want<'static> {
    Want {
        script: b"bypassd-script 1\nproc 100\nopen a r direct\nread 0 0 5\n",
        report: b"bypassd-report 1\nproc 0\n0 ok 0 mapped 1\n1 ok 5 68*1,65*1,6C*2,6F*1\n\
        total direct 1 kernel 0 missed 0 detached 0\ncache hits 0 misses 1\n",
        journal: b"bypassd-journal 1\n0 0 opened 0 0 r direct\n0 0 attached 0 0\n0 0 mapped 0 1\n\
        0 1 access 0 0 0 0 3 0 5 read direct 68*1,65*1,6C*2,6F*1\n",
        trace: b"0 0 opened\n3 0 attach\n6 0 mapped\n9 0 submit\n10 1 enter\n13 1 look-miss\n16 1 read-entry\n\
        19 1 fill\n22 1 move\n25 1 retire\n28 1 complete\n30 0 poll\n",
    }
}

#[test]
fn a_read_goes_through_its_engine(rt: HostRuntime) -> Result<(), Fail> {
    let image = first_image(rt.alloc())?;
    let after = first_image(rt.alloc())?;
    leaves(&rt, image, first(), after.as_slice())
}

/// No process.
fn nobody() -> Want<'static> {
    Want {
        script: b"bypassd-script 1\n",
        report: b"bypassd-report 1\ntotal direct 0 kernel 0 missed 0 detached 0\ncache hits 0 misses 0\n",
        journal: b"bypassd-journal 1\n",
        trace: b"",
    }
}

#[test]
fn nobody_does_nothing(rt: HostRuntime) -> Result<(), Fail> {
    let image = blank(rt.alloc(), 20, 16)?;
    let after = blank(rt.alloc(), 20, 16)?;
    leaves(&rt, image, nobody(), after.as_slice())
}

/// Reads that end past the size that their process knows.
fn past_known() -> Want<'static> {
    Want {
        script: b"bypassd-script 1\nproc 100\nopen a r direct\nread 0 0 10\nread 0 5 4\nread 0 9000 1\n",
        report: b"bypassd-report 1\nproc 0\n0 ok 0 mapped 1\n1 ok 5 68*1,65*1,6C*2,6F*1\n2 ok 0 -\n3 ok 0 -\n\
        total direct 0 kernel 3 missed 0 detached 0\ncache hits 0 misses 0\n",
        journal: b"bypassd-journal 1\n0 0 opened 0 0 r direct\n0 0 attached 0 0\n0 0 mapped 0 1\n\
        0 1 access 0 0 0 0 3 0 10 read past-known 68*1,65*1,6C*2,6F*1\n\
        0 2 access 0 0 0 0 3 5 9 read past-known -\n0 3 access 0 0 0 2 - 808 809 read past-known -\n",
        trace: b"0 0 opened\n3 0 attach\n6 0 mapped\n9 0 kernel-access\n12 0 kernel-access\n15 0 kernel-access\n",
    }
}

#[test]
fn reads_past_the_known_size_go_to_the_kernel(rt: HostRuntime) -> Result<(), Fail> {
    let image = first_image(rt.alloc())?;
    let after = first_image(rt.alloc())?;
    leaves(&rt, image, past_known(), after.as_slice())
}

/// Two reads in five and in four pieces.
fn pieces() -> Want<'static> {
    Want {
        script: b"bypassd-script 1\nproc 100\nopen a r direct\nread 0 1 16384\nread 0 0 16384\n",
        report: b"bypassd-report 1\nproc 0\n0 ok 0 mapped 1\n1 ok 16384 41*16384\n2 ok 16384 41*16384\n\
        total direct 9 kernel 0 missed 0 detached 0\ncache hits 4 misses 5\n",
        journal: b"bypassd-journal 1\n0 0 opened 0 0 r direct\n0 0 attached 0 0\n0 0 mapped 0 1\n\
        0 1 access 0 0 0 0 3 1 4096 read direct 41*4095\n\
        0 1 access 1 0 0 1 4 0 4096 read direct 41*4096\n\
        0 1 access 2 0 0 2 5 0 4096 read direct 41*4096\n\
        0 1 access 3 0 0 3 6 0 4096 read direct 41*4096\n0 1 access 4 0 0 4 7 0 1 read direct 41*1\n\
        0 2 access 0 0 0 0 3 0 4096 read direct 41*4096\n\
        0 2 access 1 0 0 1 4 0 4096 read direct 41*4096\n\
        0 2 access 2 0 0 2 5 0 4096 read direct 41*4096\n\
        0 2 access 3 0 0 3 6 0 4096 read direct 41*4096\n",
        trace: b"0 0 opened\n3 0 attach\n6 0 mapped\n9 0 submit\n10 1 enter\n12 0 submit\n13 1 look-miss\n\
        15 0 submit\n16 1 read-entry\n18 0 submit\n19 1 fill\n21 0 submit\n22 1 move\n25 1 retire\n\
        28 1 complete\n30 0 poll\n31 1 enter\n34 1 look-miss\n37 1 read-entry\n40 1 fill\n43 1 move\n\
        46 1 retire\n49 1 complete\n51 0 poll\n52 1 enter\n55 1 look-miss\n58 1 read-entry\n61 1 fill\n\
        64 1 move\n67 1 retire\n70 1 complete\n72 0 poll\n73 1 enter\n76 1 look-miss\n79 1 read-entry\n\
        82 1 fill\n85 1 move\n88 1 retire\n91 1 complete\n93 0 poll\n94 1 enter\n97 1 look-miss\n\
        100 1 read-entry\n103 1 fill\n106 1 move\n109 1 retire\n112 1 complete\n114 0 poll\n\
        117 0 submit\n118 1 enter\n120 0 submit\n121 1 look-hit\n123 0 submit\n124 1 move\n\
        126 0 submit\n127 1 retire\n130 1 complete\n132 0 poll\n133 1 enter\n136 1 look-hit\n\
        139 1 move\n142 1 retire\n145 1 complete\n147 0 poll\n148 1 enter\n151 1 look-hit\n154 1 move\n\
        157 1 retire\n160 1 complete\n162 0 poll\n163 1 enter\n166 1 look-hit\n169 1 move\n\
        172 1 retire\n175 1 complete\n177 0 poll\n",
    }
}

/// A file of five blocks full of `A`.
fn five_blocks(alloc: Global) -> Result<Vec<u8>, Fail> {
    let mut image = one_file(alloc, 20, 20_480, 5)?;
    fill(&mut image, 3, 0, b'A', 20_480);
    Ok(image)
}

#[test]
fn reads_are_cut_into_pieces(rt: HostRuntime) -> Result<(), Fail> {
    let image = five_blocks(rt.alloc())?;
    let after = five_blocks(rt.alloc())?;
    leaves(&rt, image, pieces(), after.as_slice())
}

/// One process writes past the end; another, which knows the old size, reads there.
fn growth() -> Want<'static> {
    Want {
        script: b"bypassd-script 1\nproc 100\nopen a rw direct\nwrite 0 4000 42*200\nread 0 4000 200\nproc 100\n\
    open a r direct\nread 0 0 1\nread 0 4096 104\nread 0 4096 104\nschedule 1*3 0*4 2*7 0*3\n",
        report: b"bypassd-report 1\nproc 0\n0 ok 0 mapped 1\n1 ok 200\n2 ok 200 42*200\nproc 1\n0 ok 0 mapped 1\n\
        1 ok 1 41*1\n2 ok 104 42*104\n3 ok 104 42*104\ntotal direct 5 kernel 2 missed 0 detached 0\n\
        cache hits 1 misses 4\n",
        journal: b"bypassd-journal 1\n1 0 opened 0 0 r direct\n1 0 attached 0 0\n1 0 mapped 0 1\n\
        0 0 opened 0 0 rw direct\n0 0 attached 0 0\n0 0 mapped 0 1\n\
        0 1 access 0 0 0 0 3 4000 4096 wrote direct 42*96\n0 1 extended 0 4200 4\n\
        0 1 access 1 0 0 1 4 0 104 wrote past-known 42*104\n\
        0 2 access 0 0 0 0 3 4000 4096 read direct 42*96\n1 1 access 0 0 0 0 3 0 1 read direct 41*1\n\
        1 2 access 0 0 0 1 4 0 104 read past-known 42*104\n\
        0 2 access 1 0 0 1 4 0 104 read direct 42*104\n1 3 access 0 0 0 1 4 0 104 read direct 42*104\n",
        trace: b"0 1 opened\n1 1 attach\n2 1 mapped\n3 0 opened\n4 0 attach\n5 0 mapped\n6 0 submit\n7 2 enter\n\
        8 2 look-miss\n9 2 read-entry\n10 2 fill\n11 2 move\n12 2 retire\n13 2 complete\n14 0 poll\n\
        15 0 extend\n16 0 kernel-access\n17 0 submit\n18 1 submit\n19 2 enter\n20 3 enter\n\
        22 0 submit\n24 2 look-hit\n25 3 look-miss\n29 2 move\n30 3 read-entry\n34 2 retire\n\
        35 3 fill\n39 2 complete\n40 3 move\n42 0 poll\n44 2 enter\n45 3 retire\n49 2 look-miss\n\
        50 3 complete\n53 1 poll\n54 2 read-entry\n58 1 kernel-access\n59 2 fill\n63 1 submit\n\
        64 2 move\n65 3 enter\n69 2 retire\n70 3 look-miss\n74 2 complete\n75 3 read-entry\n77 0 poll\n\
        80 3 fill\n85 3 move\n90 3 retire\n95 3 complete\n98 1 poll\n",
    }
}

#[test]
fn a_file_grows_past_the_size_that_another_knows(rt: HostRuntime) -> Result<(), Fail> {
    let mut image = one_file(rt.alloc(), 20, 4096, 1)?;
    fill(&mut image, 3, 0, b'A', 4096);
    let mut after = one_file(rt.alloc(), 20, 4200, 2)?;
    fill(&mut after, 3, 0, b'A', 4000);
    fill(&mut after, 3, 4000, b'B', 200);
    leaves(&rt, image, growth(), after.as_slice())
}

/// A write past the end into a block that was full of other bytes.
fn zeroed() -> Want<'static> {
    Want {
        script: b"bypassd-script 1\nproc 100\nopen a rw direct\nwrite 0 5000 41*1\nread 0 0 5001\n",
        report: b"bypassd-report 1\nproc 0\n0 ok 0 mapped 1\n1 ok 1\n2 ok 5001 68*1,65*1,6C*2,6F*1,00*4995,41*1\n\
        total direct 2 kernel 1 missed 0 detached 0\ncache hits 0 misses 2\n",
        journal: b"bypassd-journal 1\n0 0 opened 0 0 rw direct\n0 0 attached 0 0\n0 0 mapped 0 1\n\
        0 1 extended 0 4096 -\n0 1 extended 0 5001 4\n\
        0 1 access 0 0 0 1 4 904 905 wrote past-known 41*1\n\
        0 2 access 0 0 0 0 3 0 4096 read direct 68*1,65*1,6C*2,6F*1,00*4091\n\
        0 2 access 1 0 0 1 4 0 905 read direct 00*904,41*1\n",
        trace: b"0 0 opened\n3 0 attach\n6 0 mapped\n9 0 extend\n12 0 extend\n15 0 kernel-access\n18 0 submit\n\
        19 1 enter\n21 0 submit\n22 1 look-miss\n25 1 read-entry\n28 1 fill\n31 1 move\n34 1 retire\n\
        37 1 complete\n39 0 poll\n40 1 enter\n43 1 look-miss\n46 1 read-entry\n49 1 fill\n52 1 move\n\
        55 1 retire\n58 1 complete\n60 0 poll\n",
    }
}

#[test]
fn a_block_is_zeroed_as_a_file_takes_it(rt: HostRuntime) -> Result<(), Fail> {
    let mut image = first_image(rt.alloc())?;
    fill(&mut image, 4, 0, 0xFF, 4096);
    let mut after = one_file(rt.alloc(), 20, 5001, 2)?;
    put(&mut after, 12_288, b"hello");
    fill(&mut after, 4, 904, b'A', 1);
    leaves(&rt, image, zeroed(), after.as_slice())
}

/// A write that grows a file into a part without a right, and a read there.
fn fallback() -> Want<'static> {
    Want {
        script: b"bypassd-script 1\nproc 100\nopen a rw direct\nwrite 0 2097152 41*1\nread 0 2097152 1\n",
        report: b"bypassd-report 1\nproc 0\n0 ok 0 mapped 1\n1 ok 1\n2 ok 1 41*1\n\
        total direct 0 kernel 2 missed 1 detached 0\ncache hits 0 misses 0\n",
        journal: b"bypassd-journal 1\n0 0 opened 0 0 rw direct\n0 0 attached 0 0\n0 0 mapped 0 1\n\
        0 1 extended 0 2097153 515\n0 1 access 0 0 0 512 515 0 1 wrote past-known 41*1\n\
        0 2 missed 0 no-directory\n0 2 access 0 0 0 512 515 0 1 read after-miss 41*1\n",
        trace: b"0 0 opened\n3 0 attach\n6 0 mapped\n9 0 extend\n12 0 kernel-access\n15 0 submit\n\
        16 1 enter-missed\n19 1 missed\n22 1 retire\n25 1 complete\n27 0 poll\n30 0 kernel-access\n",
    }
}

#[test]
fn a_read_without_a_right_falls_back(rt: HostRuntime) -> Result<(), Fail> {
    let image = one_file(rt.alloc(), 600, 2_097_152, 512)?;
    let mut after = one_file(rt.alloc(), 600, 2_097_153, 513)?;
    fill(&mut after, 515, 0, b'A', 1);
    leaves(&rt, image, fallback(), after.as_slice())
}
