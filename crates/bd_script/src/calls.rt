//! Reading the lines of calls: each function reads what follows the first word.
ghost use Rattle.std.specs.Prelude.{◌≢◌, ◌++◌, IfOk, IfErr, codes};
ghost use Rattle.bd_blocks.specs.Texts.{before};
ghost use Rattle.bd_script.specs.declared.words.Word.TheVariants.{Proc, Schedule};
ghost use Rattle.bd_script.specs.Reading.{IsCallLine, RefusesLine};
ghost use Rattle.bd_script.specs.Words.{word_text};

use crate::fault::Fault;
use crate::fields::{name_and_number, numbers_and_bytes};
use crate::numbers::{one_number, three_numbers, two_numbers};
use crate::words::Word;
use bd_base::{
    ADDRESSES, BLOCK_SIZE, CALL_BYTES, Call, LAST_PLACE, List, NAMED_FDS, PERMS, Range, Vba,
    is_name,
};
use bd_blocks::text::{Within, front_name, read_mode_and_how};
use std::alloc::Global;

const FDS: Within = Within {
    least: 0,
    most: NAMED_FDS - 1,
};

const PLACES: Within = Within {
    least: 0,
    most: LAST_PLACE,
};

const BLOCK_ADDRESSES: Within = Within {
    least: 0,
    most: ADDRESSES - 1,
};

const BLOCK_PLACES: Within = Within {
    least: 0,
    most: BLOCK_SIZE - 1,
};

fn read_open(alloc: Global, rest: &[u8]) -> Result<Call, Fault>
    ensures ok { IfOk result (IsCallLine (codes "open " ++ rest.now)) }
    ensures refused { IfErr result (RefusesLine (codes "open " ++ rest.now)) }
{
    let Some((name, rest)) = front_name(rest) else {
        return Err(Fault::Form);
    };
    let Some((mode, how)) = read_mode_and_how(rest) else {
        return Err(Fault::Form);
    };
    let name = List::from_slice(alloc, name)?;
    Ok(Call::Enter { name, mode, how })
}

fn read_create(alloc: Global, rest: &[u8]) -> Result<Call, Fault>
    ensures ok { IfOk result (IsCallLine (codes "create " ++ rest.now)) }
    ensures refused { IfErr result (RefusesLine (codes "create " ++ rest.now)) }
{
    let perms = Within {
        least: 0,
        most: PERMS - 1,
    };
    let (name, perms) = name_and_number(rest, perms)?;
    let name = List::from_slice(alloc, name)?;
    Ok(Call::Create {
        name,
        perms: perms as u8,
    })
}

fn read_read(rest: &[u8]) -> Result<Call, Fault>
    ensures ok { IfOk result (IsCallLine (codes "read " ++ rest.now)) }
    ensures refused { IfErr result (RefusesLine (codes "read " ++ rest.now)) }
{
    let lengths = Within {
        least: 1,
        most: CALL_BYTES,
    };
    let numbers = three_numbers(rest, FDS, PLACES, lengths)?;
    Ok(Call::Read {
        fd: numbers.first as u8,
        off: numbers.second,
        len: numbers.third as u16,
    })
}

fn read_write(alloc: Global, rest: &[u8]) -> Result<Call, Fault>
    ensures ok { IfOk result (IsCallLine (codes "write " ++ rest.now)) }
    ensures refused { IfErr result (RefusesLine (codes "write " ++ rest.now)) }
{
    let placed = numbers_and_bytes(alloc, rest, FDS, PLACES, CALL_BYTES as usize)?;
    Ok(Call::Write {
        fd: placed.first as u8,
        off: placed.second,
        bytes: placed.bytes,
    })
}

fn read_truncate(rest: &[u8]) -> Result<Call, Fault>
    ensures ok { IfOk result (IsCallLine (codes "truncate " ++ rest.now)) }
    ensures refused { IfErr result (RefusesLine (codes "truncate " ++ rest.now)) }
{
    let (fd, size) = two_numbers(rest, FDS, PLACES)?;
    Ok(Call::Truncate { fd: fd as u8, size })
}

fn read_unlink(alloc: Global, rest: &[u8]) -> Result<Call, Fault>
    ensures ok { IfOk result (IsCallLine (codes "unlink " ++ rest.now)) }
    ensures refused { IfErr result (RefusesLine (codes "unlink " ++ rest.now)) }
{
    if !is_name(rest) {
        return Err(Fault::Form);
    }
    let name = List::from_slice(alloc, rest)?;
    Ok(Call::Unlink { name })
}

fn read_size(rest: &[u8]) -> Result<Call, Fault>
    ensures ok { IfOk result (IsCallLine (codes "size " ++ rest.now)) }
    ensures refused { IfErr result (RefusesLine (codes "size " ++ rest.now)) }
{
    let fd = one_number(rest, FDS)?;
    Ok(Call::Size { fd: fd as u8 })
}

fn read_map(rest: &[u8]) -> Result<Call, Fault>
    ensures ok { IfOk result (IsCallLine (codes "map " ++ rest.now)) }
    ensures refused { IfErr result (RefusesLine (codes "map " ++ rest.now)) }
{
    let fd = one_number(rest, FDS)?;
    Ok(Call::Map { fd: fd as u8 })
}

fn read_close(rest: &[u8]) -> Result<Call, Fault>
    ensures ok { IfOk result (IsCallLine (codes "close " ++ rest.now)) }
    ensures refused { IfErr result (RefusesLine (codes "close " ++ rest.now)) }
{
    let fd = one_number(rest, FDS)?;
    Ok(Call::Close { fd: fd as u8 })
}

fn read_raw_read(rest: &[u8]) -> Result<Call, Fault>
    ensures ok { IfOk result (IsCallLine (codes "raw-read " ++ rest.now)) }
    ensures refused { IfErr result (RefusesLine (codes "raw-read " ++ rest.now)) }
{
    let lengths = Within {
        least: 1,
        most: BLOCK_SIZE,
    };
    let numbers = three_numbers(rest, BLOCK_ADDRESSES, BLOCK_PLACES, lengths)?;
    let Some(vba) = Vba::new(numbers.first) else {
        return Err(Fault::Range);
    };
    let Some(range) = Range::new(numbers.second, numbers.second + numbers.third) else {
        return Err(Fault::Range);
    };
    Ok(Call::RawRead { vba, range })
}

fn read_raw_write(alloc: Global, rest: &[u8]) -> Result<Call, Fault>
    ensures ok { IfOk result (IsCallLine (codes "raw-write " ++ rest.now)) }
    ensures refused { IfErr result (RefusesLine (codes "raw-write " ++ rest.now)) }
{
    let placed = numbers_and_bytes(
        alloc,
        rest,
        BLOCK_ADDRESSES,
        BLOCK_PLACES,
        BLOCK_SIZE as usize,
    )?;
    let Some(vba) = Vba::new(placed.first) else {
        return Err(Fault::Range);
    };
    if placed.second as usize + placed.bytes.len() > BLOCK_SIZE as usize {
        return Err(Fault::Range);
    }
    Ok(Call::RawWrite {
        vba,
        lo: placed.second as u16,
        bytes: placed.bytes,
    })
}

/// Reads what follows the first word of a call's line.
pub fn read_call(alloc: Global, word: Word, rest: &[u8]) -> Result<Call, Fault>
    requires not_process { word ≢ Proc }
    requires not_schedule { word ≢ Schedule }
    ensures ok { IfOk result (IsCallLine (before (word_text word) rest.now)) }
    ensures refused { IfErr result (RefusesLine (before (word_text word) rest.now)) }
{
    match word {
        Word::Open => read_open(alloc, rest),
        Word::Create => read_create(alloc, rest),
        Word::Read => read_read(rest),
        Word::Write => read_write(alloc, rest),
        Word::Truncate => read_truncate(rest),
        Word::Unlink => read_unlink(alloc, rest),
        Word::Size => read_size(rest),
        Word::Map => read_map(rest),
        Word::Close => read_close(rest),
        Word::RawRead => read_raw_read(rest),
        Word::RawWrite => read_raw_write(alloc, rest),
        Word::Proc | Word::Schedule => Err(Fault::Form),
    }
}
