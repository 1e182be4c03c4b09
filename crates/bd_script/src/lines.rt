//! Reading a line after the first.
ghost use Rattle.std.specs.Prelude.{IfOk, IfErr};
ghost use Rattle.bd_script.specs.Lines.{IsReadLine};
ghost use Rattle.bd_script.specs.Reading.{RefusesLine};

use crate::calls::read_call;
use crate::fault::Fault;
use crate::numbers::one_number;
use crate::schedules::{Turns, read_items};
use crate::words::{Word, read_word};
use bd_base::{Call, USERS};
use bd_blocks::text::{SPACE, Within, split_at_byte};
use std::alloc::Global;

/// What a line says.
#[derive(Debug, Drop)]
pub enum Line {
    /// A process of this user.
    Proc(u32),
    /// A call of the last process.
    Call(Call),
    /// Items, no more than one past the limit.
    Schedule(Vec<Turns>),
}

/// Reads a line after the first, without its LF.
pub fn read_line(alloc: Global, text: &[u8]) -> Result<Line, Fault>
    ensures ok { IfOk result (IsReadLine text.now) }
    ensures refused { IfErr result (RefusesLine text.now) }
{
    let Some((first, rest)) = split_at_byte(text, SPACE) else {
        return Err(Fault::Form);
    };
    let Some(word) = read_word(first) else {
        return Err(Fault::Form);
    };
    match word {
        Word::Proc => {
            let users = Within {
                least: 0,
                most: USERS - 1,
            };
            Ok(Line::Proc(one_number(rest, users)? as u32))
        }
        Word::Schedule => Ok(Line::Schedule(read_items(alloc, rest)?)),
        _ => Ok(Line::Call(read_call(alloc, word, rest)?)),
    }
}
