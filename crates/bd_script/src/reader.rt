//! Reading a text into a script.
ghost use Rattle.std.specs.Prelude.{◌≡◌, ◌≤◌, ◌++◌, ◌∷◌, length, IfOk, IfErr, IsOkUnless, IsTrue, ◌↔◌, MatchOption};
ghost use Rattle.bd_base.specs.declared.limits.TheConstants.{SCRIPT_SIZE};
ghost use Rattle.bd_blocks.specs.declared.text.TheConstants.{LF};
ghost use Rattle.bd_script.specs.declared.error.ScriptError.TheVariants.{BadScript, OutOfMemory};
ghost use Rattle.bd_script.specs.Reading.{fault_rule};
ghost use Rattle.bd_script.specs.Refused.{RefusesNext, RefusesScript, TakesLine, TellsBadScript};
ghost use Rattle.bd_script.specs.Texts.{IsScript, IsScriptText, header, script_text};

use crate::draft::Draft;
use crate::error::ScriptError;
use crate::fault::Fault;
use crate::lines::read_line;
use bd_base::{SCRIPT_SIZE, Script};
use bd_blocks::text::{LF, split_at_byte};
use std::alloc::Global;

// Whether a line is the first of a script.
fn is_header(line: &[u8]) -> bool
    ensures { IsTrue result ↔ (line.now ≡ header) }
{
    line == b"bypassd-script 1".as_slice()
}

// The draft with one line more.
fn take_line(alloc: Global, draft: Draft, text: &[u8]) -> Result<Draft, Fault>
    ensures ok { IfOk result (TakesLine draft text.now) }
    ensures refused { IfErr result (RefusesNext draft text.now) }
{
    let line = read_line(alloc, text)?;
    draft.with_line(alloc, line)
}

// The refusal of a line.
fn refusal(line: u64, fault: Fault) -> ScriptError
    ensures { MatchOption (fault_rule fault)
        (result ≡ OutOfMemory) (λ rule. result ≡ BadScript line rule) }
{
    match fault.rule() {
        Some(rule) => ScriptError::BadScript { line, rule },
        None => ScriptError::OutOfMemory,
    }
}

// Reads the lines after the first.
fn read_lines(alloc: Global, text: &[u8]) -> Result<Script, ScriptError>
    requires { length (header ++ LF ∷ text.now) ≤ SCRIPT_SIZE }
    ensures script { IfOk result IsScript }
    ensures text { IfOk result (λ script. header ++ LF ∷ text.now ≡ script_text script) }
    ensures refused { IfErr result (RefusesScript (header ++ LF ∷ text.now)) }
{
    let mut draft = Draft::new(alloc);
    let mut number = 2;
    let mut rest = text;
    while !rest.is_empty() {
        let Some((line, next)) = split_at_byte(rest, LF) else {
            return Err(ScriptError::BadScript {
                line: number,
                rule: 3,
            });
        };
        draft = match take_line(alloc, draft, line) {
            Ok(draft) => draft,
            Err(fault) => return Err(refusal(number, fault)),
        };
        rest = next;
        number += 1;
    }
    Ok(draft.finish()?)
}

// Reads a script.
fn read_text(alloc: Global, bytes: &[u8]) -> Result<Script, ScriptError>
    ensures script { IfOk result IsScript }
    ensures text { IfOk result (λ script. bytes.now ≡ script_text script) }
    ensures refused { IfErr result (RefusesScript bytes.now) }
{
    if bytes.len() > SCRIPT_SIZE as usize {
        return Err(ScriptError::BadScript { line: 0, rule: 1 });
    }
    let Some((first, rest)) = split_at_byte(bytes, LF) else {
        let rule = if is_header(bytes) { 3 } else { 2 };
        return Err(ScriptError::BadScript { line: 1, rule });
    };
    if !is_header(first) {
        return Err(ScriptError::BadScript { line: 1, rule: 2 });
    }
    read_lines(alloc, rest)
}

/// Reads a script.
///
/// Unless no memory is found, `BadScript` comes exactly where the text is that of no script. It tells
/// the first bad line, from 1 on, and the least rule that it breaks; line 0 and rule 1 where the text
/// is too long.
pub fn read_script(alloc: Global, bytes: &[u8]) -> Result<Script, ScriptError>
    ensures script { IfOk result IsScript }
    ensures text { IfOk result (λ script. bytes.now ≡ script_text script) }
    ensures refused { IfErr result (RefusesScript bytes.now) }

    // The other way round.
    ensures reads { IsScriptText bytes.now → IsOkUnless result ScriptError.OutOfMemory }
    ensures refuses { TellsBadScript bytes.now result }
{
    read_text(alloc, bytes)
}
