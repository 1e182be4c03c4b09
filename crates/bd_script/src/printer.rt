//! Writing a script as text.
ghost use Rattle.std.specs.Prelude.{◌≡◌, ◌++◌, ◌∷◌, [], IfOk, OnOk, map};
ghost use Rattle.bd_blocks.specs.declared.text.TheConstants.{LF};
ghost use Rattle.bd_script.specs.Texts.{form_text, items_text, lines_text, process_lines, schedule_line, script_text, written_text, written_item};

mod calls;

use crate::printer::calls::push_call;
use bd_base::{Bytes, Item, List, OutOfMemory, Process, ScheduleLine, Script};
use bd_blocks::text::{LF, SPACE, push_bytes, push_number};
use std::alloc::Global;

// Appends the lines of a process.
fn push_process(text: &mut Vec<u8>, process: &Process) -> Result<(), OutOfMemory>
    ensures { OnOk result
        (text.new.items ≡ text.old.items ++ lines_text (process_lines process.now)) }
{
    push_bytes(text, b"proc ")?;
    push_number(text, u64::from(process.uid))?;
    text.push(LF)?;
    for call in process.calls.as_slice() {
        push_call(text, call)?;
        text.push(LF)?;
    }
    Ok(())
}

// Appends an item.
fn push_item(text: &mut Vec<u8>, item: Item) -> Result<(), OutOfMemory>
    ensures { OnOk result (text.new.items ≡ text.old.items ++ written_text (written_item item)) }
{
    push_number(text, item.actor.get())?;
    if item.turns != 1 {
        text.push(b'*')?;
        push_number(text, u64::from(item.turns))?;
    }
    Ok(())
}

// Appends items, parted by one space.
fn push_items(text: &mut Vec<u8>, items: &[Item]) -> Result<(), OutOfMemory>
    ensures { OnOk result
        (text.new.items ≡ text.old.items ++ items_text (map written_item items.now)) }
{
    let Some((first, later)) = items.split_first() else {
        return Ok(());
    };
    push_item(text, *first)?;
    for item in later {
        text.push(SPACE)?;
        push_item(text, *item)?;
    }
    Ok(())
}

// Appends a schedule line.
fn push_schedule(text: &mut Vec<u8>, line: &ScheduleLine) -> Result<(), OutOfMemory>
    ensures { OnOk result
        (text.new.items ≡ text.old.items ++ (form_text (schedule_line line.now) ++ LF ∷ [])) }
{
    push_bytes(text, b"schedule ")?;
    push_items(text, line.items.as_slice())?;
    text.push(LF)?;
    Ok(())
}

/// The text of a script.
pub fn print_script(alloc: Global, script: &Script) -> Result<Bytes, OutOfMemory>
    ensures { IfOk result (λ text. text ≡ script_text script.now) }
{
    let mut text = Vec::new(alloc);
    push_bytes(&mut text, b"bypassd-script 1\n")?;
    for process in script.processes.as_slice() {
        push_process(&mut text, process)?;
    }
    for line in script.schedule.as_slice() {
        push_schedule(&mut text, line)?;
    }
    Ok(List::from_vec(text))
}
