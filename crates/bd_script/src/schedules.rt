//! Reading the items of a schedule line.
ghost use Rattle.std.specs.Prelude.{◌≡◌, ◌≢◌, ℕ, ◌+◌, ◌<◌, ◌≤◌, map, All, MatchOption, IfSome, IfNone, IfOk, IfErr, OnOk};
ghost use Rattle.bd_base.specs.declared.limits.TheConstants.{ACTORS};
ghost use Rattle.bd_blocks.specs.Texts.{IsNoNumber, IsNumber, number_text};
ghost use Rattle.bd_script.specs.declared.schedules.Turns.{Turns};
ghost use Rattle.bd_script.specs.Schedules.{AreItemsRead, AreTurns, IsCapped, IsItemRead, RefusesActors, RefusesItem, RefusesItems, TakesScheduleItem, item_of, kept_turns};
ghost use Rattle.bd_script.specs.Texts.{Times, Written, written_text};

use crate::fault::Fault;
use bd_base::{Actor, ITEMS, Item, ItemList, List, TURNS};
use bd_blocks::text::{Number, SPACE, Within, read_number, split_at_byte};
use std::alloc::Global;

/// An actor, or the greatest number where it is greater than that, and its turns.
#[derive(Clone, Copy, Debug, PartialEq, Eq)]
pub struct Turns {
    pub actor: u64,
    pub turns: u32,
}

/// What is read of items: whether the turns of each are in their range, and up to one item past the limit.
#[derive(Debug, Drop)]
pub struct Scan {
    in_range: bool,
    kept: Vec<Turns>,
}

// An item that was read. The turns are None where they are out of their range.
#[derive(Clone, Copy)]
struct ItemRead {
    actor: u64,
    turns: Option<u32>,
}

// The actor that a text is, or the greatest number where it is greater than that.
fn read_actor(text: &[u8]) -> Option<u64>
    ensures some { IfSome result (λ a. (n : ℕ) × IsCapped n a × (text.now ≡ number_text n)) }
    ensures none { IfNone result (IsNoNumber text.now) }
{
    match read_number(text)? {
        Number::Small(actor) => Some(actor),
        Number::Large => Some(u64::MAX),
    }
}

// The turns that a number is, None where it is out of their range.
fn turns_within(number: Number) -> Option<u32>
    ensures { (actor turns : ℕ) → IsNumber number turns → AreTurns result (Times actor turns) }
{
    let range = Within {
        least: 2,
        most: TURNS,
    };
    match number.within(range) {
        Some(turns) => Some(turns as u32),
        None => None,
    }
}

// Reads an item: `A` or `A*N`.
fn read_item(text: &[u8]) -> Option<ItemRead>
    ensures some { IfSome result (λ item. IsItemRead text.now item.actor item.turns) }
    ensures none { IfNone result ((w : Written) → text.now ≢ written_text w) }
{
    let Some((first, second)) = split_at_byte(text, b'*') else {
        return Some(ItemRead {
            actor: read_actor(text)?,
            turns: Some(1),
        });
    };
    let actor = read_actor(first)?;
    let turns = read_number(second)?;
    Some(ItemRead {
        actor,
        turns: turns_within(turns),
    })
}

// Reads one item, and keeps it where there is room.
fn take_item(scan: Scan, text: &[u8]) -> Result<Scan, Fault>
    ensures ok { IfOk result (TakesScheduleItem scan text.now) }
    ensures refused { IfErr result (RefusesItem text.now) }
{
    let Some(read) = read_item(text) else {
        return Err(Fault::Form);
    };
    let Some(turns) = read.turns else {
        return Ok(Scan {
            in_range: false,
            kept: scan.kept,
        });
    };
    if scan.kept.len() > ITEMS as usize {
        return Ok(scan);
    }
    let mut kept = scan.kept;
    kept.push(Turns {
        actor: read.actor,
        turns,
    })?;
    Ok(Scan {
        in_range: scan.in_range,
        kept,
    })
}

/// Reads what follows the first word of a schedule line.
pub fn read_items(alloc: Global, text: &[u8]) -> Result<Vec<Turns>, Fault>
    ensures ok { IfOk result (λ kept. AreItemsRead text.now kept.items) }
    ensures refused { IfErr result (RefusesItems text.now) }
{
    let mut scan = Scan {
        in_range: true,
        kept: Vec::new(alloc),
    };
    let mut rest = text;
    while let Some((field, next)) = split_at_byte(rest, SPACE) {
        scan = take_item(scan, field)?;
        rest = next;
    }
    let scan = take_item(scan, rest)?;
    if !scan.in_range {
        return Err(Fault::Range);
    }
    Ok(scan.kept)
}

/// What is left of so many turns: None where the items have more.
pub fn turns_left(kept: &[Turns], left: u64) -> Option<u64>
    ensures { MatchOption result
        (left < kept_turns kept.now) (λ l. l + kept_turns kept.now ≡ left) }
{
    let mut left = left;
    for item in kept {
        let Some(next) = left.checked_sub(u64::from(item.turns)) else {
            return None;
        };
        left = next;
    }
    Some(left)
}

/// The items of actors up to `last`.
pub fn items_of(alloc: Global, kept: &[Turns], last: u64) -> Result<ItemList, Fault>
    requires { last < ACTORS }
    ensures items { IfOk result (λ items. items ≡ map item_of kept.now) }
    ensures actors { OnOk result (All (λ (t : Turns). t.actor ≤ last) kept.now) }
    ensures refused { IfErr result (RefusesActors kept.now last) }
{
    let mut items = List::with_capacity(alloc, kept.len())?;
    for turns in kept {
        if turns.actor > last {
            return Err(Fault::Actor);
        }
        let Some(actor) = Actor::new(turns.actor) else {
            return Err(Fault::Actor);
        };
        items.push(Item {
            actor,
            turns: turns.turns,
        })?;
    }
    Ok(items)
}
