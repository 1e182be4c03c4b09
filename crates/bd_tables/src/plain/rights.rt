//! The attached rights, and how many keys use each pair of a file and a part.
ghost use Rattle.std.specs.Prelude.{◌≡◌, ◌<◌, None, IfOk};
ghost use Rattle.std.specs.FinMap as fin;
ghost use Rattle.std.specs.Option.{IsSome};
ghost use Rattle.bd_lines.specs.declared.lines.TheConstants.{LINES};
ghost use Rattle.bd_file_table.specs.Fragments.{pair_with};
ghost use Rattle.bd_tables.specs.Effects.{sweep_right, sweep_state, with_state};
ghost use Rattle.bd_tables.specs.Sound.{IsKey};
ghost use Rattle.bd_tables.specs.State.{users};

use crate::state::{Right, RightState};
use bd_base::{FILES, FileId, Key, MOST_KEYS, OutOfMemory, PARTS, Part};
use bd_directory::key_number;
use bd_file_table::pair_number;
use bd_lines::LINES;
use std::alloc::Global;
use std::marker::Model;

/// The right of each attached key. Contracts see it as a finite map.
///
/// Only [`RightMap::new`] takes memory, and no call goes over the keys. What a call says of its key holds of each.
#[derive(Drop)]
pub struct RightMap {
    // By the number of the key.
    rights: Vec<Option<Right>>,
    // By the number of the pair, how many keys use it.
    users: Vec<u8>,
}

impl Model for RightMap {
    ghost use Rattle.bd_tables.specs.State.{Rights};
    ghost use Rattle.bd_tables.specs.Codes.{rights_code};

    ghost Value = { Rights };

    ghost coded = { rights_code };

    ghost use Rattle.bd_tables.specs.RightMaps.{IsRightMap, rights_of};

    ghost view = { λ a. rights_of a.rights.items };

    ghost invariant = { λ a. IsRightMap a.rights.items a.users.items };
}

/// How far a revocation is when one line more was swept.
fn after_sweep(line: usize, state: RightState) -> RightState
    requires { line < LINES }
    ensures { result ≡ sweep_state line state }
{
    match state {
        RightState::On => RightState::On,
        RightState::Cleared => RightState::Cleared,
        RightState::Drained(mut swept) => {
            swept[line] = true;
            RightState::Drained(swept)
        }
    }
}

impl RightMap {
    /// No right is attached.
    ///
    /// The only error is that no memory is found.
    pub fn new(alloc: Global) -> Result<RightMap, OutOfMemory>
        ensures { IfOk result (λ rights. rights ≡ fin.empty) }
    {
        let rights = vec![in alloc; None; MOST_KEYS]?;
        let users = vec![in alloc; 0u8; (FILES * PARTS) as usize]?;
        Ok(RightMap { rights, users })
    }

    /// The right of a key: None exactly where it is not attached.
    pub fn get(&self, key: &Key) -> Option<Right>
        ensures { result ≡ fin.get self.now key.now }
    {
        self.rights[key_number(key)]
    }

    /// How many keys use a part of a file.
    pub fn users(&self, file: FileId, part: Part) -> u8
        ensures { result ≡ users self.now (pair_with file part) }
    {
        self.users[pair_number(file, part)]
    }

    /// Attaches a right to a key that has none.
    pub fn attach(&mut self, key: &Key, right: Right)
        requires { fin.get self.old key.now ≡ None }
        ensures key { IsKey key.now }
        ensures attached { self.new ≡ fin.insert self.old key.now right }
    {
        self.users[pair_number(right.file, key.part)] += 1;
        self.rights[key_number(key)] = Some(right);
    }

    /// Tells how far the revocation of an attached right is.
    pub fn set_state(&mut self, key: &Key, state: RightState)
        ensures key { IsKey key.now }
        ensures state { self.new ≡ with_state self.old key.now state }
    {
        let number = key_number(key);
        if let Some(right) = self.rights[number] {
            self.rights[number] = Some(Right {
                file: right.file,
                write: right.write,
                state,
            });
        }
    }

    /// Counts a line, from 0 to 15, among those that were swept since the key was drained.
    pub fn sweep(&mut self, line: u8, key: &Key)
        requires { line < LINES }
        ensures key { IsKey key.now }
        ensures swept { self.new ≡ sweep_right self.old line key.now }
    {
        let number = key_number(key);
        if let Some(right) = self.rights[number] {
            let state = after_sweep(usize::from(line), right.state);
            self.rights[number] = Some(Right { state, ..right });
        }
    }

    /// Detaches the right of a key that has one.
    pub fn detach(&mut self, key: &Key)
        requires { IsSome (fin.get self.old key.now) }
        ensures key { IsKey key.now }
        ensures detached { self.new ≡ fin.remove self.old key.now }
    {
        let number = key_number(key);
        if let Some(right) = self.rights[number] {
            self.users[pair_number(right.file, key.part)] -= 1;
            self.rights[number] = None;
        }
    }
}
