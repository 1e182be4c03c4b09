//! The kernel's side of tables for one thread.
ghost use Rattle.std.specs.Prelude.{◌≡◌, ◌↔◌, ℕ, ◌+◌, ◌/◌, ◌<◌, ◌≤◌, None, Some, length, All, IsErr, IfOk, OnOk, OnErr};
ghost use Rattle.std.specs.FinMap as fin;
ghost use Rattle.bd_base.specs.declared.limits.TheConstants.{BLOCK_SIZE, FRAGMENTS, PART_BLOCKS};
ghost use Rattle.bd_lines.specs.declared.lines.TheConstants.{LINES};
ghost use Rattle.bd_tables.specs.declared.state.RightState.TheVariants.{Cleared as IsInCleared, Drained as IsInDrained};
ghost use Rattle.bd_tables.specs.Answers.{AllStay, GivesBack, IsTranslated};
ghost use Rattle.bd_tables.specs.Effects.{attach, clear, detach, drain, none_swept, put_entry, raise_limit, sweep};
ghost use Rattle.bd_tables.specs.Kernel.{AgreesWith, Attaches, HasLimit, IsCleared, IsConfirmed, IsDrained, IsEmptyEntry, IsEntryUpTo, IsFullFor, IsLimit, IsOn, IsSweptWhole, KeyIs, SharesOrBuilds, entry_filled, entry_raised, key_detached, key_in_state, line_swept};
ghost use Rattle.bd_tables.specs.Kept.{fragment_of};
ghost use Rattle.bd_file_table.specs.Fragments.{pair_with};
ghost use Rattle.bd_tables.specs.Passes.{IsLent, process_of_pass};
ghost use Rattle.bd_tables.specs.Passes.{plain_kernel};
ghost use Rattle.bd_tables.specs.Plain.{drained_of, kernel_of, tables_of};
ghost use Rattle.bd_tables.specs.State.{engines_in, pair_for};

use super::fragments::{drop_unused, fill_entry, raise_entry, share_or_build};
use super::{PlainPass, PlainTables};
use crate::request::Drained;
use crate::sides::KernelSide;
use crate::state::{Right, RightState};
use bd_base::{Cell, FileId, Key};
use bd_file_table::Full;
use bd_lines::LINES;

impl KernelSide for PlainTables {
    ghost kernel = { kernel_of };

    fn attach(&mut self, key: Key, file: FileId, write: bool, cells: &[Cell]) -> Result<(), Full>
        requires not_attached { fin.get self.old.rights key ≡ None }
        requires room { length cells.now ≤ PART_BLOCKS }
        requires limits { All HasLimit cells.now }
        requires agree { AgreesWith self.old.book (pair_for file key) cells.now }
        ensures ok { OnOk result
            (Attaches (kernel_of self.old) key file write cells.now (kernel_of self.new)) }
        ensures full { IsErr result ↔ IsFullFor self.old.book (pair_for file key) }
        ensures err { OnErr result (self.new ≡ self.old) }
        ensures passes { AllStay IsLent self.old self.new }
        ensures tables { OnOk result
            (tables_of self.new ≡ attach (tables_of self.old) key file write cells.now) }
        ensures places { self.new.places ≡ self.old.places }
    {
        let fragment = share_or_build(&mut self.pool, file, key.part, cells)?;
        let right = Right {
            file,
            write,
            state: RightState::On,
        };
        self.rights.attach(&key, right);
        self.directory.attach(key, fragment, write);
        Ok(())
    }

    fn clear(&mut self, key: Key)
        requires { KeyIs IsOn (kernel_of self.old) key }
        ensures cleared { kernel_of self.new
            ≡ key_in_state (kernel_of self.old) key IsInCleared }
        ensures passes { AllStay IsLent self.old self.new }
        ensures tables { tables_of self.new ≡ clear (tables_of self.old) key }
        ensures places { self.new.places ≡ self.old.places }
    {
        self.rights.set_state(&key, RightState::Cleared);
        self.directory.clear(key);
    }

    fn drained(&mut self, key: Key) -> Drained
        requires { KeyIs IsCleared (kernel_of self.old) key }
        ensures yes { result ≡ Drained.Yes → kernel_of self.new
            ≡ key_in_state (kernel_of self.old) key (IsInDrained none_swept) }
        ensures not_yet { (count : ℕ) → result ≡ Drained.NotYet count
            → (0 < count) × (kernel_of self.new ≡ kernel_of self.old) }
        ensures passes { AllStay IsLent self.old self.new }
        ensures answer { result ≡ drained_of (engines_in (tables_of self.old).walks key) }
        ensures tables { result ≡ Drained.Yes → tables_of self.new ≡ drain (tables_of self.old) key }
        ensures waits { (count : ℕ) → result ≡ Drained.NotYet count → self.new ≡ self.old }
        ensures places { self.new.places ≡ self.old.places }
    {
        let count = self.directory.count(key);
        if count > 0 {
            return Drained::NotYet(count);
        }
        let state = RightState::Drained([false; LINES]);
        self.rights.set_state(&key, state);
        Drained::Yes
    }

    fn sweep(&mut self, line: u8, key: Key)
        requires line { line < LINES }
        requires drained { KeyIs IsDrained (kernel_of self.old) key }
        ensures swept { kernel_of self.new ≡ line_swept (kernel_of self.old) line key }
        ensures passes { AllStay IsLent self.old self.new }
        ensures tables { tables_of self.new ≡ sweep (tables_of self.old) line key }
        ensures places { self.new.places ≡ self.old.places }
    {
        self.rights.sweep(line, &key);
        self.lines.sweep(line, key);
    }

    fn detach(&mut self, key: Key)
        requires { KeyIs IsSweptWhole (kernel_of self.old) key }
        ensures detached { kernel_of self.new ≡ key_detached (kernel_of self.old) key }
        ensures passes { AllStay IsLent self.old self.new }
        ensures tables { tables_of self.new ≡ detach (tables_of self.old) key }
        ensures places { self.new.places ≡ self.old.places }
    {
        let right = self.rights.get(&key).unwrap();
        self.rights.detach(&key);
        let users = self.rights.users(right.file, key.part);
        drop_unused(&mut self.pool, right.file, key.part, users);
    }

    fn put_entry(&mut self, file: FileId, index: u32, cell: Cell)
        requires empty { IsEmptyEntry self.old.book file index }
        requires limit { IsLimit cell.limit }
        ensures filled { kernel_of self.new ≡ entry_filled (kernel_of self.old) file index cell }
        ensures passes { AllStay IsLent self.old self.new }
        ensures tables { tables_of self.new ≡ put_entry (tables_of self.old) file index cell }
        ensures places { self.new.places ≡ self.old.places }
    {
        fill_entry(&mut self.pool, file, index, cell);
    }

    fn raise_limit(&mut self, file: FileId, index: u32, limit: u16)
        requires filled { IsEntryUpTo self.old.book file index limit }
        requires limit { limit ≤ BLOCK_SIZE }
        ensures raised { kernel_of self.new ≡ entry_raised (kernel_of self.old) file index limit }
        ensures passes { AllStay IsLent self.old self.new }
        ensures tables { tables_of self.new ≡ raise_limit (tables_of self.old) file index limit }
        ensures places { self.new.places ≡ self.old.places }
    {
        raise_entry(&mut self.pool, file, index, limit);
    }

    fn attached(&self, key: Key) -> bool {
        self.rights.get(&key).is_some()
    }

    fn in_use(&self) -> u32 {
        self.pool.in_use()
    }

    fn confirm(&mut self, pass: PlainPass) -> PlainPass
        requires is_of { IsLent self.old pass }
        requires translated { IsTranslated pass.walk }
        ensures confirmed { IsConfirmed (kernel_of self.new) result.walk }
        ensures same_walk { result.walk ≡ pass.walk }
        ensures same_kernel { kernel_of self.new ≡ kernel_of self.old }
        ensures given_back { GivesBack IsLent process_of_pass self.old self.new pass result }
        ensures same { self.new ≡ self.old }
    {
        // What the tables promise of a translated pass always holds of them.
        let _ = &self.places;
        pass
    }

    ghost shown_kernel = { plain_kernel };
}
