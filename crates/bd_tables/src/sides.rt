//! The two sides of the tables: the kernel's, and that of the engines.
ghost use Rattle.std.specs.Prelude.{◌≡◌, ◌≢◌, ◌↔◌, ℕ, ◌+◌, ◌/◌, ◌<◌, ◌≤◌, Bool, None, Some, length, All, IsErr, IfSome, OnOk, OnErr};
ghost use Rattle.std.specs.FinMap as fin;
ghost use Rattle.bd_base.specs.declared.limits.TheConstants.{BLOCK_SIZE, PART_BLOCKS};
ghost use Rattle.bd_base.specs.Keys.{Pair};
ghost use Rattle.bd_lines.specs.declared.lines.TheConstants.{LINES};
ghost use Rattle.bd_tables.specs.declared.request.Completion.{Completion};
ghost use Rattle.bd_tables.specs.declared.request.Request.{Request};
ghost use Rattle.bd_tables.specs.declared.state.RightState.TheVariants.{Cleared as IsInCleared, Drained as IsInDrained};
ghost use Rattle.bd_tables.specs.declared.state.Walk.{Walk};
ghost use Rattle.bd_tables.specs.declared.state.Walk.TheVariants.{Idle, Entered, Translated};
ghost use Rattle.bd_tables.specs.Answers.{AfterEnter, AfterLook, AfterRead, AllStay, GivesBack, IsAnswered, IsEntered, IsTranslated, Serves};
ghost use Rattle.bd_tables.specs.Effects.{attach, clear, detach, drain, none_swept, put_entry, raise_limit, sweep};
ghost use Rattle.bd_tables.specs.Kernel.{AgreesWith, Attaches, HasLimit, IsCleared, IsConfirmed, IsDrained, IsEmptyEntry, IsEntryUpTo, IsFullFor, IsLimit, IsOn, IsSweptWhole, KernelState, KeyIs, entry_filled, entry_raised, key_detached, key_in_state, line_swept};
ghost use Rattle.bd_tables.specs.Seen.{EnginesStay, IsKernelOf, ShowsAfter};
ghost use Rattle.bd_tables.specs.State.{TableState, found_of, pair_for, told_of};

use crate::request::{Completion, Drained, Looked, Request, Walked};
use bd_base::{Cell, FileId, Found, Key, Steps};
use bd_file_table::Full;
use std::sync::ledger::Ledger;

/// Tables with passes: the tokens of engines.
///
/// A pass is of one engine and of one set of tables, and shows where the engine is in its walk.
pub trait Tables: Drop {
    type Pass: Drop;

    /// Where the engine of the pass is, and what it holds.
    ghost walk: { Self.Pass → Walk };

    /// The process whose engine has the pass.
    ghost process: { Self.Pass → ℕ };

    /// The pass is of these tables, and not in them.
    ghost is_of: { Self → Self.Pass → Type 0 };

    /// The pass of this process lies in the tables.
    ghost lies: { Self → ℕ → Type 0 };

    /// The engines go their own way: their passes are with them alone.
    ghost apart: { Self → Type 0 };

    /// The tables show this state, as far as they hold it.
    ghost shows: { Self → TableState → Type 0 };

    /// The translation that the engine holds: Some exactly where it holds one.
    fn told(&self, pass: &Self::Pass) -> Option<Completion>
        requires { is_of self.now pass.now }
        ensures told { result ≡ told_of (walk pass.now) }
        ensures serves { (request : Request) (completion : Completion)
            → walk pass.now ≡ Translated request completion → Serves request completion };

    /// What the engine found in place of what it asked for: Some exactly where it was refused.
    fn found(&self, pass: &Self::Pass) -> Option<Found>
        requires { is_of self.now pass.now }
        ensures { result ≡ found_of (walk pass.now) };
}

/// The kernel's side: rights are attached and revoked, and entries filled.
pub trait KernelSide: Tables {
    /// The number of processes, the right of each attached key, and the fragment of each pair in use.
    ghost kernel: { Self → KernelState };

    /// Attaches a right. Its part of the file shares the fragment of the pair, or gets the lowest one that is not in
    /// use, with these cells of the part's blocks.
    ///
    /// Full exactly where the pair has no fragment and 64 are in use.
    fn attach(&mut self, key: Key, file: FileId, write: bool, cells: &[Cell]) -> Result<(), Full>
        requires not_attached { fin.get (kernel self.old).rights key ≡ None }
        requires room { length cells.now ≤ PART_BLOCKS }
        requires limits { All HasLimit cells.now }
        requires agree { AgreesWith (kernel self.old).book (pair_for file key) cells.now }
        ensures ok { OnOk result
            (Attaches (kernel self.old) key file write cells.now (kernel self.new)) }
        ensures full { IsErr result ↔ IsFullFor (kernel self.old).book (pair_for file key) }
        ensures err { OnErr result (kernel self.new ≡ kernel self.old) }
        ensures shown { OnOk result
            (ShowsAfter Self.shows self.old self.new (λ t. attach t key file write cells.now)) }
        ensures same_shown { OnErr result (ShowsAfter Self.shows self.old self.new (λ t. t)) }
        ensures passes { AllStay Self.is_of self.old self.new }
        ensures engines { EnginesStay Self.lies Self.apart self.old self.new };

    /// Takes the right of a key that is On out of its directory entry.
    fn clear(&mut self, key: Key)
        requires { KeyIs IsOn (kernel self.old) key }
        ensures cleared { kernel self.new ≡ key_in_state (kernel self.old) key IsInCleared }
        ensures shown { ShowsAfter Self.shows self.old self.new (λ t. clear t key) }
        ensures passes { AllStay Self.is_of self.old self.new }
        ensures engines { EnginesStay Self.lies Self.apart self.old self.new };

    /// Whether no engine is in a cleared key any more: Yes exactly where the count that is read in this call is 0.
    fn drained(&mut self, key: Key) -> Drained
        requires { KeyIs IsCleared (kernel self.old) key }
        ensures yes { result ≡ Drained.Yes
            → kernel self.new ≡ key_in_state (kernel self.old) key (IsInDrained none_swept) }
        ensures not_yet { (count : ℕ) → result ≡ Drained.NotYet count
            → (0 < count) × (kernel self.new ≡ kernel self.old) }
        ensures shown { result ≡ Drained.Yes
            → ShowsAfter Self.shows self.old self.new (λ t. drain t key) }
        ensures same_shown { (count : ℕ) → result ≡ Drained.NotYet count
            → ShowsAfter Self.shows self.old self.new (λ t. t) }
        ensures passes { AllStay Self.is_of self.old self.new }
        ensures engines { EnginesStay Self.lies Self.apart self.old self.new };

    /// Empties a line, from 0 to 15, where it names the key, which was drained since it was cleared.
    fn sweep(&mut self, line: u8, key: Key)
        requires line { line < LINES }
        requires drained { KeyIs IsDrained (kernel self.old) key }
        ensures swept { kernel self.new ≡ line_swept (kernel self.old) line key }
        ensures shown { ShowsAfter Self.shows self.old self.new (λ t. sweep t line key) }
        ensures passes { AllStay Self.is_of self.old self.new }
        ensures engines { EnginesStay Self.lies Self.apart self.old self.new };

    /// Detaches a key, all of whose 16 lines were swept since it was drained. The fragment of its part is dropped
    /// exactly where no other key uses it.
    fn detach(&mut self, key: Key)
        requires { KeyIs IsSweptWhole (kernel self.old) key }
        ensures detached { kernel self.new ≡ key_detached (kernel self.old) key }
        ensures shown { ShowsAfter Self.shows self.old self.new (λ t. detach t key) }
        ensures passes { AllStay Self.is_of self.old self.new }
        ensures engines { EnginesStay Self.lies Self.apart self.old self.new };

    /// Fills the empty entry of block `index` of a file where its part has a fragment, and else does nothing.
    fn put_entry(&mut self, file: FileId, index: u32, cell: Cell)
        requires empty { IsEmptyEntry (kernel self.old).book file index }
        requires limit { IsLimit cell.limit }
        ensures filled { kernel self.new ≡ entry_filled (kernel self.old) file index cell }
        ensures shown { ShowsAfter Self.shows self.old self.new (λ t. put_entry t file index cell) }
        ensures passes { AllStay Self.is_of self.old self.new }
        ensures engines { EnginesStay Self.lies Self.apart self.old self.new };

    /// Raises the limit of the entry of block `index` of a file where its part has a fragment, and else does nothing.
    fn raise_limit(&mut self, file: FileId, index: u32, limit: u16)
        requires filled { IsEntryUpTo (kernel self.old).book file index limit }
        requires limit { limit ≤ BLOCK_SIZE }
        ensures raised { kernel self.new ≡ entry_raised (kernel self.old) file index limit }
        ensures shown { ShowsAfter Self.shows self.old self.new (λ t. raise_limit t file index limit) }
        ensures passes { AllStay Self.is_of self.old self.new }
        ensures engines { EnginesStay Self.lies Self.apart self.old self.new };

    /// Whether the key is attached.
    fn attached(&self, key: Key) -> bool
        ensures { result ≡ fin.contains_key (kernel self.now).rights key };

    /// How many fragments are in use, at most 64.
    fn in_use(&self) -> u32
        ensures { result ≡ fin.len (kernel self.now).book };

    /// Takes a translated pass and gives it back. Its translation is that of the file's block, under a right that is
    /// attached and allows what was granted.
    fn confirm(&mut self, pass: Self::Pass) -> Self::Pass
        requires is_of { Self.is_of self.old pass }
        requires translated { IsTranslated (Self.walk pass) }
        ensures confirmed { IsConfirmed (kernel self.new) (Self.walk result) }
        ensures same_walk { Self.walk result ≡ Self.walk pass }
        ensures same_kernel { kernel self.new ≡ kernel self.old }
        ensures same_shown { ShowsAfter Self.shows self.old self.new (λ t. t) }
        ensures given_back { GivesBack Self.is_of Self.process self.old self.new pass result }
        ensures engines { EnginesStay Self.lies Self.apart self.old self.new };

    /// What they show is what the kernel's side sees.
    ghost shown_kernel: { (x : Self) (t : TableState) → Self.shows x t → IsKernelOf (kernel x) t };
}

/// The engines' side. Each call is one operation on a word of the tables, which `steps` counts.
pub trait EngineSide: Tables {
    /// Enters the key of the request. Missed exactly where the right read there is missing (NoDirectory), or else does
    /// not allow the write that is asked for (NoRight).
    fn enter<L: Ledger>(
        &mut self,
        pass: Self::Pass,
        request: Request,
        steps: &mut Steps<L>,
    ) -> (Self::Pass, Walked)
        requires is_of { Self.is_of self.old pass }
        requires idle { Self.walk pass ≡ Idle }
        requires own { Self.process pass ≡ request.key.process }
        requires part { request.key.part ≡ request.index / PART_BLOCKS }
        requires hi { IsLimit request.hi }
        ensures walked { AfterEnter request result.1 (Self.walk result.0) }
        ensures given_back { GivesBack Self.is_of Self.process self.old self.new pass result.0 }
        ensures counted { steps.new ≡ steps.old + 1 };

    /// Looks into the line of the address. Miss exactly where the line read there does not name the key and the index
    /// with a limit of at least the request's `hi`.
    fn look<L: Ledger>(&mut self, pass: Self::Pass, steps: &mut Steps<L>) -> (Self::Pass, Looked)
        requires is_of { Self.is_of self.old pass }
        requires entered { IsEntered (Self.walk pass) }
        ensures walked { (request : Request)
            → Self.walk pass ≡ Entered request → AfterLook request result.1 (Self.walk result.0) }
        ensures given_back { GivesBack Self.is_of Self.process self.old self.new pass result.0 }
        ensures counted { steps.new ≡ steps.old + 1 };

    /// Reads the entry of the fragment. Missed exactly where it is empty (NoEntry), or its limit is below the
    /// request's `hi` (Beyond).
    fn read_entry<L: Ledger>(
        &mut self,
        pass: Self::Pass,
        steps: &mut Steps<L>,
    ) -> (Self::Pass, Walked)
        requires is_of { Self.is_of self.old pass }
        requires entered { IsEntered (Self.walk pass) }
        ensures walked { (request : Request)
            → Self.walk pass ≡ Entered request → AfterRead request result.1 (Self.walk result.0) }
        ensures given_back { GivesBack Self.is_of Self.process self.old self.new pass result.0 }
        ensures counted { steps.new ≡ steps.old + 1 };

    /// Puts the translation that the engine holds into the line of its address.
    fn fill<L: Ledger>(&mut self, pass: Self::Pass, steps: &mut Steps<L>) -> Self::Pass
        requires is_of { Self.is_of self.old pass }
        requires translated { IsTranslated (Self.walk pass) }
        ensures walked { Self.walk result ≡ Self.walk pass }
        ensures given_back { GivesBack Self.is_of Self.process self.old self.new pass result }
        ensures counted { steps.new ≡ steps.old + 1 };

    /// Leaves the key. The pass is idle again.
    fn retire<L: Ledger>(&mut self, pass: Self::Pass, steps: &mut Steps<L>) -> Self::Pass
        requires is_of { Self.is_of self.old pass }
        requires answered { IsAnswered (Self.walk pass) }
        ensures walked { Self.walk result ≡ Idle }
        ensures given_back { GivesBack Self.is_of Self.process self.old self.new pass result }
        ensures counted { steps.new ≡ steps.old + 1 };
}
