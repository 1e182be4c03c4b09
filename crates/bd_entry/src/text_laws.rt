//! Laws of journals as text, each the contract of a function that does nothing.
ghost use Rattle.std.specs.Prelude.{◌≡◌, ◌≢◌, ℕ, List};
ghost use Rattle.bd_entry.specs.Ranges.{AreEntries};
ghost use Rattle.bd_entry.specs.Reading.{IsBadJournal};
ghost use Rattle.bd_entry.specs.Texts.{journal_text};
ghost use Rattle.bd_entry.specs.declared.entry.Entry.{Entry};

/// A text is that of one journal at most.
pub fn one_journal()
    ensures { (j k : List Entry) → AreEntries j → AreEntries k → journal_text j ≡ journal_text k
        → j ≡ k }
{}

/// A bad text is that of no journal.
pub fn bad_is_no_journal()
    ensures { (text : List ℕ) (line : ℕ) → IsBadJournal text line
        → (j : List Entry) → AreEntries j → text ≢ journal_text j }
{}

/// A text has one bad line at most.
pub fn one_bad_line()
    ensures { (text : List ℕ) (m n : ℕ) → IsBadJournal text m → IsBadJournal text n → m ≡ n }
{}
