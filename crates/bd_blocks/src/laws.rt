//! Laws of runs and numbers as text, each the contract of a function that does nothing.
ghost use Rattle.std.specs.Prelude.{◌≡◌, ℕ, ◌^◌, ◌<◌, List};
ghost use Rattle.std.specs.Fmt.{decimal};
ghost use Rattle.bd_base.specs.Bytes.{AreBytes};
ghost use Rattle.bd_blocks.specs.Runs.{AreRuns, Run, bytes_of, runs_of, runs_text};
ghost use Rattle.bd_blocks.specs.Texts.{number_text};
ghost use Rattle.bd_blocks.specs.declared.text.TheConstants.{LF, SPACE};

/// The runs of bytes are runs, and expanded they are those bytes.
pub fn runs_expand_to_their_bytes()
    ensures runs { (bytes : List ℕ) → AreBytes bytes → AreRuns (runs_of bytes) }
    ensures bytes { (bytes : List ℕ) → bytes_of (runs_of bytes) ≡ bytes }
{}

/// Runs, of which none is empty and no two neighbours are of one byte, are those of the bytes to which they expand.
pub fn runs_are_those_of_their_bytes()
    ensures { (runs : List Run) → AreRuns runs → runs_of (bytes_of runs) ≡ runs }
{}

/// A text is the runs of one list of bytes at most.
pub fn runs_have_one_reading()
    ensures { (a b : List ℕ) → AreBytes a → AreBytes b → runs_text a ≡ runs_text b → a ≡ b }
{}

/// A text is that of one number at most, however large.
pub fn numbers_have_one_reading()
    ensures { (m n : ℕ) → number_text m ≡ number_text n → m ≡ n }
{}

/// Numbers of at most 64 bits are written as std writes them.
pub fn numbers_are_decimal()
    ensures { (n : ℕ) → n < 2 ^ 64 → number_text n ≡ decimal n }
{}

/// The bytes that end a line and part two fields.
pub fn line_feed_and_space()
    ensures line_feed { LF ≡ 10 }
    ensures space { SPACE ≡ 32 }
{}
