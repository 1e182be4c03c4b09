//! Lists of marks, each set or not.
ghost use Rattle.std.specs.Prelude.{◌≡◌, ◌≤◌, count_by, length};
ghost use Rattle.bd_kernel.specs.Marks.{is_marked};

/// Whether the mark of this number is there and set.
pub fn is_marked(marks: &[bool], number: usize) -> bool
    ensures { result ≡ is_marked marks.now number }
{
    marks.get(number).copied().unwrap_or(false)
}

/// How many marks are set.
pub fn count_marks(marks: &[bool]) -> usize
    ensures count { result ≡ count_by (λ mark. mark) marks.now }
    ensures within { result ≤ length marks.now }
{
    marks.iter().filter(|mark| **mark).count()
}
