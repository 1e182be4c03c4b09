//! Marks on numbers, one bit each, in words of 64 bits.
ghost use Rattle.std.specs.Prelude.{◌≡◌, ℕ, ◌*◌, ◌<◌, ◌≤◌, not, ◌&&◌, ◌||◌, nat_eq, length, slice_index, IfSome, MatchOption};
ghost use Rattle.bd_extents.specs.Bitmap.{IsLowestMark, NoneMarked, NoneMarkedBefore, is_marked};

/// How many numbers a word marks.
pub const WORD_BITS: usize = 64;

/// Whether `number` is marked.
pub fn has_mark(words: &[u64], number: usize) -> bool
    requires { number < 64 * length words.now }
    ensures { result ≡ is_marked words.now number }
{
    (words[number / WORD_BITS] >> (number % WORD_BITS)) & 1 == 1
}

/// Marks `number`.
pub fn mark(words: &mut [u64], number: usize)
    requires { number < 64 * length words.old }
    ensures { (n : ℕ) → is_marked words.new n ≡ (nat_eq n number || is_marked words.old n) }
{
    let word = &mut words[number / WORD_BITS];
    *word |= 1 << (number % WORD_BITS);
}

/// Takes the mark of `number` away.
pub fn unmark(words: &mut [u64], number: usize)
    requires { number < 64 * length words.old }
    ensures { (n : ℕ) → is_marked words.new n ≡ (not (nat_eq n number) && is_marked words.old n) }
{
    let word = &mut words[number / WORD_BITS];
    *word &= !(1 << (number % WORD_BITS));
}

/// The first word from `start` on that has a mark; a later number than that of the last word where there is none. No
/// number of a word before `start` may be marked.
pub fn first_marked_word(words: &[u64], start: usize) -> usize
    requires { NoneMarkedBefore words.now start }
    ensures none_before { NoneMarkedBefore words.now result }
    ensures marked { result < length words.now → 0 < slice_index words.now result }
{
    for index in start..words.len() {
        if words[index] != 0 {
            return index;
        }
    }
    start.max(words.len())
}

/// The lowest marked number. No number of a word before `first_word` may be marked.
pub fn lowest_mark(words: &[u64], first_word: usize) -> Option<usize>
    requires none_before { NoneMarkedBefore words.now first_word }
    requires in_range { length words.now ≤ 256 }
    ensures lowest { MatchOption result (NoneMarked words.now) (IsLowestMark words.now) }
    ensures within { IfSome result (λ number. number < 64 * length words.now) }
{
    let index = first_marked_word(words, first_word);
    if index < words.len() {
        Some(WORD_BITS * index + words[index].trailing_zeros() as usize)
    } else {
        None
    }
}
