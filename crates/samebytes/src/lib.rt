// Equal bytes: of any two byte strings, and of the frames of two books. Strings are read from the front: eight words a turn, then single words, then the single
// bytes after the last whole word.
#![tactic(auto)]

ghost use Rattle.std.specs.Prelude.{◌≡◌, ◌↔◌, ◌+◌, ◌≤◌, length};
ghost use Rattle.automaton.specs.Below.{same_list};
ghost use Rattle.bytewords.specs.ByteWords.{SamePart};
ghost use Rattle.definitions.specs.Book.{frame};
ghost use Rattle.definitions.specs.Compare.{same_bytes};
ghost use Rattle.samebytes.specs.SameBytes.{SameSoFar};

use bytewords::word;

// The differences of eight words from place k on, gathered: 0 where there is none. Nothing is decided before the last word, so that the compiler makes vector
// code of it.
fn word_differences(first: &[u8], second: &[u8], k: usize) -> usize
    requires { (k + 64 ≤ length first.now) × (k + 64 ≤ length second.now) }
    ensures { (result ≡ 0) ↔ SamePart 64 first.now k second.now k }
{
    let mut gathered = 0;
    for n in 0..8 {
        gathered |= word(first, k + 8 * n) ^ word(second, k + 8 * n);
    }
    gathered
}

// The same for four single bytes.
fn byte_differences(first: &[u8], second: &[u8], k: usize) -> u8
    requires { (k + 4 ≤ length first.now) × (k + 4 ≤ length second.now) }
    ensures { (result ≡ 0) ↔ SamePart 4 first.now k second.now k }
{
    let mut gathered = 0;
    for n in 0..4 {
        gathered |= first[k + n] ^ second[k + n];
    }
    gathered
}

// Whether two strings of one length are equal that are the same up to `from`: one byte after the other.
fn same_single_bytes(first: &[u8], second: &[u8], from: usize) -> bool
    requires { SameSoFar first.now second.now from }
    ensures { result ≡ same_bytes first.now second.now }
{
    for k in from..first.len() {
        if first[k] != second[k] {
            return false;
        }
    }
    true
}

// The same, four single bytes at once where four remain.
fn same_tail(first: &[u8], second: &[u8], from: usize) -> bool
    requires { SameSoFar first.now second.now from }
    ensures { result ≡ same_bytes first.now second.now }
{
    if from + 4 <= first.len() {
        if byte_differences(first, second, from) != 0 {
            return false;
        }
        return same_single_bytes(first, second, from + 4);
    }
    same_single_bytes(first, second, from)
}

// The same by words where eight bytes remain.
fn same_words(first: &[u8], second: &[u8], from: usize) -> bool
    requires { SameSoFar first.now second.now from }
    ensures { result ≡ same_bytes first.now second.now }
{
    // Counted by hand: a `for` over the words, the turns or both took up to a fifth longer.
    let mut k = from;
    while k + 8 <= first.len() {
        if word(first, k) != word(second, k) {
            return false;
        }
        k += 8;
    }
    same_tail(first, second, k)
}

// Whether two byte strings, books or not, are equal. A string without a whole word is all tail.
pub fn same_bytes(first: &[u8], second: &[u8]) -> bool
    ensures { result ≡ same_bytes first.now second.now }
{
    if first.len() != second.len() {
        return false;
    }
    if first.len() == 0 {
        return true;
    }
    if first.len() < 8 {
        return same_tail(first, second, 0);
    }
    // Counted by hand, as in `same_words`.
    let mut k = 0;
    while k + 64 <= first.len() {
        if word_differences(first, second, k) != 0 {
            return false;
        }
        k += 64;
    }
    same_words(first, second, k)
}

// Whether two books have one frame: E, F and the value counts.
pub fn same_frame(first: &[u8], second: &[u8]) -> bool
    requires { (12 ≤ length first.now) × (12 ≤ length second.now) }
    ensures { result ≡ same_list (frame first.now) (frame second.now) }
{
    same_tail(&first[5..11], &second[5..11], 0)
}
