// The comparison of two books: whether the same histories are possible in both, and else the earliest that is possible in just one.
// Row 1 (the buffer) and row 15 (the frames) are decided here; stated in definitions/specs/Compare.antt and Refusal.antt.
#![tactic(auto)]

ghost use Rattle.std.specs.Prelude.{◌≡◌, ◌+◌, ◌*◌, ◌≤◌, length};
ghost use Rattle.definitions.specs.Answer.{written, history_bytes};
ghost use Rattle.definitions.specs.Book as B;
ghost use Rattle.definitions.specs.Compare.{comparison, compare_answer, compare_buffer};
ghost use Rattle.compare.specs.ComparedAnswer.{compared_answer, difference_in};
ghost use Rattle.comparepairs.specs.PairSearch.{Traced, difference_at};

use book::Book;
use bookcheck::check;
use comparepairs::{Difference, PairQueue};
use refusal::Refusal;
use samebytes::same_frame;
use search::write_history;

// Compares two books: the length of the earliest history that is possible in just one, which is written to the buffer, if there is one. Bytes of the buffer
// after the history are unchanged, and all of them where the same histories are possible in both, and on a refusal.
pub fn compare(first: &[u8], second: &[u8], history: &mut [u8]) -> Result<Option<usize>, Refusal>
    ensures answer { compared_answer result history.new ≡ compare_answer first.now second.now history.old }
    ensures history { history.new ≡ compare_buffer first.now second.now history.old }
{
    if history.len() < 256 {
        return Err(Refusal::ShortBuffer);
    }
    let first = check(first)?;
    let second = check(second)?;
    if !same_frame(first.bytes, second.bytes) {
        return Err(Refusal::Frames);
    }
    Ok(compare_passed(first, second, history))
}

// Two books of one frame. Small arrays do for books of few states, and are sooner cleared.
fn compare_passed(first: Book, second: Book, history: &mut [u8]) -> Option<usize>
    requires { (B.frame first.bytes.now ≡ B.frame second.bytes.now) × (256 ≤ length history.old) }
    ensures answer { difference_in history.new result ≡ comparison first.entry.bytes.now second.entry.bytes.now }
    ensures history { history.new ≡ written (history_bytes (comparison first.entry.bytes.now second.entry.bytes.now)) history.old }
{
    let numbers = first.states() + second.states() + 2;
    if numbers <= 32 {
        compare_in::<128, 32>(first, second, numbers, history)
    } else {
        compare_in::<1024, 256>(first, second, numbers, history)
    }
}

// The same with arrays that have room for a search over so many numbers. QUEUE is a parameter of its own, since an array's length is no product of parameters.
fn compare_in<const QUEUE: usize, const LABELS: usize>(
    first: Book,
    second: Book,
    numbers: usize,
    history: &mut [u8],
) -> Option<usize>
    requires numbers_are { numbers ≡ B.states first.bytes.now + B.states second.bytes.now + 2 }
    requires room { (numbers ≤ LABELS) × (LABELS ≤ 256) × (QUEUE ≡ 4 * LABELS) }
    requires one_frame { (B.frame first.bytes.now ≡ B.frame second.bytes.now) × (256 ≤ length history.old) }
    ensures answer { difference_in history.new result ≡ comparison first.entry.bytes.now second.entry.bytes.now }
    ensures history { history.new ≡ written (history_bytes (comparison first.entry.bytes.now second.entry.bytes.now)) history.old }
{
    let mut queue = [0; QUEUE];
    let mut label = [0; LABELS];
    let mut pairs = PairQueue::new(first, &mut queue, &mut label[..numbers]);
    let difference = pairs.first_difference(first, second)?;
    Some(write_difference(pairs.trail(), difference, history))
}

// Writes the history of the place, and then the code, to the front of the buffer, and returns their number. Bytes after them are unchanged.
fn write_difference(trail: &[u8], difference: Difference, history: &mut [u8]) -> usize
    requires { Traced difference.place difference.code trail.now × (256 ≤ length history.old) }
    ensures value { result ≡ length (difference_at trail.now difference.place difference.code) }
    ensures history { history.new ≡ written (difference_at trail.now difference.place difference.code) history.old }
{
    let before = write_history(trail, difference.place, history);
    history[before] = difference.code as u8;
    before + 1
}
