// The states of a book from which some request is answered, now or after a list of events: a mark for each state.
// Those that answer one themselves are marked first, and then every state from which an event leads to a marked one, until a round marks none.
ghost use Rattle.std.specs.Prelude.{◌≡◌, false, ◌+◌, ◌≤◌, length};
ghost use Rattle.automaton.specs.Below.{any_below, one};
ghost use Rattle.definitions.specs.Book as B;
ghost use Rattle.definitions.specs.Telling.{some_request, answered};
ghost use Rattle.findings.specs.Marks.{marked_successor, gains, with_gain, count_marks, Marks, FixedPoint};

use crate::requests::{Sought, lowest};
use book::Book;

// Whether a state answers some request.
fn answers(book: Book, state: usize) -> bool
    requires { (1 ≤ state) × (state ≤ B.states book.bytes.now) }
    ensures { result ≡ some_request answered book.entry.bytes.now state }
{
    lowest(book, state, Sought::Answer).is_some()
}

// Marks the states that answer some request.
fn mark_answering(book: Book, marks: &mut [bool])
    requires { 128 ≤ length marks.old }
    ensures { Marks book.entry.bytes.now marks.new }
{
    for s in 1..=book.states() {
        marks[s] = answers(book, s);
    }
}

// Whether some event leads from a state to a marked one.
fn has_marked_successor(book: Book, marks: &[bool], state: usize) -> bool
    requires { (128 ≤ length marks.now) × (1 ≤ state) × (state ≤ B.states book.bytes.now) }
    ensures { result ≡ any_below (B.events book.entry.bytes.now) (marked_successor book.entry.bytes.now marks.now state) }
{
    for c in 0..book.events() {
        if marks[book.entry(state, c)] {
            return true;
        }
    }
    false
}

// Marks a state from which an event leads to a marked one. Returns whether it was not marked before and is now.
fn mark_before(book: Book, marks: &mut [bool], state: usize) -> bool
    requires { (128 ≤ length marks.old) × (1 ≤ state) × (state ≤ B.states book.bytes.now) }
    ensures value { result ≡ gains book.entry.bytes.now marks.old state }
    ensures marks_after { marks.new ≡ with_gain book.entry.bytes.now marks.old state }
{
    if marks[state] {
        return false;
    }
    if !has_marked_successor(book, marks, state) {
        return false;
    }
    marks[state] = true;
    true
}

// One round over all states. Returns whether it marks one; where it marks none, the marks are a fixed point.
fn mark_round(book: Book, marks: &mut [bool]) -> bool
    requires { Marks book.bytes.now marks.old }
    ensures marks { Marks book.entry.bytes.now marks.new × (count_marks marks.old + one result ≤ count_marks marks.new) }
    ensures fixed_point { result ≡ false → FixedPoint book.entry.bytes.now marks.new }
{
    let mut gained = false;
    for s in 1..=book.states() {
        gained |= mark_before(book, marks, s);
    }
    gained
}

// Marks exactly the states from which some request is answered, now or after a list of events.
pub fn mark(book: Book, marks: &mut [bool])
    requires { 128 ≤ length marks.old }
    ensures { Marks book.entry.bytes.now marks.new × FixedPoint book.entry.bytes.now marks.new }
{
    mark_answering(book, marks);
    // Rounds until one marks no state.
    let mut gained = true;
    while gained {
        gained = mark_round(book, marks);
    }
}
