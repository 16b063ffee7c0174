// The three findings on a book that the checks pass: the states that histories reach, in the order of their earliest history, are searched for the first that
// passes each test. Stated in definitions/specs/Verdict.antt.
#![tactic(auto)]

ghost use Rattle.std.specs.Prelude.{◌≡◌, ◌≤◌, length};
ghost use Rattle.definitions.specs.Answer.{written, history_bytes};
ghost use Rattle.definitions.specs.Checked.{BookPassed};
ghost use Rattle.definitions.specs.Verdict as Verdict;
ghost use Rattle.findings.specs.FindingsOf.{findings_of};

mod finding;
mod marks;
mod requests;

use book::Book;
pub use finding::Found;
use finding::{find, find_blocked};
use requests::Sought;
use search::Search;

// The three findings. The history of each that is found is at the front of its buffer; of the third, how many codes it has.
#[derive(Clone, Copy, Debug, PartialEq, Eq)]
pub struct Findings {
    pub conflict: Option<Found>,
    pub missing: Option<Found>,
    pub blocked: Option<usize>,
}

// The findings on a book. The history of each that is found goes to the front of its buffer; the bytes after it are unchanged, and so is all of the buffer of a
// finding that is none.
pub fn find_all(
    bytes: &[u8],
    conflict: &mut [u8],
    missing: &mut [u8],
    blocked: &mut [u8],
) -> Findings
    requires { BookPassed bytes.now × (128 ≤ length conflict.old) × (128 ≤ length missing.old) × (128 ≤ length blocked.old) }
    ensures answer { findings_of result conflict.new missing.new blocked.new ≡ Verdict.findings bytes.now }
    ensures conflict_after { conflict.new ≡ written (history_bytes (Verdict.found_history (Verdict.conflict bytes.now))) conflict.old }
    ensures missing_after { missing.new ≡ written (history_bytes (Verdict.found_history (Verdict.missing bytes.now))) missing.old }
    ensures blocked_after { blocked.new ≡ written (history_bytes (Verdict.blocked bytes.now)) blocked.old }
{
    let book = Book::new(bytes);
    let mut search = Search::<128, 256>::new();
    search.explore_book(book);
    let first = find(book, &search, Sought::Conflict, conflict);
    let second = find(book, &search, Sought::Missing, missing);
    let third = find_blocked(book, &search, second, blocked);
    Findings {
        conflict: first,
        missing: second,
        blocked: third,
    }
}
