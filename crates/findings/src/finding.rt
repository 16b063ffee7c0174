// The three findings on a book, from its states in the order of their earliest history.
ghost use Rattle.std.specs.Prelude.{◌≡◌, ℕ, ◌≤◌, ◌<◌, length, MatchOption, IsNone};
ghost use Rattle.std.proofs.Math.Option.{none};
ghost use Rattle.automaton.specs.Below.{lowest_below};
ghost use Rattle.definitions.specs.Answer.{written, history_bytes};
ghost use Rattle.definitions.specs.Verdict.{found_history, blocked};
ghost use Rattle.search.specs.Found.{StatesIn, book_states};
ghost use Rattle.search.specs.Searched.{found_by, state_of};
ghost use Rattle.findings.specs.SoughtRequests.{some_at, IsLowest, IsHit, sought_finding};
ghost use Rattle.findings.specs.Marks.{unmarked_at};
ghost use Rattle.findings.specs.FindingsOf.{found_of, blocked_of};
ghost use Rattle.findings.specs.declared.requests.Sought.TheVariants.{Missing};

use crate::marks::mark;
use crate::requests::{Sought, lowest};
use book::Book;
use search::Search;

// A finding with a request: the request, and how many codes its history has.
#[derive(Clone, Copy, Debug, PartialEq, Eq)]
pub struct Found {
    pub request: usize,
    pub length: usize,
}

// A state with a request that is sought, by its place, and the lowest such request.
#[derive(Clone, Copy)]
struct Hit {
    place: usize,
    request: usize,
}

// The first of the states found by a search with a request that is sought.
fn first_with(book: Book, search: &Search<128, 256>, sought: Sought) -> Option<Hit>
    requires { StatesIn book.bytes.now search.now.count search.now.order }
    ensures { MatchOption result (lowest_below search.now.count (some_at sought book.entry.bytes.now search.now.order) ≡ search.now.count)
        (λ hit. IsHit sought book.entry.bytes.now search.now.order search.now.count hit.place hit.request) }
{
    for place in 0..search.count() {
        if let Some(request) = lowest(book, search.state(place), sought) {
            return Some(Hit { place, request });
        }
    }
    None
}

// The finding for what is sought, with its history at the front of the buffer.
pub fn find(
    book: Book,
    search: &Search<128, 256>,
    sought: Sought,
    buffer: &mut [u8],
) -> Option<Found>
    requires found { found_by search.now ≡ book_states book.bytes.now }
    requires room { 128 ≤ length buffer.old }
    ensures answer { found_of result buffer.new ≡ sought_finding sought book.entry.bytes.now }
    ensures buffer_after { buffer.new ≡ written (history_bytes (found_history (sought_finding sought book.entry.bytes.now))) buffer.old }
{
    let hit = first_with(book, search, sought)?;
    let length = search.write_history(hit.place, buffer);
    Some(Found {
        request: hit.request,
        length,
    })
}

// The place of the first of the states found that is not marked.
fn first_unmarked(search: &Search<128, 256>, marks: &[bool]) -> Option<usize>
    requires { (k : ℕ) → k < search.now.count → state_of search.now k < length marks.now }
    ensures { IsLowest search.now.count (unmarked_at marks.now search.now.order) result }
{
    for i in 0..search.count() {
        if !marks[search.state(i)] {
            return Some(i);
        }
    }
    None
}

// The finding that no request is answered, now or after any list of events: how many codes its history has, which is at the front of the buffer. The caller
// hands in the second finding: where no request is missing, no state is blocked.
pub fn find_blocked(
    book: Book,
    search: &Search<128, 256>,
    missing: Option<Found>,
    buffer: &mut [u8],
) -> Option<usize>
    requires found { found_by search.now ≡ book_states book.bytes.now }
    requires missing { IsNone missing → sought_finding Missing book.bytes.now ≡ none }
    requires room { 128 ≤ length buffer.old }
    ensures answer { blocked_of result buffer.new ≡ blocked book.entry.bytes.now }
    ensures buffer_after { buffer.new ≡ written (history_bytes (blocked book.entry.bytes.now)) buffer.old }
{
    if missing.is_none() {
        return None;
    }
    let mut marks = [false; 128];
    mark(book, &mut marks);
    let i = first_unmarked(search, &marks)?;
    Some(search.write_history(i, buffer))
}
