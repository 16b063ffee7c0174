// Breadth-first search over the rows of a table, in arrays that the caller lends. The states found stand one after another in `order`, and the histories that found
// them in `trail`. `numbers` has the number of each state found, counted from 1, and 1 for 0, which is no state, so that one test decides whether a code leads to a
// new one. A search that ends early is made of `begin` and `note`, with a test of its own.
ghost use Rattle.std.specs.Prelude.{◌≡◌, [], ◌∷◌, ◌++◌, ◌/◌, ◌≤◌, ◌<◌, length, set};
ghost use Rattle.automaton.specs.Explore.{add};
ghost use Rattle.definitions.specs.Book as Book;
ghost use Rattle.definitions.specs.Checked.{BookPassed};
ghost use Rattle.search.specs.Trail.{history_at};
ghost use Rattle.search.specs.Found.{SmallTable, states_of, found_in, Arrays, EmptyArrays, visited_at, CanVisit, book_states, started};

use crate::trail::put;

// State 1 is found, with no history.
pub fn begin(order: &mut [u8], numbers: &mut [u8])
    requires { (1 ≤ length order.old) × (2 ≤ length numbers.old) }
    ensures { (order.new ≡ set order.old 0 1) × (numbers.new ≡ set (set numbers.old 0 1) 1 1) }
{
    order[0] = 1;
    numbers[0] = 1;
    numbers[1] = 1;
}

// A state that is possible and new goes to the end of the `n` found, with the place and the code that led to it. Returns how many there are then.
#[inline(always)]
pub fn note(
    order: &mut [u8],
    trail: &mut [u8],
    numbers: &mut [u8],
    n: usize,
    state: usize,
    from: usize,
    code: usize,
) -> usize
    requires arrays { Arrays (found_in n order.old trail.old) n order.old trail.old numbers.old }
    requires state_in_bounds { (state < length numbers.old) × (from < n) × (code < 256) }
    requires code_in_bounds { length (add (found_in n order.old trail.old) state (history_at trail.old from ++ (code ∷ []))) < length numbers.old }
    ensures { Arrays (add (found_in n order.old trail.old) state (history_at trail.old from ++ (code ∷ [])))
        result order.new trail.new numbers.new }
{
    if 0 < numbers[state] {
        return n;
    }
    let more = n + 1;
    order[n] = state as u8;
    put(trail, n, from as u8, code as u8);
    numbers[state] = more as u8;
    more
}

// The codes are tried, in order, from the state at place `i` of the `n` found. Returns how many there are then.
#[inline(always)]
fn visit(
    rows: &[u8],
    width: usize,
    order: &mut [u8],
    trail: &mut [u8],
    numbers: &mut [u8],
    n: usize,
    i: usize,
) -> usize
    requires small_table { SmallTable rows.now width × CanVisit rows.now width order.old trail.old n i }
    requires arrays { Arrays (found_in n order.old trail.old) n order.old trail.old numbers.old × (length rows.now / width < length numbers.old) }
    ensures { Arrays (visited_at rows.now width order.old trail.old n i)
        result order.new trail.new numbers.new }
{
    let start = (usize::from(order[i]) - 1) * width;
    let row = &rows[start..start + width];
    let mut k = n;
    for (code, &state) in row.iter().enumerate() {
        let there = usize::from(state);
        k = note(order, trail, numbers, k, there, i, code);
    }
    k
}

// The states are visited one after another, where only state 1 is found yet. Returns how many are found then. Part of each caller, so that a search whose arrays
// have a length known when compiling keeps a loop of its own.
#[inline(always)]
pub(crate) fn visit_all(
    rows: &[u8],
    width: usize,
    order: &mut [u8],
    trail: &mut [u8],
    numbers: &mut [u8],
) -> usize
    requires small_table { SmallTable rows.now width × (length rows.now / width < length numbers.old) }
    requires begun { Arrays started 1 order.old trail.old numbers.old }
    ensures { Arrays (states_of rows.now width) result order.new trail.new numbers.new }
{
    let mut n = 1;
    let mut i = 0;
    // The number of states found grows as they are visited.
    while i < n {
        n = visit(rows, width, order, trail, numbers, n, i);
        i += 1;
    }
    n
}

// The states that histories reach from state 1 in a table, given as its rows of `width` entries one after another: in the order of their earliest history,
// each with that history, and with the number of each. Returns how many there are.
pub fn explore(
    rows: &[u8],
    width: usize,
    order: &mut [u8],
    trail: &mut [u8],
    numbers: &mut [u8],
) -> usize
    requires { SmallTable rows.now width × EmptyArrays (length rows.now / width) order.old trail.old numbers.old }
    ensures { Arrays (states_of rows.now width) result order.new trail.new numbers.new }
{
    begin(order, numbers);
    visit_all(rows, width, order, trail, numbers)
}

// The states of a book that passes the checks, in the order of their earliest history, each with that history, and with the number of each. Returns how many
// there are.
pub fn explore_book(
    book: &[u8],
    width: usize,
    order: &mut [u8],
    trail: &mut [u8],
    numbers: &mut [u8],
) -> usize
    requires { BookPassed book.now × (width ≡ Book.width book.now) × EmptyArrays (Book.states book.now) order.old trail.old numbers.old }
    ensures { Arrays (book_states book.now) result order.new trail.new numbers.new }
{
    explore(&book[12..], width, order, trail, numbers)
}
