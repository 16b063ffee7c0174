// Breadth-first search over the rows of a table. A search that ends early is made of `new` and `note`, with a test of its own.
ghost use Rattle.std.specs.Prelude.{◌≡◌, ℕ, [], ◌∷◌, ◌++◌, ◌*◌, ◌/◌, ◌≤◌, ◌<◌, ltb, length, take};
ghost use Rattle.automaton.specs.Parents.{EarlierParents};
ghost use Rattle.search.specs.Trail.{first_at};
ghost use Rattle.search.specs.Found.{Numbered};

use crate::{arrays, trail};
use book::Book;

// The states found stand one after another in `order`, and the histories that found them in `trail`, which has two bytes a place, so that M is twice N: a parameter
// of its own, since an array's length is no sum or product of parameters.
// `numbers` has the number of each state found, counted from 1, and 1 for 0, which is no state, so that one test decides whether a code leads to a new one.
#[derive(Drop)]
pub struct Search<const N: usize, const M: usize> {
    order: [u8; N],
    trail: [u8; M],
    numbers: [u8; N],
    count: usize,
    // What the arrays' types say, for the proofs of callers.
    pub ghost lengths: { (length order ≡ N) × (length trail ≡ M) × (length numbers ≡ N) },
    pub ghost sizes: { (N ≤ 128) × (M ≡ 2 * N) },
    pub ghost within: { count < N },
    pub ghost earlier: { EarlierParents count (first_at trail) },
    pub ghost numbered: { (s : ℕ) → s < N → Numbered count order trail numbers s },
}

impl<const N: usize, const M: usize> Search<N, M> {
    ghost use Rattle.automaton.specs.Explore.{add};
    ghost use Rattle.definitions.specs.Answer.{written};
    ghost use Rattle.definitions.specs.Bytes.{byte};
    ghost use Rattle.definitions.specs.Book as B;
    ghost use Rattle.search.specs.Found.{SmallTable, started, states_of, book_states};
    ghost use Rattle.search.specs.Searched.{found_by, state_of, history_of};

    // State 1 is found, with no history.
    pub fn new() -> Self
        requires { (2 ≤ N) × (N ≤ 128) × (M ≡ 2 * N) }
        ensures { found_by result ≡ started }
    {
        let mut order = [0; N];
        let mut numbers = [0; N];
        arrays::begin(&mut order, &mut numbers);
        Search {
            order,
            trail: [0; M],
            numbers,
            count: 1,
        }
    }

    // The states found, in the order of their earliest histories.
    pub fn states(&self) -> &[u8]
        ensures { result.now ≡ take self.now.count self.now.order }
    {
        &self.order[..self.count]
    }

    // How many states are found.
    pub fn count(&self) -> usize
        ensures { result ≡ self.now.count }
    {
        self.states().len()
    }

    // The state at a place.
    pub fn state(&self, place: usize) -> usize
        requires { place < self.now.count }
        ensures { result ≡ state_of self.now place }
    {
        usize::from(self.order[place])
    }

    // The number of a state among those found, counted from 1; 0 where it is not found, and 1 for 0, which is no state.
    pub fn number(&self, state: usize) -> usize
        requires { state < N }
        ensures { result ≡ byte self.now.numbers state }
    {
        usize::from(self.numbers[state])
    }

    // The place of the state that the one at a place was found from.
    pub fn parent(&self, place: usize) -> usize
        requires { place < self.now.count }
        ensures { result ≡ first_at self.now.trail place }
    {
        usize::from(self.trail[2 * place])
    }

    // A state that is possible and new goes to the end of those found, with the place and the code that led to it. Whether it is new.
    pub fn note(&mut self, state: usize, from: usize, code: usize) -> bool
        requires in_bounds { (state < N) × (from < self.old.count) × (code < 256) }
        requires room { length (add (found_by self.old) state (history_of self.old from ++ (code ∷ []))) < N }
        ensures found { found_by self.new ≡ add (found_by self.old) state (history_of self.old from ++ (code ∷ [])) }
        ensures grown { result ≡ ltb self.old.count self.new.count }
    {
        if 0 < self.numbers[state] {
            return false;
        }
        self.count = arrays::note(
            &mut self.order,
            &mut self.trail,
            &mut self.numbers,
            self.count,
            state,
            from,
            code,
        );
        true
    }

    // The states that histories reach from state 1 in a table, given as its rows of `width` entries one after another, where only state 1 is found yet: in the
    // order of their earliest history, each with that history.
    pub fn explore(&mut self, rows: &[u8], width: usize)
        requires small_table { SmallTable rows.now width × (length rows.now / width < N) }
        requires begun { found_by self.old ≡ started }
        ensures { found_by self.new ≡ states_of rows.now width }
    {
        self.count = arrays::visit_all(
            rows,
            width,
            &mut self.order,
            &mut self.trail,
            &mut self.numbers,
        );
    }

    // The same for a book.
    pub fn explore_book(&mut self, book: Book)
        requires room { B.states book.bytes.now < N }
        requires begun { found_by self.old ≡ started }
        ensures { found_by self.new ≡ book_states book.entry.bytes.now }
    {
        self.explore(&book.bytes[12..], book.width);
    }

    // Writes the codes that lead to a place, of which there are n, to the front of the buffer. The bytes after them are unchanged.
    pub fn write_codes(&self, place: usize, n: usize, buffer: &mut [u8])
        requires { (place < self.now.count) × (place ≤ length buffer.old) × (n ≡ length (history_of self.now place)) }
        ensures { buffer.new ≡ written (history_of self.now place) buffer.old }
    {
        trail::write_codes(&self.trail, place, n, buffer);
    }

    // The same where the caller does not know how many codes there are. Returns their number.
    pub fn write_history(&self, place: usize, buffer: &mut [u8]) -> usize
        requires { (place < self.now.count) × (place ≤ length buffer.old) }
        ensures value { result ≡ length (history_of self.now place) }
        ensures buffer_after { buffer.new ≡ written (history_of self.now place) buffer.old }
    {
        trail::write_history(&self.trail, place, buffer)
    }
}
