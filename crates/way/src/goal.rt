// The goal of a search in a book: one of its requests, with an outcome.
ghost use Rattle.std.specs.Prelude.{◌≡◌, ◌≤◌, ◌<◌};
ghost use Rattle.definitions.specs.Book as B;

use book::{Book, Telling};

#[derive(Clone, Copy)]
pub struct Goal<'a> {
    pub book: Book<'a>,
    pub request: usize,
    pub outcome: Telling,
    ghost within: { request < B.requests book.bytes.now },
}

impl<'a> Goal<'a> {
    ghost use Rattle.way.specs.FirstState.{is_goal};

    // Whether the request has the outcome at a state.
    pub fn is_met_at(self, state: usize) -> bool
        requires { (1 ≤ state) × (state ≤ B.states self.book.bytes.now) }
        ensures { result ≡ is_goal self.entry state }
    {
        let told = self.book.telling(state, self.request);
        told == self.outcome
    }
}
