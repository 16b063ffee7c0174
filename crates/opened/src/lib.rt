// The opened book: the borrowed bytes of a book and the state reached so far. Each function calls that of `walk` on the bytes and the state. A caller that keeps
// the bytes and the state apart calls `walk`.
#![tactic(auto)]

ghost use Rattle.std.specs.Prelude.{◌≡◌};
ghost use Rattle.definitions.specs.Opened.{tell_answer};
ghost use Rattle.book.specs.Tellings.{telling_of};
ghost use Rattle.refusal.specs.Refused.{answer_in};
ghost use Rattle.opened.specs.OpenedCalls.{open_of, step_of};

use book::Telling;
use refusal::Refusal;

#[derive(Clone, Copy, Debug)]
pub struct OpenedBook<'a> {
    pub bytes: &'a [u8],
    pub state: usize,
}

// What opening and a step answer: the number of the row that refused the call, 0 for none, beside the book. A book whose opening is refused has state 0,
// and every later call answers the same number; so `StaysClosed` of specs/OpenedCalls.antt speaks of a number with a book, and this is no Result.
#[derive(Clone, Copy, Debug)]
pub struct Opened<'a> {
    pub number: usize,
    pub book: OpenedBook<'a>,
}

// Opens a book at its start.
pub fn open<'a>(bytes: &'a [u8]) -> Opened<'a>
    ensures { result ≡ open_of bytes.entry }
{
    let (number, state) = match walk::open(bytes) {
        Ok(start) => (0, start),
        Err(refusal) => (usize::from(refusal.number()), 0),
    };
    Opened {
        number,
        book: OpenedBook { bytes, state },
    }
}

// What is possible for a request now.
pub fn tell<'a>(book: OpenedBook<'a>, request: usize) -> Result<Telling, Refusal>
    ensures { answer_in telling_of result ≡ tell_answer book.entry.bytes.now book.entry.state request }
{
    walk::tell(book.bytes, book.state, request)
}

// Takes the step with a code. Where it is refused the state is unchanged.
pub fn step<'a>(book: OpenedBook<'a>, code: usize) -> Opened<'a>
    ensures { result ≡ step_of book.entry code }
{
    let mut state = book.state;
    let number = match walk::step(book.bytes, &mut state, code) {
        Ok(()) => 0,
        Err(refusal) => usize::from(refusal.number()),
    };
    Opened {
        number,
        book: OpenedBook {
            bytes: book.bytes,
            state,
        },
    }
}
