// What a state of a book tells of a request: whether it may be accepted, and whether it may be rejected.
ghost use Rattle.std.specs.Prelude.{◌≡◌, ◌≤◌, ◌<◌};
ghost use Rattle.definitions.specs.Book as B;
ghost use Rattle.definitions.specs.Checked.{BookLayout};
ghost use Rattle.definitions.specs.Telling.{to_telling, telling};
ghost use Rattle.book.specs.Tellings.{telling_of};

use crate::header;
use crate::layout::Book;
use refusal::Refusal;

#[derive(Clone, Copy, Debug, PartialEq, Eq, Hash)]
pub enum Telling {
    None,
    Accept,
    Reject,
    Both,
}

// An outcome by its number, as C gives it.
impl TryFrom<usize> for Telling {
    type Error = Refusal;

    ghost use Rattle.book.specs.Tellings.{NumberedOutcome};

    ghost try_from_gives = { NumberedOutcome };

    fn try_from(number: usize) -> Result<Telling, Refusal> {
        match number {
            0 => Ok(Telling::None),
            1 => Ok(Telling::Accept),
            2 => Ok(Telling::Reject),
            3 => Ok(Telling::Both),
            _ => Err(Refusal::UnknownOutcome),
        }
    }
}

fn told_by(accept: bool, reject: bool) -> Telling
    ensures { telling_of result ≡ to_telling accept reject }
{
    match (accept, reject) {
        (false, false) => Telling::None,
        (true, false) => Telling::Accept,
        (false, true) => Telling::Reject,
        (true, true) => Telling::Both,
    }
}

// What a state tells of a request in bytes that row 13 lets pass, by the request's two entries in its row.
pub fn telling_at(book: &[u8], width: usize, state: usize, request: usize) -> Telling
    requires book_layout { BookLayout book.now × (width ≡ B.width book.now) }
    requires le_state { (1 ≤ state) × (state ≤ B.states book.now) × (request < B.requests book.now) }
    ensures { telling_of result ≡ telling book.now state request }
{
    let code = header::events(book) + 2 * request;
    let at = 12 + (state - 1) * width + code;
    told_by(book[at] != 0, book[at + 1] != 0)
}

impl<'a> Book<'a> {
    // What a state tells of a request.
    pub fn telling(self, state: usize, request: usize) -> Telling
        requires { (1 ≤ state) × (state ≤ B.states self.bytes.now) × (request < B.requests self.bytes.now) }
        ensures { telling_of result ≡ telling self.entry.bytes.now state request }
    {
        telling_at(self.bytes, self.width, state, request)
    }
}
