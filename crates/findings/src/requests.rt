// The requests of a state of a book: those that are sought, by what the state tells of each.
ghost use Rattle.std.specs.Prelude.{◌≡◌, ◌≤◌};
ghost use Rattle.definitions.specs.Book as B;
ghost use Rattle.book.specs.Tellings.{telling_of};
ghost use Rattle.findings.specs.SoughtRequests.{sought_by, test_of, IsLowest};

use book::{Book, Telling};

// What is looked for: a request that may be both accepted and rejected, one that may be neither, or one that may be either. The definitions speak of each by its name
// (`sought_finding`), which a closure has not.
#[derive(Clone, Copy)]
pub enum Sought {
    Conflict,
    Missing,
    Answer,
}

// Whether a request of which a state tells this is sought.
fn is_sought(sought: Sought, told: Telling) -> bool
    ensures { result ≡ sought_by sought (telling_of told) }
{
    match sought {
        Sought::Conflict => told == Telling::Both,
        Sought::Missing => told == Telling::None,
        Sought::Answer => told != Telling::None,
    }
}

// The lowest request that is sought at a state.
pub fn lowest(book: Book, state: usize, sought: Sought) -> Option<usize>
    requires { (1 ≤ state) × (state ≤ B.states book.bytes.now) }
    ensures { IsLowest (B.requests book.entry.bytes.now) (test_of sought book.entry.bytes.now state) result }
{
    for r in 0..book.requests {
        if is_sought(sought, book.telling(state, r)) {
            return Some(r);
        }
    }
    None
}
