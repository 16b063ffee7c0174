// A book that rows 12 to 14 let pass, and what stands where in it.
ghost use Rattle.std.specs.Prelude.{◌≡◌, ◌≤◌, ◌<◌};
ghost use Rattle.definitions.specs.Book as B;
ghost use Rattle.definitions.specs.Checked.{BookPassed};
ghost use Rattle.book.specs.Rows.{row_of};

use crate::header;

// The bytes of a book, with the number of requests and the number of codes, which the bytes decide and every call needs.
#[derive(Clone, Copy)]
pub struct Book<'a> {
    pub bytes: &'a [u8],
    pub requests: usize,
    pub width: usize,
    pub ghost passed: { BookPassed bytes.now },
    pub ghost requests_are: { requests ≡ B.requests bytes.now },
    pub ghost width_is: { width ≡ B.width bytes.now },
}

impl<'a> Book<'a> {
    // The book in bytes that rows 12 to 14 let pass.
    pub fn new(bytes: &'a [u8]) -> Book<'a>
        requires { BookPassed bytes.now }
        ensures { result.bytes ≡ bytes.entry }
    {
        let requests = header::requests(bytes);
        Book {
            bytes,
            requests,
            width: header::width(bytes, requests),
        }
    }

    // E, the number of events.
    pub fn events(self) -> usize
        ensures { result ≡ B.events self.entry.bytes.now }
    {
        header::events(self.bytes)
    }

    // n, the number of states.
    pub fn states(self) -> usize
        ensures { result ≡ B.states self.entry.bytes.now }
    {
        header::states(self.bytes)
    }

    // Row s, with w entries.
    pub fn row(self, s: usize) -> &'a [u8]
        requires { (1 ≤ s) × (s ≤ B.states self.bytes.now) }
        ensures { result.now ≡ row_of self.entry.bytes.now s }
    {
        let start = 12 + (s - 1) * self.width;
        &self.bytes[start..start + self.width]
    }

    // Entry c of row s: the state after code c, 0 if it is not possible.
    pub fn entry(self, s: usize, c: usize) -> usize
        requires s_is_a_state { (1 ≤ s) × (s ≤ B.states self.bytes.now) }
        requires c_is_a_code { c < B.width self.bytes.now }
        ensures { result ≡ B.entry self.entry.bytes.now s c }
    {
        usize::from(self.bytes[12 + (s - 1) * self.width + c])
    }
}
