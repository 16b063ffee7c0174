// The line that is written after the opening and after each step: the state and what is told of each request, or the number of a refusal.
// The book's bytes and the state are two parameters, as `walk` takes them.
ghost use Rattle.std.specs.Prelude.{◌≡◌, ◌+◌, ◌≤◌, length, IfOk};
ghost use Rattle.definitions.specs.Book as B;
ghost use Rattle.text.specs.Put.{Put};
ghost use Rattle.book.specs.Tellings.{telling_of};
ghost use Rattle.refusal.specs.Refused.{answer_in};
ghost use Rattle.play.specs.StateLines.{Stands, telling_text, tellings_text, state_line, result_line};

use book::Telling;
use book::header::requests;
use refusal::Refusal;
use text::{put, put_byte, put_decimal, put_number_line};

// What is told of a request, after a blank.
fn put_telling(out: &mut [u8], at: usize, told: Result<Telling, Refusal>) -> usize
    requires { at + 7 ≤ length out.old }
    ensures put { Put out.old at (telling_text (answer_in telling_of told)) out.new result }
    ensures upper_bound { result ≤ at + 7 }
{
    match told {
        Err(_) => at,
        Ok(Telling::None) => put(out, at, b" none"),
        Ok(Telling::Accept) => put(out, at, b" accept"),
        Ok(Telling::Reject) => put(out, at, b" reject"),
        Ok(Telling::Both) => put(out, at, b" both"),
    }
}

// What is told of each request, of which there are at most 64.
fn put_tellings(out: &mut [u8], at: usize, book: &[u8], state: usize) -> usize
    requires { Stands book.now state × (at + 448 ≤ length out.old) }
    ensures put { Put out.old at (tellings_text book.now state (B.requests book.now)) out.new result }
    ensures upper_bound { result ≤ at + 448 }
{
    let mut next = at;
    for request in 0..requests(book) {
        next = put_telling(out, next, walk::tell(book, state, request));
    }
    next
}

// The line of a state: the state, and what is told of each request.
fn put_state(out: &mut [u8], at: usize, book: &[u8], state: usize) -> usize
    requires { Stands book.now state × (at + 452 ≤ length out.old) }
    ensures { Put out.old at (state_line book.now state) out.new result × (result ≤ at + 452) }
{
    let next = put_decimal(out, at, state);
    let end = put_tellings(out, next, book, state);
    put_byte(out, end, b'\n')
}

// The line for a call on an opened book, by its answer: the state that the book is at, or the refusal.
pub fn put_answer(out: &mut [u8], at: usize, book: &[u8], answer: Result<usize, Refusal>) -> usize
    requires { IfOk answer (λ state. Stands book.now state) × (at + 512 ≤ length out.old) }
    ensures { Put out.old at (result_line book.now answer) out.new result × (result ≤ at + 512) }
{
    match answer {
        Ok(state) => put_state(out, at, book, state),
        Err(refusal) => put_number_line(out, at, b"refused ", usize::from(refusal.number())),
    }
}
