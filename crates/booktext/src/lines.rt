// The lines of a book: its number of states and its findings. A history has at most 128 codes, each of three digits and a blank, which bounds each line.
ghost use Rattle.std.specs.Prelude.{◌≡◌, [], ◌∷◌, ◌++◌, ◌+◌, ◌*◌, ◌≤◌, length};
ghost use Rattle.std.proofs.Math.Option.{some};
ghost use Rattle.definitions.specs.Characters.{newline};
ghost use Rattle.definitions.specs.Shelf.{line, history_text, found_text, blocked_text, blocked_word, book_text};
ghost use Rattle.definitions.specs.Verdict.{findings};
ghost use Rattle.findings.specs.FindingsOf.{found_of, blocked_of};
ghost use Rattle.text.specs.Put.{Put};
ghost use Rattle.booktext.specs.FindingLines.{finding_lines};

use book::Book;
use findings::{Found, find_all};
use text::{first, put, put_byte, put_codes, put_decimal, put_number_line};

// The length of a history and its codes, to the end of the line.
fn put_history(out: &mut [u8], at: usize, history: &[u8]) -> usize
    requires { at + 4 * length history.now + 4 ≤ length out.old }
    ensures put { Put out.old at (history_text history.now ++ (newline ∷ [])) out.new result }
    ensures upper_bound { result ≤ at + 4 * length history.now + 4 }
{
    let next = put_decimal(out, at, history.len());
    let end = put_codes(out, next, history);
    put_byte(out, end, b'\n')
}

// A request and a history, to the end of the line.
#[tactic(auto, using(text::proofs::Puts::then))]
fn put_request(out: &mut [u8], at: usize, request: usize, history: &[u8]) -> usize
    requires { at + 4 * length history.now + 8 ≤ length out.old }
    ensures put { Put out.old at (found_text (some (record { request = request; history = history.now })) ++ (newline ∷ [])) out.new result }
    ensures upper_bound { result ≤ at + 4 * length history.now + 8 }
{
    let next = put_decimal(out, at, request);
    let start = put_byte(out, next, b' ');
    put_history(out, start, history)
}

// The line of conflict or of missing: its word, which ends in a blank, and the request and the history at the front of the buffer, or that there is none.
fn put_found(out: &mut [u8], at: usize, word: &[u8], finding: Option<Found>, buffer: &[u8]) -> usize
    requires { (length buffer.now ≤ 128) × (length word.now ≤ 9) × (at + 529 ≤ length out.old) }
    ensures put { Put out.old at (word.now ++ (found_text (found_of finding buffer.now) ++ (newline ∷ []))) out.new result }
    ensures upper_bound { result ≤ at + 529 }
{
    let next = put(out, at, word);
    match finding {
        None => put(out, next, b"-\n"),
        Some(found) => put_request(out, next, found.request, first(buffer, found.length)),
    }
}

// The line of blocked: the history at the front of the buffer, or that there is none.
#[tactic(auto, using(text::proofs::Puts::then))]
fn put_blocked(out: &mut [u8], at: usize, blocked: Option<usize>, buffer: &[u8]) -> usize
    requires { (length buffer.now ≤ 128) × (at + 529 ≤ length out.old) }
    ensures put { Put out.old at (line blocked_word (blocked_text (blocked_of blocked buffer.now))) out.new result }
    ensures upper_bound { result ≤ at + 529 }
{
    let next = put(out, at, b"blocked ");
    match blocked {
        None => put(out, next, b"-\n"),
        Some(length) => put_history(out, next, first(buffer, length)),
    }
}

// The lines of the findings on a book.
fn put_findings(out: &mut [u8], at: usize, book: Book) -> usize
    requires { at + 1587 ≤ length out.old }
    ensures put { Put out.old at (finding_lines (findings book.entry.bytes.now)) out.new result }
    ensures upper_bound { result ≤ at + 1587 }
{
    let mut conflict = [0u8; 128];
    let mut missing = [0u8; 128];
    let mut blocked = [0u8; 128];
    let found = find_all(book.bytes, &mut conflict, &mut missing, &mut blocked);
    let next = put_found(out, at, b"conflict ", found.conflict, &conflict);
    let last = put_found(out, next, b"missing ", found.missing, &missing);
    put_blocked(out, last, found.blocked, &blocked)
}

// The lines of a book.
pub fn put_book(out: &mut [u8], book: Book) -> usize
    requires { 2048 ≤ length out.old }
    ensures put { Put out.old 0 (book_text book.entry.bytes.now) out.new result }
    ensures upper_bound { result ≤ 2048 }
{
    let next = put_number_line(out, 0, b"states ", book.states());
    put_findings(out, next, book)
}
