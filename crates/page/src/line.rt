// The line of a state. Each writer puts its columns into the line from a place on, leaves every other byte unchanged, and returns the place after them.
ghost use Rattle.std.specs.Prelude.{◌≡◌, [], ◌∷◌, ◌++◌, ◌+◌, ◌*◌, ◌≤◌, length, replicate};
ghost use Rattle.automaton.specs.Below.{list_below};
ghost use Rattle.definitions.specs.Answer.{written};
ghost use Rattle.definitions.specs.Book as B;
ghost use Rattle.definitions.specs.Page.{three_columns, request_column};
ghost use Rattle.definitions.specs.Characters.{blank};
ghost use Rattle.text.specs.Put.{Put};
ghost use Rattle.page.specs.LineColumns.{depth_columns, letter_by, letter_in, line_of};

use book::Book;
use text::{put, put_byte, put_decimal, put_digit, put_two_digits};

// A number below 1,000 in three columns, to the right.
fn put_number(line: &mut [u8], at: usize, n: usize) -> usize
    requires { at + 3 ≤ length line.old }
    ensures put { Put line.old at (three_columns n) line.new result }
    ensures value { result ≡ at + 3 }
{
    if n < 10 {
        let next = put(line, at, b"  ");
        return put_digit(line, next, n);
    }
    if n < 100 {
        let next = put_byte(line, at, b' ');
        return put_two_digits(line, next, n);
    }
    put_decimal(line, at, n)
}

// The length of the history of a state by its depth; dashes where no history leads to it.
fn put_length(line: &mut [u8], at: usize, depth: usize) -> usize
    requires { at + 3 ≤ length line.old }
    ensures put { Put line.old at (depth_columns depth) line.new result }
    ensures value { result ≡ at + 3 }
{
    if depth == 0 {
        return put(line, at, b"---");
    }
    put_number(line, at, depth - 1)
}

// The state's number and the length, each with a blank after it.
fn put_head(line: &mut [u8], state: usize, depth: usize) -> usize
    requires { 8 ≤ length line.old }
    ensures put { Put line.old 0 (three_columns state ++ (blank ∷ (depth_columns depth ++ (blank ∷ [])))) line.new result }
    ensures value { result ≡ 8 }
{
    let first = put_number(line, 0, state);
    let second = put_byte(line, first, b' ');
    let third = put_length(line, second, depth);
    put_byte(line, third, b' ')
}

// The letter of a request by its two entries in a row. There is no branch, so that the compiler makes vector code of the loop below.
fn letter(accept: u8, reject: u8) -> u8
    ensures { result ≡ letter_by accept reject }
{
    let unaccepted = if reject == 0 { b'.' } else { b'R' };
    let accepted = if reject == 0 { b'A' } else { b'B' };
    if accept == 0 { unaccepted } else { accepted }
}

// A letter for each request, whose entries stand in the row from its front on.
fn put_letters(line: &mut [u8], at: usize, row: &[u8], requests: usize) -> usize
    requires { (at + requests ≤ length line.old) × (2 * requests ≤ length row.now) }
    ensures put { Put line.old at (list_below requests (letter_in row.now)) line.new result }
    ensures value { result ≡ at + requests }
{
    for r in 0..requests {
        line[at + r] = letter(row[2 * r], row[2 * r + 1]);
    }
    at + requests
}

// So many blanks.
fn put_blanks(line: &mut [u8], at: usize, n: usize) -> usize
    requires { at + n ≤ length line.old }
    ensures put { Put line.old at (replicate n blank) line.new result }
    ensures value { result ≡ at + n }
{
    let end = at + n;
    line[at..end].fill(b' ');
    end
}

// The 64 columns of the requests: a letter for each, and blanks beyond them. All are blank first, since a fixed number of blanks takes no loop.
fn put_requests(line: &mut [u8], at: usize, book: Book, state: usize) -> usize
    requires state_is { (1 ≤ state) × (state ≤ B.states book.bytes.now) }
    requires room { at + 64 ≤ length line.old }
    ensures put { Put line.old at (list_below 64 (request_column book.entry.bytes.now state)) line.new result }
    ensures value { result ≡ at + 64 }
{
    let end = put_blanks(line, at, 64);
    let row = book.row(state);
    let first = book.events();
    put_letters(line, at, &row[first..], book.requests);
    end
}

// The line of a state at the front of the buffer. The bytes after it are unchanged.
pub fn write_line(line: &mut [u8], book: Book, state: usize, depth: usize)
    requires state_is { (1 ≤ state) × (state ≤ B.states book.bytes.now) }
    requires room { 73 ≤ length line.old }
    ensures { line.new ≡ written (line_of book.entry.bytes.now state depth) line.old }
{
    let head = put_head(line, state, depth);
    let end = put_requests(line, head, book, state);
    put_byte(line, end, b'\n');
}
