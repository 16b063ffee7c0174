// Rows 12 to 14: what refuses a book. Each row has a test of its own; stated in definitions/specs/Refusal.antt (`book_checks`).
#![tactic(auto)]

ghost use Rattle.std.specs.Prelude.{◌≡◌, true, false, ◌+◌, ◌-◌, ◌*◌, ◌≤◌, eqb, length, MatchOption, IfOk};
ghost use Rattle.automaton.specs.Below.{all_below, list_below};
ghost use Rattle.definitions.specs.Book as B;
ghost use Rattle.definitions.specs.Refusal.{is_marked, count_holds, header_holds, layout_holds, entries_hold, book_refusal};
ghost use Rattle.bookcheck.specs.Entries.{greatest as greatest_of, is_possible, events_possible, lesser};
ghost use Rattle.definitions.specs.Checked.{BookHeader, BookLayout};
ghost use Rattle.refusal.specs.Refused.{refusal_in};

use book::{Book, header};
use refusal::Refusal;

// The bytes that row 13 lets pass, with the number of requests and the number of codes.
#[derive(Clone, Copy)]
struct Layout<'a> {
    bytes: &'a [u8],
    requests: usize,
    width: usize,
    ghost laid_out: { BookLayout bytes.now },
    ghost requests_are: { requests ≡ B.requests bytes.now },
    ghost width_is: { width ≡ B.width bytes.now },
}

// A book as it is read once it has passed the checks, or the refusal by the lowest row of 12 to 14 that turns the bytes down.
pub fn check(bytes: &[u8]) -> Result<Book<'_>, Refusal>
    ensures refusal { refusal_in result ≡ book_refusal bytes.now }
    ensures bytes { IfOk result (λ book. book.bytes ≡ bytes.entry) }
{
    if !is_marked(bytes) {
        return Err(Refusal::BookHeader);
    }
    check_marked(bytes)
}

// The same where row 12 lets the bytes pass. It stays apart, so that a file that is no book is turned down before any register is saved.
#[inline(never)]
fn check_marked(bytes: &[u8]) -> Result<Book<'_>, Refusal>
    requires { is_marked bytes.now ≡ true }
    ensures refusal { refusal_in result ≡ book_refusal bytes.now }
    ensures bytes { IfOk result (λ book. book.bytes ≡ bytes.entry) }
{
    let Some(layout) = lay_out(bytes) else {
        return Err(Refusal::BookLayout);
    };
    if !entries_hold(layout) {
        return Err(Refusal::BookEntry);
    }
    Ok(Book {
        bytes,
        requests: layout.requests,
        width: layout.width,
    })
}

// Row 12: the length of the header, the mark and the version.
fn is_marked(bytes: &[u8]) -> bool
    ensures { result ≡ is_marked bytes.now }
{
    bytes.len() >= 12 && bytes.starts_with(b"BOK\x00\x01")
}

// Row 13: the header, and the exact length.
#[tactic(auto, using(crate::proofs::Checks::row_13))]
fn lay_out(bytes: &[u8]) -> Option<Layout<'_>>
    requires { 12 ≤ length bytes.now }
    ensures { MatchOption result (layout_holds bytes.now ≡ false) (λ layout. (layout_holds bytes.now ≡ true) × (layout.bytes ≡ bytes.entry)) }
{
    let requests = requests_in_header(bytes)?;
    let width = header::width(bytes, requests);
    if !is_exact(bytes, width) {
        return None;
    }
    Some(Layout {
        bytes,
        requests,
        width,
    })
}

// Whether the rows of a book whose header holds end where the bytes do.
fn is_exact(bytes: &[u8], width: usize) -> bool
    requires { (12 ≤ length bytes.now) × BookHeader bytes.now × (width ≡ B.width bytes.now) }
    ensures { result ≡ eqb (length bytes.now) (12 + B.states bytes.now * B.width bytes.now) }
{
    bytes.len() == 12 + header::states(bytes) * width
}

// The ranges and the absent counts, by the first 12 bytes. Where they hold, Q, the number of requests.
fn requests_in_header(bytes: &[u8]) -> Option<usize>
    requires { 12 ≤ length bytes.now }
    ensures { MatchOption result (header_holds bytes.now ≡ false) (λ q. (header_holds bytes.now ≡ true) × (q ≡ B.requests bytes.now)) }
{
    if header::events(bytes) > 8 {
        return None;
    }
    if !(1..=4).contains(&bytes[6]) {
        return None;
    }
    if !counts_hold(bytes) {
        return None;
    }
    if !(1..=127).contains(&header::states(bytes)) {
        return None;
    }
    let requests = header::requests(bytes);
    if requests > 64 {
        return None;
    }
    Some(requests)
}

// Whether each of the four counts is in its range where it is present, and 0 where it is absent.
fn counts_hold(bytes: &[u8]) -> bool
    requires { 12 ≤ length bytes.now }
    ensures { result ≡ all_below 4 (count_holds bytes.now) }
{
    for f in 0..4 {
        if !count_holds(bytes, f) {
            return false;
        }
    }
    true
}

fn count_holds(bytes: &[u8], f: usize) -> bool
    requires { (12 ≤ length bytes.now) × (f ≤ 3) }
    ensures { result ≡ count_holds bytes.now f }
{
    let count = bytes[7 + f];
    if f < usize::from(bytes[6]) {
        (1..=16).contains(&count)
    } else {
        count == 0
    }
}

// Row 14. The greatest entry is found without a branch, since every call takes this row.
fn entries_hold(layout: Layout) -> bool
    ensures { result ≡ entries_hold layout.entry.bytes.now }
{
    let n = header::states(layout.bytes);
    if n < usize::from(greatest(layout.bytes)) {
        return false;
    }
    events_possible(layout)
}

// The greatest entry of all rows.
fn greatest(bytes: &[u8]) -> u8
    requires { 12 ≤ length bytes.now }
    ensures { result ≡ greatest_of bytes.now (length bytes.now - 12) }
{
    let mut most = 0u8;
    for &x in &bytes[12..] {
        most = most.max(x);
    }
    most
}

// Whether every event is possible, in every row.
fn events_possible(layout: Layout) -> bool
    ensures { result ≡ events_possible layout.entry.bytes.now }
{
    if layout.width < 8 {
        possible_by_rows(layout)
    } else {
        possible_by_columns(layout)
    }
}

// The same, row by row.
fn possible_by_rows(layout: Layout) -> bool
    ensures { result ≡ events_possible layout.entry.bytes.now }
{
    let e = header::events(layout.bytes);
    for i in 0..header::states(layout.bytes) {
        if !all_possible(layout.bytes, 12 + i * layout.width, e) {
            return false;
        }
    }
    true
}

// The same by the least entry of each of the first eight columns, which is found for all eight at once and without a branch.
fn possible_by_columns(layout: Layout) -> bool
    requires { 8 ≤ layout.width }
    ensures { result ≡ events_possible layout.entry.bytes.now }
{
    let mut least = [255u8; 8];
    for i in 0..header::states(layout.bytes) {
        lower(&mut least, layout.bytes, 12 + i * layout.width);
    }
    all_possible(&least, 0, header::events(layout.bytes))
}

// Lowers each of eight bytes to the entry of its column in the row at byte `at`, where that is less.
fn lower(least: &mut [u8], bytes: &[u8], at: usize)
    requires { (length least.old ≡ 8) × (at + 8 ≤ length bytes.now) }
    ensures { least.new ≡ list_below 8 (lesser least.old bytes.now at) }
{
    for (c, y) in least.iter_mut().enumerate() {
        *y = (*y).min(bytes[at + c]);
    }
}

// Whether each of the first e entries from byte `at` on is a state, so that its code is possible.
fn all_possible(bytes: &[u8], at: usize, e: usize) -> bool
    requires { at + e ≤ length bytes.now }
    ensures { result ≡ all_below e (is_possible bytes.now at) }
{
    for &x in &bytes[at..at + e] {
        if x == 0 {
            return false;
        }
    }
    true
}
