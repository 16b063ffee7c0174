// A page of the book for the file room: one line a state. Row 1 (the buffer) is decided here; stated in definitions/specs/Page.antt.
#![tactic(auto)]

ghost use Rattle.std.specs.Prelude.{◌≡◌, ◌*◌, ◌≤◌, ◌<◌, length};
ghost use Rattle.definitions.specs.Answer.{written};
ghost use Rattle.definitions.specs.Book as B;
ghost use Rattle.definitions.specs.Page.{page_answer, page_buffer, page as page_of};
ghost use Rattle.page.specs.Depths.{DepthsOf};
ghost use Rattle.page.specs.PageAnswer.{paged_answer};

mod depths;
mod line;

use book::Book;
use bookcheck::check;
use depths::find_depths;
use line::write_line;
use refusal::Refusal;

// Writes the page of a book to the front of the buffer and returns its length; the bytes after it are unchanged, and so is all of the buffer on a refusal.
pub fn page(bytes: &[u8], page: &mut [u8]) -> Result<usize, Refusal>
    ensures answer { paged_answer result ≡ page_answer bytes.now page.old }
    ensures page_after { page.new ≡ page_buffer bytes.now page.old }
{
    if page.len() < 9271 {
        return Err(Refusal::ShortBuffer);
    }
    let book = check(bytes)?;
    Ok(write_page(book, page))
}

// A call that no row refuses.
fn write_page(book: Book, page: &mut [u8]) -> usize
    requires { 9271 ≤ length page.old }
    ensures value { result ≡ B.states book.entry.bytes.now * 73 }
    ensures page_after { page.new ≡ written (page_of book.entry.bytes.now) page.old }
{
    let mut depths = [0; 128];
    find_depths(book, &mut depths);
    write_lines(book, &depths, page)
}

// The lines of all states, one after another, and how many bytes they have.
fn write_lines(book: Book, depths: &[u8], page: &mut [u8]) -> usize
    requires depths_of { (B.states book.bytes.now < length depths.now) × DepthsOf book.bytes.now depths.now }
    requires room { 9271 ≤ length page.old }
    ensures value { result ≡ B.states book.entry.bytes.now * 73 }
    ensures page_after { page.new ≡ written (page_of book.entry.bytes.now) page.old }
{
    let n = book.states();
    for i in 0..n {
        let at = i * 73;
        let depth = usize::from(depths[i + 1]);
        write_line(&mut page[at..], book, i + 1, depth);
    }
    n * 73
}
