// The texts of a book: the lines of its findings, or a line of its bytes.
#![tactic(auto)]

ghost use Rattle.std.specs.Prelude.{◌≡◌, ◌≤◌, length};
ghost use Rattle.text.specs.Put.{Put};
ghost use Rattle.booktext.specs.Forms.{text_of, room_of};

mod hex;
mod lines;

use book::Book;
use hex::put_hex_line;
use lines::put_book;

// Which text is written of a book. It decides the room and the text: as a closure it would need the room beside it.
#[derive(Clone, Copy, Debug, PartialEq, Eq)]
pub enum Form {
    Findings,
    Bytes,
}

impl Form {
    // The room that every such text has enough of.
    pub fn room(self) -> usize
        ensures { result ≡ room_of self }
    {
        match self {
            Form::Findings => 2048,
            Form::Bytes => 34569,
        }
    }
}

// The text of a book.
pub fn put_text(out: &mut [u8], form: Form, book: Book) -> usize
    requires { room_of form ≤ length out.old }
    ensures put { Put out.old 0 (text_of form book.entry.bytes.now) out.new result }
    ensures upper_bound { result ≤ room_of form }
{
    match form {
        Form::Findings => put_book(out, book),
        Form::Bytes => put_hex_line(out, book.bytes),
    }
}
