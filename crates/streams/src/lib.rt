// Standard input, read so that a read that fails does not pass for the end of the input, and what is written. No contract can say which bytes a read delivers:
// these say how many there are, where they are put, and that every other byte of the buffer is unchanged.
#![tactic(auto)]

ghost use Rattle.std.specs.Prelude.{◌≡◌, ℕ, List, ◌+◌, ◌≤◌, length, OnOk};
ghost use Rattle.std.specs.Borrow.{Bor, MutBor};
ghost use Rattle.streams.specs.Input.{read_answer, Came, Filled, Answered};

use std::error::Error;
use std::io::{Print, Read, Write};
use std::{fmt, io};

// Which stream failed: standard input could not be read, or standard output not be written in full.
#[derive(Clone, Copy, Debug, PartialEq, Eq)]
pub enum StreamError {
    Unread,
    Unwritten,
}

impl fmt::Display for StreamError {
    fn fmt<W: fmt::Write>(&self, f: &mut fmt::Formatter<W>) -> fmt::Result {
        match self {
            StreamError::Unread => write!(f, "standard input could not be read"),
            StreamError::Unwritten => write!(f, "standard output could not be written in full"),
        }
    }
}

impl Error for StreamError {}

// What the answer of a read says: an error that it failed, and 0 bytes that the input has ended.
fn told(got: io::Result<usize>) -> Result<usize, StreamError>
    ensures { result ≡ read_answer got }
{
    got.map_err(|_| StreamError::Unread)
}

// One read of as many bytes as the array has, put into the buffer from a place on. They go by way of the array, since of a slice that a read has borrowed nothing is
// known afterwards.
#[tactic(auto, using(std::proofs::lemmas::Slice::overwrites))]
fn read_by(
    rt: &HostRuntime,
    array: &mut [u8],
    buffer: &mut [u8],
    at: usize,
) -> Result<usize, StreamError>
    requires { at + length array.old ≤ length buffer.old }
    ensures { Came result at buffer.old buffer.new }
{
    let came = told(rt.stdin().read(array))?;
    buffer[at..at + came].copy_from_slice(&array[..came]);
    Ok(came)
}

// One read into the buffer from a place on.
fn read_some(rt: &HostRuntime, buffer: &mut [u8], at: usize) -> Result<usize, StreamError>
    requires { at ≤ length buffer.old }
    ensures { Came result at buffer.old buffer.new }
{
    let mut array = [0u8; 4096];
    let room = (buffer.len() - at).min(4096);
    read_by(rt, &mut array[..room], buffer, at)
}

// Reads standard input until the buffer is full, the input ends or a read fails. The bytes go to the front of the buffer, and those after them are unchanged. A read that a
// signal interrupts before it moves a byte is one that failed.
#[tactic(auto, using(crate::proofs::Pieces::then))]
pub fn read_input(rt: &HostRuntime, buffer: &mut [u8]) -> Result<usize, StreamError>
    ensures { Filled result buffer.old buffer.new }
{
    let mut length = 0;
    // no count by hand: a turn moves on by as many bytes as one read brought
    while length < buffer.len() {
        let came = read_some(rt, buffer, length)?;
        if came == 0 {
            break;
        }
        length += came;
    }
    Ok(length)
}

// Writes a text to standard output.
pub fn write_output(rt: &HostRuntime, text: &[u8]) -> Result<(), StreamError> {
    rt.stdout()
        .write_all(text)
        .map_err(|_| StreamError::Unwritten)
}

// Reads standard input, and writes the text for it, which the function puts at the front of the buffer. Where the input cannot be read the function is not called.
pub fn answer_input<F: Fn(&[u8], &mut [u8]) -> usize>(
    rt: &HostRuntime,
    input: &mut [u8],
    text: &mut [u8],
    put_text: F,
) -> Result<(), StreamError>
    requires callable { F.IsAlwaysCallable put_text }
    requires fits { (read : Bor (List ℕ)) (buffer after : MutBor (List ℕ)) (end : ℕ) → F.post put_text read buffer end after → end ≤ length buffer.now }
    ensures { OnOk result (Answered (F.post put_text) input.new text.old text.new) }
{
    let length = read_input(rt, input)?;
    let end = put_text(&input[..length], text);
    write_output(rt, &text[..end])
}

// Writes a line to standard error. Returns false, for a caller that could not go on. Where that fails too there is nobody left to tell.
pub fn report(rt: &HostRuntime, line: &[u8]) -> bool {
    let _ = rt.stderr().write_all(line);
    false
}

// The same for what an error shows, with the end of the line after it.
pub fn report_error<D: fmt::Display + Drop>(rt: &HostRuntime, error: D) {
    let _ = rt.eprintln(error);
}
