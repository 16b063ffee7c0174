// Reads a book and a list of steps from standard input, plays the steps on the opened book, and writes after the opening and after each step the state and what
// is told of each request, or the number of a refusal. The input: the length of the book in two bytes, the high byte first, the book, and one byte for each step.
// Where the input cannot be read nothing is played; that, and output that could not be written, is reported on standard error.
#![tactic(auto)]

mod input;
mod lines;
mod steps;

use input::play;
use streams::{StreamError, answer_input, report};

fn main(rt: HostRuntime) {
    let mut input = [0u8; 17541];
    let mut text = [0u8; 131072];
    match answer_input(&rt, &mut input, &mut text, play) {
        Ok(()) => {}
        Err(StreamError::Unread) => {
            report(
                &rt,
                b"play: standard input could not be read; nothing was played\n",
            );
        }
        Err(StreamError::Unwritten) => {
            report(&rt, b"play: standard output could not be written in full\n");
        }
    }
}
