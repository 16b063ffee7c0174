// Reads a policy from standard input and writes the number of its book's states and the three findings, or the number that refuses it. Of a longer input the first
// 1,024 bytes are judged. Where the input cannot be read nothing is judged; that, and output that could not be written, is reported on standard error.
#![tactic(auto)]

ghost use Rattle.std.specs.Prelude.{◌≡◌, ◌≤◌, length};
ghost use Rattle.definitions.specs.Shelf.{shelf_text};
ghost use Rattle.text.specs.Room.{length_within, written_within};

use booktext::Form;
use policytext::policy_text;
use streams::{StreamError, answer_input, report};
use text::first;

// The text for an input, at the front of the buffer, and the text's length. The bytes after the text are unchanged. Where the buffer is under 2,048 bytes the
// answer is 0, and all of it is unchanged.
pub fn shelf(input: &[u8], out: &mut [u8]) -> usize
    ensures value { result ≡ length_within 2048 (shelf_text input.now) out.old }
    ensures out_after { out.new ≡ written_within 2048 (shelf_text input.now) out.old }
    ensures upper_bound { result ≤ length out.old }
{
    policy_text(first(input, 1024), Form::Findings, out)
}

fn main(rt: HostRuntime) {
    let mut input = [0u8; 1024];
    let mut text = [0u8; 2048];
    match answer_input(&rt, &mut input, &mut text, shelf) {
        Ok(()) => {}
        Err(StreamError::Unread) => {
            report(
                &rt,
                b"shelf: standard input could not be read; nothing was judged\n",
            );
        }
        Err(StreamError::Unwritten) => {
            report(
                &rt,
                b"shelf: standard output could not be written in full\n",
            );
        }
    }
}
