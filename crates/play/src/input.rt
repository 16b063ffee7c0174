// The text for an input: a book and a list of steps are taken out of it, the book is opened, and a line is written after the opening and after each step.
ghost use Rattle.std.specs.Prelude.{◌≡◌, length, drop, ◌≤◌};
ghost use Rattle.text.specs.Room.{length_within, written_within};
ghost use Rattle.play.specs.Play.{play_text};

use crate::steps::put_play;
use text::{first, two_bytes};

// The text for an input. A buffer under 131,072 bytes gets nothing, and the answer is 0.
pub fn play(input: &[u8], out: &mut [u8]) -> usize
    ensures value { result ≡ length_within 131072 (play_text input.now) out.old }
    ensures out_after { out.new ≡ written_within 131072 (play_text input.now) out.old }
    ensures upper_bound { result ≤ length out.old }
{
    if out.len() < 131072 {
        return 0;
    }
    let rest = without(input, 2);
    let length = two_bytes(input);
    put_play(first(rest, length), first(without(rest, length), 255), out)
}

// What follows the first n bytes.
fn without(s: &[u8], n: usize) -> &[u8]
    ensures { result.now ≡ drop n s.now }
{
    &s[n.min(s.len())..]
}
