// A list of steps played on a book: a line after the opening and after each step.
ghost use Rattle.std.specs.Prelude.{◌+◌, ◌*◌, ◌≤◌, length};
ghost use Rattle.text.specs.Put.{Put};
ghost use Rattle.play.specs.StateLines.{Stands};
ghost use Rattle.play.specs.Play.{step_lines, play_lines};

use crate::lines::put_answer;

// The lines after the opening and after each step, each of at most 512 bytes; none for the steps where the opening was refused.
pub fn put_play(book: &[u8], codes: &[u8], out: &mut [u8]) -> usize
    requires { 512 * (length codes.now + 1) ≤ length out.old }
    ensures { Put out.old 0 (play_lines book.now codes.now) out.new result × (result ≤ 512 * (length codes.now + 1)) }
{
    let opened = walk::open(book);
    let at = put_answer(out, 0, book, opened);
    match opened {
        Ok(start) => put_steps(book, start, codes, out, at),
        Err(_) => at,
    }
}

// The lines of the steps from a state of the book.
#[tactic(auto, using(crate::proofs::StepLines::step_stands))]
fn put_steps(book: &[u8], start: usize, codes: &[u8], out: &mut [u8], at: usize) -> usize
    requires { Stands book.now start × (at + 512 * length codes.now ≤ length out.old) }
    ensures { Put out.old at (step_lines book.now start codes.now) out.new result × (result ≤ at + 512 * length codes.now) }
{
    let mut state = start;
    let mut next = at;
    for &code in codes {
        let stepped = match walk::step(book, &mut state, usize::from(code)) {
            Ok(()) => Ok(state),
            Err(refusal) => Err(refusal),
        };
        next = put_answer(out, next, book, stepped);
    }
    next
}
