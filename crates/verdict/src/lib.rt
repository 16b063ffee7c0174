// The verdict on a book: three findings over all histories possible in it. Row 1 (the buffers) is decided here; stated in definitions/specs/Verdict.antt.
#![tactic(auto)]

ghost use Rattle.std.specs.Prelude.{◌≡◌};
ghost use Rattle.definitions.specs.Verdict.{verdict_answer, verdict_buffers};
ghost use Rattle.verdict.specs.VerdictAnswer.{judged_answer, buffers_after};

use bookcheck::check;
use findings::{Findings, find_all};
use refusal::Refusal;

// The findings on a book. The history of each that is found goes to the front of its buffer; the bytes after it are unchanged, and so is all of the buffer
// of a finding that is none, and all of each on a refusal.
pub fn verdict(
    bytes: &[u8],
    conflict: &mut [u8],
    missing: &mut [u8],
    blocked: &mut [u8],
) -> Result<Findings, Refusal>
    ensures answer { judged_answer result conflict.new missing.new blocked.new
        ≡ verdict_answer bytes.now conflict.old missing.old blocked.old }
    ensures buffers { buffers_after conflict.new missing.new blocked.new
        ≡ verdict_buffers bytes.now conflict.old missing.old blocked.old }
{
    if conflict.len() < 128 {
        return Err(Refusal::ShortBuffer);
    }
    if missing.len() < 128 {
        return Err(Refusal::ShortBuffer);
    }
    if blocked.len() < 128 {
        return Err(Refusal::ShortBuffer);
    }
    let book = check(bytes)?;
    Ok(find_all(book.bytes, conflict, missing, blocked))
}
