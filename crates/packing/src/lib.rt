// Answers packed into one number. A history is packed as its length, and the contract holds for every buffer that has room for that history.
#![tactic(auto)]

ghost use Rattle.std.specs.Prelude.{◌≡◌, List, ℕ, ◌*◌, ◌^◌, ◌<◌, length, IfOk, MatchResult};
ghost use Rattle.build.specs.BuiltAnswer.{built_answer};
ghost use Rattle.findings.specs.FindingsOf.{found_of, blocked_of, findings_of};
ghost use Rattle.verdict.specs.VerdictAnswer.{judged_answer};
ghost use Rattle.verdict.specs.AnswerBounds.{BlockedWithin, FindingWithin, FindingsWithin, JudgedWithin};
ghost use Rattle.way.specs.ShownAnswer.{shown_answer};
ghost use Rattle.compare.specs.ComparedAnswer.{compared_answer};
ghost use Rattle.refusal.specs.Refused.{number_of};
ghost use Rattle.packing.specs.Packing.{packed, equal_or_not, book_length, findings_value, found_value, history_length, length_or_none};
ghost use Rattle.packing.specs.PackedBounds.{LengthWithin, HistoryWithin};

use findings::{Findings, Found};
use refusal::Refusal;

// The number of a refusal, or 256 times a value.
fn pack<T, F: FnOnce(T) -> u64>(answer: Result<T, Refusal>, value: F) -> u64
    requires callable { IfOk answer (λ x. F.pre value x) }
    requires small { IfOk answer (λ x. (v : ℕ) → F.post value x v → v < 2 ^ 56) }
    ensures { MatchResult answer (λ x. (v : ℕ) × F.post value x v × (result ≡ 256 * v)) (λ refusal. result ≡ number_of refusal) }
{
    match answer {
        Ok(x) => 256 * value(x),
        Err(refusal) => u64::from(refusal.number()),
    }
}

// The number for what build or page returns: the value is the length of what was written.
pub fn pack_length(answer: Result<usize, Refusal>) -> u64
    requires { LengthWithin 17284 answer }
    ensures { result ≡ packed book_length (built_answer answer) }
{
    pack(answer, |length| length as u64)
}

// The value for a history that may be none: 0, else one more than its length.
fn length_or_none(found: Option<usize>) -> u64
    requires { BlockedWithin 128 found }
    ensures value { (buffer : List ℕ) → BlockedWithin (length buffer) found → result ≡ length_or_none (blocked_of found buffer) }
    ensures byte { result < 2 ^ 8 }
{
    match found {
        None => 0,
        Some(length) => length as u64 + 1,
    }
}

// The number for what way returns.
pub fn pack_way(answer: Result<Option<usize>, Refusal>) -> u64
    requires { HistoryWithin 128 answer }
    ensures { (buffer : List ℕ) → HistoryWithin (length buffer) answer → result ≡ packed length_or_none (shown_answer answer buffer) }
{
    pack(answer, |found| length_or_none(found))
}

// The value for conflict or missing: that for its history, and the request in the next eight bits.
fn finding_value(finding: Option<Found>) -> u64
    requires { FindingWithin 128 finding }
    ensures value { (buffer : List ℕ) → FindingWithin (length buffer) finding → result ≡ found_value (found_of finding buffer) }
    ensures two_bytes { result < 2 ^ 16 }
{
    match finding {
        None => 0,
        Some(found) => found.length as u64 + 1 + 256 * (found.request as u64),
    }
}

// The three findings in one value; x, y and z stand for the buffers of conflict, missing and blocked.
fn findings_value(findings: Findings) -> u64
    requires { FindingsWithin 128 128 128 findings }
    ensures value { (x y z : List ℕ) → FindingsWithin (length x) (length y) (length z) findings
        → result ≡ findings_value (findings_of findings x y z) }
    ensures five_bytes { result < 2 ^ 40 }
{
    let first = finding_value(findings.conflict);
    let second = 65536 * finding_value(findings.missing);
    let third = 4294967296 * length_or_none(findings.blocked);
    first + second + third
}

// The number for what verdict returns.
pub fn pack_verdict(answer: Result<Findings, Refusal>) -> u64
    requires { JudgedWithin 128 128 128 answer }
    ensures { (x y z : List ℕ) → JudgedWithin (length x) (length y) (length z) answer → result ≡ packed findings_value (judged_answer answer x y z) }
{
    pack(answer, |findings| findings_value(findings))
}

// The number for what compare returns.
pub fn pack_compare(answer: Result<Option<usize>, Refusal>) -> u64
    requires { HistoryWithin 256 answer }
    ensures { (buffer : List ℕ) → HistoryWithin (length buffer) answer → result ≡ packed history_length (compared_answer answer buffer) }
{
    pack(answer, |found| found.unwrap_or(0) as u64)
}

// The number for what the test for equal bytes returns.
pub fn pack_same_bytes(same: bool) -> u64
    ensures { result ≡ equal_or_not same }
{
    u64::from(same)
}
