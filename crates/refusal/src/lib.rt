// The refusals: what turns a call down, with document 01's number of each. The conditions stand in definitions/specs: those on a file and on books in Refusal.antt,
// the others (1, 16 and 18) in the file of each call.
#![tactic(auto)]

ghost use Rattle.std.specs.Prelude.{◌≡◌};

use std::error::Error;
use std::fmt;

#[derive(Clone, Copy, Debug, PartialEq, Eq, Hash)]
pub enum Refusal {
    ShortBuffer = 1,
    ShortPolicy = 2,
    PolicyMark = 3,
    PolicyVersion = 4,
    PolicyRange = 5,
    PolicyLength = 6,
    ValueCount = 7,
    Mask = 8,
    RuleValue = 9,
    Valuations = 10,
    Situations = 11,
    BookHeader = 12,
    BookLayout = 13,
    BookEntry = 14,
    Frames = 15,
    NotInBook = 16,
    Start = 17,
    UnknownOutcome = 18,
}

impl Refusal {
    ghost use Rattle.refusal.specs.Refused.{number_of};

    // Document 01's number.
    pub fn number(self) -> u8
        ensures { result ≡ number_of self }
    {
        self as u8
    }
}

impl fmt::Display for Refusal {
    fn fmt<W: fmt::Write>(&self, f: &mut fmt::Formatter<W>) -> fmt::Result {
        f.write_str(match self {
            Refusal::ShortBuffer => "a lent buffer is too short",
            Refusal::ShortPolicy => "the policy has under 9 bytes",
            Refusal::PolicyMark => "the policy's mark is not POL",
            Refusal::PolicyVersion => "the policy's version is neither 1 nor 2",
            Refusal::PolicyRange =>
                "events are over 8, fields not 1 to 4, variables over 4, or rules over 32",
            Refusal::PolicyLength =>
                "the policy's length does not follow from its version and its first numbers",
            Refusal::ValueCount =>
                "a value count is outside 1 to 16, or there are over 64 requests",
            Refusal::Mask => "a mask has no bit set, or one at or above its field's count",
            Refusal::RuleValue => "a decision, test or change is outside its values",
            Refusal::Valuations => "there are over 64 valuations of the variables",
            Refusal::Situations => "over 127 situations are reached",
            Refusal::BookHeader => "the book has under 12 bytes, or another mark or version",
            Refusal::BookLayout =>
                "a number of the book's header is outside its range, or its length does not follow from them",
            Refusal::BookEntry => "an entry is above the number of states, or 0 for an event",
            Refusal::Frames => "the two books differ in their events or value counts",
            Refusal::NotInBook =>
                "the book has no such state, request or code, or the step is not possible",
            Refusal::Start => "a starting value is above 63",
            Refusal::UnknownOutcome => "the outcome is above 3",
        })
    }
}

impl Error for Refusal {}
