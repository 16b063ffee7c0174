// Situations: a set of valuations as the bits of a word.
#![tactic(auto)]

ghost use Rattle.std.specs.Prelude.{◌≡◌, ◌<◌};
ghost use Rattle.definitions.specs.Bytes.{bit};
ghost use Rattle.definitions.specs.Situation.{empty_set, insert, union, is_empty};

// Bit v of the set says that valuation v is in it. The empty set is no situation: it stands for a step that is not possible.
#[derive(Clone, Copy, Debug, Default, PartialEq, Eq, Hash)]
pub struct Situation {
    pub set: u64,
}

impl Situation {
    pub const EMPTY: Situation = Situation { set: 0 };

    // The situation before any step: its one valuation is the policy's start.
    pub fn start(valuation: usize) -> Situation
        requires { valuation < 64 }
        ensures { result.set ≡ insert valuation empty_set }
    {
        Situation::empty().with(valuation)
    }

    // Beside `EMPTY`, since a constant has no contract: this one says which set it is.
    pub fn empty() -> Situation
        ensures { result.set ≡ empty_set }
    {
        Situation::EMPTY
    }

    pub fn is_empty(self) -> bool
        ensures { result ≡ is_empty self.set }
    {
        self.set == 0
    }

    pub fn has(self, v: usize) -> bool
        requires { v < 64 }
        ensures { result ≡ bit self.set v }
    {
        (self.set >> v) % 2 == 1
    }

    pub fn with(self, v: usize) -> Situation
        requires { v < 64 }
        ensures { result.set ≡ insert v self.set }
    {
        Situation {
            set: self.set | (1u64 << v),
        }
    }

    pub fn plus(self, other: Situation) -> Situation
        ensures { result.set ≡ union self.set other.set }
    {
        Situation {
            set: self.set | other.set,
        }
    }
}
