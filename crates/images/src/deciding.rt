// Which of the rules that fit a request apply, by arrays of one entry for each rule, and where they lead.
ghost use Rattle.std.specs.Prelude.{◌≡◌, ◌*◌, ◌<◌, ◌≤◌, max, length};
ghost use Rattle.definitions.specs.Situation.{empty_set};
ghost use Rattle.rules.specs.Arrays.{Tabled};
ghost use Rattle.images.specs.Choice.{with_decided, kept, with_target, Listed, Chosen, chosen_for};

use rules::sets;
use situation::Situation;

// The level and the decision of a rule.
#[derive(Clone, Copy, Default)]
pub struct Rank {
    pub level: usize,
    pub decision: usize,
}

// The set, and the target if the decision is d.
fn with_decided(set: Situation, decision: usize, d: usize, target: usize) -> Situation
    requires { target < 64 }
    ensures { result.set ≡ with_decided decision d target set.set }
{
    if decision == d { set.with(target) } else { set }
}

// The greatest level of some rules that fit, 0 if there are none, and where those of that level lead, accepting and rejecting.
#[derive(Clone, Copy)]
pub struct Choice {
    pub best: usize,
    pub accepted: Situation,
    pub rejected: Situation,
}

impl Choice {
    // The choice among no rules of this level.
    fn empty(best: usize) -> Choice
        ensures { (result.best ≡ best) × (result.accepted.set ≡ empty_set) × (result.rejected.set ≡ empty_set) }
    {
        Choice {
            best,
            accepted: Situation::EMPTY,
            rejected: Situation::EMPTY,
        }
    }

    // What a rule of this level leaves of the choice: nothing where its level is greater.
    fn kept(self, level: usize) -> Choice
        ensures { (result.best ≡ max self.best level)
            × (result.accepted.set ≡ kept self.best level self.accepted.set)
            × (result.rejected.set ≡ kept self.best level self.rejected.set) }
    {
        if self.best < level {
            return Choice::empty(level);
        }
        self
    }

    // The choice, and one rule more: of a greater level it takes the place of those before, of the same level it joins them.
    fn with_rule(self, level: usize, decision: usize, target: usize) -> Choice
        requires { target < 64 }
        ensures { (result.best ≡ max self.best level)
            × (result.accepted.set ≡ with_target self.best level decision 1 target self.accepted.set)
            × (result.rejected.set ≡ with_target self.best level decision 0 target self.rejected.set) }
    {
        if level < self.best {
            return self;
        }
        let before = self.kept(level);
        Choice {
            best: level,
            accepted: with_decided(before.accepted, decision, 1, target),
            rejected: with_decided(before.rejected, decision, 0, target),
        }
    }
}

// The choice among the rules that fit.
fn choose(fits: u64, ranks: &[Rank], targets: &[usize]) -> Choice
    requires { Listed fits ranks.now targets.now }
    ensures { Chosen fits ranks.now targets.now (length ranks.now) result }
{
    let mut choice = Choice::empty(0);
    let mut rest = fits;
    let mut k = 0;
    // a `while` over the bits of a word: it skips the rules that do not fit, and an iterator of its own would be no plainer
    while rest != 0 {
        let zeros = sets::lowest(rest);
        k += zeros;
        let rank = ranks[k];
        choice = choice.with_rule(rank.level, rank.decision, targets[k]);
        rest = (rest >> zeros) / 2;
        k += 1;
    }
    choice
}

// Entries 2r and 2r + 1 are where request r leads, accepted and rejected.
pub fn fill_requests(sets: &[u64], enabled: u64, ranks: &[Rank], targets: &[usize], row: &mut [u64])
    requires { Listed enabled ranks.now targets.now × (2 * length sets.now ≤ length row.old) }
    ensures { Tabled (2 * length sets.now) (chosen_for sets.now enabled ranks.now targets.now) row.new }
{
    for (r, matching) in sets.iter().enumerate() {
        let choice = choose(*matching & enabled, ranks, targets);
        row[2 * r] = choice.accepted.set;
        row[2 * r + 1] = choice.rejected.set;
    }
}
