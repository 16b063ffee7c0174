// Sets of rules: bit k of a word says that rule k is in the set.
ghost use Rattle.std.specs.Prelude.{◌≡◌, Bool, cond, List, ℕ, ◌<◌};
ghost use Rattle.std.specs.Int.Count.{count_trailing_zeros};
ghost use Rattle.definitions.specs.Policy.{rules, rule};
ghost use Rattle.definitions.specs.Situation.{insert};
ghost use Rattle.policy.specs.Sized.{TableOf, RuleOf};
ghost use Rattle.rules.specs.RuleSets.{passing};

use policy::{header, part};

// The set, and rule k if it passes.
pub fn with_passing(set: u64, k: usize, passes: bool) -> u64
    requires { k < 64 }
    ensures { result ≡ cond passes (insert k set) set }
{
    if passes { set | (1u64 << k) } else { set }
}

// The rules of the table that pass the test.
pub fn rules_passing<F: Fn(&[u8]) -> bool>(policy: &[u8], table: &[u8], passes: F) -> u64
    requires table { TableOf policy.now table.now }
    requires takes_rules { (q : _) → RuleOf policy.now q.now → F.pre passes q }
    ensures { (test : List ℕ → Bool) → ((q answer : _) → F.post passes q answer → answer ≡ test q.now) → result ≡ passing (rules policy.now) (λ k. test (rule policy.now k)) }
{
    let mut set = 0;
    for k in 0..header::rules(policy) {
        set = with_passing(set, k, passes(part::rule(policy, table, k)));
    }
    set
}

// The lowest rule of the set; 64 of the empty set.
pub fn lowest(set: u64) -> usize
    ensures { result ≡ count_trailing_zeros 64 set }
{
    u64::trailing_zeros(set) as usize
}
