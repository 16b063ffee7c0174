// Row 8: the masks of the rules.
ghost use Rattle.std.specs.Prelude.{◌≡◌, true, ◌<◌};
ghost use Rattle.definitions.specs.Policy.{fields};
ghost use Rattle.definitions.specs.Refusal.{counts_hold, mask_holds, rule_masks_hold, masks_hold};
ghost use Rattle.policy.specs.Sized.{TableOf, RuleOf};

use policy::{header, part, record};

fn mask_holds(policy: &[u8], rule: &[u8], f: usize) -> bool
    requires { RuleOf policy.now rule.now × (counts_hold policy.now ≡ true) × (f < fields policy.now) }
    ensures { result ≡ mask_holds policy.now rule.now f }
{
    let mask = record::mask(rule, f);
    1 <= mask && mask < 1 << header::count(policy, f)
}

fn rule_masks_hold(policy: &[u8], rule: &[u8]) -> bool
    requires { RuleOf policy.now rule.now × (counts_hold policy.now ≡ true) }
    ensures { result ≡ rule_masks_hold policy.now rule.now }
{
    (0..header::fields(policy)).all(|f| mask_holds(policy, rule, f))
}

pub fn masks_hold(policy: &[u8], table: &[u8]) -> bool
    requires { TableOf policy.now table.now × (counts_hold policy.now ≡ true) }
    ensures { result ≡ masks_hold policy.now }
{
    (0..header::rules(policy)).all(|k| rule_masks_hold(policy, part::rule(policy, table, k)))
}
