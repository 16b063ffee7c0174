// Which rules match a request: those whose masks admit its values.
ghost use Rattle.std.specs.Prelude.{◌≡◌, ◌+◌, ◌*◌, ◌<◌, ◌≤◌, length};
ghost use Rattle.definitions.specs.Policy.{fields, requests, value};
ghost use Rattle.policy.specs.Sized.{Passed, TableOf, RuleOf};
ghost use Rattle.rules.specs.Arrays.{Tabled, entry_of, Small};
ghost use Rattle.rules.specs.RuleSets.{mask_admits, admits, admitting, matching};

use super::sets;
use policy::{counts, header, record};

// Entry f is the value of field f in request r. The last field's value is the lowest digit of r.
fn fill_values(policy: &[u8], r: usize, values: &mut [usize])
    requires { Passed policy.now × (fields policy.now ≤ length values.old) }
    ensures { Tabled (fields policy.now) (value policy.now r) values.new }
{
    let mut rest = r;
    for f in (0..header::fields(policy)).rev() {
        let count = header::count(policy, f);
        values[f] = rest % count;
        rest /= count;
    }
}

fn mask_admits(rule: &[u8], values: &[usize], f: usize) -> bool
    requires { (2 * f + 1 < length rule.now) × (f < length values.now) × (entry_of values.now f < 64) }
    ensures { result ≡ mask_admits rule.now (entry_of values.now) f }
{
    (record::mask(rule, f) >> values[f]) % 2 == 1
}

// Whether the masks of a rule admit these values of the fields.
fn rule_admits(policy: &[u8], rule: &[u8], values: &[usize]) -> bool
    requires { RuleOf policy.now rule.now × (fields policy.now ≤ length values.now) × Small (fields policy.now) values.now }
    ensures { result ≡ admits policy.now rule.now (entry_of values.now) }
{
    for f in 0..header::fields(policy) {
        if !mask_admits(rule, values, f) {
            return false;
        }
    }
    true
}

// The rules whose masks admit these values of the fields.
fn rules_admitting(policy: &[u8], table: &[u8], values: &[usize]) -> u64
    requires { TableOf policy.now table.now × (fields policy.now ≤ length values.now) × Small (fields policy.now) values.now }
    ensures { result ≡ admitting policy.now (entry_of values.now) }
{
    sets::rules_passing(policy, table, |rule| rule_admits(policy, rule, values))
}

// The rules that match request r.
fn rules_matching(policy: &[u8], table: &[u8], r: usize) -> u64
    requires { Passed policy.now × TableOf policy.now table.now }
    ensures { result ≡ matching policy.now r }
{
    let mut values = [0usize; 4];
    fill_values(policy, r, &mut values);
    rules_admitting(policy, table, &values)
}

// Entry r has the rules that match request r.
pub fn fill_matching(policy: &[u8], table: &[u8], sets: &mut [u64])
    requires { Passed policy.now × TableOf policy.now table.now × (requests policy.now ≤ length sets.old) }
    ensures { Tabled (requests policy.now) (matching policy.now) sets.new }
{
    for r in 0..counts::requests(policy) {
        sets[r] = rules_matching(policy, table, r);
    }
}
