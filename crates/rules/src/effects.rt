// Valuations: whether a rule is enabled in one, and the one that carrying out changes leads to.
ghost use Rattle.std.specs.Prelude.{◌≡◌, ◌<◌, ◌≤◌, length};
ghost use Rattle.definitions.specs.Policy.{variables};
ghost use Rattle.definitions.specs.Valuation.{bound, variable_in, changed};
ghost use Rattle.policy.specs.Sized.{Passed, TableOf, RuleOf};
ghost use Rattle.rules.specs.Arrays.{Tabled, entry_of};
ghost use Rattle.rules.specs.RuleSets.{value_passes, enabled_by, enabling};
ghost use Rattle.rules.specs.Changes.{ChangesIn, change_at, Valued, carried_by};

use super::sets;
use policy::{header, record, valuation};

// Entry j is the bound of variable j.
pub fn fill_bounds(policy: &[u8], table: &[u8], bounds: &mut [usize])
    requires { TableOf policy.now table.now × (variables policy.now ≤ length bounds.old) }
    ensures { Tabled (variables policy.now) (bound policy.now) bounds.new }
{
    for j in 0..header::variables(policy) {
        bounds[j] = valuation::bound(policy, table, j);
    }
}

// Entry j is the value of variable j in v. The first variable's value is the lowest digit of v.
pub fn fill_variables(policy: &[u8], bounds: &[usize], v: usize, values: &mut [usize])
    requires { Passed policy.now × Tabled (variables policy.now) (bound policy.now) bounds.now × (variables policy.now ≤ length values.old) }
    ensures { Tabled (variables policy.now) (variable_in policy.now v) values.new }
{
    let mut rest = v;
    for j in 0..header::variables(policy) {
        let count = bounds[j] + 1;
        values[j] = rest % count;
        rest /= count;
    }
}

// Whether the tests of a rule are true of a value x of variable j.
fn test_passes(policy: &[u8], rule: &[u8], j: usize, x: usize) -> bool
    requires { RuleOf policy.now rule.now × (j < variables policy.now) }
    ensures { result ≡ value_passes policy.now rule.now j x }
{
    let lt = record::lt(policy, rule, j);
    record::ge(policy, rule, j) <= x && (lt == 0 || x < lt)
}

// Whether the tests of a rule are true of these values of the variables.
fn enabled(policy: &[u8], rule: &[u8], values: &[usize]) -> bool
    requires { RuleOf policy.now rule.now × (variables policy.now ≤ length values.now) }
    ensures { result ≡ enabled_by policy.now rule.now (entry_of values.now) }
{
    for j in 0..header::variables(policy) {
        if !test_passes(policy, rule, j, values[j]) {
            return false;
        }
    }
    true
}

// The rules whose tests are true of these values of the variables.
pub fn rules_enabled(policy: &[u8], table: &[u8], values: &[usize]) -> u64
    requires { TableOf policy.now table.now × (variables policy.now ≤ length values.now) }
    ensures { result ≡ enabling policy.now (entry_of values.now) }
{
    sets::rules_passing(policy, table, |rule| enabled(policy, rule, values))
}

fn changed(change: usize, most: usize, x: usize) -> usize
    requires { x ≤ most }
    ensures { (result ≡ changed change most x) × (result ≤ most) }
{
    match change {
        0 => x,
        1 => if x < most { x + 1 } else { x },
        _ => 0,
    }
}

// The valuation that these values of the variables lead to if the change of variable j is the byte at first + step × j. The last variable is the highest digit.
pub fn carried_out(
    policy: &[u8],
    part: &[u8],
    first: usize,
    step: usize,
    bounds: &[usize],
    values: &[usize],
) -> usize
    requires { Passed policy.now × Tabled (variables policy.now) (bound policy.now) bounds.now × Valued policy.now values.now × ChangesIn part.now first step (variables policy.now) }
    ensures { (result ≡ carried_by policy.now (change_at part.now first step) (entry_of values.now)) × (result < 64) }
{
    let mut sum = 0;
    for j in (0..header::variables(policy)).rev() {
        let most = bounds[j];
        let change = usize::from(part[first + step * j]);
        let digit = changed(change, most, values[j]);
        sum = sum * (most + 1) + digit;
    }
    sum
}
