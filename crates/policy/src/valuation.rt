// The variables' bounds, the number of valuations, and the valuation before any step.
ghost use Rattle.std.specs.Prelude.{◌≡◌, ◌<◌};
ghost use Rattle.definitions.specs.Policy.{variables};
ghost use Rattle.definitions.specs.Valuation.{tested, bound, valuations, start_valuation};
ghost use Rattle.policy.specs.Sized.{Passed, TableOf, RuleOf};

use super::{header, part, record};

// The greater number that a rule tests variable j with.
fn tested(policy: &[u8], rule: &[u8], j: usize) -> usize
    requires { RuleOf policy.now rule.now × (j < variables policy.now) }
    ensures { (result ≡ tested policy.now rule.now j) × (result < 256) }
{
    record::ge(policy, rule, j).max(record::lt(policy, rule, j))
}

// The bound of variable j: the greatest number that a rule tests it with.
pub fn bound(policy: &[u8], table: &[u8], j: usize) -> usize
    requires { TableOf policy.now table.now × (j < variables policy.now) }
    ensures { (result ≡ bound policy.now j) × (result < 256) }
{
    let mut most = 0;
    for k in 0..header::rules(policy) {
        most = most.max(tested(policy, part::rule(policy, table, k), j));
    }
    most
}

// How many valuations there are: the product of the numbers of values of the variables.
pub fn valuations(policy: &[u8], table: &[u8]) -> usize
    requires { TableOf policy.now table.now }
    ensures { result ≡ valuations policy.now }
{
    let mut product = 1;
    for j in 0..header::variables(policy) {
        product *= bound(policy, table, j) + 1;
    }
    product
}

// The valuation before any step: each variable has its starting value, or its bound where that is less. A file of version 1 carries none, and all are 0. The
// last variable is the highest digit.
pub fn start(policy: &[u8], table: &[u8]) -> usize
    requires { Passed policy.now × TableOf policy.now table.now }
    ensures { result ≡ start_valuation policy.now }
{
    let mut sum = 0;
    for j in (0..header::starts(policy)).rev() {
        let most = bound(policy, table, j);
        sum = sum * (most + 1) + header::start(policy, j).min(most);
    }
    sum
}
