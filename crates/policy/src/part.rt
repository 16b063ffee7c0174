// Parts of the file that are handed on: the table of rules, a single rule, and the records of the events.
ghost use Rattle.std.specs.Prelude.{◌≡◌, ◌<◌, ◌≤◌};
ghost use Rattle.definitions.specs.Policy.{rules, rule};
ghost use Rattle.policy.specs.Sized.{Sized, TableOf, RuleOf, ChangesOf};

use super::header;

// The table of rules, which begins after the value counts or, in version 2, after the starting values, and what follows it.
pub fn rule_table(policy: &[u8]) -> &[u8]
    requires { Sized policy.now }
    ensures { TableOf policy.now result.now }
{
    &policy[9 + header::fields(policy) + header::starts(policy)..]
}

// Rule k: the part of the table that begins with its record. After the last rule come the records of the events.
pub fn rule<'a>(policy: &[u8], table: &'a [u8], k: usize) -> &'a [u8]
    requires { TableOf policy.now table.now × (k ≤ rules policy.now) }
    ensures { (result.now ≡ rule policy.now k) × (k < rules policy.now → RuleOf policy.now result.now) }
{
    &table[k * header::rule_size(policy)..]
}

// The records of the events.
pub fn changes<'a>(policy: &[u8], table: &'a [u8]) -> &'a [u8]
    requires { TableOf policy.now table.now }
    ensures { ChangesOf policy.now result.now }
{
    rule(policy, table, header::rules(policy))
}
