// Row 9: the decisions, tests and changes of the rules, and the changes of the events.
ghost use Rattle.std.specs.Prelude.{◌≡◌, ◌<◌};
ghost use Rattle.automaton.specs.Below.{all_below};
ghost use Rattle.definitions.specs.Policy.{events, variables};
ghost use Rattle.definitions.specs.Refusal.{all_rules, test_holds, rule_holds, event_holds, values_hold};
ghost use Rattle.policy.specs.Sized.{TableOf, RuleOf, ChangesOf};

use policy::{header, part, record};

fn test_holds(policy: &[u8], rule: &[u8], j: usize) -> bool
    requires { RuleOf policy.now rule.now × (j < variables policy.now) }
    ensures { result ≡ test_holds policy.now rule.now j }
{
    record::ge(policy, rule, j) <= 63
        && record::lt(policy, rule, j) <= 63
        && record::change(policy, rule, j) <= 2
}

fn rule_holds(policy: &[u8], rule: &[u8]) -> bool
    requires { RuleOf policy.now rule.now }
    ensures { result ≡ rule_holds policy.now rule.now }
{
    record::decision(policy, rule) <= 1
        && (0..header::variables(policy)).all(|j| test_holds(policy, rule, j))
}

fn rules_hold(policy: &[u8], table: &[u8]) -> bool
    requires { TableOf policy.now table.now }
    ensures { result ≡ all_rules policy.now (rule_holds policy.now) }
{
    (0..header::rules(policy)).all(|k| rule_holds(policy, part::rule(policy, table, k)))
}

fn events_hold(policy: &[u8], changes: &[u8]) -> bool
    requires { ChangesOf policy.now changes.now }
    ensures { result ≡ all_below (events policy.now) (event_holds policy.now) }
{
    changes.iter().all(|change| *change <= 2)
}

pub fn values_hold(policy: &[u8], table: &[u8]) -> bool
    requires { TableOf policy.now table.now }
    ensures { result ≡ values_hold policy.now }
{
    rules_hold(policy, table) && events_hold(policy, part::changes(policy, table))
}
