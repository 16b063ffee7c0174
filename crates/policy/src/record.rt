// The fields of a rule's record, each by its name in document 01. A rule is handed on as the part of the table that begins with its record.
ghost use Rattle.std.specs.Prelude.{◌≡◌, ◌+◌, ◌*◌, ◌<◌, length};
ghost use Rattle.definitions.specs.Policy.{variables, mask, decision, level, ge, lt, change};
ghost use Rattle.policy.specs.Sized.{RuleOf};

use super::header;

pub fn mask(rule: &[u8], f: usize) -> usize
    requires { 2 * f + 1 < length rule.now }
    ensures { (result ≡ mask rule.now f) × (result < 65536) }
{
    header::two_bytes(rule, 2 * f)
}

pub fn decision(policy: &[u8], rule: &[u8]) -> usize
    requires { RuleOf policy.now rule.now }
    ensures { (result ≡ decision policy.now rule.now) × (result < 256) }
{
    usize::from(rule[2 * header::fields(policy)])
}

pub fn level(policy: &[u8], rule: &[u8]) -> usize
    requires { RuleOf policy.now rule.now }
    ensures { (result ≡ level policy.now rule.now) × (result < 256) }
{
    usize::from(rule[2 * header::fields(policy) + 1])
}

pub fn ge(policy: &[u8], rule: &[u8], j: usize) -> usize
    requires { RuleOf policy.now rule.now × (j < variables policy.now) }
    ensures { (result ≡ ge policy.now rule.now j) × (result < 256) }
{
    usize::from(rule[2 * header::fields(policy) + 2 + 3 * j])
}

pub fn lt(policy: &[u8], rule: &[u8], j: usize) -> usize
    requires { RuleOf policy.now rule.now × (j < variables policy.now) }
    ensures { (result ≡ lt policy.now rule.now j) × (result < 256) }
{
    usize::from(rule[2 * header::fields(policy) + 3 + 3 * j])
}

pub fn change(policy: &[u8], rule: &[u8], j: usize) -> usize
    requires { RuleOf policy.now rule.now × (j < variables policy.now) }
    ensures { (result ≡ change policy.now rule.now j) × (result < 256) }
{
    usize::from(rule[2 * header::fields(policy) + 4 + 3 * j])
}
