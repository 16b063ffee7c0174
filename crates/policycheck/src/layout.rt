// Rows 3 to 6: the mark, the version, the ranges of the first numbers, and the length.
ghost use Rattle.std.specs.Prelude.{◌≡◌, ◌≤◌, eqb, length};
ghost use Rattle.definitions.specs.Bytes.{has_mark};
ghost use Rattle.definitions.specs.Policy.{exact_length};
ghost use Rattle.definitions.specs.Refusal.{version_holds, ranges_hold};

use policy::header;

pub fn mark_holds(policy: &[u8]) -> bool
    requires { 9 ≤ length policy.now }
    ensures { result ≡ has_mark 0x50 0x4F 0x4C policy.now }
{
    policy.starts_with(b"POL")
}

pub fn version_holds(policy: &[u8]) -> bool
    requires { 9 ≤ length policy.now }
    ensures { result ≡ version_holds policy.now }
{
    let version = header::two_bytes(policy, 3);
    version == 1 || version == 2
}

pub fn ranges_hold(policy: &[u8]) -> bool
    requires { 9 ≤ length policy.now }
    ensures { result ≡ ranges_hold policy.now }
{
    header::events(policy) <= 8
        && (1..=4).contains(&header::fields(policy))
        && header::variables(policy) <= 4
        && header::rules(policy) <= 32
}

pub fn length_holds(policy: &[u8]) -> bool
    requires { 9 ≤ length policy.now }
    ensures { result ≡ eqb (length policy.now) (exact_length policy.now) }
{
    let rules = header::rules(policy) * header::rule_size(policy);
    let changes = header::events(policy) * header::variables(policy);
    policy.len() == 9 + header::fields(policy) + header::starts(policy) + rules + changes
}
