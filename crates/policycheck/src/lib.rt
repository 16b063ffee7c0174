// Rows 2 to 10 and 17: what a policy file is refused for, stated in definitions/specs/Refusal.antt (`file_checks`).
#![tactic(auto)]

mod counts;
mod layout;
mod masks;
mod starts;
mod values;

ghost use Rattle.std.specs.Prelude.{◌≡◌};
ghost use Rattle.definitions.specs.Answer.{refusal_by};
ghost use Rattle.definitions.specs.Refusal.{content_checks, file_refusal, valuations_hold};
ghost use Rattle.policy.specs.Sized.{Sized, TableOf};
ghost use Rattle.refusal.specs.Refused.{refusal_in};

use policy::{part, valuation};
use refusal::Refusal;

// The error is the first row of 2 to 7, 17 and 8 to 10 that refuses the file.
#[tactic(auto, unfolding(definitions::specs::Refusal::file_refusal))]
pub fn check(policy: &[u8]) -> Result<(), Refusal>
    ensures { refusal_in result ≡ file_refusal policy.now }
{
    if policy.len() < 9 {
        return Err(Refusal::ShortPolicy);
    }
    if !layout::mark_holds(policy) {
        return Err(Refusal::PolicyMark);
    }
    if !layout::version_holds(policy) {
        return Err(Refusal::PolicyVersion);
    }
    if !layout::ranges_hold(policy) {
        return Err(Refusal::PolicyRange);
    }
    if !layout::length_holds(policy) {
        return Err(Refusal::PolicyLength);
    }
    check_contents(policy)
}

// Rows 7, 17 and 8 to 10, of a file whose length is right.
fn check_contents(policy: &[u8]) -> Result<(), Refusal>
    requires { Sized policy.now }
    ensures { refusal_in result ≡ refusal_by content_checks policy.now }
{
    if !counts::counts_hold(policy) {
        return Err(Refusal::ValueCount);
    }
    if !starts::starts_hold(policy) {
        return Err(Refusal::Start);
    }
    let table = part::rule_table(policy);
    if !masks::masks_hold(policy, table) {
        return Err(Refusal::Mask);
    }
    if !values::values_hold(policy, table) {
        return Err(Refusal::RuleValue);
    }
    if !valuations_hold(policy, table) {
        return Err(Refusal::Valuations);
    }
    Ok(())
}

// Row 10.
fn valuations_hold(policy: &[u8], table: &[u8]) -> bool
    requires { TableOf policy.now table.now }
    ensures { result ≡ valuations_hold policy.now }
{
    valuation::valuations(policy, table) <= 64
}
