// Row 7: the value counts, and the number of requests.
ghost use Rattle.std.specs.Prelude.{◌≡◌};
ghost use Rattle.automaton.specs.Below.{all_below};
ghost use Rattle.definitions.specs.Policy.{fields};
ghost use Rattle.definitions.specs.Refusal.{count_in_range, counts_hold};
ghost use Rattle.policy.specs.Sized.{Sized};

use policy::counts::requests;
use policy::header;

fn counts_in_range(policy: &[u8]) -> bool
    requires { Sized policy.now }
    ensures { result ≡ all_below (fields policy.now) (count_in_range policy.now) }
{
    (0..header::fields(policy)).all(|f| (1..=16).contains(&header::count(policy, f)))
}

pub fn counts_hold(policy: &[u8]) -> bool
    requires { Sized policy.now }
    ensures { result ≡ counts_hold policy.now }
{
    counts_in_range(policy) && requests(policy) <= 64
}
