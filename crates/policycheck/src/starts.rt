// Row 17: the starting values.
ghost use Rattle.std.specs.Prelude.{◌≡◌};
ghost use Rattle.definitions.specs.Refusal.{starts_hold};
ghost use Rattle.policy.specs.Sized.{Sized};

use policy::header;

pub fn starts_hold(policy: &[u8]) -> bool
    requires { Sized policy.now }
    ensures { result ≡ starts_hold policy.now }
{
    (0..header::starts(policy)).all(|j| header::start(policy, j) <= 63)
}
