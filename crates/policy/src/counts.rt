// The number of requests: the product of the value counts.
ghost use Rattle.std.specs.Prelude.{◌≡◌};
ghost use Rattle.definitions.specs.Policy.{requests};
ghost use Rattle.policy.specs.Sized.{Sized};

use super::header;

pub fn requests(policy: &[u8]) -> usize
    requires { Sized policy.now }
    ensures { result ≡ requests policy.now }
{
    let mut product = 1;
    for f in 0..header::fields(policy) {
        product *= header::count(policy, f);
    }
    product
}
