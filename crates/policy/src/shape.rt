// The numbers of an accepted file that are computed once and handed on.
ghost use Rattle.std.specs.Prelude.{◌≡◌};
ghost use Rattle.policy.specs.Shape.{shape_of};
ghost use Rattle.policy.specs.Sized.{Passed};

use super::{counts, header, part, valuation};

#[derive(Clone, Copy, Debug, PartialEq, Eq)]
pub struct Shape {
    pub events: usize,
    pub requests: usize,
    pub width: usize,
    pub valuations: usize,
    // the valuation before any step
    pub start: usize,
}

impl Shape {
    pub fn of(policy: &[u8]) -> Shape
        requires { Passed policy.now }
        ensures { result ≡ shape_of policy.now }
    {
        let events = header::events(policy);
        let requests = counts::requests(policy);
        let table = part::rule_table(policy);
        Shape {
            events,
            requests,
            width: events + 2 * requests,
            valuations: valuation::valuations(policy, table),
            start: valuation::start(policy, table),
        }
    }
}
