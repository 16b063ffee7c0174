// A way to a decision: the earliest possible history after which a request has an outcome. Rows 1 (the buffer), 18 and 16 are decided here; stated in
// definitions/specs/Way.antt.
#![tactic(auto)]

ghost use Rattle.std.specs.Prelude.{◌≡◌, ◌≤◌, length};
ghost use Rattle.definitions.specs.Way.{way_answer, way_buffer};
ghost use Rattle.way.specs.FirstState.{Shows};
ghost use Rattle.way.specs.ShownAnswer.{shown_answer};

mod first;
mod goal;

use book::Telling;
use bookcheck::check;
use first::show_in;
use goal::Goal;
use refusal::Refusal;

// Finds the earliest possible history after which a request has an outcome: 0 none, 1 accept, 2 reject, 3 both. The history goes to the front of the buffer, and its
// length is returned; the bytes after it are unchanged, and so is all of the buffer where there is no such history, and on a refusal.
pub fn way(
    bytes: &[u8],
    request: usize,
    outcome: usize,
    history: &mut [u8],
) -> Result<Option<usize>, Refusal>
    ensures answer { shown_answer result history.new ≡ way_answer bytes.now request outcome history.old }
    ensures history { history.new ≡ way_buffer bytes.now request outcome history.old }
{
    if history.len() < 128 {
        return Err(Refusal::ShortBuffer);
    }
    let book = check(bytes)?;
    let sought = Telling::try_from(outcome)?;
    if book.requests <= request {
        return Err(Refusal::NotInBook);
    }
    let goal = Goal {
        book,
        request,
        outcome: sought,
    };
    Ok(show(goal, history))
}

// A call that no row refuses. Where the start has the outcome there is nothing to search. Room for few states is sooner cleared.
fn show(goal: Goal, history: &mut [u8]) -> Option<usize>
    requires { 128 ≤ length history.old }
    ensures { Shows goal.entry result history.old history.new }
{
    if goal.is_met_at(1) {
        return Some(0);
    }
    if goal.book.states() < 16 {
        show_in::<16, 32>(goal, history)
    } else {
        show_in::<128, 256>(goal, history)
    }
}
