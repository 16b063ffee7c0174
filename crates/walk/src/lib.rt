// Walking a book by its bytes and a state: opening, telling, a step. Each call takes rows 12 to 14 again, and then row
// 16 (the state, the request, the code), which is decided here and stated in definitions/specs/Opened.antt.
#![tactic(auto)]

ghost use Rattle.std.specs.Prelude.{◌≡◌, true, ◌≤◌, IfOk, OnErr};
ghost use Rattle.definitions.specs.Opened.{state_holds, open_refusal, tell_answer, step_refusal, step_state};
ghost use Rattle.book.specs.Tellings.{telling_of};
ghost use Rattle.refusal.specs.Refused.{refusal_in, answer_in};
ghost use Rattle.walk.specs.Walk.{open_state, state_refusal};

use book::{Book, Telling};
use bookcheck::check;
use refusal::Refusal;

// Opening: the start.
#[tactic(auto, using(crate::proofs::CallCases::open_cases))]
pub fn open(bytes: &[u8]) -> Result<usize, Refusal>
    ensures refusal { refusal_in result ≡ open_refusal bytes.now }
    ensures state { IfOk result (λ state. state ≡ 1) }
    ensures closed { OnErr result (open_state bytes.now ≡ 0) }
{
    let _book = check(bytes)?;
    Ok(1)
}

// What is possible for a request at a state of the book.
#[tactic(auto, using(crate::proofs::CallCases::tell_is))]
pub fn tell(bytes: &[u8], state: usize, request: usize) -> Result<Telling, Refusal>
    ensures { answer_in telling_of result ≡ tell_answer bytes.now state request }
{
    let book = book_at(bytes, state)?;
    if request >= book.requests {
        return Err(Refusal::NotInBook);
    }
    Ok(book.telling(state, request))
}

// Takes the step with a code: the state moves to where it leads. Where the step is refused the state is unchanged.
#[tactic(auto, using(crate::proofs::CallCases::step_cases))]
pub fn step(bytes: &[u8], state: &mut usize, code: usize) -> Result<(), Refusal>
    ensures refusal { refusal_in result ≡ step_refusal bytes.now state.old code }
    ensures state { state.new ≡ step_state bytes.now state.old code }
    ensures unchanged { OnErr result (state.new ≡ state.old) }
{
    let walked = book_at(bytes, *state)?;
    if code >= walked.width {
        return Err(Refusal::NotInBook);
    }
    let there = walked.entry(*state, code);
    if there == 0 {
        return Err(Refusal::NotInBook);
    }
    *state = there;
    Ok(())
}

// A book that rows 12 to 14 let pass, where the number is one of its states, 1 to n.
fn book_at(bytes: &[u8], state: usize) -> Result<Book<'_>, Refusal>
    ensures refusal { refusal_in result ≡ state_refusal bytes.now state }
    ensures book { IfOk result (λ book. (book.bytes ≡ bytes.entry) × (state_holds bytes.now state ≡ true)) }
{
    let book = check(bytes)?;
    if !(1..=book.states()).contains(&state) {
        return Err(Refusal::NotInBook);
    }
    Ok(book)
}
