// The text for a policy: a line with the number that refuses it, or a text of its book.
#![tactic(auto)]

ghost use Rattle.std.specs.Prelude.{◌≡◌, ◌≤◌, length};
ghost use Rattle.text.specs.Put.{Put};
ghost use Rattle.text.specs.Room.{length_within, written_within};
ghost use Rattle.booktext.specs.Forms.{text_of, room_of};
ghost use Rattle.policytext.specs.PolicyText.{refusal_or};

use book::Book;
use booktext::{Form, put_text};
use build::build;
use text::{first, put_number_line};

// The text for a policy.
#[tactic(auto, using(booktext::proofs::Forms::enough))]
fn put_policy(out: &mut [u8], form: Form, policy: &[u8]) -> usize
    requires { room_of form ≤ length out.old }
    ensures put { Put out.old 0 (refusal_or (text_of form) policy.now) out.new result }
    ensures upper_bound { result ≤ room_of form }
{
    let mut book = [0u8; 17284];
    match build(policy, &mut book) {
        Err(refusal) => put_number_line(out, 0, b"refused ", usize::from(refusal.number())),
        Ok(length) => put_text(out, form, Book::new(first(&book, length))),
    }
}

// The text for a policy at the front of the buffer, and the text's length. The bytes after the text are unchanged. Where the buffer has less room than every such
// text has enough of, the answer is 0, and all of it is unchanged.
pub fn policy_text(policy: &[u8], form: Form, out: &mut [u8]) -> usize
    ensures value { result ≡ length_within (room_of form) (refusal_or (text_of form) policy.now) out.old }
    ensures out_after { out.new ≡ written_within (room_of form) (refusal_or (text_of form) policy.now) out.old }
    ensures upper_bound { result ≤ length out.old }
{
    if out.len() < form.room() {
        return 0;
    }
    put_policy(out, form, policy)
}
