// The line for a policy. A book has at most 17,284 bytes, and each takes two digits.
ghost use Rattle.std.specs.Prelude.{◌≡◌, ◌≤◌, length};
ghost use Rattle.text.specs.Room.{length_within, written_within};
ghost use Rattle.cases.specs.CaseText.{case_text};

use booktext::Form;
use policytext::policy_text;

// The line for a policy at the front of the buffer, and the line's length. The bytes after the line are unchanged. Where the buffer is under 34,569 bytes the
// answer is 0, and all of it is unchanged.
pub fn case_line(policy: &[u8], out: &mut [u8]) -> usize
    ensures value { result ≡ length_within 34569 (case_text policy.now) out.old }
    ensures out_after { out.new ≡ written_within 34569 (case_text policy.now) out.old }
    ensures upper_bound { result ≤ length out.old }
{
    policy_text(policy, Form::Bytes, out)
}
