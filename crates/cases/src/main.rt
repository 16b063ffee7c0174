// Reads policies of at most 1,024 bytes from standard input, each after its length in two bytes, the high byte first, and writes a line for each: its book in
// hexadecimal, or the number that refuses it. The run ends with the input, or where a case is not whole, cannot be read or its line cannot be written: that is
// reported on standard error, and the case is not judged.
#![tactic(auto)]

mod line;

use line::case_line;
use std::fmt;
use streams::{StreamError, read_input, report_error, write_output};
use text::{first, two_bytes};

// Why a run ends before its input does.
#[derive(Clone, Copy, Debug, PartialEq, Eq)]
enum CaseError {
    Stream(StreamError),
    Cut,
    TooLong,
}

impl From<StreamError> for CaseError {
    fn from(error: StreamError) -> CaseError {
        CaseError::Stream(error)
    }
}

impl fmt::Display for CaseError {
    fn fmt<W: fmt::Write>(&self, f: &mut fmt::Formatter<W>) -> fmt::Result {
        match self {
            CaseError::Stream(StreamError::Unread) => write!(
                f,
                "cases: standard input could not be read; nothing more was judged"
            ),
            CaseError::Stream(StreamError::Unwritten) => write!(
                f,
                "cases: standard output could not be written in full"
            ),
            CaseError::Cut => write!(
                f,
                "cases: standard input ends within a case; it was not judged"
            ),
            CaseError::TooLong => write!(
                f,
                "cases: a case of more than 1,024 bytes; nothing more was judged"
            ),
        }
    }
}

// Writes the line of a policy.
fn judge(rt: &HostRuntime, policy: &[u8]) -> Result<(), StreamError> {
    let mut text = [0u8; 34569];
    let length = case_line(policy, &mut text);
    write_output(rt, first(&text, length))
}

// Reads a policy that fills the buffer and writes its line.
fn take_policy(rt: &HostRuntime, policy: &mut [u8]) -> Result<(), CaseError> {
    if read_input(rt, policy)? < policy.len() {
        return Err(CaseError::Cut);
    }
    judge(rt, policy)?;
    Ok(())
}

// Reads one case, a length and a policy, and writes its line. Returns whether there was one.
fn take_case(rt: &HostRuntime) -> Result<bool, CaseError> {
    let mut head = [0u8; 2];
    match read_input(rt, &mut head)? {
        0 => return Ok(false),
        1 => return Err(CaseError::Cut),
        _ => {}
    }
    let n = two_bytes(&head);
    if 1024 < n {
        return Err(CaseError::TooLong);
    }
    let mut policy = [0u8; 1024];
    take_policy(rt, &mut policy[..n])?;
    Ok(true)
}

// A proved loop has to end, and nothing says that the input does: so the turns are counted, up to a number that no input uses up.
fn main(rt: HostRuntime) {
    for _ in 0..u64::MAX {
        match take_case(&rt) {
            Ok(true) => {}
            Ok(false) => return,
            Err(error) => return report_error(&rt, error),
        }
    }
}
