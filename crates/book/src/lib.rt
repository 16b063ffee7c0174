// The bytes of a book: what stands where, and what a state tells of a request. What refuses a book stands in the crate bookcheck.
#![tactic(auto)]

pub mod header;
mod layout;
mod telling;

pub use layout::Book;
pub use telling::{Telling, telling_at};
