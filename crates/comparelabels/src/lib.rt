// The labels of compare: states of two books that are found to belong together get one label, and rows are read by the labels of their entries.
#![tactic(auto)]

mod label_bytes;
mod row_labels;

pub use label_bytes::{begin_labels, merge};
pub use row_labels::first_unlike;
