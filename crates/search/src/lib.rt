// Breadth-first search over the rows of a table, as those of a book, and the histories that a search keeps.
#![tactic(auto)]

mod arrays;
mod breadth_first;
mod trail;

pub use arrays::{begin, explore, explore_book, note};
pub use breadth_first::Search;
pub use trail::{put, write_codes, write_history};
