// The rules of a policy: which match a request, which are enabled in a valuation, and where carrying out changes leads. Memory is fixed: a set of rules is a word, and
// values are arrays beside the policy, which says how many of their places count.
#![tactic(auto)]

pub mod effects;
pub mod matching;
pub mod sets;
