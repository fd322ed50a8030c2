//! Cases of an agent that no script reaches: set-ups and packets that are refused, and what a meter or an outlet leaves
//! that fails.
#![tactic(auto)]

#[cfg(test)]
mod tests;
