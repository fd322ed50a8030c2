//! How far the counters of an interface rose: differences of what its counter records show (sFlow Version 5, section 5,
//! the generic interface counters), over runs of numbered samples, through wraps and out of order.
#![tactic(auto)]

mod counter;
mod ledger;
mod rises;
mod table;

pub use ledger::IfLedger;
pub use table::IfTable;

#[cfg(test)]
mod tests;
