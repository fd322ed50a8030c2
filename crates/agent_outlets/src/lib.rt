//! What takes the datagrams of an agent, and an outlet over memory that shows what it took.
#![tactic(auto)]

mod list_outlet;
mod outlet;

pub use data_format::Failed;
pub use list_outlet::{ListOutlet, Put};
pub use outlet::{Outlet, OutletFault};
