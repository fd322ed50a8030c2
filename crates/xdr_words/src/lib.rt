//! Words and bytes of XDR (RFC 4506): read from borrowed bytes, an item or the fault that it is; and written into
//! borrowed room, a whole piece or nothing.
#![tactic(auto)]

mod body;
mod cursor;
mod fault;
mod item;
mod writer;

pub use body::Body;
pub use cursor::Cursor;
pub use fault::XdrFault;
pub use item::{Item, length_of_run, write_run};
pub use wire_spec::Pad;
pub use writer::{Out, OutFull};
