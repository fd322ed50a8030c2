//! Lines of text, which go to a sink through a page of fixed size.
#![tactic(auto)]

mod address;
mod hex;
mod page;
mod piece;

pub use page::Page;
pub use piece::Piece;

#[cfg(test)]
mod tests;
