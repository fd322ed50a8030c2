//! Windows over 32-bit sequence numbers: which number a mark stands for, whether it was counted, and how many
//! numbers were received, may still come, or are lost.
//!
//! A mark is the sequence word of a datagram or a sample (sFlow Version 5, section 5). A window extends it to
//! a number that doesn't wrap, as RFC 3550, appendix A.1, extends the sequence numbers of packets.
#![tactic(auto)]

/// The greatest width of a window, a multiple of 64.
pub const MAX_WIDTH: u32 = 8192;

mod ring;
mod side;
mod window;

pub use count_spec::{Entered, Place};
pub use window::Window;

#[cfg(test)]
mod tests;
