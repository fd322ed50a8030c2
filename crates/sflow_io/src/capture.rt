// What the calls over captures answer, and where a reader stands.

use crate::Sender;
use capture_spec::CaptureVersion;
use wire_spec::InputKind;

/// Want of memory.
#[derive(Clone, Copy, Debug, PartialEq, Eq)]
pub struct Memory;

/// A write to the sink failed.
#[derive(Clone, Copy, Debug, PartialEq, Eq)]
pub struct WriteFault;

/// What a reader of a capture gives.
#[derive(Clone, Copy, Debug, PartialEq, Eq)]
pub enum Next {
    /// A datagram that arrived at `at` ms, and who sent it: `None` exactly in version 1. Its bytes are the first `len`
    /// of the room, at most 65,535.
    Entry {
        at: u64,
        from: Option<Sender>,
        len: usize,
    },
    /// The end of the capture.
    End,
}

/// Why a reader gives nothing more.
#[derive(Clone, Copy, Debug, PartialEq, Eq)]
pub enum ReadRefusal {
    /// A read of the source failed.
    ReadFault,
    /// The input is no capture: `at` is the offset of the fault, in bytes from the start of the input.
    BadInput { at: u128, kind: InputKind },
    /// 2^48 entries were read, and a further one is to come: in version 1 a byte follows, in version 2 the word of an
    /// entry item.
    Spent,
}

/// Where a reader of a capture stands.
#[derive(Clone, Copy, Debug, PartialEq, Eq)]
pub enum Stage {
    /// Before the header.
    Start,
    /// Behind so many entries, at most 2^48, of a capture of this version; `offset` is that of the next byte, from the
    /// start of the input.
    Within {
        version: CaptureVersion,
        count: u64,
        offset: u128,
    },
    /// It ended with this answer, `End` or a refusal, and gives it again and again. The version is that of the
    /// capture, where it was read.
    Ended {
        version: Option<CaptureVersion>,
        answer: Result<Next, ReadRefusal>,
    },
}
