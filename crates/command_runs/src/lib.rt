//! Runs of commands that read an input and write to a sink: how they end, and a walk over the entries of a capture.
//!
//! A command is a row: what it writes of all that it reads, and what of a part. A run of it is told by the form of its
//! input and that row.
#![tactic(auto)]

mod capture;
mod ending;
mod laws;
mod status;
mod walk;

pub use capture::visit_capture;
pub use capture_spec::CaptureVersion;
pub use ending::{flush, new_room, status_of};
pub use laws::{captures_end_once, pcap_files_end_once, scripts_end_once};
pub use sflow_io::{Failed, Sender, Sink, Source};
pub use status::{Line, Status};
pub use text_lines::Page;
pub use walk::{Counts, EntryVisitor, Stop};
pub use wire_spec::InputKind;
