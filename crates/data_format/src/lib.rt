//! The parts that the formats of sFlow share: addresses, sources, ports, formats, frames, the heads of samples, and
//! faults with their places.
#![tactic(auto)]

mod address;
mod address_spelling;
mod check;
mod format;
mod frames;
mod head_form;
mod heads;
mod laws;
mod mac;
mod part_laws;
mod port;
mod record_body;
mod sample_body;
mod source;
mod value_laws;

pub use address::Address;
pub use address_spelling::{AddressParts, address_parts};
pub use check::{AnyBody, BodyCheck};
pub use format::{Format, Frame};
pub use frames::Frames;
pub use head_form::HeadForm;
pub use heads::{CountersHead, FlowHead, Form};
pub use laws::{one_head_of_a_sample, ranges_within_ranges, samples_over_all_records};
pub use mac::Mac;
pub use part_laws::parts_within_ranges;
pub use port::Port;
pub use record_body::RecordBody;
pub use sample_body::SampleBody;
pub use source::SourceId;
pub use value_laws::values_have_their_parts;
pub use wire_spec::{Failed, Fault, FaultKind};
