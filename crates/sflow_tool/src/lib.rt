//! The commands of `sflow`: what the words ask for, done from a source to a sink, with a status.
#![tactic(auto)]

mod agent;
mod canon;
mod check;
mod collect;
mod delivered;
mod device_lines;
mod faults;
mod interfaces;
mod laws;
mod made_trial;
mod pcap;
mod relay;
mod replay;
mod report;
mod script_run;
mod send;
mod show;
mod step;
mod top;
mod trial;
mod trial_run;
mod trues;

pub use command_runs::{Line, Status};
pub use command_words::Command;
pub use datagram_links::{
    Link, LinkItem, ListReceiver, MemoryLink, Receiver, SystemClock, UdpLink, UdpReceiver,
};
pub use delivered::{deliveries_have_a_capture, what_is_asked_is_met, what_is_reported};
pub use flow_collector::{Limits, Seeds};
pub use laws::{
    canon_is_final, canon_pads_with_zeros, canonical_bytes_are_exact, check_lines_are_exact,
    one_ending,
};
pub use relay_out::Receivers;
pub use sample_taps::{Brief, CountTap, LengthTap, Tap, Taps, TopPortTap};
pub use sflow_io::{Failed, InputSource, MemorySink, MemorySource, OutputSink, Sink, Source};
pub use top::run;
pub use wire_spec::InputKind;
