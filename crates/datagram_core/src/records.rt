ghost use Rattle.std.specs.Prelude.{◌≡◌, [], ◌∷◌, ◌+◌, ◌<◌, ◌^◌, length, Ok, IfNone, IfSome};
ghost use Rattle.wire_spec.specs.declared.pad.Pad.TheVariants.{Any};
ghost use Rattle.data_format.specs.Trees.{AllPass, table_test};
ghost use Rattle.data_format.specs.Views.{FrameView, IsFormat, frame_view};
ghost use Rattle.datagram_core.specs.Records.{IsRecordOf, kind_by, table_of};
ghost use Rattle.datagram_core.specs.Kinds.{HasKind};

use crate::record::{BY_CHECK, TO_GIVE};
use data_format::{BodyCheck, Fault, Frame, Frames};
use rec_counters::{EthernetCounters, IfCounters, VlanCounters};
use rec_extended::{GatewayRec, RouterRec, SwitchRec};
use rec_headers::{EthernetRec, Ipv4Rec, Ipv6Rec, RawHeader};
use rec_more::{MplsRec, NatRec, ProcessorCounters, UrlRec, UserRec};
use std::marker::Model;
use wire_spec::Pad;

/// Which records a sample has. As a check it finds the faults of their bodies.
#[derive(Clone, Copy, Drop)]
pub enum RecordKind {
    /// Those of flow samples.
    Flow,
    /// Those of counters samples.
    Counters,
    /// Those of no format at all.
    Unknown,
}

impl BodyCheck for RecordKind {
    ghost test = { λ kind p f. table_test p (table_of kind) f };

    fn check(&self, frame: Frame<'_>, pad: Pad) -> Result<(), Fault> {
        Record::read::<BY_CHECK>(*self, frame, pad)?;
        Ok(())
    }
}

/// A record of a sample (sFlow Version 5, section 5).
#[derive(Drop)]
pub enum Record<'a> {
    /// The first bytes of the packet, flow record format 1 of the standard.
    RawHeader(RawHeader<'a>),
    /// The packet's Ethernet header, flow record format 2 of the standard.
    Ethernet(EthernetRec<'a>),
    /// The packet's IPv4 header, flow record format 3 of the standard.
    Ipv4(Ipv4Rec<'a>),
    /// The packet's IPv6 header, flow record format 4 of the standard.
    Ipv6(Ipv6Rec<'a>),
    /// The packet's VLANs, flow record format 1001 of the standard.
    Switch(SwitchRec<'a>),
    /// The packet's route, flow record format 1002 of the standard.
    Router(RouterRec<'a>),
    /// The packet's BGP route, flow record format 1003 of the standard.
    Gateway(GatewayRec<'a>),
    /// The packet's users, flow record format 1004 of the standard.
    User(UserRec<'a>),
    /// The URL that the packet is about, flow record format 1005 of the standard.
    Url(UrlRec<'a>),
    /// The packet's MPLS label stacks, flow record format 1006 of the standard.
    Mpls(MplsRec<'a>),
    /// The packet's translated addresses, flow record format 1007 of the standard.
    Nat(NatRec<'a>),
    /// The counters of an interface, counter record format 1 of the standard.
    IfCounters(IfCounters<'a>),
    /// The counters of an Ethernet interface, counter record format 2 of the standard.
    EthernetCounters(EthernetCounters<'a>),
    /// The counters of a VLAN, counter record format 5 of the standard.
    VlanCounters(VlanCounters<'a>),
    /// The load of a processor, counter record format 1001 of the standard.
    Processor(ProcessorCounters<'a>),
    /// A record of any other format of its kind, as its frame.
    Other(Frame<'a>),
}

/// The records of a sample that are still to be given, in their order. Contracts see their kind and the list
/// of their frames.
#[derive(Drop)]
pub struct Records<'a> {
    // The number of their kind. It is as wide as a place: a narrower field would leave bytes behind it that are copied
    // with the records, and slowly.
    number: usize,
    frames: Frames<'a>,
}

impl<'a> Model for Records<'a> {
    ghost use Rattle.data_format.specs.Trees.{AllPass};
    ghost use Rattle.datagram_core.specs.Records.{RecordsView, kind_by, table_of};

    ghost Value = { RecordsView };

    ghost view = { λ r. record { kind = kind_by r.number; frames = r.frames } };

    ghost invariant = { λ r. AllPass (table_of (kind_by r.number)) r.frames };
}

impl<'a> Records<'a> {
    /// The records in these frames, in which their check found no fault.
    pub(crate) fn over(kind: RecordKind, frames: Frames<'a>) -> Records<'a>
        requires { AllPass (table_of kind) frames }
        ensures { result ≡ record { kind = kind; frames = frames.entry } }
    {
        let number = number_of(kind);
        Records { number, frames }
    }

    /// Which records they are.
    pub fn kind(&self) -> RecordKind
        ensures { result ≡ self.now.kind }
    {
        match self.number {
            0 => RecordKind::Flow,
            1 => RecordKind::Counters,
            _ => RecordKind::Unknown,
        }
    }

    // The frame of the first one that is left, which is then passed; `None` exactly where none is left. The check of its
    // kind finds no fault in it, and the place behind its body is below 2^32.
    #[inline(always)]
    fn next_frame(&mut self) -> Option<Frame<'a>>
        ensures none { IfNone result ((self.old.frames ≡ []) × (self.new.frames ≡ [])) }
        ensures some { IfSome result (λ f. self.old.frames ≡ frame_view f ∷ self.new.frames) }
        ensures format { IfSome result (λ f. IsFormat f.format) }
        ensures place { IfSome result (λ f. f.at + length f.body.now < 2 ^ 32) }
        ensures passes { IfSome result (λ f. table_test Any (table_of self.old.kind) (frame_view f) ≡ Ok tt) }
        ensures kind { self.new.kind ≡ self.old.kind }
    {
        self.frames.next()
    }

    /// The first one that is left, which is then passed; `None` exactly where none is left.
    #[inline(always)]
    pub fn next(&mut self) -> Option<Record<'a>>
        ensures none { IfNone result ((self.old.frames ≡ []) × (self.new.frames ≡ [])) }
        ensures some { IfSome result (λ r. (f : FrameView) × (self.old.frames ≡ f ∷ self.new.frames) × IsRecordOf self.old.kind f r) }
        ensures kind { self.new.kind ≡ self.old.kind }
        ensures of_kind { IfSome result (λ r. HasKind self.old.kind r) }
    {
        let kind = self.kind();
        let frame = self.next_frame()?;
        match Record::read::<TO_GIVE>(kind, frame, Pad::Any) {
            Ok(found) => Some(found),
            Err(_) => unreachable!(),
        }
    }
}

// The number of a kind.
fn number_of(kind: RecordKind) -> usize
    ensures { kind_by result ≡ kind }
{
    match kind {
        RecordKind::Flow => 0,
        RecordKind::Counters => 1,
        RecordKind::Unknown => 2,
    }
}
