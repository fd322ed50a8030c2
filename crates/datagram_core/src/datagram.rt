ghost use Rattle.std.specs.Prelude.{◌≡◌, ◌≤◌, length, Ok, IfOk, IfErr};
ghost use Rattle.wire_spec.specs.declared.pad.Pad.{Pad};
ghost use Rattle.wire_spec.specs.declared.pad.Pad.TheVariants.{Zero};
ghost use Rattle.wire_spec.specs.Reading.{members_at};
ghost use Rattle.wire_spec.specs.Spelling.{spell};
ghost use Rattle.wire_spec.specs.Whole.{SpellsWhole, FailsWhole, whole_reading};
ghost use Rattle.xdr_words.specs.Readers.{Reads, Gives, remaining};
ghost use Rattle.data_format.specs.Frames.{frames_at};
ghost use Rattle.data_format.specs.Ranges.{AreRanges};
ghost use Rattle.data_format.specs.Trees.{table_test};
ghost use Rattle.datagram_core.specs.Heads.{head_of, head_members, head_trees};
ghost use Rattle.datagram_core.specs.Parts.{parts_of, behind_version_at, parts_reading};
ghost use Rattle.datagram_core.specs.Ranges.{BodiesAreRanges};
ghost use Rattle.datagram_core.specs.Tables.{samples_read, datagram_read};
ghost use Rattle.datagram_core.specs.Trees.{tree_of};

use crate::check::SampleCheck;
use crate::{DatagramHead, Samples};
use data_format::{Address, Fault, FaultKind, Frames};
use std::marker::Model;
use wire_spec::{MAX_DATAGRAM, Pad};
use xdr_words::Cursor;

/// A datagram that was read from borrowed bytes: its head and its samples.
#[derive(Drop)]
pub struct Datagram<'a> {
    head: DatagramHead,
    samples: Samples<'a>,
}

impl<'a> Model for Datagram<'a> {
    ghost use Rattle.std.specs.Prelude.{◌≤◌, length};
    ghost use Rattle.wire_spec.specs.Spelling.{spell};
    ghost use Rattle.datagram_core.specs.Heads.{DatagramView, head_of};
    ghost use Rattle.datagram_core.specs.Trees.{tree_of};

    ghost Value = { DatagramView };

    ghost view = { λ d. record { head = head_of d.head; samples = d.samples } };

    // A sample has at least eight bytes.
    ghost invariant = { λ d. (length d.samples ≤ 8191) × (length (spell (tree_of (record { head = head_of d.head; samples = d.samples }))) ≤ 65535) };
}

impl<'a> Datagram<'a> {
    /// The datagram that the bytes spell, all of them, or the first fault: `TooLong` at 65,535 where there are more
    /// bytes than that; else from the front on `Short` at an item that isn't all there, `Version` at the version word
    /// where it isn't 5, `AddressType` at the word of the agent's address where it is above 2, `Pad` at a padding byte
    /// that isn't zero though zeros are asked for; else `Trailing` behind the last sample, where bytes are left.
    pub fn parse(bytes: &'a [u8], pad: Pad) -> Result<Datagram<'a>, Fault>
        ensures spelled { IfOk result (λ d. SpellsWhole pad datagram_read bytes.now (tree_of d)) }
        ensures fault { IfErr result (λ f. FailsWhole pad datagram_read bytes.now f) }
        ensures exact { Gives tree_of (λ f. f) result (whole_reading pad datagram_read bytes.now) }

        // The body of each sample is the range of the bytes at its place, and so is the body of each of its records.
        ensures ranges { IfOk result (λ d. AreRanges bytes.now d.samples) }
        ensures nested { IfOk result (λ d. BodiesAreRanges bytes.now d.samples) }

        // With zero padding the datagram has as many bytes; it is read from them again, however padding is read; and
        // where zeros are asked for they are the bytes themselves.
        ensures length { IfOk result (λ d. length (spell (tree_of d)) ≡ length bytes.now) }
        ensures again { IfOk result (λ d. (p : Pad) → whole_reading p datagram_read (spell (tree_of d)) ≡ Ok (tree_of d)) }
        ensures zero { IfOk result (λ d. pad ≡ Zero → spell (tree_of d) ≡ bytes.now) }
    {
        parse_parts(bytes, pad)
    }

    /// What stands before the samples.
    pub fn head(&self) -> DatagramHead
        ensures { head_of result ≡ self.now.head }
    {
        self.head
    }

    /// The samples, from the first one on: at most 8,191 of them, since each has at least eight bytes.
    pub fn samples(&self) -> Samples<'a>
        ensures exact { result ≡ self.now.samples }
        ensures few { length result ≤ 8191 }
        ensures short { length (spell (tree_of self.now)) ≤ 65535 }
    {
        self.samples.fork()
    }
}

// The head and the samples of all the bytes, or the first fault.
fn parse_parts(bytes: &[u8], pad: Pad) -> Result<Datagram<'_>, Fault>
    ensures { Gives parts_of (λ f. f) result (parts_reading pad samples_read bytes.now) }
{
    if bytes.len() > MAX_DATAGRAM {
        return Err(Fault {
            at: MAX_DATAGRAM,
            kind: FaultKind::TooLong,
        });
    }
    let mut cursor = Cursor::new(bytes, pad);
    let (head, samples) = read_parts(&mut cursor, pad)?;
    let left = cursor.left();
    if left > 0 {
        return Err(Fault {
            at: cursor.at(),
            kind: FaultKind::Trailing { left: left as u64 },
        });
    }
    Ok(Datagram { head, samples })
}

// The version, the head and the samples, or the first fault.
fn read_parts<'a>(cursor: &mut Cursor<'a>, pad: Pad) -> Result<(DatagramHead, Samples<'a>), Fault>
    requires { pad ≡ cursor.old.pad }
    ensures { Reads (λ x. (head_trees (head_of x.0), x.1)) (λ f. f) cursor.old cursor.new result
        (behind_version_at pad samples_read (remaining cursor.old)) }
{
    let mut next = cursor.fork();
    let version = next.word()?;
    if version != 5 {
        return Err(Fault {
            at: cursor.at(),
            kind: FaultKind::Version { found: version },
        });
    }
    let head = read_head(&mut next)?;
    let samples = read_samples(&mut next, pad)?;
    *cursor = next;
    Ok((head, samples))
}

// What stands between the version and the samples, or the first fault.
fn read_head(cursor: &mut Cursor<'_>) -> Result<DatagramHead, Fault>
    ensures { Reads (λ h. head_trees (head_of h)) (λ f. f) cursor.old cursor.new result
        (members_at cursor.old.pad head_members (remaining cursor.old)) }
{
    let mut next = cursor.fork();
    let head = DatagramHead {
        agent: Address::read(&mut next)?,
        sub_agent: next.word()?,
        sequence: next.word()?,
        uptime: next.word()?,
    };
    *cursor = next;
    Ok(head)
}

// The samples, or the first fault.
fn read_samples<'a>(cursor: &mut Cursor<'a>, pad: Pad) -> Result<Samples<'a>, Fault>
    requires { pad ≡ cursor.old.pad }
    ensures { Reads (λ s. s) (λ f. f) cursor.old cursor.new result
        (frames_at pad (table_test pad samples_read) (remaining cursor.old)) }
{
    let frames = Frames::read(cursor, pad, &SampleCheck)?;
    Ok(Samples::over(frames))
}
