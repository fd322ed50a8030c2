// A record as it is written: its format, and the bytes of its body.
ghost use Rattle.std.specs.Prelude.{◌≡◌, ◌≤◌, ◌%◌, length};
ghost use Rattle.wire_spec.specs.Spelling.{spell};
ghost use Rattle.xdr_words.specs.Written.{Puts};
ghost use Rattle.data_format.specs.Views.{format_word};
ghost use Rattle.datagram_core.specs.Records.{record_tree};
ghost use Rattle.datagram_core.specs.Written.{SlicesFit, FormatFits, record_format, record_body};

use crate::Record;
use crate::writer_parts::size_of_array;
use data_format::RecordBody;
use xdr_words::{Out, OutFull};

// What is done with a record, by its variant: the number of its format, of enterprise 0, and the record. The last arm is
// that of a record whose format isn't read. The lengths that aren't used tell how long the arrays of a record are.
macro_rules! on_record {
    ($item:expr, ($number:ident, $found:ident) => $read:expr, $frame:ident => $kept:expr) => {
        match $item {
            Record::RawHeader($found) => { let $number = 1; $read }
            Record::Ethernet($found) => { let $number = 2; let _ = size_of_array(&$found.src_mac.0) + size_of_array(&$found.dst_mac.0); $read }
            Record::Ipv4($found) => { let $number = 3; let _ = size_of_array(&$found.src) + size_of_array(&$found.dst); $read }
            Record::Ipv6($found) => { let $number = 4; let _ = size_of_array(&$found.src) + size_of_array(&$found.dst); $read }
            Record::Switch($found) => { let $number = 1001; $read }
            Record::Router($found) => { let $number = 1002; let _ = $found.nexthop.length(); $read }
            Record::Gateway($found) => { let $number = 1003; let _ = $found.nexthop.length(); $read }
            Record::User($found) => { let $number = 1004; $read }
            Record::Url($found) => { let $number = 1005; $read }
            Record::Mpls($found) => { let $number = 1006; let _ = $found.nexthop.length(); $read }
            Record::Nat($found) => { let $number = 1007; let _ = $found.src.length() + $found.dst.length(); $read }
            Record::IfCounters($found) => { let $number = 1; $read }
            Record::EthernetCounters($found) => { let $number = 2; $read }
            Record::VlanCounters($found) => { let $number = 5; $read }
            Record::Processor($found) => { let $number = 1001; $read }
            Record::Other($frame) => $kept,
        }
    };
}

/// The word of the format of a record.
#[inline(always)]
pub(crate) fn format_word_of(item: &Record<'_>) -> u32
    requires { FormatFits item.now }
    ensures { result ≡ record_format item.now }
{
    on_record!(item, (number, _found) => number, frame => frame.format.to_word())
}

/// How many bytes the body of a record has. Each of its slices has at most 65,535.
#[inline(always)]
pub(crate) fn body_length(item: &Record<'_>) -> usize
    requires { SlicesFit item.now }
    ensures exact { result ≡ length (record_body item.now) }
    ensures most { result ≤ 1000000 }
{
    on_record!(item, (_number, found) => found.length(), frame => frame.body.len())
}

/// How many bytes the frame of a record has, whose body has this size.
#[inline(always)]
pub(crate) fn frame_length(item: &Record<'_>, size: usize) -> usize
    requires size { size ≡ length (record_body item.now) }
    requires most { size ≤ 1000000 }
    ensures exact { result ≡ length (spell (record_tree item.now)) }
    ensures least { 8 ≤ result }
    ensures words { result % 4 ≡ 0 }
{
    8 + size + (4 - size % 4) % 4
}

/// The body of a record, whole or not at all. Each of its slices has at most 65,535 bytes.
#[inline(always)]
pub(crate) fn write_body(item: &Record<'_>, out: &mut Out<'_>) -> Result<(), OutFull>
    requires { SlicesFit item.now }
    ensures { Puts out.old out.new result (record_body item.now) }
{
    on_record!(item, (_number, found) => found.write(out), frame => out.put_raw(frame.body))
}
