ghost use Rattle.std.specs.Prelude.{◌≡◌, ◌+◌, ◌<◌, ◌^◌, length};
ghost use Rattle.wire_spec.specs.Bytes.{AreBytes};
ghost use Rattle.wire_spec.specs.Tables.{extended_gateway};
ghost use Rattle.xdr_words.specs.Readers.{Gives};
ghost use Rattle.data_format.specs.Records.{AreFieldsOf, record_reading};
ghost use Rattle.rec_extended.specs.RouteContents.{gateway_content, gateway_parts, path_of, communities_of, AreShortLists, HasLists};

use crate::{AsPath, Words};
use data_format::{Address, Fault, RecordBody, address_parts};
use wire_spec::Pad;
use xdr_words::{Cursor, Item, Out, OutFull, length_of_run, write_run};

/// What a gateway record has besides its lists and its tail.
#[derive(Clone, Copy, Debug, PartialEq, Eq)]
pub struct GatewayHead {
    /// The address of the next border router.
    pub nexthop: Address,
    /// The AS number of this router.
    pub as_number: u32,
    /// The AS number of the source.
    pub src_as: u32,
    /// The AS number of the source's peer.
    pub src_peer_as: u32,
    /// The local preference of the route.
    pub localpref: u32,
}

/// The BGP route of a sampled packet, flow record format 1003 of the standard (sFlow Version 5, section 5; RFC 4271).
#[derive(Drop)]
pub struct GatewayRec<'a> {
    /// The address of the next border router.
    pub nexthop: Address,
    /// The AS number of this router.
    pub as_number: u32,
    /// The AS number of the source.
    pub src_as: u32,
    /// The AS number of the source's peer.
    pub src_peer_as: u32,
    path: AsPath<'a>,
    communities: Words<'a>,
    /// The local preference of the route.
    pub localpref: u32,
    /// The bytes behind the fields.
    pub tail: &'a [u8],
}

impl<'a> RecordBody<'a> for GatewayRec<'a> {
    ghost shape = { extended_gateway };

    ghost content = { gateway_content };

    ghost are_short = { AreShortLists };

    ghost has_slices = { HasLists };

    fn within(body: &'a [u8], at: usize, pad: Pad) -> Result<GatewayRec<'a>, Fault> {
        GatewayRec::fields(body, at, pad)
    }

    fn length(&self) -> usize {
        length_of_run(&self.items(), self.tail)
    }

    fn put(&self, out: &mut Out<'_>) -> Result<(), OutFull> {
        write_run(out, &self.items(), self.tail)
    }
}

impl<'a> GatewayRec<'a> {
    /// A record of these parts, whose path is the segments that are left in `path`.
    pub fn make(
        head: GatewayHead,
        path: AsPath<'a>,
        communities: Words<'a>,
        tail: &'a [u8],
    ) -> GatewayRec<'a>
        ensures { gateway_content result ≡ gateway_parts head path.entry communities.entry tail.now }
    {
        GatewayRec {
            nexthop: head.nexthop,
            as_number: head.as_number,
            src_as: head.src_as,
            src_peer_as: head.src_peer_as,
            path,
            communities,
            localpref: head.localpref,
            tail,
        }
    }

    /// The segments of the AS path, from the first one on.
    pub fn path(&self) -> AsPath<'a>
        ensures { result ≡ path_of self.now }
    {
        self.path.fork()
    }

    /// The communities.
    pub fn communities(&self) -> Words<'a>
        ensures { result ≡ communities_of self.now }
    {
        self.communities.fork()
    }

    // The fields, one after the other, and the tail.
    fn fields(body: &'a [u8], at: usize, pad: Pad) -> Result<GatewayRec<'a>, Fault>
        requires { at + length body.now < 2 ^ 32 }
        ensures exact { Gives gateway_content (λ f. f) result (record_reading pad extended_gateway (record { at = at; bytes = body.now })) }
        ensures bytes { AreBytes body.now }
    {
        let mut cursor = Cursor::within(body, pad, at);
        Ok(GatewayRec {
            nexthop: Address::read(&mut cursor)?,
            as_number: cursor.word()?,
            src_as: cursor.word()?,
            src_peer_as: cursor.word()?,
            path: AsPath::read(&mut cursor)?,
            communities: Words::read(&mut cursor)?,
            localpref: cursor.word()?,
            tail: cursor.rest(),
        })
    }

    // Its numbers are words.
    fn numbers(&self)
        ensures as_number { self.now.as_number < 2 ^ 32 }
        ensures src_as { self.now.src_as < 2 ^ 32 }
        ensures src_peer_as { self.now.src_peer_as < 2 ^ 32 }
        ensures localpref { self.now.localpref < 2 ^ 32 }
    {
        is_word(self.as_number);
        is_word(self.src_as);
        is_word(self.src_peer_as);
        is_word(self.localpref);
    }

    // The fields in the order of the wire.
    fn items(&self) -> [Item<'_>; 10]
        requires { AreShortLists self.now }
        ensures { AreFieldsOf extended_gateway (gateway_content self.now) result }
    {
        self.numbers();
        let nexthop = address_parts(&self.nexthop);
        let segments = self.path.len();
        let path = self.path.bytes();
        let numbers = self.communities.len();
        let communities = self.communities.bytes();
        [
            Item::Word(nexthop.kind),
            Item::Fixed(nexthop.bytes),
            Item::Word(self.as_number),
            Item::Word(self.src_as),
            Item::Word(self.src_peer_as),
            Item::Word(segments),
            Item::Fixed(path),
            Item::Word(numbers),
            Item::Fixed(communities),
            Item::Word(self.localpref),
        ]
    }
}

// A word has 32 bits.
fn is_word(value: u32)
    ensures { value < 2 ^ 32 }
{
    let _ = value;
}
