// Why an input is refused.

/// Why an input is no capture, or no script.
#[derive(Clone, Copy, Debug, PartialEq, Eq)]
pub enum InputKind {
    /// A capture, or a pcap file, doesn't begin with the four bytes of its magic.
    Magic,
    /// The version behind the magic is none that is read, or isn't whole.
    Version,
    /// The input ends inside an entry, an item or a packet, or before a capture's end item.
    Cut,
    /// A length word is above what is taken: 65,535 bytes of a datagram, 262,144 of a packet.
    Long,
    /// A padding byte after an entry's bytes isn't zero.
    Padding,
    /// The first word of an item of a capture of version 2 is neither 0 nor 1.
    Item,
    /// The type of a sender's address is above 2.
    Address,
    /// A sender's port is above 65,535.
    Port,
    /// The number in a capture's end item isn't that of its entries.
    Count,
    /// A byte follows a capture's end item.
    After,
    /// A pcap file's link type isn't Ethernet, or its header isn't whole.
    Link,
    /// A script is outside its grammar.
    Script,
}
