use wire_spec::Fault;

/// The first entry that was no datagram.
#[derive(Clone, Copy, Debug)]
pub struct FirstFault {
    /// The number of the entry, counted from 1.
    pub entry: u64,
    /// Its fault.
    pub fault: Fault,
}

/// What is shown of all entries.
#[derive(Clone, Copy, Debug)]
pub struct Totals {
    /// How many entries there were.
    pub entries: u64,
    /// How many of them were no datagrams.
    pub malformed: u64,
    /// How many datagrams were of streams that aren't listed.
    pub unlisted: u64,
    /// How many entered samples were of sources that aren't listed.
    pub unlisted_samples: u64,
    /// How many entered samples were of other formats.
    pub other: u64,
    /// The first fault, if an entry was malformed.
    pub first_fault: Option<FirstFault>,
}
