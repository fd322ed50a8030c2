use std::alloc::{AllocError, Global};

/// A command on an input, and what must come of it.
#[derive(Clone, Drop)]
pub struct Row {
    pub name: String,
    pub words: Vec<String>,
    pub input: Vec<u8>,
    /// The lengths of the beginnings of the input that are tried, from the first to the last; without them the whole
    /// input is.
    pub fronts: Option<(usize, usize)>,
    /// The most bytes that a read moves, each in a run of its own.
    pub pieces: Vec<usize>,
    /// The numbers of the reads and of the writes that fail, from 1 on.
    pub read_fails: Vec<u64>,
    pub write_fails: Vec<u64>,
    /// How many bytes the sink takes in all.
    pub room: u64,
    /// The code and the text of the status.
    pub status: String,
    pub output: Vec<u8>,
    /// How many bytes of the input the source still has, where that is compared.
    pub left: Option<usize>,
    /// The consumers that are handed in, in order.
    pub taps: Vec<Consumer>,
    /// The lines of those that are held after the run, where they are compared.
    pub held: Option<String>,
    /// What the link gives.
    pub items: Vec<Item>,
    /// The numbers of the calls of the link that fail, from 1 on.
    pub link_fails: Vec<u64>,
    /// The datagrams that the link must take to send.
    pub sent: Vec<Vec<u8>>,
    /// The receivers that are handed in, in order.
    pub receivers: Vec<Taker>,
}

/// What a receive of a link gives: a datagram and its arrival in ms, or nothing.
#[derive(Clone, Drop)]
pub enum Item {
    Got { at: u64, bytes: Vec<u8> },
    Quiet,
}

/// A receiver of datagrams that are passed on.
#[derive(Clone, Drop)]
pub struct Taker {
    /// The numbers of its calls that fail, from 1 on.
    pub fails: Vec<u64>,
    /// The datagrams that it must take.
    pub taken: Vec<Vec<u8>>,
}

/// A consumer of sampled headers.
#[derive(Clone, Copy, Drop)]
pub enum Consumer {
    Length,
    Port,
    /// It is done at this count.
    Count(u64),
}

impl Row {
    /// One that asks for nothing, gives nothing and ends well.
    pub fn new(alloc: Global, name: &str) -> Result<Row, AllocError> {
        Ok(Row {
            name: String::from_str(alloc, name)?,
            words: Vec::new(alloc),
            input: Vec::new(alloc),
            fronts: None,
            pieces: Vec::new(alloc),
            read_fails: Vec::new(alloc),
            write_fails: Vec::new(alloc),
            room: u64::MAX,
            status: String::from_str(alloc, "0")?,
            output: Vec::new(alloc),
            left: None,
            taps: Vec::new(alloc),
            held: None,
            items: Vec::new(alloc),
            link_fails: Vec::new(alloc),
            sent: Vec::new(alloc),
            receivers: Vec::new(alloc),
        })
    }
}
