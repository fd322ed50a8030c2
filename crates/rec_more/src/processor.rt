ghost use Rattle.wire_spec.specs.Tables.{processor_counters};
ghost use Rattle.data_format.specs.Records.{AreFieldsOf};
ghost use Rattle.rec_more.specs.Contents.{processor_content};

use data_format::{Fault, RecordBody};
use wire_spec::Pad;
use xdr_words::{Cursor, Item, Out, OutFull, length_of_run, write_run};

/// The load of a processor, counter record format 1001 of the standard (sFlow Version 5, section 5): 28 bytes before the
/// tail. A load is in hundredths of a percent, and 2^32 - 1 where it isn't known.
#[derive(Clone, Copy, Debug, Drop)]
pub struct ProcessorCounters<'a> {
    /// The mean load over 5 seconds.
    pub cpu_5s: u32,
    /// The mean load over 1 minute.
    pub cpu_1m: u32,
    /// The mean load over 5 minutes.
    pub cpu_5m: u32,
    /// All memory in bytes.
    pub total_memory: u64,
    /// Free memory in bytes.
    pub free_memory: u64,
    /// The bytes behind the fields.
    pub tail: &'a [u8],
}

impl<'a> RecordBody<'a> for ProcessorCounters<'a> {
    ghost shape = { processor_counters };

    ghost content = { processor_content };

    fn within(body: &'a [u8], at: usize, pad: Pad) -> Result<ProcessorCounters<'a>, Fault> {
        let mut cursor = Cursor::within(body, pad, at);
        Ok(ProcessorCounters {
            cpu_5s: cursor.word()?,
            cpu_1m: cursor.word()?,
            cpu_5m: cursor.word()?,
            total_memory: cursor.hyper()?,
            free_memory: cursor.hyper()?,
            tail: cursor.rest(),
        })
    }

    #[inline(always)]
    fn length(&self) -> usize {
        length_of_run(&self.items(), self.tail)
    }

    fn put(&self, out: &mut Out<'_>) -> Result<(), OutFull> {
        write_run(out, &self.items(), self.tail)
    }
}

impl<'a> ProcessorCounters<'a> {
    // The fields in the order of the wire.
    #[inline(always)]
    fn items(&self) -> [Item<'_>; 5]
        ensures { AreFieldsOf processor_counters (processor_content self.now) result }
    {
        [
            Item::Word(self.cpu_5s),
            Item::Word(self.cpu_1m),
            Item::Word(self.cpu_5m),
            Item::Hyper(self.total_memory),
            Item::Hyper(self.free_memory),
        ]
    }
}
