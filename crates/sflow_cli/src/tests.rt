// What a run does to a consumer of one's own, which no clause says: when it is dropped.
use sflow_tool::{
    Brief, CountTap, Line, MemoryLink, MemorySink, MemorySource, Receivers, Seeds, Status, Tap,
    Taps, run,
};
use std::alloc::{AllocError, Global};
use std::cell::Cell;
use std::hash::RandomState;
use std::rc::Rc;
use std::test::Fail;

// A consumer that adds 1 to a shared counter when it is dropped.
struct Told {
    inner: CountTap,
    drops: Rc<Cell<u64>>,
}

impl Drop for Told {
    fn drop(self) {
        let Told { inner: _, drops } = self;
        drops.set(drops.get().saturating_add(1));
    }
}

impl Tap for Told {
    ghost use Rattle.std.specs.Prelude.{ℕ};

    ghost step = { λ _ _ _. ℕ };

    ghost ended = { λ s. ⟦<CountTap as Tap>⟧.ended s.inner };

    ghost text = { λ s. ⟦<CountTap as Tap>⟧.text s.inner };

    fn take(&mut self, brief: &Brief) {
        self.inner.take(brief);
    }

    fn done(&self) -> bool {
        self.inner.done()
    }

    fn line(&self) -> Line {
        self.inner.line()
    }
}

fn put_words(bytes: &mut Vec<u8>, words: &[u32]) -> Result<(), AllocError> {
    for word in words {
        bytes.extend_from_slice(&word.to_be_bytes())?;
    }
    Ok(())
}

// A flow sample of source 5 with this sequence number and pool: the header of an ARP request, and a VLAN.
fn put_flow_sample(bytes: &mut Vec<u8>, number: u32) -> Result<(), AllocError> {
    put_words(bytes, &[1, 208, number, 5, 1, number, 0, 5, 6, 2])?;
    put_words(bytes, &[1, 144, 1, 1500, 0, 128])?;
    put_words(bytes, &[0xffff_ffff, 0xffff_0200, 0x0000_0001, 0x0806_0000])?;
    put_words(bytes, &[0; 28])?;
    put_words(bytes, &[1001, 16, 100, 0, 0, 0])
}

// Two datagrams of one agent with seven flow samples, and in the second one a sample of interface counters.
fn capture(alloc: Global) -> Result<Vec<u8>, AllocError> {
    let mut bytes = Vec::new(alloc);
    put_words(&mut bytes, &[0x5346_4c43, 1])?;
    put_words(
        &mut bytes,
        &[0, 2000, 1324, 5, 1, 0x0a00_0001, 1, 1, 1000, 6],
    )?;
    for number in 1..7 {
        put_flow_sample(&mut bytes, number)?;
    }
    put_words(
        &mut bytes,
        &[0, 2000, 360, 5, 1, 0x0a00_0001, 1, 2, 1000, 2],
    )?;
    put_flow_sample(&mut bytes, 7)?;
    put_words(&mut bytes, &[2, 108, 1, 5, 1, 1, 88, 5, 6])?;
    put_words(&mut bytes, &[0, 1_000_000_000, 1, 3, 0, 10500, 7])?;
    put_words(&mut bytes, &[0; 13])?;
    Ok(bytes)
}

// One that is done when it is handed in takes no header, and its box is dropped once.
#[test]
fn a_done_one_is_dropped_by_a_run(rt: HostRuntime) -> Result<(), Fail> {
    let alloc = rt.alloc();
    let drops = Rc::new(alloc, Cell::new(0))?;
    let told = Told {
        inner: CountTap::new(0),
        drops: drops.clone()?,
    };
    let mut boxes: Vec<Box<dyn Tap>> = Vec::new(alloc);
    boxes.push(Box::new(alloc, told)?)?;
    let mut taps = Taps::new(boxes);
    let mut words = Vec::new(alloc);
    words.push(String::from_str(alloc, "replay")?)?;
    let seeds = Seeds {
        streams: RandomState::new(&rt)?,
        sources: RandomState::new(&rt)?,
    };
    let mut source = MemorySource::new(capture(alloc)?, 65_536, Vec::new(alloc));
    let mut sink = MemorySink::new(alloc, 65_536, Vec::new(alloc));
    let mut link = MemoryLink::new(alloc, Vec::new(alloc), Vec::new(alloc));
    let mut receivers = Receivers::new(Vec::new(alloc));
    let status = run(
        alloc,
        &words,
        seeds,
        &mut source,
        &mut sink,
        &mut link,
        &mut taps,
        &mut receivers,
    );
    assert!(rt; matches!(&status, Status::Done));
    assert!(rt; taps.len() == 0 && taps.ended() == 1 && drops.get() == 1);
    Ok(())
}
