use crate::{
    Brief, Briefing, CountTap, HeaderFacts, LengthTap, Line, Sampled, Tap, Taps, TopPortTap,
};
use std::cell::Cell;
use std::rc::Rc;
use std::test::Fail;

fn brief(frame_length: u32, port: u16) -> Brief {
    Brief {
        stream: 1,
        class: 0,
        index: 5,
        rate: 1000,
        frame_length,
        facts: HeaderFacts {
            dst_port: Some(port),
            ..HeaderFacts::none()
        },
    }
}

// A consumer that tells when it is dropped.
struct Told {
    inner: CountTap,
    drops: Rc<Cell<u64>>,
}

impl Drop for Told {
    fn drop(self) {
        let Told { inner: _, drops } = self;
        drops.set(drops.get().saturating_add(1));
    }
}

impl Tap for Told {
    ghost use Rattle.std.specs.Prelude.{ℕ, nat_le};
    ghost use Rattle.sample_taps.specs.Lines.{count_text};

    ghost step = { λ _ _ _. ℕ };

    ghost ended = { λ s. nat_le s.inner.limit s.inner.count };

    ghost text = { λ s. count_text s.inner.count };

    fn take(&mut self, brief: &Brief) {
        self.inner.take(brief);
    }

    fn done(&self) -> bool {
        self.inner.done()
    }

    fn line(&self) -> Line {
        self.inner.line()
    }
}

// One that is done takes nothing, and its box is dropped once.
#[test]
fn a_done_one_is_dropped(rt: HostRuntime) -> Result<(), Fail> {
    let drops = Rc::new(rt.alloc(), Cell::new(0))?;
    let told = Told {
        inner: CountTap::new(0),
        drops: drops.clone()?,
    };
    let mut boxes: Vec<Box<dyn Tap>> = Vec::new(rt.alloc());
    boxes.push(Box::new(rt.alloc(), told)?)?;
    boxes.push(Box::new(rt.alloc(), CountTap::new(2))?)?;
    let mut taps = Taps::new(boxes);
    if taps.len() < 100 && taps.ended() < 100 {
        taps.feed_all(&[brief(64, 443)]);
    }
    assert!(rt; taps.len() == 1 && taps.ended() == 1 && drops.get() == 1);
    if taps.len() == 1 {
        assert!(rt; taps.line(0).as_str() == "tap headers 1");
    }
    Ok(())
}

// One that is done in the middle of a batch takes no more of it, and is dropped; the others take all of it.
#[test]
fn one_done_within_a_batch(rt: HostRuntime) -> Result<(), Fail> {
    let briefs = [brief(64, 443), brief(64, 443), brief(64, 443)];
    let mut alone = CountTap::new(2);
    alone.take_all(&briefs);
    assert!(rt; alone.count == 2);
    let mut boxes: Vec<Box<dyn Tap>> = Vec::new(rt.alloc());
    boxes.push(Box::new(rt.alloc(), CountTap::new(2))?)?;
    boxes.push(Box::new(rt.alloc(), CountTap::new(4))?)?;
    let mut taps = Taps::new(boxes);
    if taps.len() < 100 && taps.ended() < 100 {
        taps.feed_all(&briefs);
    }
    assert!(rt; taps.len() == 1 && taps.ended() == 1);
    if taps.len() == 1 {
        assert!(rt; taps.line(0).as_str() == "tap headers 3");
    }
    Ok(())
}

// Two lengths, and of three ports the least of those with the greatest count.
#[test]
fn lines_tell_the_counts(rt: HostRuntime) -> Result<(), Fail> {
    let mut lengths = LengthTap::new();
    let mut ports = TopPortTap::open(rt.alloc())?;
    assert!(rt; ports.line().as_str() == "tap port none");
    for (length, port) in [(64, 80), (65, 443), (1519, 80), (65, 443), (0, 9)] {
        lengths.take(&brief(length, port));
        ports.take(&brief(length, port));
    }
    assert!(rt; lengths.line().as_str() == "tap length 2 2 0 0 0 0 1");
    assert!(rt; ports.line().as_str() == "tap port 80 count 2");
    Ok(())
}

// Seventeen headers of IPv6 are more than a batch: all are counted, and all go to the consumer.
#[test]
fn a_batch_and_one_more(rt: HostRuntime) -> Result<(), Fail> {
    let mut boxes: Vec<Box<dyn Tap>> = Vec::new(rt.alloc());
    boxes.push(Box::new(rt.alloc(), CountTap::new(100))?)?;
    let mut taps = Taps::new(boxes);
    let mut briefing = Briefing::new();
    let sampled = Sampled {
        stream: 1,
        class: 0,
        index: 5,
        rate: 1000,
        frame_length: 64,
    };
    for _ in 0..17 {
        if taps.len() < 100 && taps.ended() < 100 {
            briefing.push(&mut taps, &sampled, 12, &[0x60; 40]);
        }
    }
    if taps.len() < 100 && taps.ended() < 100 {
        briefing.finish(&mut taps);
    }
    assert!(rt; briefing.totals().ipv6 == 17 && briefing.totals().headers() == 17);
    if taps.len() == 1 {
        assert!(rt; taps.line(0).as_str() == "tap headers 17");
    }
    Ok(())
}
