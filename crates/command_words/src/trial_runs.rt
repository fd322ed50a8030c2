// What `trial` runs, from the texts of its options.
ghost use Rattle.std.specs.Prelude.{◌≡◌, Some, option_map};
ghost use Rattle.command_words.specs.Runs.{packets_asked, run_asked};

use crate::number::{number_in, wide_number_in};

// What `trial` runs: a script, or the made run of this seed and so many packets.
#[derive(Clone, Copy, Debug)]
pub(crate) enum Run {
    Script,
    Made { seed: u64, packets: u32 },
}

// The number of packets that the text writes, from 1 to 10,000,000.
fn packets_in(text: &str) -> Option<u32>
    ensures { result ≡ packets_asked text.now }
{
    let packets = number_in(text)?;
    if packets >= 1 && packets <= 10_000_000 {
        Some(packets)
    } else {
        None
    }
}

// The made run of these texts.
fn made_in(seed: &str, packets: &str) -> Option<Run>
    ensures { result ≡ run_asked (Some seed.now) (Some packets.now) }
{
    Some(Run::Made {
        seed: wide_number_in(seed)?,
        packets: packets_in(packets)?,
    })
}

impl Run {
    // What the texts say. The seed and the number of packets go together.
    pub(crate) fn asked(seed: Option<&str>, packets: Option<&str>) -> Option<Run>
        ensures { result ≡ run_asked (option_map (λ t. t.now) seed.entry) (option_map (λ t. t.now) packets.entry) }
    {
        match (seed, packets) {
            (None, None) => Some(Run::Script),
            (Some(_), None) => None,
            (None, Some(_)) => None,
            (Some(seed), Some(packets)) => made_in(seed, packets),
        }
    }
}
