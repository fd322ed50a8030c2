// `trial --made`: the report of what is delivered of a made run, and what was true of it.
ghost use Rattle.std.specs.Prelude.{◌≡◌, ◌+◌, ◌<◌, ◌≤◌, ◌^◌, [], length, vec_len};
ghost use Rattle.byte_ends.specs.Seen.{Seen};
ghost use Rattle.datagram_links.specs.Links.{LinkSeen};
ghost use Rattle.books_spec.specs.Limits.{AreLawful};
ghost use Rattle.sample_taps.specs.Classes.{no_classes};
ghost use Rattle.sample_taps.specs.Feeding.{Held};
ghost use Rattle.flow_collector.specs.Collectors.{StandsFor};
ghost use Rattle.report_lines.specs.HeaderLines.{shown_taps};
ghost use Rattle.script_laws.specs.Lawful.{AreLawful as Lawful};
ghost use Rattle.made_runs.specs.Scripts.{Gave};
ghost use Rattle.sflow_tool.specs.MadeLines.{RunEnds};
ghost use Rattle.sflow_tool.specs.MadeTrials.{HasMade, Makes, made_text};
ghost use Rattle.sflow_tool.specs.Replays.{Collects, briefs_in};
ghost use Rattle.sflow_tool.specs.Surroundings.{surroundings};
ghost use Rattle.sflow_tool.specs.Trials.{IsOpen, TrialStands, received_in};

use crate::script_run::Unfit;
use crate::trial::finish;
use crate::trial_run::TrialRun;
use command_runs::Status;
use flow_collector::{Collector, Limits, Seeds};
use made_runs::MadeScript;
use sample_taps::{Tap, Taps};
use script_histories::laws::scripts_are_histories;
use sflow_io::Sink;
use std::alloc::{AllocError, Global};

/// The script of a made run has at most so many lines: 3 that set up, and 60 for each of 10,000,000 packets.
const MAX_LINES: u32 = 600_000_003;

// Makes the run of a seed with so many packets, from 1 to 10,000,000, and runs its script line by line; what its lines
// deliver goes to a collector and the consumers at once. Then it writes what `trial` writes. Memory may be lacking at any
// line; nothing is written then.
pub(crate) fn made_trial<K: Sink>(
    alloc: Global,
    limits: Limits,
    interfaces: bool,
    seeds: Seeds,
    seed: u64,
    packets: u32,
    sink: &mut K,
    taps: &mut Taps,
) -> Status
    requires lawful { AreLawful limits }
    requires some { 1 ≤ packets }
    requires most { packets ≤ 10000000 }
    requires few { taps.old.ended + vec_len taps.old.held < 2 ^ 64 }
    ensures runs { (source : Seen) (link : LinkSeen) → Makes (made_text limits interfaces seed packets)
        (surroundings source (K.seen sink.old) link
        (shown_taps (λ x. (⟦<dyn Tap as Tap>⟧ x.vtable).text x.value) taps.old.held.items taps.old.ended))
        (surroundings source (K.seen sink.new) link
        (shown_taps (λ x. (⟦<dyn Tap as Tap>⟧ x.vtable).text x.value) taps.new.held.items taps.new.ended)) result }
    ensures fed { HasMade (λ entries. Held (λ x b y. (v : _) × (y ≡ record x { value = v }) × (⟦<dyn Tap as Tap>⟧ x.vtable).step x.value b v)
        (λ x. (⟦<dyn Tap as Tap>⟧ x.vtable).ended x.value) (briefs_in limits entries) taps.old.held.items taps.new.held.items)
        seed packets result }
    ensures ended { taps.new.ended + vec_len taps.new.held ≡ taps.old.ended + vec_len taps.old.held }
{
    scripts_are_histories();
    let Ok(mut collector) = Collector::open_within(alloc, limits, seeds) else {
        return Status::Memory;
    };
    let mut run = TrialRun::new(alloc, limits);
    let mut script = MadeScript::begin(seed, packets);
    match take_lines(alloc, &mut script, &mut run, &mut collector, taps) {
        Ok(()) => finish(sink, &run, &collector, interfaces, taps),
        Err(_) => Status::Memory,
    }
}

// Takes all lines of the script, one after the other, each as soon as it is made.
fn take_lines(
    alloc: Global,
    script: &mut MadeScript,
    run: &mut TrialRun,
    collector: &mut Collector,
    taps: &mut Taps,
) -> Result<(), AllocError>
    requires gave { Gave script.old [] }
    requires new { TrialStands run.old [] }
    requires width { 1 ≤ run.old.limits.datagram_width }
    requires few { taps.old.ended + vec_len taps.old.held < 2 ^ 64 }
    requires stands { StandsFor collector.old.books collector.old.books.limits [] }
    requires classes { collector.old.classes ≡ no_classes }
    ensures ends { RunEnds (λ lines. IsOpen run.new lines × (length lines < 2 ^ 32)) Lawful
        (λ lines. Collects (λ x b y. (v : _) × (y ≡ record x { value = v }) × (⟦<dyn Tap as Tap>⟧ x.vtable).step x.value b v)
        (λ x. (⟦<dyn Tap as Tap>⟧ x.vtable).ended x.value) collector.old.books.limits collector.new taps.old.held.items taps.new.held.items
        (taps.old.ended + vec_len taps.old.held) (taps.new.ended + vec_len taps.new.held) (received_in lines))
        script.old.seed script.old.total result }
    ensures limits { run.new.limits ≡ run.old.limits }
    ensures ended { taps.new.ended + vec_len taps.new.held ≡ taps.old.ended + vec_len taps.old.held }
{
    for _ in 0..MAX_LINES + 1 {
        let Some(line) = script.next(alloc, run.sent())? else {
            return run.open(alloc);
        };
        match run.take(alloc, line, collector, taps) {
            Ok(()) => {}
            Err(Unfit::Breaks) => unreachable!(),
            Err(Unfit::Memory) => return Err(AllocError),
        }
    }
    unreachable!()
}
