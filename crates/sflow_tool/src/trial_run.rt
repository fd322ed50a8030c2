// A script as it is tried: what its lines deliver goes to a collector, each datagram as soon as a line delivers it.
ghost use Rattle.std.specs.Prelude.{◌≡◌, ◌+◌, ◌<◌, ◌≤◌, ◌^◌, [], ◌∷◌, true, false, ℕ, List, length, map, vec_len, OnOk, OnErr, IfOk};
ghost use Rattle.std.specs.List.{list_all};
ghost use Rattle.std.specs.declared.result.Result.TheVariants.{Err};
ghost use Rattle.books_spec.specs.declared.limits.Limits.{Limits as Bounds};
ghost use Rattle.script_spec.specs.Lines.{Line, SubAgent};
ghost use Rattle.script_spec.specs.Agents.{boots_of, subs_in};
ghost use Rattle.script_spec.specs.Sent.{all_delivered, sent_count};
ghost use Rattle.script_spec.specs.Rules.{may_follow, sets_up as setting_up};
ghost use Rattle.script_laws.specs.Lawful.{AreLawful};
ghost use Rattle.script_laws.specs.Written.{may_be_written};
ghost use Rattle.script_lines.specs.Shown.{shown};
ghost use Rattle.sflow_tool.specs.Replays.{Collects};
ghost use Rattle.sflow_tool.specs.ScriptRuns.{IsSound, StandsFor as RunStands};
ghost use Rattle.sflow_tool.specs.Steps.{ArrivesFrom, IsStep};
ghost use Rattle.sflow_tool.specs.Trials.{IsOpen, IsTried, TrialStands, received_in, true_sample};

use crate::replay::take_entry;
use crate::script_run::{ScriptRun, Unfit, sets_up};
use crate::step::Step;
use crate::trues::Trues;
use flow_collector::{Collector, Limits};
use sample_taps::{Tap, Taps};
use script_lines::ScriptLine;
use std::alloc::{AllocError, Global};
use trial_premises::{Premises, TrueDatagram, TrueSample};
use true_samples::IssuedSample;

/// What is kept beside the device of a script: what its sub-agents truly counted, and whether the premises hold of what was
/// delivered so far.
#[derive(Drop)]
pub(crate) struct Tried {
    pub trues: Trues,
    pub premises: Premises,
}

/// A script up to one of its lines. What is kept beside its device is opened at the first line that sets nothing up.
#[derive(Drop)]
pub(crate) struct TrialRun {
    run: ScriptRun,
    limits: Limits,
    pub tried: Option<Tried>,
}

// The samples of a datagram, as the premises take them.
fn samples_of(alloc: Global, samples: &[IssuedSample]) -> Result<Vec<TrueSample>, AllocError>
    ensures { IfOk result (λ v. v.items ≡ map true_sample samples.now) }
{
    let mut taken = Vec::new(alloc);
    for sample in samples {
        taken.push(TrueSample {
            source: sample.source,
            generation: sample.generation,
            number: sample.number,
            pool: sample.pool,
            drops: sample.drops,
        })?;
    }
    Ok(taken)
}

impl Tried {
    // Enters the datagram that a line delivers, and hands it to the collector.
    fn deliver(
        &mut self,
        alloc: Global,
        place: usize,
        boot: u64,
        number: u64,
        at: u64,
        collector: &mut Collector,
        taps: &mut Taps,
    ) -> Result<(), AllocError>
        requires { taps.old.ended + vec_len taps.old.held < 2 ^ 64 }
        ensures stands { OnOk result ((l : Bounds) (lines : List Line) (line : Line) → AreLawful (line ∷ lines)
            → ArrivesFrom lines line place boot number at → IsTried l self.old lines → IsTried l self.new (line ∷ lines)) }
        ensures takes { OnOk result ((l m : Bounds) (lines : List Line) (line : Line) (xs : _) (all : ℕ) → AreLawful (line ∷ lines)
            → ArrivesFrom lines line place boot number at → IsTried l self.old lines → length (all_delivered lines) < 2 ^ 48
            → Collects (λ x b y. (v : _) × (y ≡ record x { value = v }) × (⟦<dyn Tap as Tap>⟧ x.vtable).step x.value b v)
            (λ x. (⟦<dyn Tap as Tap>⟧ x.vtable).ended x.value) m collector.old xs taps.old.held.items all
            (taps.old.ended + vec_len taps.old.held) (received_in lines)
            → Collects (λ x b y. (v : _) × (y ≡ record x { value = v }) × (⟦<dyn Tap as Tap>⟧ x.vtable).step x.value b v)
            (λ x. (⟦<dyn Tap as Tap>⟧ x.vtable).ended x.value) m collector.new xs taps.new.held.items all
            (taps.new.ended + vec_len taps.new.held) (received_in (line ∷ lines))) }
        ensures failed { OnErr result ((collector.new ≡ collector.old) × (taps.new ≡ taps.old)) }
        ensures ended { taps.new.ended + vec_len taps.new.held ≡ taps.old.ended + vec_len taps.old.held }
    {
        let Some(datagram) = self.trues.find(place, boot, number) else {
            return Ok(());
        };
        let samples = samples_of(alloc, datagram.samples())?;
        let entered = TrueDatagram {
            boot,
            number: datagram.number(),
            uptime: datagram.uptime(),
            arrival: at,
        };
        self.premises.deliver(place, entered, &samples)?;
        let _ = take_entry(collector, at, datagram.bytes(), taps);
        Ok(())
    }

    // A line made the device do this, or delivers.
    fn follow(
        &mut self,
        alloc: Global,
        step: &Step,
        collector: &mut Collector,
        taps: &mut Taps,
    ) -> Result<(), AllocError>
        requires { taps.old.ended + vec_len taps.old.held < 2 ^ 64 }
        ensures stands { OnOk result ((l : Bounds) (lines : List Line) (line : Line) → AreLawful (line ∷ lines)
            → length lines < 2 ^ 32 → setting_up line ≡ false → IsStep lines line step.now → IsTried l self.old lines
            → IsTried l self.new (line ∷ lines)) }
        ensures takes { OnOk result ((l m : Bounds) (lines : List Line) (line : Line) (xs : _) (all : ℕ) → AreLawful (line ∷ lines)
            → setting_up line ≡ false → IsStep lines line step.now → IsTried l self.old lines → length (all_delivered lines) < 2 ^ 48
            → Collects (λ x b y. (v : _) × (y ≡ record x { value = v }) × (⟦<dyn Tap as Tap>⟧ x.vtable).step x.value b v)
            (λ x. (⟦<dyn Tap as Tap>⟧ x.vtable).ended x.value) m collector.old xs taps.old.held.items all
            (taps.old.ended + vec_len taps.old.held) (received_in lines)
            → Collects (λ x b y. (v : _) × (y ≡ record x { value = v }) × (⟦<dyn Tap as Tap>⟧ x.vtable).step x.value b v)
            (λ x. (⟦<dyn Tap as Tap>⟧ x.vtable).ended x.value) m collector.new xs taps.new.held.items all
            (taps.new.ended + vec_len taps.new.held) (received_in (line ∷ lines))) }
        ensures failed { OnErr result ((collector.new ≡ collector.old) × (taps.new ≡ taps.old)) }
        ensures ended { taps.new.ended + vec_len taps.new.held ≡ taps.old.ended + vec_len taps.old.held }
    {
        match step {
            Step::Delivered {
                place,
                boot,
                number,
                at,
            } => self.deliver(alloc, *place, *boot, *number, *at, collector, taps),
            _ => self.trues.follow(alloc, step),
        }
    }
}

impl TrialRun {
    /// A script before its first line. This takes no memory.
    pub(crate) fn new(alloc: Global, limits: Limits) -> TrialRun
        ensures stands { TrialStands result [] }
        ensures limits { result.limits ≡ limits }
    {
        TrialRun {
            run: ScriptRun::new(alloc),
            limits,
            tried: None,
        }
    }

    /// Takes a further line. `Breaks` comes exactly where the line may not follow those before it. After a refusal the
    /// collector and the consumers are as they were, and the run isn't to be used.
    pub(crate) fn take(
        &mut self,
        alloc: Global,
        line: ScriptLine,
        collector: &mut Collector,
        taps: &mut Taps,
    ) -> Result<(), Unfit>
        requires sound { IsSound self.old.run }
        requires width { 1 ≤ self.old.limits.datagram_width }
        requires few { taps.old.ended + vec_len taps.old.held < 2 ^ 64 }
        ensures stands { OnOk result ((lines : List Line) → may_be_written (shown line) ≡ true → length lines < 2 ^ 32
            → TrialStands self.old lines → TrialStands self.new (shown line ∷ lines)) }
        ensures follows { OnOk result ((lines : List Line) → may_be_written (shown line) ≡ true → TrialStands self.old lines
            → may_follow lines (shown line) ≡ true) }
        ensures takes { OnOk result ((m : Bounds) (lines : List Line) (xs : _) (all : ℕ) → may_be_written (shown line) ≡ true
            → TrialStands self.old lines → length (all_delivered lines) < 2 ^ 48
            → Collects (λ x b y. (v : _) × (y ≡ record x { value = v }) × (⟦<dyn Tap as Tap>⟧ x.vtable).step x.value b v)
            (λ x. (⟦<dyn Tap as Tap>⟧ x.vtable).ended x.value) m collector.old xs taps.old.held.items all
            (taps.old.ended + vec_len taps.old.held) (received_in lines)
            → Collects (λ x b y. (v : _) × (y ≡ record x { value = v }) × (⟦<dyn Tap as Tap>⟧ x.vtable).step x.value b v)
            (λ x. (⟦<dyn Tap as Tap>⟧ x.vtable).ended x.value) m collector.new xs taps.new.held.items all
            (taps.new.ended + vec_len taps.new.held) (received_in (shown line ∷ lines))) }
        ensures breaks { result ≡ Err Unfit.Breaks → (lines : List Line) → may_be_written (shown line) ≡ true
            → TrialStands self.old lines → may_follow lines (shown line) ≡ false }
        ensures failed { OnErr result ((collector.new ≡ collector.old) × (taps.new ≡ taps.old)) }
        ensures limits { self.new.limits ≡ self.old.limits }
        ensures ended { taps.new.ended + vec_len taps.new.held ≡ taps.old.ended + vec_len taps.old.held }
    {
        if sets_up(&line) {
            let _ = self.run.take(alloc, line)?;
            return Ok(());
        }
        if self.open(alloc).is_err() {
            return Err(Unfit::Memory);
        }
        let step = self.run.take(alloc, line)?;
        let Some(tried) = &mut self.tried else {
            return Ok(());
        };
        match tried.follow(alloc, &step, collector, taps) {
            Ok(()) => Ok(()),
            Err(_) => Err(Unfit::Memory),
        }
    }

    /// How many datagrams the first sub-agent has sent in its current boot, and 0 before the first line that sets nothing
    /// up.
    pub(crate) fn sent(&self) -> u64
        ensures of_first { (lines : List Line) (s : SubAgent) → TrialStands self.now lines → subs_in lines ≡ s ∷ []
            → result ≡ sent_count lines s (boots_of lines s) }
        ensures setting_up { (lines : List Line) → TrialStands self.now lines → list_all setting_up lines ≡ true → result ≡ 0 }
    {
        match &self.tried {
            Some(tried) => tried.trues.sent_count(0) as u64,
            None => 0,
        }
    }

    /// Opens what is kept beside the device, unless it is open.
    pub(crate) fn open(&mut self, alloc: Global) -> Result<(), AllocError>
        requires width { 1 ≤ self.old.limits.datagram_width }
        ensures open { OnOk result ((lines : List Line) → TrialStands self.old lines → IsOpen self.new lines) }
        ensures run { self.new.run ≡ self.old.run }
        ensures limits { self.new.limits ≡ self.old.limits }
    {
        if self.tried.is_some() {
            return Ok(());
        }
        let trues = Trues::open(alloc, self.run.setups())?;
        let sources = trues.source_counts(alloc)?;
        let premises = Premises::open(alloc, self.limits, &sources)?;
        self.tried = Some(Tried { trues, premises });
        Ok(())
    }
}
