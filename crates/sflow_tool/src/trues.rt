// What the sub-agents of a script truly counted, line by line.
ghost use Rattle.std.specs.Prelude.{◌≡◌, ◌<◌, ◌≤◌, ◌++◌, ◌^◌, false, true, ℕ, List, ◌∷◌, length, map, reverse, slice_get, Some, IfOk, OnOk, IfSome, IfNone};
ghost use Rattle.std.specs.List.{list_all};
ghost use Rattle.account_spec.specs.Histories.{counter_sources, flow_sources};
ghost use Rattle.script_spec.specs.Lines.{Line, SubAgent};
ghost use Rattle.script_spec.specs.Agents.{boots_of, subs_in};
ghost use Rattle.script_spec.specs.Rules.{sets_up};
ghost use Rattle.script_spec.specs.Sent.{sent_count};
ghost use Rattle.script_laws.specs.Lawful.{AreLawful};
ghost use Rattle.script_tables.specs.Said.{AreSetUp};
ghost use Rattle.sub_agents.specs.SubAgents.{BootSoFar};
ghost use Rattle.sflow_tool.specs.ScriptBoots.{boots_now};
ghost use Rattle.sflow_tool.specs.Trues.{Finds, HasTotals, TrueOf};
ghost use Rattle.sflow_tool.specs.Steps.{ArrivesFrom, IsStep, Observes, PollsAt, ResetsAt, RestartsAt, SendsAt};

use crate::script_run::Sent;
use crate::step::Step;
use agent_setups::Setup;
use data_format::SourceId;
use std::alloc::{AllocError, Global};
use std::marker::Model;
use true_samples::{Seen, SentDatagram, Totals, TrueSubAgent};

/// What each sub-agent of a script truly counted, by the places of the sub-agents. It is told what each line made the
/// device do.
///
/// After want of memory it stands for nothing, and isn't to be used.
#[derive(Drop)]
pub(crate) struct Trues {
    subs: Vec<TrueSubAgent>,
}

impl Model for Trues {
    ghost use Rattle.std.specs.Prelude.{List};
    ghost use Rattle.true_samples.specs.States.{TrueState};

    ghost Value = { List TrueState };

    ghost view = { λ t. t.subs.items };
}

impl Trues {
    /// The sub-agents of these set-ups, each in its first boot, in which nothing has happened.
    pub(crate) fn open(alloc: Global, setups: &[Setup]) -> Result<Trues, AllocError>
        ensures { IfOk result (λ t. (lines : List Line) → AreLawful lines → list_all sets_up lines ≡ true
            → AreSetUp lines setups.now → TrueOf t lines) }
    {
        let mut subs = Vec::new(alloc);
        for setup in setups.iter() {
            subs.push(TrueSubAgent::open(alloc, setup)?)?;
        }
        Ok(Trues { subs })
    }

    /// A line made the device do this.
    pub(crate) fn follow(&mut self, alloc: Global, step: &Step) -> Result<(), AllocError>
        ensures { OnOk result ((lines : List Line) (line : Line) → AreLawful (line ∷ lines) → length lines < 2 ^ 32
            → sets_up line ≡ false → IsStep lines line step.now → TrueOf self.old lines → TrueOf self.new (line ∷ lines)) }
    {
        match step {
            Step::SetUp => Ok(()),
            Step::Observed {
                place,
                source,
                seen,
            } => self.observe(*place, *source, *seen),
            Step::Polled {
                place,
                uptime,
                count,
            } => self.poll(*place, *uptime, *count),
            Step::Sent {
                place,
                uptime,
                sent,
            } => self.send(alloc, *place, *uptime, sent),
            Step::Restarted { place } => self.restart(alloc, *place),
            Step::Reset {
                place,
                flow,
                source,
            } => self.reset(*place, *flow, *source),
            Step::Delivered { .. } => Ok(()),
        }
    }

    fn observe(&mut self, place: usize, source: SourceId, seen: Seen) -> Result<(), AllocError>
        ensures { OnOk result ((lines : List Line) (line : Line) → AreLawful (line ∷ lines) → length lines < 2 ^ 32
            → Observes lines line place source seen → TrueOf self.old lines → TrueOf self.new (line ∷ lines)) }
    {
        if place < self.subs.len() {
            return self.subs[place].observe(source, seen);
        }
        Ok(())
    }

    fn poll(&mut self, place: usize, uptime: u32, count: u32) -> Result<(), AllocError>
        ensures { OnOk result ((lines : List Line) (line : Line) → AreLawful (line ∷ lines) → length lines < 2 ^ 32
            → PollsAt lines line place uptime count → TrueOf self.old lines → TrueOf self.new (line ∷ lines)) }
    {
        if place < self.subs.len() {
            return self.subs[place].poll(uptime, count);
        }
        Ok(())
    }

    fn send(
        &mut self,
        alloc: Global,
        place: usize,
        uptime: u32,
        sent: &Sent,
    ) -> Result<(), AllocError>
        ensures { OnOk result ((lines : List Line) (line : Line) → AreLawful (line ∷ lines) → length lines < 2 ^ 32
            → SendsAt lines line place uptime sent.now → TrueOf self.old lines → TrueOf self.new (line ∷ lines)) }
    {
        if place < self.subs.len() {
            return self.subs[place].send(alloc, uptime, sent.datagrams.puts());
        }
        Ok(())
    }

    fn restart(&mut self, alloc: Global, place: usize) -> Result<(), AllocError>
        ensures { OnOk result ((lines : List Line) (line : Line) → RestartsAt lines line place → TrueOf self.old lines
            → TrueOf self.new (line ∷ lines)) }
    {
        if place < self.subs.len() {
            return self.subs[place].restart(alloc);
        }
        Ok(())
    }

    fn reset(&mut self, place: usize, flow: bool, source: SourceId) -> Result<(), AllocError>
        ensures { OnOk result ((lines : List Line) (line : Line) → AreLawful (line ∷ lines) → length lines < 2 ^ 32
            → ResetsAt lines line place flow source → TrueOf self.old lines → TrueOf self.new (line ∷ lines)) }
    {
        if place < self.subs.len() {
            self.subs[place].reset(flow, source);
        }
        Ok(())
    }

    /// The datagram of this number of the boot of this number, each counted from 1, of the sub-agent at a place.
    pub(crate) fn find(&self, place: usize, boot: u64, number: u64) -> Option<&SentDatagram>
        ensures some { (lines : List Line) (line : Line) (at : ℕ) → AreLawful (line ∷ lines)
            → ArrivesFrom lines line place boot number at → TrueOf self.now lines
            → IfSome result (λ d. Finds lines place boot number at d.now) }
        ensures none { (lines : List Line) (line : Line) (at : ℕ) → AreLawful (line ∷ lines)
            → ArrivesFrom lines line place boot number at → TrueOf self.now lines → IfNone result ⊥ }
    {
        if place < self.subs.len() {
            return self.subs[place].find(boot, number);
        }
        None
    }

    /// How many datagrams the sub-agent at a place has sent in its current boot, and 0 where there is none.
    pub(crate) fn sent_count(&self, place: usize) -> usize
        ensures some { (lines : List Line) (s : SubAgent) → slice_get (reverse (subs_in lines)) place ≡ Some s
            → TrueOf self.now lines → result ≡ sent_count lines s (boots_of lines s) }
        ensures none { length self.now ≤ place → result ≡ 0 }
    {
        if place < self.subs.len() {
            return self.subs[place].sent_count();
        }
        0
    }

    /// How many sources each sub-agent has.
    pub(crate) fn source_counts(&self, alloc: Global) -> Result<Vec<usize>, AllocError>
        ensures { IfOk result (λ v. (lines : List Line) → TrueOf self.now lines
            → v.items ≡ map (λ (b : BootSoFar). length (flow_sources b.setup ++ counter_sources b.setup)) (boots_now lines)) }
    {
        let mut counts = Vec::new(alloc);
        for sub in self.subs.iter() {
            counts.push(sub.source_count())?;
        }
        Ok(counts)
    }

    /// What all sub-agents did in all their boots.
    pub(crate) fn totals(&self) -> Totals
        ensures { (lines : List Line) → AreLawful lines → length lines < 2 ^ 32 → TrueOf self.now lines → HasTotals result lines }
    {
        let mut totals = Totals {
            datagrams: 0,
            issued: 0,
            dropped: 0,
        };
        for sub in self.subs.iter() {
            let sub = sub.totals();
            totals.datagrams = totals.datagrams.wrapping_add(sub.datagrams);
            totals.issued = totals.issued.wrapping_add(sub.issued);
            totals.dropped = totals.dropped.wrapping_add(sub.dropped);
        }
        totals
    }
}
