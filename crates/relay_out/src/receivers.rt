ghost use Rattle.std.specs.Prelude.{◌≡◌, ◌<◌, ◌≤◌, ◌-◌, ◌^◌, ◌∷◌, ◌++◌, ◌&&◌, not, ℕ, true, [], List, length, map, replicate, slice_get, vec_len, Some};
ghost use Rattle.std.specs.List.{list_all};
ghost use Rattle.data_format.specs.Addresses.{address_of};
ghost use Rattle.datagram_links.specs.Receivers.{Does, aimed_at, passed_one, shown};
ghost use Rattle.relay_out.specs.Routes.{AgentDatagram};
ghost use Rattle.relay_out.specs.Relays.{at_start, may_pass, progress_at, AimedBy, Goes, AimedEach, PassedEach, RelayedEach};
ghost use Rattle.relay_out.specs.Runs.{RunServed};

use crate::{Progress, Routes};
use data_format::Address;
use datagram_links::{Failed, Receiver};

/// Receivers in the order in which they were handed in. The route of the same place goes to each, where there is one.
#[derive(Drop)]
pub struct Receivers {
    pub held: Vec<Box<dyn Receiver>>,
    /// How far each of the first eight is; to the others no route goes.
    pub progress: [Progress; 8],
}

fn aim_box(receiver: &mut Box<dyn Receiver>, place: &str) -> Result<(), Failed>
    ensures { Does (seen receiver.old) (aimed_at place.now (seen receiver.old)) (seen receiver.new) result }
{
    receiver.aim(place)
}

fn pass_box(receiver: &mut Box<dyn Receiver>, bytes: &[u8]) -> Result<(), Failed>
    ensures { Does (seen receiver.old) (passed_one bytes.now (seen receiver.old)) (seen receiver.new) result }
{
    receiver.pass(bytes)
}

fn taken_box(receiver: &Box<dyn Receiver>) -> &[Vec<u8>]
    ensures { map (λ v. v.items) result.now ≡ shown (seen receiver.now).told }
{
    receiver.taken()
}

// The receiver is aimed, and is stopped where that fails.
fn aim_one(receiver: &mut Box<dyn Receiver>, place: &str) -> Progress
    ensures { AimedBy (λ x. (⟦<dyn Receiver as Receiver>⟧ x.vtable).seen x.value) place.now receiver.old receiver.new result }
{
    match aim_box(receiver, place) {
        Ok(()) => Progress::start(),
        Err(_) => Progress {
            passed: 0,
            stopped: true,
        },
    }
}

// Where the datagram goes to the receiver, it is passed, and the receiver is stopped where that fails.
fn pass_one(
    receiver: &mut Box<dyn Receiver>,
    progress: Progress,
    goes: bool,
    bytes: &[u8],
) -> Progress
    requires { progress.passed < 2 ^ 64 - 1 }
    ensures { Goes (λ x. (⟦<dyn Receiver as Receiver>⟧ x.vtable).seen x.value) goes bytes.now receiver.old progress receiver.new result }
{
    if !goes {
        return progress;
    }
    match pass_box(receiver, bytes) {
        Ok(()) => Progress {
            passed: progress.passed + 1,
            ..progress
        },
        Err(_) => Progress {
            stopped: true,
            ..progress
        },
    }
}

// Whether a datagram goes to a receiver that is so far, where its route takes the agent or not.
fn goes_on(progress: Progress, takes: bool) -> bool
    ensures { result ≡ (not progress.stopped && takes) }
{
    !progress.stopped && takes
}

fn all_below(progress: &[Progress]) -> bool
    ensures { result ≡ list_all may_pass progress.now }
{
    progress.iter().all(|one| one.passed < u64::MAX)
}

impl Receivers {
    /// These receivers, as they are.
    pub fn new(boxes: Vec<Box<dyn Receiver>>) -> Receivers
        ensures held { result.held.items ≡ boxes.items }
        ensures progress { result.progress ≡ replicate 8 at_start }
    {
        Receivers {
            held: boxes,
            progress: [Progress::start(); 8],
        }
    }

    /// How many receivers there are.
    pub fn len(&self) -> usize
        ensures { result ≡ vec_len self.now.held }
    {
        self.held.len()
    }

    /// All numbers begin again at 0, and none is stopped. Each receiver that has a route is aimed at the place of its
    /// route, in order; one that fails is stopped. The others are as before.
    pub fn aim(&mut self, routes: &Routes)
        requires { length routes.now ≤ vec_len self.old.held }
        ensures aimed { AimedEach (λ x. (⟦<dyn Receiver as Receiver>⟧ x.vtable).seen x.value) routes.now
            self.old.held.items self.old.progress self.new.held.items self.new.progress }

        // A run begins, in which nothing has gone on.
        ensures begins { RunServed (λ x. (⟦<dyn Receiver as Receiver>⟧ x.vtable).seen x.value) [] routes.now
            self.old.held.items self.new.held.items self.new.progress }
    {
        self.progress = [Progress::start(); 8];
        for at in 0..routes.len() {
            self.progress[at] = aim_one(&mut self.held[at], routes.place(at));
        }
    }

    /// Whether each number is below 2^64 - 1.
    pub fn can_pass(&self) -> bool
        ensures exact { result ≡ list_all may_pass self.now.progress }
        ensures yes { result ≡ true → (at : ℕ) → (progress_at self.now.progress at).passed < 2 ^ 64 - 1 }
    {
        all_below(&self.progress)
    }

    /// A datagram of this agent, as its bytes came. In order, each receiver that isn't stopped and whose route takes the
    /// agent is passed the bytes; one more passed where it took them, and it is stopped where it failed. All others are
    /// as before.
    pub fn pass(&mut self, routes: &Routes, agent: &Address, bytes: &[u8])
        requires fits { length routes.now ≤ vec_len self.old.held }
        requires counts { (at : ℕ) → at < length routes.now → (progress_at self.old.progress at).passed < 2 ^ 64 - 1 }
        ensures passed { PassedEach (λ x. (⟦<dyn Receiver as Receiver>⟧ x.vtable).seen x.value)
            (record { agent = address_of agent.now; bytes = bytes.now }) routes.now
            self.old.held.items self.old.progress self.new.held.items self.new.progress }

        // Where datagrams were relayed before, this one is relayed behind them.
        ensures follows { (before : List AgentDatagram) (xs : List _) (was : List Progress)
            → RelayedEach (λ x. (⟦<dyn Receiver as Receiver>⟧ x.vtable).seen x.value) before routes.now
            xs was self.old.held.items self.old.progress
            → RelayedEach (λ x. (⟦<dyn Receiver as Receiver>⟧ x.vtable).seen x.value)
            (before ++ record { agent = address_of agent.now; bytes = bytes.now } ∷ []) routes.now
            xs was self.new.held.items self.new.progress }

        // Where a run was served by these receivers, it still is when this datagram goes on in it.
        ensures serves { (before : List AgentDatagram) (xs : List _)
            → RunServed (λ x. (⟦<dyn Receiver as Receiver>⟧ x.vtable).seen x.value) before routes.now
            xs self.old.held.items self.old.progress
            → RunServed (λ x. (⟦<dyn Receiver as Receiver>⟧ x.vtable).seen x.value)
            (before ++ record { agent = address_of agent.now; bytes = bytes.now } ∷ []) routes.now
            xs self.new.held.items self.new.progress }
    {
        for at in 0..routes.len() {
            let progress = self.progress[at];
            let takes = routes.takes(at, agent);
            let goes = goes_on(progress, takes);
            self.progress[at] = pass_one(&mut self.held[at], progress, goes, bytes);
        }
    }

    /// A law, with nothing to do: while fewer than 2^64 - 1 datagrams have gone on in a run, one more can go on.
    pub fn leave_room(&self, routes: &Routes)
        requires { length routes.now ≤ vec_len self.now.held }
        ensures { (before : List AgentDatagram) (xs : List _)
            → RunServed (λ x. (⟦<dyn Receiver as Receiver>⟧ x.vtable).seen x.value) before routes.now
            xs self.now.held.items self.now.progress
            → length before < 2 ^ 64 - 1
            → (at : ℕ) → at < length routes.now → (progress_at self.now.progress at).passed < 2 ^ 64 - 1 }
    {}

    /// How many datagrams the receiver at this place, counted from 0, took since it was aimed.
    pub fn passed(&self, place: usize) -> u64
        requires { place < vec_len self.now.held }
        ensures { result ≡ (progress_at self.now.progress place).passed }
    {
        if place < self.progress.len() {
            self.progress[place].passed
        } else {
            0
        }
    }

    /// Whether the receiver at this place, counted from 0, failed since it was aimed, in that call or a later one.
    pub fn stopped(&self, place: usize) -> bool
        requires { place < vec_len self.now.held }
        ensures { result ≡ (progress_at self.now.progress place).stopped }
    {
        place < self.progress.len() && self.progress[place].stopped
    }

    /// The datagrams that the receiver at this place, counted from 0, took, where it tells them, and else none.
    pub fn taken(&self, place: usize) -> &[Vec<u8>]
        requires { place < vec_len self.now.held }
        ensures { (x : _) × (slice_get self.now.held.items place ≡ Some x)
            × (map (λ v. v.items) result.now ≡ shown ((⟦<dyn Receiver as Receiver>⟧ x.vtable).seen x.value).told) }
    {
        taken_box(&self.held[place])
    }
}
