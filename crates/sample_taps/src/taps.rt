// The consumers of a run.
ghost use Rattle.std.specs.Prelude.{◌≡◌, ◌+◌, ◌<◌, ◌≤◌, ◌^◌, ℕ, Bool, List, [], ◌∷◌, not, vec_len, Some, slice_get};
ghost use Rattle.std.specs.List.{AllZip, filter};
ghost use Rattle.sample_taps.specs.Feeding.{Fed, Held};

use crate::brief::Brief;
use crate::tap::{Line, Tap};
use std::slice;

/// Consumers in the order in which they were handed in, each until it is done.
#[derive(Drop)]
pub struct Taps {
    /// Those that are held.
    pub held: Vec<Box<dyn Tap>>,
    /// How many were dropped as done.
    pub ended: u64,
}

fn take_all_in(tap: &mut Box<dyn Tap>, briefs: &[Brief])
    ensures { Fed (λ x b y. (v : _) × (y ≡ record x { value = v }) × (⟦<dyn Tap as Tap>⟧ x.vtable).step x.value b v)
        (λ x. (⟦<dyn Tap as Tap>⟧ x.vtable).ended x.value) briefs.now tap.old tap.new }
{
    tap.take_all(briefs);
}

fn is_done(tap: &Box<dyn Tap>) -> bool
    ensures { result ≡ ended tap.now }
{
    tap.done()
}

fn line_of(tap: &Box<dyn Tap>) -> Line
    ensures { result.bytes ≡ text tap.now }
{
    tap.line()
}

// Each takes the briefs, one after the other, until it is done.
fn give_all(taps: &mut [Box<dyn Tap>], briefs: &[Brief])
    ensures { AllZip (Fed (λ x b y. (v : _) × (y ≡ record x { value = v }) × (⟦<dyn Tap as Tap>⟧ x.vtable).step x.value b v)
        (λ x. (⟦<dyn Tap as Tap>⟧ x.vtable).ended x.value) briefs.now) taps.old taps.new }
{
    for tap in taps {
        take_all_in(tap, briefs);
    }
}

// Those that are done go, and the others close up in their order.
fn close_up(taps: &mut Vec<Box<dyn Tap>>)
    ensures kept { taps.new.items ≡ filter (λ x. not ((⟦<dyn Tap as Tap>⟧ x.vtable).ended x.value)) taps.old.items }
    ensures fewer { vec_len taps.new ≤ vec_len taps.old }
{
    taps.retain(
        |tap: &Box<dyn Tap>| -> bool
            ensures { result ≡ not (ended tap.now) }
        { !is_done(tap) },
    );
}

impl Taps {
    /// These consumers, none of them dropped, also where one is done.
    pub fn new(boxes: Vec<Box<dyn Tap>>) -> Taps
        ensures held { result.held.items ≡ boxes.items }
        ensures ended { result.ended ≡ 0 }
    {
        Taps {
            held: boxes,
            ended: 0,
        }
    }

    /// Each consumer that isn't done takes the brief, in order. Then every one that is done is dropped and counted, and
    /// the others stay in their order.
    pub fn feed(&mut self, brief: &Brief)
        requires { self.old.ended + vec_len self.old.held < 2 ^ 64 }
        ensures held { Held (λ x b y. (v : _) × (y ≡ record x { value = v }) × (⟦<dyn Tap as Tap>⟧ x.vtable).step x.value b v)
            (λ x. (⟦<dyn Tap as Tap>⟧ x.vtable).ended x.value) (brief.now ∷ []) self.old.held.items self.new.held.items }
        ensures ended { self.new.ended + vec_len self.new.held ≡ self.old.ended + vec_len self.old.held }
    {
        self.feed_all(slice::from_ref(brief));
    }

    /// Each consumer in its turn takes one brief after the other until it is done. Then every one that is done is dropped
    /// and counted. Those held then are, in order, the ones handed in that the briefs don't leave done, each as its briefs
    /// leave it. Without a brief all stay held, also one that is done.
    pub fn feed_all(&mut self, briefs: &[Brief])
        requires { self.old.ended + vec_len self.old.held < 2 ^ 64 }
        ensures held { Held (λ x b y. (v : _) × (y ≡ record x { value = v }) × (⟦<dyn Tap as Tap>⟧ x.vtable).step x.value b v)
            (λ x. (⟦<dyn Tap as Tap>⟧ x.vtable).ended x.value) briefs.now self.old.held.items self.new.held.items }
        ensures ended { self.new.ended + vec_len self.new.held ≡ self.old.ended + vec_len self.old.held }
    {
        if briefs.is_empty() {
            return;
        }
        let before = self.held.len();
        give_all(&mut self.held, briefs);
        close_up(&mut self.held);
        self.ended += (before - self.held.len()) as u64;
    }

    /// How many are held.
    pub fn len(&self) -> usize
        ensures { result ≡ vec_len self.now.held }
    {
        self.held.len()
    }

    /// The line of the one at this place, from 0 on.
    pub fn line(&self, place: usize) -> Line
        requires { place < vec_len self.now.held }
        ensures { (x : _) × (slice_get self.now.held.items place ≡ Some x) × (result.bytes ≡ (⟦<dyn Tap as Tap>⟧ x.vtable).text x.value) }
    {
        line_of(&self.held[place])
    }

    /// How many were dropped as done.
    pub fn ended(&self) -> u64
        ensures { result ≡ self.now.ended }
    {
        self.ended
    }
}
