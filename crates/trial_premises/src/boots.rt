ghost use Rattle.std.specs.Prelude.{◌≡◌, ◌<◌, ◌≤◌, ◌^◌, ◌==◌, ◌&&◌, ◌||◌, ℕ, true, length, List, [], ◌∷◌, Some, None, pos, ◌+ℤ◌, ◌-ℤ◌, ◌≤ℤ◌, IfOk};
ghost use Rattle.count_spec.specs.Boots.{is_near_multiple};
ghost use Rattle.account_spec.specs.Deliveries.{Delivery};
ghost use Rattle.trial_spec.specs.VisibleTests.{tells};
ghost use Rattle.trial_premises.specs.Delivered.{IsOf, mark as mark_of};
ghost use Rattle.trial_premises.specs.Boots.{StandsFor, shows_after, with_datagram, newest_of_boots};

use crate::delivered::TrueDatagram;
use crate::newest::{NewestNumbers, both};
use std::alloc::{AllocError, Global};
use std::marker::Model;

/// Whether the boots of a sub-agent show in the uptimes of its deliveries, and the numbers of its datagrams are close.
#[derive(Drop)]
pub struct BootWatch {
    /// Of the newest boot, the first delivery of its newest datagram.
    newest: Option<TrueDatagram>,
    /// The newest number of each boot.
    numbers: NewestNumbers,
    /// Whether each delivery so far showed its boot.
    visible: bool,
    /// Whether each number so far was close to the newest of its boot.
    close: bool,
}

impl Model for BootWatch {
    ghost use Rattle.trial_premises.specs.Boots.{BootState};

    ghost Value = { BootState };

    ghost view = { λ b. record {
      newest = b.newest;
      numbers = b.numbers.numbers.slots.items;
      visible = b.visible;
      close = b.close;
    } };
}

impl BootWatch {
    /// Nothing was delivered.
    pub fn new(alloc: Global) -> BootWatch
        ensures { (slack : ℕ) → StandsFor slack result [] }
    {
        BootWatch {
            newest: None,
            numbers: NewestNumbers::new(alloc),
            visible: true,
            close: true,
        }
    }

    /// Makes room for this boot. Where there is no memory, it stands for the same deliveries too.
    pub fn reserve(&mut self, boot: u64) -> Result<(), AllocError>
        ensures same { (slack : ℕ) (deliveries : List Delivery) → StandsFor slack self.old deliveries
            → StandsFor slack self.new deliveries }
        ensures newest { self.new.newest ≡ self.old.newest }
        ensures room { IfOk result (λ _. boot < length self.new.numbers) }
    {
        self.numbers.reserve(boot)
    }

    /// Enters a delivery of a boot for which there is room. `slack` is by how many ms the boot marks of one boot may
    /// differ.
    pub fn enter(&mut self, slack: u32, datagram: TrueDatagram)
        requires { datagram.boot < length self.old.numbers }
        ensures stands { (d : Delivery) (before : List Delivery) → IsOf datagram d → StandsFor slack self.old before
            → StandsFor slack self.new (d ∷ before) }
        ensures newest { self.new.newest ≡ Some (with_datagram self.old.newest datagram) }
    {
        let visible = both(self.shows(slack, &datagram), self.visible);
        let close = both(
            self.numbers.is_close(datagram.boot, datagram.number),
            self.close,
        );
        self.visible = visible;
        self.close = close;
        self.newest = Some(newest_with(self.newest, datagram));
        self.numbers.enter(datagram.boot, datagram.number);
    }

    /// The newest boot, or 0 where nothing was delivered.
    pub fn newest_boot(&self) -> u64
        ensures { result ≡ newest_of_boots self.now.newest }
    {
        match &self.newest {
            Some(newest) => newest.boot,
            None => 0,
        }
    }

    /// Whether restarts showed in uptime.
    pub fn is_visible(&self) -> bool
        ensures { result ≡ self.now.visible }
    {
        self.visible
    }

    /// Whether fewer than 2^31 numbers separated the receipts of each boot.
    pub fn is_close(&self) -> bool
        ensures { result ≡ self.now.close }
    {
        self.close
    }

    // Whether a delivery shows its boot after those so far.
    fn shows(&self, slack: u32, datagram: &TrueDatagram) -> bool
        ensures { result ≡ shows_after slack self.now.newest datagram.now }
    {
        match &self.newest {
            Some(newest) => shows_boot(slack, newest, datagram),
            None => true,
        }
    }
}

// Whether the boot marks tell which of two boots is later.
fn shows_boot(slack: u32, newest: &TrueDatagram, datagram: &TrueDatagram) -> bool
    ensures { result ≡ tells slack (mark_of datagram.now -ℤ mark_of newest.now) datagram.now.boot newest.now.boot }
{
    tells_at(
        slack,
        mark(datagram) - mark(newest),
        datagram.boot,
        newest.boot,
    )
}

// Whether the distance of a delivery tells its boot.
fn tells_at(slack: u32, distance: i128, boot: u64, newest: u64) -> bool
    requires from { pos 0 ≤ℤ (distance +ℤ pos (2 ^ 65)) }
    requires to { distance ≤ℤ pos (2 ^ 65) }
    ensures { result ≡ tells slack distance boot newest }
{
    if is_near_multiple_of_wrap(slack, distance) {
        boot == newest
    } else if distance > 0 {
        newest < boot
    } else {
        boot < newest
    }
}

// Where the receiver's clock stood when the uptime was 0, in ms.
fn mark(datagram: &TrueDatagram) -> i128
    ensures value { result ≡ mark_of datagram.now }
    ensures from { pos 0 ≤ℤ (result +ℤ pos (2 ^ 64)) }
    ensures to { result ≤ℤ pos (2 ^ 64) }
{
    datagram.arrival as i128 - datagram.uptime as i128
}

// Whether the difference of two boot marks is at most the slack away from a multiple of 2^32, in ms.
fn is_near_multiple_of_wrap(slack: u32, difference: i128) -> bool
    requires from { pos 0 ≤ℤ (difference +ℤ pos (2 ^ 65)) }
    requires to { difference ≤ℤ pos (2 ^ 65) }
    ensures { result ≡ is_near_multiple slack difference }
{
    let above = difference.rem_euclid(4294967296);
    above <= slack as i128 || 4294967296 - above <= slack as i128
}

// The newest datagram of the newest boot, with one more; of two with one number the first.
fn newest_with(newest: Option<TrueDatagram>, datagram: TrueDatagram) -> TrueDatagram
    ensures { result ≡ with_datagram newest datagram }
{
    match newest {
        Some(newest) => later(newest, datagram),
        None => datagram,
    }
}

fn later(newest: TrueDatagram, datagram: TrueDatagram) -> TrueDatagram
    ensures { result ≡ with_datagram (Some newest) datagram }
{
    let same_boot = datagram.boot == newest.boot;
    if newest.boot < datagram.boot || (same_boot && newest.number < datagram.number) {
        datagram
    } else {
        newest
    }
}
