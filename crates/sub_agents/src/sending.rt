// What is staged is sent.
ghost use Rattle.std.specs.Prelude.{◌≡◌, ◌≤◌, ◌<◌, ◌+◌, ◌^◌, [], ◌∷◌, length, slice_get, Some, OnOk, OnErr};
ghost use Rattle.data_format.specs.Addresses.{address_of};
ghost use Rattle.datagram_core.specs.Heads.{head_of};
ghost use Rattle.agent_spec.specs.Counting.{next_count};
ghost use Rattle.agent_outlets.specs.Outlets.{Took};
ghost use Rattle.sub_agents.specs.declared.staged.Staged.{Staged};
ghost use Rattle.sub_agents.specs.Staged.{staged_size};
ghost use Rattle.sub_agents.specs.SubAgents.{BootSoFar, StandsFor};
ghost use Rattle.sub_agents.specs.Sent.{Sends, next_size, next_put, next_head, after_one};

use crate::SubAgent;
use crate::staged::head_size;
use crate::writing::write_datagram;
use agent_outlets::{Outlet, OutletFault};
use datagram_core::DatagramHead;

impl SubAgent {
    /// Sends all that is staged at this uptime, in ms. The samples go in the order in which they were issued; each
    /// datagram takes as many of those that are left as have room in it. The answer is how many datagrams there were,
    /// none where nothing was staged. At `OutletFault` the outlet's count of faults rose: the number of the datagram
    /// that it refused is spent and its samples are gone; those behind it stay staged.
    pub fn send<O: Outlet>(&mut self, uptime: u32, outlet: &mut O) -> Result<u64, OutletFault>
        requires { self.old.numbered < 2 ^ 62 }
        ensures sends { (b : BootSoFar) → StandsFor self.old b
            → Sends self.new b uptime (O.taken outlet.old) (O.taken outlet.new) result }
        ensures kept { OnOk result (O.faults outlet.new ≡ O.faults outlet.old) }
        ensures failed { OnErr result (O.faults outlet.new ≡ next_count (O.faults outlet.old)) }
    {
        let mut count = 0;
        for turn in 0..self.waiting() {
            if self.waiting() == 0 {
                continue;
            }
            if self.put_next(uptime, outlet).is_err() {
                return Err(OutletFault);
            }
            count += 1;
        }
        Ok(count)
    }

    // How many samples wait.
    fn waiting(&self) -> usize
        ensures value { result ≡ length self.now.stage.items }
        ensures most { result ≤ 1024 }
    {
        self.stage.len()
    }

    // Puts the next datagram. Its samples leave the stage and its number is spent, also where the outlet fails.
    fn put_next<O: Outlet>(&mut self, uptime: u32, outlet: &mut O) -> Result<(), OutletFault>
        requires some { 1 ≤ length self.old.stage.items }
        requires numbered { self.old.numbered < 2 ^ 63 }
        ensures after { self.new ≡ after_one self.old }
        ensures taken { OnOk result (Took (O.taken outlet.old) (O.taken outlet.new) (next_put self.old uptime ∷ [])) }
        ensures unchanged { OnErr result (O.taken outlet.new ≡ O.taken outlet.old) }
        ensures kept { OnOk result (O.faults outlet.new ≡ O.faults outlet.old) }
        ensures failed { OnErr result (O.faults outlet.new ≡ next_count (O.faults outlet.old)) }
    {
        let size = self.next_size();
        let head = self.next_head(uptime);
        let length = write_datagram(&mut self.room, &head, self.form, &self.stage, size);
        self.stage.truncate_front(self.stage.len() - size);
        self.numbered += 1;
        let put = outlet.put(self.boot, self.numbered, &self.room[..length]);
        if put.is_err() {
            return Err(OutletFault);
        }
        Ok(())
    }

    // How many of the samples that wait the next datagram takes.
    fn next_size(&self) -> usize
        requires { 1 ≤ length self.now.stage.items }
        ensures { result ≡ next_size self.now }
    {
        let mut size = head_size(&self.agent);
        for place in 0..self.stage.len() {
            size += self.size_at(place);
            if size > self.max_datagram as usize {
                return place;
            }
        }
        self.stage.len()
    }

    // How many bytes the sample at a place has.
    fn size_at(&self, place: usize) -> usize
        requires { place < length self.now.stage.items }
        ensures size { (staged : Staged) → slice_get self.now.stage.items place ≡ Some staged → result ≡ staged_size self.now.form staged }
        ensures most { result ≤ 228 }
    {
        let Some(staged) = self.stage.get(place) else {
            unreachable!()
        };
        staged.size(self.form)
    }

    // The head of the next datagram.
    fn next_head(&self, uptime: u32) -> DatagramHead
        ensures { head_of result ≡ next_head self.now uptime }
    {
        let sent = (self.numbered % 4_294_967_296) as u32;
        DatagramHead {
            agent: self.agent,
            sub_agent: self.sub_agent,
            sequence: self.first.wrapping_add(sent),
            uptime,
        }
    }
}
