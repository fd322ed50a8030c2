ghost use Rattle.std.specs.Prelude.{◌≡◌, ◌⊎◌, ℕ, map, length, Some, Ok, Err, IfOk};
ghost use Rattle.sub_agents.specs.Opening.{first_boot};
ghost use Rattle.agent_setups.specs.Lists.{form_for, first_fault, device_fault};
ghost use Rattle.sub_agents.specs.Devices.{StandForEach};

use crate::SubAgent;
use agent_setups::{OpenRefusal, Setup, form_for, list_fault};
use data_format::Form;
use std::alloc::Global;
use std::marker::Model;

/// A device: sub-agents that share one form of samples. No two of them have one address and number, and no source
/// stands in two.
#[derive(Drop)]
pub struct Device {
    pub(crate) form: Form,
    pub(crate) subs: Vec<SubAgent>,
}

impl Model for Device {
    ghost use Rattle.sub_agents.specs.Devices.{DeviceState};

    ghost Value = { DeviceState };

    ghost view = { λ d. record { form = d.form; subs = d.subs.items } };
}

// Opens a sub-agent for each set-up, in their order.
fn open_each(alloc: Global, setups: Vec<Setup>, form: Form) -> Result<Vec<SubAgent>, OpenRefusal>
    ensures bad { (n : ℕ) → first_fault form setups.items ≡ Some n
        → (result ≡ Err (OpenRefusal.BadSetup n)) ⊎ (result ≡ Err OpenRefusal.Memory) }
    ensures refused { (n : ℕ) → result ≡ Err (OpenRefusal.BadSetup n) → first_fault form setups.items ≡ Some n }
    ensures stand { IfOk result (λ v. StandForEach v.items (map (first_boot form) setups.items)) }
{
    let Ok(mut subs) = Vec::with_capacity(alloc, setups.len()) else {
        return Err(OpenRefusal::Memory);
    };
    for setup in setups {
        let sub_agent = match SubAgent::open(alloc, setup, form) {
            Ok(sub_agent) => sub_agent,
            Err(refusal) => return Err(refusal),
        };
        if subs.push(sub_agent).is_err() {
            return Err(OpenRefusal::Memory);
        }
    }
    Ok(subs)
}

impl Device {
    /// A device, each of whose sub-agents is in its first boot. Its samples are expanded exactly where some source has an
    /// index of 2^24 or more. `BadSetup` has the number of the first rule from 1 to 7 that the first bad set-up breaks;
    /// where there is none, the first of these that holds: 8 there are no set-ups or more than 64; 9 two of them have one
    /// address and one number; 10 a source stands in two of them, of whatever kind. It comes exactly where there is one,
    /// or else there is no memory. All room is taken here: no later call takes memory.
    pub fn open(alloc: Global, setups: Vec<Setup>) -> Result<Device, OpenRefusal>
        ensures bad { (n : ℕ) → device_fault setups.items ≡ Some n
            → (result ≡ Err (OpenRefusal.BadSetup n)) ⊎ (result ≡ Err OpenRefusal.Memory) }
        ensures refused { (n : ℕ) → result ≡ Err (OpenRefusal.BadSetup n) → device_fault setups.items ≡ Some n }
        ensures form { IfOk result (λ d. d.form ≡ form_for setups.items) }
        ensures stand { IfOk result (λ d. StandForEach d.subs (map (first_boot (form_for setups.items)) setups.items)) }
    {
        let form = form_for(&setups);
        let fault = list_fault(&setups);
        let subs = match open_each(alloc, setups, form) {
            Ok(subs) => subs,
            Err(refusal) => return Err(refusal),
        };
        if let Some(number) = fault {
            return Err(OpenRefusal::BadSetup { number });
        }
        Ok(Device { form, subs })
    }

    /// The form of its samples.
    pub fn form(&self) -> Form
        ensures { result ≡ self.now.form }
    {
        self.form
    }
}
