// The set-ups of the sub-agents of a script.
ghost use Rattle.std.specs.Prelude.{◌≡◌, ◌<◌, ◌++◌, [], ◌∷◌, ℕ, List, length, slice_get, Some, IfSome, IfNone, OnOk, false};
ghost use Rattle.data_format.specs.Addresses.{address_of};
ghost use Rattle.agent_spec.specs.Sources.{FlowSetup as FlowSaid, CounterSetup as CounterSaid};
ghost use Rattle.agent_setups.specs.declared.setup.Setup.{Setup as SetupIn};
ghost use Rattle.script_spec.specs.Lines.{Line, MaxLine, SubLine, FlowLine, CounterLine, SubAgent as SubSaid};
ghost use Rattle.script_laws.specs.Lawful.{AreLawful};
ghost use Rattle.script_tables.specs.Said.{IsSaidAt, SetsUp, counter_said, flow_said, names, setup_said, with_counter, with_flow};

use agent_setups::{CounterSetup, FlowSetup, Setup};
use data_format::Address;
use std::alloc::{AllocError, Global};
use std::marker::Model;

/// The most bytes of a datagram where no line says it.
const USUAL_MAX: u32 = 1400;

/// The set-ups of the sub-agents that the lines of a script set up, in their order.
#[derive(Drop)]
pub struct ScriptSetups {
    max: u32,
    setups: Vec<Setup>,
}

impl Model for ScriptSetups {
    ghost use Rattle.script_tables.specs.Said.{SetupsState};

    ghost Value = { SetupsState };

    ghost view = { λ s. record { max = s.max; setups = s.setups.items } };
}

// One source of flow samples more.
fn add_flow(setup: &mut Setup, flow: FlowSetup) -> Result<(), AllocError>
    ensures { OnOk result (setup_said setup.new ≡ with_flow (flow_said flow) (setup_said setup.old)) }
{
    setup.flows.push(flow)?;
    Ok(())
}

// One source of counters samples more.
fn add_counter(setup: &mut Setup, counter: CounterSetup) -> Result<(), AllocError>
    ensures { OnOk result (setup_said setup.new ≡ with_counter (counter_said counter) (setup_said setup.old)) }
{
    setup.counters.push(counter)?;
    Ok(())
}

// The place of the set-up of this ID.
fn place_of(setups: &[Setup], id: u32) -> Option<usize>
    ensures within { IfSome result (λ p. p < length setups.now) }
    ensures here { (u : SetupIn) → IfSome result (λ p. slice_get setups.now p ≡ Some u → u.sub_agent ≡ id) }
    ensures none { IfNone result (names id setups.now ≡ false) }
{
    for (place, setup) in setups.iter().enumerate() {
        if setup.sub_agent == id {
            return Some(place);
        }
    }
    None
}

fn add_flow_at(setups: &mut [Setup], place: usize, flow: FlowSetup) -> Result<(), AllocError>
    requires { place < length setups.old }
    ensures { OnOk result (IsSaidAt (with_flow (flow_said flow)) place setups.old setups.new) }
{
    add_flow(&mut setups[place], flow)
}

fn add_counter_at(
    setups: &mut [Setup],
    place: usize,
    counter: CounterSetup,
) -> Result<(), AllocError>
    requires { place < length setups.old }
    ensures { OnOk result (IsSaidAt (with_counter (counter_said counter)) place setups.old setups.new) }
{
    add_counter(&mut setups[place], counter)
}

// A sub-agent without sources.
fn new_setup(alloc: Global, max: u32, id: u32, address: Address, first: u32, stage: u32) -> Setup
    ensures { setup_said result ≡ record {
      agent = address_of address;
      sub_agent = id;
      max_datagram = max;
      stage = stage;
      first = first;
      flows = [];
      counters = [];
    } }
{
    Setup {
        agent: address,
        sub_agent: id,
        max_datagram: max,
        stage,
        first,
        flows: Vec::new(alloc),
        counters: Vec::new(alloc),
    }
}

impl ScriptSetups {
    /// No set-up yet. This takes no memory.
    pub fn new(alloc: Global) -> ScriptSetups
        ensures { SetsUp result [] }
    {
        ScriptSetups {
            max: USUAL_MAX,
            setups: Vec::new(alloc),
        }
    }

    /// The set-ups, in the order of their lines.
    pub fn setups(&self) -> &[Setup]
        ensures { result.now ≡ self.now.setups }
    {
        &self.setups
    }

    /// The set-ups themselves.
    pub fn into_setups(self) -> Vec<Setup>
        ensures { result.items ≡ self.setups }
    {
        self.setups
    }

    /// A line said how long a datagram is at most.
    pub fn set_max(&mut self, bytes: u32)
        ensures { (lines : List Line) → AreLawful (MaxLine bytes ∷ lines) → SetsUp self.old lines
            → SetsUp self.new (MaxLine bytes ∷ lines) }
    {
        self.mark_max(bytes);
    }

    /// A line set up a sub-agent.
    pub fn add_sub(
        &mut self,
        alloc: Global,
        id: u32,
        address: Address,
        first: u32,
        stage: u32,
    ) -> Result<(), AllocError>
        ensures { OnOk result ((lines : List Line) (s : SubSaid) → AreLawful (SubLine s ∷ lines) → s.id ≡ id
            → s.address ≡ address_of address → s.first ≡ first → s.stage ≡ stage → SetsUp self.old lines
            → SetsUp self.new (SubLine s ∷ lines)) }
    {
        let setup = new_setup(alloc, self.max, id, address, first, stage);
        self.push_sub(setup)
    }

    /// A line set up a source of flow samples.
    pub fn add_flow(&mut self, id: u32, flow: FlowSetup) -> Result<(), AllocError>
        ensures { OnOk result ((lines : List Line) → AreLawful (FlowLine id (flow_said flow) ∷ lines) → SetsUp self.old lines
            → SetsUp self.new (FlowLine id (flow_said flow) ∷ lines)) }
    {
        match self.place_of(id) {
            Some(place) => self.add_flow_to(place, flow),
            None => Ok(()),
        }
    }

    /// A line set up a source of counters samples.
    pub fn add_counter(&mut self, id: u32, counter: CounterSetup) -> Result<(), AllocError>
        ensures { OnOk result ((lines : List Line) → AreLawful (CounterLine id (counter_said counter) ∷ lines)
            → SetsUp self.old lines → SetsUp self.new (CounterLine id (counter_said counter) ∷ lines)) }
    {
        match self.place_of(id) {
            Some(place) => self.add_counter_to(place, counter),
            None => Ok(()),
        }
    }

    fn place_of(&self, id: u32) -> Option<usize>
        ensures within { IfSome result (λ p. p < length self.now.setups) }
        ensures here { (u : SetupIn) → IfSome result (λ p. slice_get self.now.setups p ≡ Some u → u.sub_agent ≡ id) }
        ensures none { IfNone result (names id self.now.setups ≡ false) }
    {
        place_of(&self.setups, id)
    }

    fn add_flow_to(&mut self, place: usize, flow: FlowSetup) -> Result<(), AllocError>
        requires { place < length self.old.setups }
        ensures { OnOk result ((setups : List SetupIn) × (self.new ≡ record self.old { setups = setups })
            × IsSaidAt (with_flow (flow_said flow)) place self.old.setups setups) }
    {
        add_flow_at(&mut self.setups, place, flow)?;
        Ok(())
    }

    fn add_counter_to(&mut self, place: usize, counter: CounterSetup) -> Result<(), AllocError>
        requires { place < length self.old.setups }
        ensures { OnOk result ((setups : List SetupIn) × (self.new ≡ record self.old { setups = setups })
            × IsSaidAt (with_counter (counter_said counter)) place self.old.setups setups) }
    {
        add_counter_at(&mut self.setups, place, counter)?;
        Ok(())
    }

    fn mark_max(&mut self, bytes: u32)
        ensures { self.new ≡ record self.old { max = bytes } }
    {
        self.max = bytes;
    }

    fn push_sub(&mut self, setup: Setup) -> Result<(), AllocError>
        ensures { OnOk result (self.new ≡ record self.old { setups = self.old.setups ++ setup ∷ [] }) }
    {
        self.setups.push(setup)?;
        Ok(())
    }
}
