// A script as it is run: what its lines set up and make the device do.
ghost use Rattle.std.specs.Prelude.{◌≡◌, ◌<◌, ◌≤◌, ◌++◌, [], ◌∷◌, true, false, ℕ, List, length, map, OnOk, MatchResult, if◌then◌else◌, IfOk};
ghost use Rattle.std.specs.declared.result.Result.TheVariants.{Err};
ghost use Rattle.std.specs.List.{list_all};
ghost use Rattle.agent_spec.specs.Sources as spec;
ghost use Rattle.data_format.specs.Addresses.{address_of};
ghost use Rattle.script_spec.specs.Lines.{Line, MaxLine, SubLine, FlowLine, CounterLine, PacketLine, PollLine, SendLine, RestartLine, ResetLine, DeliverLine, SubAgent as SubSaid, Delivery, place_of};
ghost use Rattle.script_spec.specs.Agents.{subs_in};
ghost use Rattle.script_spec.specs.Rules.{may_follow as follows, sets_up as setting_up};
ghost use Rattle.script_laws.specs.Lawful.{AreLawful};
ghost use Rattle.script_laws.specs.Written.{may_be_written};
ghost use Rattle.script_lines.specs.Shown.{shown};
ghost use Rattle.script_tables.specs.Said.{AreSetUp, counter_said, flow_said, source_said};
ghost use Rattle.script_tables.specs.Tables.{Tells};
ghost use Rattle.sub_agents.specs.Packets.{packet_of};
ghost use Rattle.sflow_tool.specs.ScriptRuns.{HasSubs, IsRunning, IsSound, IsStarted, StandsFor, TakesLine};
ghost use Rattle.sflow_tool.specs.Steps.{Makes};

use crate::device_lines;
use crate::step::Step;
use agent_outlets::ListOutlet;
use agent_setups::Setup;
use data_format::{Address, Port, SourceId};
use script_lines::ScriptLine;
use script_meter::ScriptMeter;
use script_tables::{
    CounterSetup, FlowSetup, ScriptSetups, ScriptTables, one_form, setups_are_accepted,
};
use std::alloc::{AllocError, Global};
use std::mem;
use sub_agents::{Device, OpenRefusal, Packet};

/// Why a line isn't taken.
#[derive(Clone, Copy, Debug, PartialEq, Eq)]
pub(crate) enum Unfit {
    /// It breaks a rule: it may not follow the lines before it.
    Breaks,
    /// Memory is lacking.
    Memory,
}

/// The datagrams that a line sent, and when they arrive, in ms.
#[derive(Drop)]
pub(crate) struct Sent {
    pub at: u64,
    pub datagrams: ListOutlet,
}

/// A script up to one of its lines. Its device is opened at the first line that sets nothing up.
#[derive(Drop)]
pub(crate) struct ScriptRun {
    tables: ScriptTables,
    setups: ScriptSetups,
    meter: ScriptMeter,
    device: Option<Device>,
}

// Whether the line may follow those before it.
fn may_follow(tables: &ScriptTables, line: &ScriptLine) -> bool
    ensures { (lines : List Line) → Tells tables.now lines → AreLawful lines → result ≡ follows lines (shown line.now) }
{
    match line {
        ScriptLine::Max { .. } => tables.may_set_max(),
        ScriptLine::Sub { id, .. } => tables.may_add_sub(*id),
        ScriptLine::Flow { id, source, .. } => tables.may_add_source(*id, true, *source),
        ScriptLine::Counter { id, source, .. } => tables.may_add_source(*id, false, *source),
        ScriptLine::Packet { source, .. } => tables.may_observe(*source),
        ScriptLine::Poll { id, .. } => tables.may_act(*id),
        ScriptLine::Send { id, .. } => tables.may_act(*id),
        ScriptLine::Restart { id, .. } => tables.may_act(*id),
        ScriptLine::Reset { flow, source } => tables.may_reset(*flow, *source),
        ScriptLine::Deliver {
            id,
            boot,
            number,
            ..
        } => tables.may_deliver(*id, *boot, *number),
    }
}

/// Whether the line sets something up.
pub(crate) fn sets_up(line: &ScriptLine) -> bool
    ensures { result ≡ setting_up (shown line.now) }
{
    match line {
        ScriptLine::Max { .. }
        | ScriptLine::Sub { .. }
        | ScriptLine::Flow { .. }
        | ScriptLine::Counter { .. } => true,
        _ => false,
    }
}

impl ScriptRun {
    /// A script before its first line. This takes no memory.
    pub(crate) fn new(alloc: Global) -> ScriptRun
        ensures { StandsFor result [] }
    {
        ScriptRun {
            tables: ScriptTables::new(alloc),
            setups: ScriptSetups::new(alloc),
            meter: ScriptMeter::new(alloc),
            device: None,
        }
    }

    /// Takes a further line, and answers what it made the device do. `Breaks` comes exactly where the line may not follow those
    /// before it, and then nothing has changed. After `Memory` the run stands for no lines, and isn't to be used.
    pub(crate) fn take(&mut self, alloc: Global, line: ScriptLine) -> Result<Step, Unfit>
        requires sound { IsSound self.old }
        ensures takes { (lines : List Line) → may_be_written (shown line) ≡ true → StandsFor self.old lines
            → TakesLine self.new lines (shown line) result }
        ensures unchanged { result ≡ Err Unfit.Breaks → self.new ≡ self.old }
    {
        if !may_follow(&self.tables, &line) {
            return Err(Unfit::Breaks);
        }
        match self.take_lawful(alloc, line) {
            Ok(step) => Ok(step),
            Err(_) => Err(Unfit::Memory),
        }
    }

    // Takes a line that may follow.
    fn take_lawful(&mut self, alloc: Global, line: ScriptLine) -> Result<Step, AllocError>
        requires sound { (lines : List Line) × StandsFor self.old lines × (length lines < 4294967296)
            × (follows lines (shown line) ≡ true) }
        ensures { IfOk result (λ step. (lines : List Line) → AreLawful (shown line ∷ lines) → StandsFor self.old lines
            → StandsFor self.new (shown line ∷ lines) × Makes lines (shown line) step) }
    {
        if sets_up(&line) {
            self.set_up(alloc, line)?;
            return Ok(Step::SetUp);
        }
        self.start(alloc)?;
        self.go_on(alloc, line)
    }

    // Takes a line that sets something up.
    fn set_up(&mut self, alloc: Global, line: ScriptLine) -> Result<(), AllocError>
        ensures { OnOk result ((lines : List Line) → setting_up (shown line) ≡ true → AreLawful (shown line ∷ lines)
            → StandsFor self.old lines → StandsFor self.new (shown line ∷ lines)) }
    {
        match line {
            ScriptLine::Max { bytes } => {
                self.set_max(bytes);
                Ok(())
            }
            ScriptLine::Sub {
                id,
                address,
                first,
                at,
                stage,
            } => self.add_sub(alloc, id, address, first, at, stage),
            ScriptLine::Flow {
                id,
                source,
                rate,
                first,
                pool,
                drops,
                skips,
            } => self.add_flow(
                id,
                FlowSetup {
                    source,
                    rate,
                    skips,
                    first,
                    pool,
                    drops,
                },
            ),
            ScriptLine::Counter {
                id,
                source,
                every,
                first,
            } => self.add_counter(
                id,
                CounterSetup {
                    source,
                    every,
                    first,
                },
            ),
            _ => Ok(()),
        }
    }

    fn set_max(&mut self, bytes: u32)
        ensures { (lines : List Line) → AreLawful (MaxLine bytes ∷ lines) → StandsFor self.old lines
            → StandsFor self.new (MaxLine bytes ∷ lines) }
    {
        self.tables.set_max();
        self.setups.set_max(bytes);
    }

    fn add_sub(
        &mut self,
        alloc: Global,
        id: u32,
        address: Address,
        first: u32,
        at: u64,
        stage: u32,
    ) -> Result<(), AllocError>
        ensures { OnOk result ((lines : List Line)
            → AreLawful (SubLine (record { id = id; address = address_of address; first = first; at = at; stage = stage }) ∷ lines)
            → StandsFor self.old lines
            → StandsFor self.new (SubLine (record { id = id; address = address_of address; first = first; at = at; stage = stage }) ∷ lines)) }
    {
        self.tables.add_sub(alloc, id, at)?;
        self.setups.add_sub(alloc, id, address, first, stage)
    }

    fn add_flow(&mut self, id: u32, flow: FlowSetup) -> Result<(), AllocError>
        ensures { OnOk result ((lines : List Line) → AreLawful (FlowLine id (flow_said flow) ∷ lines) → StandsFor self.old lines
            → StandsFor self.new (FlowLine id (flow_said flow) ∷ lines)) }
    {
        self.tables.add_source(id, true, flow.source)?;
        self.setups.add_flow(id, flow)
    }

    fn add_counter(&mut self, id: u32, counter: CounterSetup) -> Result<(), AllocError>
        ensures { OnOk result ((lines : List Line) → AreLawful (CounterLine id (counter_said counter) ∷ lines)
            → StandsFor self.old lines → StandsFor self.new (CounterLine id (counter_said counter) ∷ lines)) }
    {
        self.tables.add_source(id, false, counter.source)?;
        self.meter.add_source(id, counter.source)?;
        self.setups.add_counter(id, counter)
    }

    // Opens the device, unless it is open.
    fn start(&mut self, alloc: Global) -> Result<(), AllocError>
        requires { HasSubs self.old }
        ensures { OnOk result ((lines : List Line) → StandsFor self.old lines → IsStarted self.new lines) }
    {
        if self.device.is_some() {
            return Ok(());
        }
        one_form();
        setups_are_accepted();
        let setups = mem::replace(&mut self.setups, ScriptSetups::new(alloc));
        match Device::open(alloc, setups.into_setups()) {
            Ok(device) => {
                self.device = Some(device);
                Ok(())
            }
            Err(OpenRefusal::Memory) => Err(AllocError),
            Err(OpenRefusal::BadSetup { .. }) => unreachable!(),
        }
    }

    // Takes a line that sets nothing up. One that may follow finds its sub-agent and its source in the open device, so the
    // answer is never `SetUp`.
    fn go_on(&mut self, alloc: Global, line: ScriptLine) -> Result<Step, AllocError>
        requires { IsRunning self.old }
        ensures { IfOk result (λ step. (lines : List Line) → setting_up (shown line) ≡ false → AreLawful (shown line ∷ lines)
            → IsStarted self.old lines
            → StandsFor self.new (shown line ∷ lines) × Makes lines (shown line) step) }
    {
        match line {
            ScriptLine::Packet {
                source,
                input,
                output,
                vlan,
                length,
                header,
            } => Ok(self.observe(
                source,
                &Packet {
                    input: Port {
                        form: 0,
                        value: input,
                    },
                    output: Port {
                        form: 0,
                        value: output,
                    },
                    frame_length: length,
                    vlan,
                    header: &header,
                },
            )),
            ScriptLine::Poll { id, uptime } => Ok(self.poll(id, uptime)),
            ScriptLine::Send { id, uptime } => self.send(alloc, id, uptime),
            ScriptLine::Restart { id, at } => self.restart(id, at),
            ScriptLine::Reset { flow, source } => Ok(self.reset(flow, source)),
            ScriptLine::Deliver {
                id,
                boot,
                number,
                at,
            } => Ok(self.deliver(id, boot, number, at)),
            _ => Ok(Step::SetUp),
        }
    }

    fn observe(&mut self, source: SourceId, packet: &Packet<'_>) -> Step
        ensures { (lines : List Line) → AreLawful (PacketLine (place_of (source_said true source)) (packet_of packet.now) ∷ lines)
            → IsStarted self.old lines
            → StandsFor self.new (PacketLine (place_of (source_said true source)) (packet_of packet.now) ∷ lines)
            × Makes lines (PacketLine (place_of (source_said true source)) (packet_of packet.now)) result }
    {
        let Some(device) = &mut self.device else {
            return Step::SetUp;
        };
        let step = device_lines::observe(device, source, packet);
        self.meter.count(source, packet.frame_length);
        self.tables.go_on();
        step
    }

    fn poll(&mut self, id: u32, uptime: u32) -> Step
        requires { IsRunning self.old }
        ensures { (lines : List Line) → AreLawful (PollLine id uptime ∷ lines) → IsStarted self.old lines
            → StandsFor self.new (PollLine id uptime ∷ lines) × Makes lines (PollLine id uptime) result }
    {
        let Some(sub) = self.tables.find_sub(id) else {
            return Step::SetUp;
        };
        let Some(device) = &mut self.device else {
            return Step::SetUp;
        };
        let step = device_lines::poll(device, &mut self.meter, sub.place, uptime);
        self.tables.go_on();
        step
    }

    // The outlet fails only for want of memory.
    fn send(&mut self, alloc: Global, id: u32, uptime: u32) -> Result<Step, AllocError>
        requires { IsRunning self.old }
        ensures { IfOk result (λ step. (lines : List Line) → AreLawful (SendLine id uptime ∷ lines) → IsStarted self.old lines
            → StandsFor self.new (SendLine id uptime ∷ lines) × Makes lines (SendLine id uptime) step) }
    {
        let Some(sub) = self.tables.find_sub(id) else {
            return Ok(Step::SetUp);
        };
        let mut datagrams = ListOutlet::new(alloc, Vec::new(alloc));
        let Some(device) = &mut self.device else {
            return Ok(Step::SetUp);
        };
        if device_lines::send(device, sub.place, uptime, &mut datagrams).is_err() {
            return Err(AllocError);
        }
        let count = device_lines::sent_so_far(device, sub.place);
        self.tables.send(id, count);
        let at = sub.at + uptime as u64;
        Ok(Step::Sent {
            place: sub.place,
            uptime,
            sent: Sent { at, datagrams },
        })
    }

    fn restart(&mut self, id: u32, at: u64) -> Result<Step, AllocError>
        requires { IsRunning self.old }
        ensures { IfOk result (λ step. (lines : List Line) → AreLawful (RestartLine id at ∷ lines) → IsStarted self.old lines
            → StandsFor self.new (RestartLine id at ∷ lines) × Makes lines (RestartLine id at) step) }
    {
        let Some(sub) = self.tables.find_sub(id) else {
            return Ok(Step::SetUp);
        };
        let Some(device) = &mut self.device else {
            return Ok(Step::SetUp);
        };
        let step = device_lines::restart(device, sub.place);
        self.meter.restart(id);
        self.tables.restart(id, at)?;
        Ok(step)
    }

    fn reset(&mut self, flow: bool, source: SourceId) -> Step
        ensures { (lines : List Line) → AreLawful (ResetLine (source_said flow source) ∷ lines) → IsStarted self.old lines
            → StandsFor self.new (ResetLine (source_said flow source) ∷ lines)
            × Makes lines (ResetLine (source_said flow source)) result }
    {
        let Some(device) = &mut self.device else {
            return Step::SetUp;
        };
        let step = device_lines::reset(device, flow, source);
        self.tables.go_on();
        step
    }

    fn deliver(&mut self, id: u32, boot: u64, number: u64, at: u64) -> Step
        ensures { (lines : List Line)
            → AreLawful (DeliverLine (record { id = id; boot = boot; number = number; at = at }) ∷ lines)
            → IsStarted self.old lines
            → StandsFor self.new (DeliverLine (record { id = id; boot = boot; number = number; at = at }) ∷ lines)
            × Makes lines (DeliverLine (record { id = id; boot = boot; number = number; at = at })) result }
    {
        let Some(sub) = self.tables.find_sub(id) else {
            return Step::SetUp;
        };
        self.tables.go_on();
        Step::Delivered {
            place: sub.place,
            boot,
            number,
            at,
        }
    }

    /// The set-ups, as long as every line sets something up.
    pub(crate) fn setups(&self) -> &[Setup]
        ensures { (lines : List Line) → StandsFor self.now lines → list_all setting_up lines ≡ true → AreSetUp lines result.now }
    {
        self.setups.setups()
    }
}
