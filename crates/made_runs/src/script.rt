// The script of a run: the lines that say what happens in it, one after the other.
ghost use Rattle.std.specs.Prelude.{◌≡◌, ◌<◌, ◌≤◌, ◌^◌, true, ℕ, List, [], length, IfOk, IfSome, IfNone};
ghost use Rattle.agent_spec.specs.Samples.{Datagram};
ghost use Rattle.script_spec.specs.Lines.{Line, CounterLine, DeliverLine, FlowLine, PacketLine, PollLine, RestartLine, SendLine, SubLine};
ghost use Rattle.script_lines.specs.Shown.{shown};
ghost use Rattle.script_laws.specs.Written.{may_be_written};
ghost use Rattle.trial_spec.specs.Made as made;
ghost use Rattle.made_runs.specs.Packets.{packet_as};
ghost use Rattle.made_runs.specs.Scripts.{Gave, Gives, Told, IsWhole, line_of, made_sub, nothing_due, port, sent_now};
ghost use Rattle.made_runs.specs.declared.script.Phase.TheVariants as phases;
ghost use Rattle.made_runs.specs.declared.script.Stage.TheVariants.{Going};

use crate::arrivals::{Arrival, Arrivals};
use crate::packets::MadePacket;
use crate::run::MadeRun;
use crate::setups::drawn_skips;
use crate::turns::{is_last_of_boot, is_sent};
use arrayvec::ArrayVec;
use data_format::{Address, SourceId};
use script_lines::ScriptLine;
use std::alloc::{AllocError, Global};
use std::marker::Model;

/// The ID of the sub-agent.
const SUB: u32 = 1;

const PORT: SourceId = SourceId { class: 0, index: 1 };

const NOTHING: Arrivals = Arrivals {
    first: None,
    second: None,
    held: None,
};

/// What comes next behind the lines that set up.
#[derive(Clone, Copy, Debug, PartialEq, Eq, Drop)]
pub(crate) enum Phase {
    /// The next packet.
    Packet,
    /// A poll behind the last packet.
    Poll,
    /// A send behind the poll.
    Send,
    /// What becomes of each datagram that was sent.
    Decide,
    /// The next boot.
    Restart,
    /// Nothing.
    Done,
}

/// Where a script is.
#[derive(Clone, Copy, Debug, PartialEq, Eq, Drop)]
pub(crate) enum Stage {
    /// Before the line of the sub-agent.
    Sub,
    /// Before the line of the flow source.
    Flow,
    /// Before the line of the counter source.
    Counter,
    /// Behind them.
    Going(Phase),
}

/// The script of a made run, line by line: three lines that set up its sub-agent, and then what happens. It takes no memory
/// but for the skip numbers.
#[derive(Drop)]
pub struct MadeScript {
    seed: u64,
    total: u32,
    run: MadeRun,
    packets: u32,
    decided: u64,
    due: Arrivals,
    stage: Stage,
}

impl Model for MadeScript {
    ghost use Rattle.made_runs.specs.Scripts.{ScriptState};

    ghost Value = { ScriptState };

    ghost view = { λ s. record {
      seed = s.seed;
      total = s.total;
      run = s.run;
      packets = s.packets;
      decided = s.decided;
      due = s.due;
      stage = s.stage;
    } };
}

impl MadeScript {
    /// The script of the run of a seed with so many packets, from 1 to 10,000,000, before its first line.
    pub fn begin(seed: u64, packets: u32) -> MadeScript
        ensures gave { 1 ≤ packets → packets ≤ 10000000 → Gave result [] }
        ensures seed { result.seed ≡ seed }
        ensures total { result.total ≡ packets }
    {
        MadeScript {
            seed,
            total: packets,
            run: MadeRun::begin(seed),
            packets: 0,
            decided: 0,
            due: NOTHING,
            stage: Stage::Sub,
        }
    }

    /// The next line, where the sub-agent has sent so many datagrams in its current boot; `None` where the script ends.
    pub fn next(&mut self, alloc: Global, sent: u64) -> Result<Option<ScriptLine>, AllocError>
        ensures some { IfOk result (λ o. IfSome o (λ line. (lines : List Line) → Gave self.old lines → sent ≡ sent_now lines
            → Gives self.old self.new lines (shown line))) }
        ensures none { IfOk result (λ o. IfNone o ((lines : List Line) → Gave self.old lines → sent ≡ sent_now lines
            → IsWhole self.old.seed self.old.total lines)) }
    {
        match self.stage {
            Stage::Sub => {
                self.stage = Stage::Flow;
                Ok(Some(sub_line()))
            }
            Stage::Flow => {
                let line = flow_line(alloc, self.seed)?;
                self.stage = Stage::Counter;
                Ok(Some(line))
            }
            Stage::Counter => {
                self.stage = Stage::Going(Phase::Packet);
                Ok(Some(counter_line()))
            }
            Stage::Going(phase) => Ok(self.go_on(phase, sent)),
        }
    }

    // What is due comes first.
    fn go_on(&mut self, phase: Phase, sent: u64) -> Option<ScriptLine>
        requires stage { self.old.stage ≡ Going phase }
        ensures some { IfSome result (λ line. (lines : List Line) → Told phase self.old lines → sent ≡ sent_now lines
            → Gives self.old self.new lines (shown line)) }
        ensures none { IfNone result ((lines : List Line) → Told phase self.old lines → sent ≡ sent_now lines
            → IsWhole self.old.seed self.old.total lines) }
    {
        if let Some(line) = self.due_line() {
            return Some(line);
        }
        match phase {
            Phase::Packet => Some(self.packet_line()),
            Phase::Poll => Some(self.poll_line()),
            Phase::Send => Some(self.send_line()),
            Phase::Decide => self.decided_line(sent),
            Phase::Restart => Some(self.restart_line()),
            Phase::Done => None,
        }
    }

    // The line of the first arrival that is due.
    fn due_line(&mut self) -> Option<ScriptLine>
        ensures some { IfSome result (λ line. (phase : Phase) (lines : List Line) → self.old.stage ≡ Going phase
            → Told phase self.old lines → Gives self.old self.new lines (shown line)) }
        ensures none { IfNone result ((self.new ≡ self.old) × (self.old.due ≡ nothing_due)) }
    {
        if let Some(arrival) = self.due.first {
            self.due.first = None;
            return Some(deliver_line(arrival));
        }
        if let Some(arrival) = self.due.second {
            self.due.second = None;
            return Some(deliver_line(arrival));
        }
        if let Some(arrival) = self.due.held {
            self.due.held = None;
            return Some(deliver_line(arrival));
        }
        None
    }

    // The next packet.
    fn packet_line(&mut self) -> ScriptLine
        ensures { (lines : List Line) → Told phases.Packet self.old lines → self.old.due ≡ nothing_due
            → Gives self.old self.new lines (shown result) }
    {
        let packet = self.run.packet();
        self.packets = self.packets.wrapping_add(1);
        self.stage = Stage::Going(if is_sent(self.total, self.packets) {
            Phase::Poll
        } else {
            Phase::Packet
        });
        line_of_packet(&packet)
    }

    fn poll_line(&mut self) -> ScriptLine
        ensures { (lines : List Line) → Told phases.Poll self.old lines → self.old.due ≡ nothing_due
            → Gives self.old self.new lines (shown result) }
    {
        self.stage = Stage::Going(Phase::Send);
        ScriptLine::Poll {
            id: SUB,
            uptime: self.run.uptime(),
        }
    }

    fn send_line(&mut self) -> ScriptLine
        ensures { (lines : List Line) → Told phases.Send self.old lines → self.old.due ≡ nothing_due
            → Gives self.old self.new lines (shown result) }
    {
        self.stage = Stage::Going(Phase::Decide);
        ScriptLine::Send {
            id: SUB,
            uptime: self.run.uptime(),
        }
    }

    // The next datagrams are decided, up to one of which something arrives.
    fn decided_line(&mut self, sent: u64) -> Option<ScriptLine>
        requires stage { self.old.stage ≡ Going phases.Decide }
        requires none_due { self.old.due ≡ nothing_due }
        ensures some { IfSome result (λ line. (lines : List Line) → Told phases.Decide self.old lines → sent ≡ sent_now lines
            → Gives self.old self.new lines (shown line)) }
        ensures none { IfNone result ((lines : List Line) → Told phases.Decide self.old lines → sent ≡ sent_now lines
            → IsWhole self.old.seed self.old.total lines) }
    {
        for number in self.decided..sent {
            self.decided = number + 1;
            self.due = self.run.decide(number + 1);
            if let Some(line) = self.due_line() {
                return Some(line);
            }
        }
        self.line_behind()
    }

    // What comes behind all that was sent.
    fn line_behind(&mut self) -> Option<ScriptLine>
        ensures some { IfSome result (λ line. (lines : List Line) → Told phases.Decide self.old lines
            → self.old.due ≡ nothing_due → self.old.decided ≡ sent_now lines → Gives self.old self.new lines (shown line)) }
        ensures none { IfNone result ((lines : List Line) → Told phases.Decide self.old lines
            → self.old.due ≡ nothing_due → self.old.decided ≡ sent_now lines → IsWhole self.old.seed self.old.total lines) }
    {
        if is_last_of_boot(self.total, self.packets) {
            return Some(self.boot_line());
        }
        if self.packets == self.total {
            return self.last_line();
        }
        Some(self.packet_line())
    }

    // The boot ends: what is held arrives, and then the next one begins.
    fn boot_line(&mut self) -> ScriptLine
        ensures { (lines : List Line) → Told phases.Decide self.old lines → self.old.due ≡ nothing_due
            → self.old.decided ≡ sent_now lines → made.is_last_of_boot self.old.total self.old.packets ≡ true
            → Gives self.old self.new lines (shown result) }
    {
        self.stage = Stage::Going(Phase::Restart);
        self.due.held = self.run.end();
        match self.due_line() {
            Some(line) => line,
            None => self.restart_line(),
        }
    }

    // The run ends: what is held arrives.
    fn last_line(&mut self) -> Option<ScriptLine>
        ensures some { IfSome result (λ line. (lines : List Line) → Told phases.Decide self.old lines
            → self.old.due ≡ nothing_due → self.old.decided ≡ sent_now lines → self.old.packets ≡ self.old.total
            → Gives self.old self.new lines (shown line)) }
        ensures none { IfNone result ((lines : List Line) → Told phases.Decide self.old lines
            → self.old.due ≡ nothing_due → self.old.decided ≡ sent_now lines → self.old.packets ≡ self.old.total
            → IsWhole self.old.seed self.old.total lines) }
    {
        self.stage = Stage::Going(Phase::Done);
        self.due.held = self.run.end();
        self.due_line()
    }

    fn restart_line(&mut self) -> ScriptLine
        ensures { (lines : List Line) → Told phases.Restart self.old lines → self.old.due ≡ nothing_due
            → Gives self.old self.new lines (shown result) }
    {
        self.run.begin_boot();
        self.decided = 0;
        self.stage = Stage::Going(Phase::Packet);
        ScriptLine::Restart {
            id: SUB,
            at: self.run.base(),
        }
    }
}

fn sub_line() -> ScriptLine
    ensures { shown result ≡ SubLine made_sub }
{
    ScriptLine::Sub {
        id: SUB,
        address: Address::V4([10, 0, 0, 1]),
        first: 4_294_967_290,
        at: 1_000_000,
        stage: 16,
    }
}

fn flow_line(alloc: Global, seed: u64) -> Result<ScriptLine, AllocError>
    ensures { IfOk result (λ line. shown line ≡ FlowLine 1 (made.made_flow seed)) }
{
    let skips = drawn_skips(alloc, seed)?;
    Ok(ScriptLine::Flow {
        id: SUB,
        source: PORT,
        rate: 10,
        first: 4_294_967_280,
        pool: 4_294_967_000,
        drops: 0,
        skips,
    })
}

fn counter_line() -> ScriptLine
    ensures { shown result ≡ CounterLine 1 made.made_counter }
{
    ScriptLine::Counter {
        id: SUB,
        source: PORT,
        every: 1000,
        first: 1,
    }
}

fn line_of_packet(packet: &MadePacket) -> ScriptLine
    ensures { (x : ℕ) → packet_as packet.now ≡ made.made_packet x → shown result ≡ PacketLine port (made.made_packet x) }
{
    let mut header = ArrayVec::new();
    if header.try_extend_from_slice(&packet.header).is_err() {
        unreachable!()
    }
    ScriptLine::Packet {
        source: PORT,
        input: packet.input.value,
        output: packet.output.value,
        vlan: None,
        length: packet.frame_length,
        header,
    }
}

fn deliver_line(arrival: Arrival) -> ScriptLine
    ensures is { shown result ≡ DeliverLine (line_of arrival) }
    ensures written { may_be_written (DeliverLine (line_of arrival)) ≡ true }
{
    ScriptLine::Deliver {
        id: SUB,
        boot: arrival.boot,
        number: arrival.number,
        at: arrival.at,
    }
}
