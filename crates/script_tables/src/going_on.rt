// The tables of a script go on with a further line.
ghost use Rattle.std.specs.Prelude.{◌≡◌, ◌<◌, ◌++◌, [], ◌∷◌, true, false, Bool, ℕ, List, length, map, slice_get, is_some, Some, IfSome, IfNone, IfOk, OnOk, OnErr};
ghost use Rattle.agent_spec.specs.Sources.{FlowSetup as FlowSaid, CounterSetup as CounterSaid};
ghost use Rattle.script_spec.specs.Lines.{Line, MaxLine, SubLine, FlowLine, CounterLine, SendLine, RestartLine, SubAgent as SubSaid};
ghost use Rattle.script_laws.specs.Lawful.{AreLawful};
ghost use Rattle.script_spec.specs.Rules.{may_follow};
ghost use Rattle.script_tables.specs.declared.rows.SubRow.{SubRow as Row};
ghost use Rattle.script_tables.specs.Said.{source_said};
ghost use Rattle.script_tables.specs.Tables.{BootCount, HasSent, IsSetAt, StandsAt, Tells, is_act_of, is_quiet, knows as knows_in, last_time, row_said, sub_said, with_boot, with_sent};

use crate::rows::{BootRow, SourceRow, SubPlace, SubRow};
use crate::tables::ScriptTables;
use data_format::SourceId;
use std::alloc::{AllocError, Global};

impl SubRow {
    // One boot more.
    fn begin(&mut self, at: u64) -> Result<(), AllocError>
        ensures { OnOk result (sub_said self.new ≡ with_boot at (sub_said self.old)) }
    {
        self.boots.push(BootRow { at, sent: 0 })?;
        Ok(())
    }

    // Its newest boot has sent so many datagrams.
    fn set_sent(&mut self, sent: u64)
        ensures { sub_said self.new ≡ with_sent sent (sub_said self.old) }
    {
        let count = self.boots.len();
        if count > 0 {
            self.boots[count - 1].sent = sent;
        }
    }

    // When its newest boot arrives.
    fn newest_time(&self) -> u64
        ensures { result ≡ last_time (sub_said self.now).boots }
    {
        let count = self.boots.len();
        if count > 0 {
            self.boots[count - 1].at
        } else {
            0
        }
    }
}

// A sub-agent in its first boot.
fn new_sub(alloc: Global, id: u32, at: u64) -> Result<SubRow, AllocError>
    ensures { IfOk result (λ s. sub_said s ≡ record { id = id; boots = record { at = at; sent = 0 } ∷ [] }) }
{
    let mut boots = Vec::new(alloc);
    boots.push(BootRow { at, sent: 0 })?;
    Ok(SubRow { id, boots })
}

// The place of the sub-agent of this ID.
fn place_of(subs: &[SubRow], id: u32) -> Option<usize>
    ensures within { IfSome result (λ p. p < length subs.now) }
    ensures here { (row : Row) → IfSome result (λ p. slice_get subs.now p ≡ Some row → row.id ≡ id) }
    ensures none { IfNone result (knows_in id subs.now ≡ false) }
{
    for (place, sub) in subs.iter().enumerate() {
        if sub.id == id {
            return Some(place);
        }
    }
    None
}

// The sub-agent at a place begins a boot.
fn begin_at(subs: &mut [SubRow], place: usize, at: u64) -> Result<(), AllocError>
    requires { place < length subs.old }
    ensures { OnOk result (IsSetAt (with_boot at) place subs.old subs.new) }
{
    subs[place].begin(at)
}

// The newest boot of the sub-agent at a place has sent so many datagrams.
fn set_sent_at(subs: &mut [SubRow], place: usize, sent: u64)
    requires { place < length subs.old }
    ensures { IsSetAt (with_sent sent) place subs.old subs.new }
{
    subs[place].set_sent(sent);
}

// When the newest boot of the sub-agent at a place arrives.
fn newest_time_at(subs: &[SubRow], place: usize) -> u64
    requires { place < length subs.now }
    ensures { (row : Row) → slice_get subs.now place ≡ Some row → result ≡ last_time (sub_said row).boots }
{
    subs[place].newest_time()
}

impl ScriptTables {
    /// Where the sub-agent of this ID stands, and when its newest boot arrives; `None` exactly where no line may follow in
    /// which it polls, sends or restarts.
    pub fn find_sub(&self, id: u32) -> Option<SubPlace>
        ensures acts { (lines : List Line) (line : Line) → Tells self.now lines → is_act_of id line ≡ true
            → is_some result ≡ may_follow lines line }
        ensures stands { (lines : List Line) → Tells self.now lines → IfSome result (λ s. StandsAt lines id s.place s.at) }
    {
        match self.place_of(id) {
            Some(place) => Some(SubPlace {
                place,
                at: self.newest_time(place),
            }),
            None => None,
        }
    }

    fn newest_time(&self, place: usize) -> u64
        requires { place < length self.now.subs }
        ensures { (row : Row) → slice_get self.now.subs place ≡ Some row → result ≡ last_time (sub_said row).boots }
    {
        newest_time_at(&self.subs, place)
    }

    /// A line said how long a datagram is at most.
    pub fn set_max(&mut self)
        ensures { (lines : List Line) (bytes : ℕ) → AreLawful (MaxLine bytes ∷ lines) → Tells self.old lines
            → Tells self.new (MaxLine bytes ∷ lines) }
    {
        self.mark_max();
    }

    /// A line set up a sub-agent of this ID, whose first boot arrives at this time, in ms. Where there is no memory, all
    /// is as it was.
    pub fn add_sub(&mut self, alloc: Global, id: u32, at: u64) -> Result<(), AllocError>
        ensures added { OnOk result ((lines : List Line) (s : SubSaid) → AreLawful (SubLine s ∷ lines) → s.id ≡ id → s.at ≡ at
            → Tells self.old lines → Tells self.new (SubLine s ∷ lines)) }
        ensures unchanged { OnErr result (self.new ≡ self.old) }
    {
        let row = new_sub(alloc, id, at)?;
        self.push_sub(row)
    }

    /// A line set up this source of a sub-agent, one of flow samples, or where `flow` is false one of counters samples.
    /// Where there is no memory, all is as it was.
    pub fn add_source(&mut self, id: u32, flow: bool, source: SourceId) -> Result<(), AllocError>
        ensures flow { OnOk result ((lines : List Line) (f : FlowSaid) → AreLawful (FlowLine id f ∷ lines)
            → f.source ≡ source_said flow source → Tells self.old lines → Tells self.new (FlowLine id f ∷ lines)) }
        ensures counter { OnOk result ((lines : List Line) (c : CounterSaid) → AreLawful (CounterLine id c ∷ lines)
            → c.source ≡ source_said flow source → Tells self.old lines → Tells self.new (CounterLine id c ∷ lines)) }
        ensures unchanged { OnErr result (self.new ≡ self.old) }
    {
        self.push_source(SourceRow {
            owner: id,
            flow,
            source,
        })
    }

    /// A line said that a packet was seen, a sub-agent polled, a source was reset or a datagram is delivered.
    pub fn go_on(&mut self)
        ensures { (lines : List Line) (line : Line) → is_quiet line ≡ true → Tells self.old lines
            → Tells self.new (line ∷ lines) }
    {
        self.mark_running();
    }

    /// In a line the sub-agent of this ID sent, and its newest boot has now sent so many datagrams in all.
    pub fn send(&mut self, id: u32, sent: u64)
        ensures { (lines : List Line) (now : ℕ) → AreLawful (SendLine id now ∷ lines) → HasSent id sent lines (SendLine id now)
            → Tells self.old lines → Tells self.new (SendLine id now ∷ lines) }
    {
        match self.place_of(id) {
            Some(place) => self.send_at(place, sent),
            None => {}
        }
    }

    /// In a line the sub-agent of this ID restarted, and its new boot arrives at this time, in ms.
    pub fn restart(&mut self, id: u32, at: u64) -> Result<(), AllocError>
        ensures { OnOk result ((lines : List Line) → AreLawful (RestartLine id at ∷ lines) → Tells self.old lines
            → Tells self.new (RestartLine id at ∷ lines)) }
    {
        match self.place_of(id) {
            Some(place) => self.begin_boot(place, at),
            None => Ok(()),
        }
    }

    fn place_of(&self, id: u32) -> Option<usize>
        ensures within { IfSome result (λ p. p < length self.now.subs) }
        ensures here { (row : Row) → IfSome result (λ p. slice_get self.now.subs p ≡ Some row → row.id ≡ id) }
        ensures none { IfNone result (knows_in id self.now.subs ≡ false) }
    {
        place_of(&self.subs, id)
    }

    fn mark_max(&mut self)
        ensures { self.new ≡ record self.old { has_max = true } }
    {
        self.has_max = true;
    }

    fn mark_running(&mut self)
        ensures { self.new ≡ record self.old { running = true } }
    {
        self.running = true;
    }

    fn push_sub(&mut self, row: SubRow) -> Result<(), AllocError>
        ensures added { OnOk result (self.new ≡ record self.old { subs = self.old.subs ++ row ∷ [] }) }
        ensures unchanged { OnErr result (self.new ≡ self.old) }
    {
        self.subs.push(row)?;
        Ok(())
    }

    fn push_source(&mut self, row: SourceRow) -> Result<(), AllocError>
        ensures added { OnOk result (self.new ≡ record self.old { sources = self.old.sources ++ row ∷ [] }) }
        ensures unchanged { OnErr result (self.new ≡ self.old) }
    {
        self.sources.push(row)?;
        Ok(())
    }

    fn begin_boot(&mut self, place: usize, at: u64) -> Result<(), AllocError>
        requires { place < length self.old.subs }
        ensures { OnOk result ((subs : List Row) × (self.new ≡ record self.old { running = true; subs = subs })
            × IsSetAt (with_boot at) place self.old.subs subs) }
    {
        begin_at(&mut self.subs, place, at)?;
        self.running = true;
        Ok(())
    }

    fn send_at(&mut self, place: usize, sent: u64)
        requires { place < length self.old.subs }
        ensures { (subs : List Row) × (self.new ≡ record self.old { running = true; subs = subs })
            × IsSetAt (with_sent sent) place self.old.subs subs }
    {
        set_sent_at(&mut self.subs, place, sent);
        self.running = true;
    }
}
