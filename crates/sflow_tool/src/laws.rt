// The laws of runs, and of what they write.
ghost use Rattle.std.specs.Prelude.{◌≡◌, ◌↔◌, true, ℕ, List, [], length, map};
ghost use Rattle.wire_spec.specs.declared.fault.Fault.{Fault};
ghost use Rattle.wire_spec.specs.declared.pad.Pad.{Pad};
ghost use Rattle.wire_spec.specs.declared.pad.Pad.TheVariants.{Any, Zero};
ghost use Rattle.wire_spec.specs.Bytes.{AreBytes};
ghost use Rattle.capture_spec.specs.Items.{Received};
ghost use Rattle.sflow_io.specs.CaptureSteps.{IsAllOf};
ghost use Rattle.command_words.specs.declared.command.CanonVersion.{CanonVersion};
ghost use Rattle.command_words.specs.declared.command.CanonVersion.TheVariants.{Same};
ghost use Rattle.command_runs.specs.Grammars.{Capture};
ghost use Rattle.wire_spec.specs.Shapes.{Tree};
ghost use Rattle.wire_spec.specs.Spelling.{spell};
ghost use Rattle.wire_spec.specs.Whole.{FailsWhole, SpellsWhole};
ghost use Rattle.datagram_core.specs.Tables.{datagram_read};
ghost use Rattle.sflow_tool.specs.Canons.{canon_text, canonical, canonical_capture, canonical_entries, canonical_entry, written_version};
ghost use Rattle.sflow_tool.specs.Checks.{check_line, faulty_count, is_faulty};
ghost use Rattle.sflow_tool.specs.Faults.{fault_line};
ghost use Rattle.sflow_tool.specs.Performances.{EndsBy};
ghost use Rattle.command_words.specs.declared.command.Command.{Command};
ghost use Rattle.command_runs.specs.declared.status.Status.{Status};

/// An input makes a run of a command end in one way, if no call fails and memory is there.
pub fn one_ending()
    ensures some { (c : Command) (input : List ℕ) → AreBytes input
        → (ending : Status) × EndsBy c input ending }
    ensures one { (c : Command) (input : List ℕ) (one other : Status) → AreBytes input
        → EndsBy c input one → EndsBy c input other → one ≡ other }
{}

/// `check` writes the line of the fault that the bytes of an entry have, and none where they are a datagram; it counts
/// the entry as faulty exactly in the first case.
pub fn check_lines_are_exact()
    ensures datagram { (p : Pad) (number : ℕ) (e : Received) (t : Tree) → SpellsWhole p datagram_read e.bytes t
        → check_line p number e ≡ [] }
    ensures fault { (p : Pad) (number : ℕ) (e : Received) (f : Fault) → FailsWhole p datagram_read e.bytes f
        → check_line p number e ≡ fault_line number f }
    ensures faulty { (p : Pad) (e : Received) → AreBytes e.bytes
        → (is_faulty p e ≡ true) ↔ ((f : Fault) × FailsWhole p datagram_read e.bytes f) }
{}

/// What `canon` makes of an entry: a datagram is spelled with zero padding, and other bytes stay. It has as many bytes
/// as before.
pub fn canonical_bytes_are_exact()
    ensures datagram { (bytes : List ℕ) (t : Tree) → SpellsWhole Any datagram_read bytes t
        → canonical bytes ≡ spell t }
    ensures other { (bytes : List ℕ) (f : Fault) → FailsWhole Any datagram_read bytes f → canonical bytes ≡ bytes }
    ensures length { (bytes : List ℕ) → AreBytes bytes → length (canonical bytes) ≡ length bytes }
{}

/// What `canon` writes of a capture is a capture of as many entries, with the same arrivals, and of the same version with
/// the same senders, or of version 2. `canon` of that is the same bytes, and so is `canon --migrate` of what it wrote.
pub fn canon_is_final()
    ensures arrivals { (to : CanonVersion) (entries : List Received)
        → map (λ e. e.arrival) (canonical_entries to entries) ≡ map (λ e. e.arrival) entries }
    ensures senders { (entries : List Received)
        → map (λ e. e.sender) (canonical_entries Same entries) ≡ map (λ e. e.sender) entries }
    ensures capture { (to : CanonVersion) (c : Capture) (input : List ℕ) → AreBytes input
        → IsAllOf c.version c.entries input
        → IsAllOf (written_version to c.version) (canonical_entries to c.entries) (canon_text to c) }
    ensures again { (to : CanonVersion) (c : Capture) (input : List ℕ) → AreBytes input
        → IsAllOf c.version c.entries input → canon_text to (canonical_capture to c) ≡ canon_text to c }
{}

/// `check --zero` names an entry that `canon` wrote exactly where the entry was no datagram, whatever its padding. So
/// it finds no padding to be wrong in what was a datagram.
pub fn canon_pads_with_zeros()
    ensures entry { (to : CanonVersion) (e : Received) → AreBytes e.bytes
        → is_faulty Zero (canonical_entry to e) ≡ is_faulty Any e }
    ensures all { (to : CanonVersion) (c : Capture) (input : List ℕ) → AreBytes input
        → IsAllOf c.version c.entries input
        → faulty_count Zero (canonical_entries to c.entries) ≡ faulty_count Any c.entries }
{}
