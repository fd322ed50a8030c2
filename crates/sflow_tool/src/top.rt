ghost use Rattle.std.specs.Prelude.{◌≡◌, ◌+◌, ◌<◌, ◌≤◌, ◌^◌, ◌++◌, ◌⊎◌, ◌↔◌, ℕ, Bool, false, List, None, Some, map, take, string_bytes, vec_len};
ghost use Rattle.byte_ends.specs.Seen.{Rose, Takes};
ghost use Rattle.wire_spec.specs.Bytes.{AreBytes};
ghost use Rattle.account_spec.specs.Histories.{SubAgent};
ghost use Rattle.account_spec.specs.Deliveries.{Delivery};
ghost use Rattle.account_spec.specs.Accounts.{account};
ghost use Rattle.report_lines.specs.HeaderLines.{shown_taps};
ghost use Rattle.report_lines.specs.InterfaceLines.{report_with};
ghost use Rattle.datagram_links.specs.Links.{LinkTold, datagrams_in};
ghost use Rattle.command_words.specs.declared.collection.Collection.{Collection};
ghost use Rattle.sflow_tool.specs.Headlines.{IsCollected, IsDelivered};
ghost use Rattle.books_spec.specs.declared.limits.Limits.{Limits};
ghost use Rattle.command_words.specs.Commands.{HasLawfulLength, HasLawfulLimits, command_for, receivers_needed};
ghost use Rattle.relay_out.specs.Lines.{relay_text};
ghost use Rattle.relay_out.specs.Routes.{Route};
ghost use Rattle.relay_out.specs.Runs.{RunServed};
ghost use Rattle.sflow_tool.specs.Passing.{first_in_time};
ghost use Rattle.sflow_tool.specs.Surroundings.{surroundings};
ghost use Rattle.sflow_tool.specs.Performances.{EndsBy, IsFed, Performs};
ghost use Rattle.sflow_tool.specs.Relays.{Relayed, RelaysOver, relays};
ghost use Rattle.trial_spec.specs.Made.{made_deliveries, made_history};
ghost use Rattle.sflow_tool.specs.MadeTrials.{made_premises, made_tail};
ghost use Rattle.sflow_tool.specs.Trials.{all_hold, premises_of, tail_of};
ghost use Rattle.script_spec.specs.Lines.{Line};
ghost use Rattle.script_laws.specs.SoFar.{IsScriptOf};
ghost use Rattle.script_histories.specs.Histories.{deliveries_of, history_of};
ghost use Rattle.sample_taps.specs.Feeding.{Held};
ghost use Rattle.delivered_items.specs.AccountHeaders.{account_briefs, account_classes};
ghost use Rattle.command_words.specs.declared.command.Command.{Command};
ghost use Rattle.command_runs.specs.declared.status.Status.{Status as Ending};

use crate::agent::agent;
use crate::canon::canon;
use crate::check::check;
use crate::collect::collect;
use crate::made_trial::made_trial;
use crate::pcap::pcap;
use crate::relay::relay;
use crate::replay::replay;
use crate::send::send;
use crate::show::show;
use crate::trial::trial;
use command_runs::Status;
use command_words::{Command as Asked, WordsRefusal, read_words};
use datagram_links::{Link, Receiver};
use delivered_items::laws::{made_runs_are_accepted, scripts_are_accepted};
use flow_collector::Seeds;
use relay_out::Receivers;
use sample_taps::{Tap, Taps};
use script_histories::laws::scripts_are_histories;
use script_laws::{scripts_are_lawful, scripts_are_read};
use sflow_io::{Sink, Source};
use std::alloc::Global;
use trial_spec::laws::{four_tests_are_the_premises, made_runs_are_histories};

/// Does what the words say, from the source to the sink or over the link. The words are without the program's name.
///
/// `replay` reads a capture and writes its report: a line for each stream and each source, the line of the classes of sampled
/// headers, that of each consumer, one for the first entry that is no datagram, and the line of totals. The consumers, `taps`,
/// are given a brief for each header that counts; at every status they are as the entries that came before it leave them.
/// Other commands leave them. Its options are the limits of the collector, `--interfaces` asks for a line for
/// each source that told the counters of an interface, behind the lines of all sources, and `seeds` is what the
/// hashes of the collector's tables begin with, on which nothing that is written depends.
/// `show` reads a capture and writes the lines of each entry. `check` reads a capture and writes a line for each entry
/// that is no datagram, and then how many there are; `--zero` asks for zero padding.
/// `canon` reads a capture and writes one of the same version with the same arrivals and senders, each datagram with
/// zero padding and each other entry as it is; `--migrate` asks for version 2. Where the capture breaks off, so does what
/// `canon` writes, without an end item; it writes nothing where it was given no entry.
/// `pcap` reads a classic pcap file and writes a capture of version 2: the payload of each UDP datagram to the
/// collector's port 6343, with the arrival of its packet and the sender. Where the file breaks off, so does the capture,
/// without its end item, and nothing is written where no payload was taken. `--count` asks for one line in its place,
/// which counts the packets by what became of them.
/// `collect` listens at a place, makes `--turns` receives and writes the report of the datagrams that came, as `replay`
/// does of a capture's entries; a receive that gives nothing for a while counts as well. `--listen` names the place, and
/// else it is port 6343 of all addresses; limits, `--interfaces` and consumers are as for `replay`.
/// `relay` does what `collect` does, and passes each datagram on that is the first of its number, as soon as it comes.
/// `--routes` says which agent's datagrams go where: route number K is for receiver number K, which is aimed at the route's
/// place after the link listens and before the first receive. A receiver that fails is stopped, and changes no status. Behind
/// the report stands a line for each route. More routes than there are receivers are `Usage`.
/// `send` reads a capture, sends the bytes of each entry to the place that `--to` names, and else to port 6343 of this
/// machine, and then writes how many it sent. No other command uses the link, and none but `relay` a receiver; one call of the
/// link that fails ends the run with `LinkFault`, and then nothing is written.
/// `agent` reads a script and writes a capture of version 1 with the datagrams that its sub-agents send, in the order of
/// its lines, each with the arrival of its boot and its uptime. A line that breaks a rule ends the run with `BadInput` at
/// the number of that line. Where reading ends early, the capture has what the lines before send, and nothing is written
/// where they send nothing. Memory may be lacking at any line.
/// `trial` reads a script and runs it, but what its `deliver` lines deliver goes to a collector and the consumers as soon as
/// each is read. At the end it writes the report, as `replay` does of these datagrams, a line of how many datagrams the
/// sub-agents sent, samples they issued and packets they dropped, and a line of which premises hold. A line that breaks a rule
/// ends it as it ends `agent`, and then nothing is written; memory may be lacking at any line. With `--made` and `--packets` it
/// reads nothing: it makes the run of that seed with so many packets, and writes the same of what is delivered of it.
/// Every other command takes all memory before the first byte is read or written, and before the link or a receiver is used.
pub fn run<S: Source, K: Sink, L: Link>(
    alloc: Global,
    words: &[String],
    seeds: Seeds,
    source: &mut S,
    sink: &mut K,
    link: &mut L,
    taps: &mut Taps,
    receivers: &mut Receivers,
) -> Status
    requires { taps.old.ended + vec_len taps.old.held < 2 ^ 64 }

    // The words name a command, or nothing is touched.
    ensures usage { (result ≡ Status.Usage) ↔ (command_for (vec_len receivers.old.held) (map string_bytes words.now) ≡ None) }
    ensures untouched { result ≡ Status.Usage → (source.new ≡ source.old) × (sink.new ≡ sink.old) × (link.new ≡ link.old)
        × (taps.new ≡ taps.old) × (receivers.new ≡ receivers.old) }

    // What the command that they name does.
    ensures runs { (c : Command) → command_for (vec_len receivers.old.held) (map string_bytes words.now) ≡ Some c
        → Performs c (surroundings (S.seen source.old) (K.seen sink.old) (L.seen link.old)
        (shown_taps (λ x. (⟦<dyn Tap as Tap>⟧ x.vtable).text x.value) taps.old.held.items taps.old.ended))
        (surroundings (S.seen source.new) (K.seen sink.new) (L.seen link.new)
        (shown_taps (λ x. (⟦<dyn Tap as Tap>⟧ x.vtable).text x.value) taps.new.held.items taps.new.ended)) result }

    // The consumers that are held are those that the briefs of the run leave, and the others were counted.
    ensures fed { (c : Command) → command_for (vec_len receivers.old.held) (map string_bytes words.now) ≡ Some c
        → IsFed (λ x b y. (v : _) × (y ≡ record x { value = v }) × (⟦<dyn Tap as Tap>⟧ x.vtable).step x.value b v)
        (λ x. (⟦<dyn Tap as Tap>⟧ x.vtable).ended x.value) c (surroundings (S.seen source.old) (K.seen sink.old) (L.seen link.old)
        (shown_taps (λ x. (⟦<dyn Tap as Tap>⟧ x.vtable).text x.value) taps.old.held.items taps.old.ended))
        (surroundings (S.seen source.new) (K.seen sink.new) (L.seen link.new)
        (shown_taps (λ x. (⟦<dyn Tap as Tap>⟧ x.vtable).text x.value) taps.new.held.items taps.new.ended)) result
        taps.old.held.items taps.new.held.items }
    ensures ended { taps.new.ended + vec_len taps.new.held ≡ taps.old.ended + vec_len taps.old.held }

    // What `relay` writes, and what it makes of the receivers; other commands leave them.
    ensures relay_lines { (asked : Collection) (routes : List Route)
        → command_for (vec_len receivers.old.held) (map string_bytes words.now) ≡ Some (Command.Relay asked routes)
        → RelaysOver asked routes receivers.new.progress (surroundings (S.seen source.old) (K.seen sink.old) (L.seen link.old)
        (shown_taps (λ x. (⟦<dyn Tap as Tap>⟧ x.vtable).text x.value) taps.old.held.items taps.old.ended))
        (surroundings (S.seen source.new) (K.seen sink.new) (L.seen link.new)
        (shown_taps (λ x. (⟦<dyn Tap as Tap>⟧ x.vtable).text x.value) taps.new.held.items taps.new.ended)) result }
    ensures relayed { (asked : Collection) (routes : List Route)
        → command_for (vec_len receivers.old.held) (map string_bytes words.now) ≡ Some (Command.Relay asked routes)
        → Relayed (λ x. (⟦<dyn Receiver as Receiver>⟧ x.vtable).seen x.value) asked routes
        (L.seen link.old) (L.seen link.new) result receivers.old.held.items receivers.old.progress
        receivers.new.held.items receivers.new.progress }
    ensures unrelayed { (c : Command) → command_for (vec_len receivers.old.held) (map string_bytes words.now) ≡ Some c → relays c ≡ false
        → receivers.new ≡ receivers.old }

    // Where a capture delivers what agents sent and the premises hold, a report that is written is that of their account.
    ensures headline { (limits : Limits) (interfaces : Bool) (history : List SubAgent) (deliveries : List Delivery)
        (input : List ℕ)
        → command_for (vec_len receivers.old.held) (map string_bytes words.now) ≡ Some (Command.Replay limits interfaces)
        → AreBytes input → (S.seen source.old).told ≡ Some input → IsDelivered limits history deliveries input
        → result ≡ Status.Done
        → Takes (K.seen sink.old) (K.seen sink.new) (report_with interfaces (account limits history deliveries)
        (account_classes limits deliveries)
        (shown_taps (λ x. (⟦<dyn Tap as Tap>⟧ x.vtable).text x.value) taps.new.held.items taps.new.ended)) }

    // The consumers that are held then are those that the briefs of the account leave.
    ensures headline_briefs { (limits : Limits) (interfaces : Bool) (history : List SubAgent) (deliveries : List Delivery)
        (input : List ℕ)
        → command_for (vec_len receivers.old.held) (map string_bytes words.now) ≡ Some (Command.Replay limits interfaces)
        → AreBytes input → (S.seen source.old).told ≡ Some input → IsDelivered limits history deliveries input
        → result ≡ Status.Done
        → Held (λ x b y. (v : _) × (y ≡ record x { value = v }) × (⟦<dyn Tap as Tap>⟧ x.vtable).step x.value b v)
        (λ x. (⟦<dyn Tap as Tap>⟧ x.vtable).ended x.value) (account_briefs limits deliveries)
        taps.old.held.items taps.new.held.items }

    // The same of what comes over a link.
    ensures collected { (asked : Collection) (history : List SubAgent) (deliveries : List Delivery) (told : LinkTold)
        → command_for (vec_len receivers.old.held) (map string_bytes words.now) ≡ Some (Command.Collect asked)
        → (L.seen link.old).told ≡ Some told
        → IsCollected asked.limits history deliveries (datagrams_in 65535 (take asked.turns told.items))
        → result ≡ Status.Done
        → Takes (K.seen sink.old) (K.seen sink.new) (report_with asked.interfaces (account asked.limits history deliveries)
        (account_classes asked.limits deliveries)
        (shown_taps (λ x. (⟦<dyn Tap as Tap>⟧ x.vtable).text x.value) taps.new.held.items taps.new.ended)) }

    ensures collected_briefs { (asked : Collection) (history : List SubAgent) (deliveries : List Delivery) (told : LinkTold)
        → command_for (vec_len receivers.old.held) (map string_bytes words.now) ≡ Some (Command.Collect asked)
        → (L.seen link.old).told ≡ Some told
        → IsCollected asked.limits history deliveries (datagrams_in 65535 (take asked.turns told.items))
        → result ≡ Status.Done
        → Held (λ x b y. (v : _) × (y ≡ record x { value = v }) × (⟦<dyn Tap as Tap>⟧ x.vtable).step x.value b v)
        (λ x. (⟦<dyn Tap as Tap>⟧ x.vtable).ended x.value) (account_briefs asked.limits deliveries)
        taps.old.held.items taps.new.held.items }

    // The same for `relay`, with the lines of the receivers behind the report.
    ensures relay_collected { (asked : Collection) (routes : List Route) (history : List SubAgent) (deliveries : List Delivery)
        (told : LinkTold)
        → command_for (vec_len receivers.old.held) (map string_bytes words.now) ≡ Some (Command.Relay asked routes)
        → (L.seen link.old).told ≡ Some told
        → IsCollected asked.limits history deliveries (datagrams_in 65535 (take asked.turns told.items))
        → result ≡ Status.Done
        → Takes (K.seen sink.old) (K.seen sink.new) (report_with asked.interfaces (account asked.limits history deliveries)
        (account_classes asked.limits deliveries)
        (shown_taps (λ x. (⟦<dyn Tap as Tap>⟧ x.vtable).text x.value) taps.new.held.items taps.new.ended)
        ++ relay_text routes receivers.new.progress) }

    ensures relay_briefs { (asked : Collection) (routes : List Route) (history : List SubAgent) (deliveries : List Delivery)
        (told : LinkTold)
        → command_for (vec_len receivers.old.held) (map string_bytes words.now) ≡ Some (Command.Relay asked routes)
        → (L.seen link.old).told ≡ Some told
        → IsCollected asked.limits history deliveries (datagrams_in 65535 (take asked.turns told.items))
        → result ≡ Status.Done
        → Held (λ x b y. (v : _) × (y ≡ record x { value = v }) × (⟦<dyn Tap as Tap>⟧ x.vtable).step x.value b v)
        (λ x. (⟦<dyn Tap as Tap>⟧ x.vtable).ended x.value) (account_briefs asked.limits deliveries)
        taps.old.held.items taps.new.held.items }

    // Where the premises hold of what a script delivers, and so the last line says, the report in front is that of the account.
    ensures trial_account { (limits : Limits) (interfaces : Bool) (lines : List Line) (input : List ℕ)
        → command_for (vec_len receivers.old.held) (map string_bytes words.now) ≡ Some (Command.Trial limits interfaces)
        → AreBytes input → (S.seen source.old).told ≡ Some input → IsScriptOf lines input → premises_of limits lines ≡ all_hold
        → result ≡ Status.Done
        → Takes (K.seen sink.old) (K.seen sink.new) (report_with interfaces
        (account limits (history_of lines) (deliveries_of lines)) (account_classes limits (deliveries_of lines))
        (shown_taps (λ x. (⟦<dyn Tap as Tap>⟧ x.vtable).text x.value) taps.new.held.items taps.new.ended)
        ++ tail_of limits lines) }

    ensures trial_briefs { (limits : Limits) (interfaces : Bool) (lines : List Line) (input : List ℕ)
        → command_for (vec_len receivers.old.held) (map string_bytes words.now) ≡ Some (Command.Trial limits interfaces)
        → (S.seen source.old).told ≡ Some input → IsScriptOf lines input → premises_of limits lines ≡ all_hold
        → result ≡ Status.Done
        → Held (λ x b y. (v : _) × (y ≡ record x { value = v }) × (⟦<dyn Tap as Tap>⟧ x.vtable).step x.value b v)
        (λ x. (⟦<dyn Tap as Tap>⟧ x.vtable).ended x.value) (account_briefs limits (deliveries_of lines))
        taps.old.held.items taps.new.held.items }

    // The same of a made run.
    ensures made_account { (limits : Limits) (interfaces : Bool) (seed packets : ℕ)
        → command_for (vec_len receivers.old.held) (map string_bytes words.now)
        ≡ Some (Command.TrialMade limits interfaces seed packets)
        → made_premises limits seed packets ≡ all_hold → result ≡ Status.Done
        → Takes (K.seen sink.old) (K.seen sink.new) (report_with interfaces
        (account limits (made_history seed packets) (made_deliveries seed packets))
        (account_classes limits (made_deliveries seed packets))
        (shown_taps (λ x. (⟦<dyn Tap as Tap>⟧ x.vtable).text x.value) taps.new.held.items taps.new.ended)
        ++ made_tail limits seed packets) }

    ensures made_briefs { (limits : Limits) (interfaces : Bool) (seed packets : ℕ)
        → command_for (vec_len receivers.old.held) (map string_bytes words.now)
        ≡ Some (Command.TrialMade limits interfaces seed packets)
        → made_premises limits seed packets ≡ all_hold → result ≡ Status.Done
        → Held (λ x b y. (v : _) × (y ≡ record x { value = v }) × (⟦<dyn Tap as Tap>⟧ x.vtable).step x.value b v)
        (λ x. (⟦<dyn Tap as Tap>⟧ x.vtable).ended x.value) (account_briefs limits (made_deliveries seed packets))
        taps.old.held.items taps.new.held.items }

    // What goes on then is each datagram that was delivered in time, once, and no other.
    ensures relay_delivered { (asked : Collection) (routes : List Route) (history : List SubAgent) (deliveries : List Delivery)
        (told : LinkTold)
        → command_for (vec_len receivers.old.held) (map string_bytes words.now) ≡ Some (Command.Relay asked routes)
        → (L.seen link.old).told ≡ Some told
        → IsCollected asked.limits history deliveries (datagrams_in 65535 (take asked.turns told.items))
        → result ≡ Status.Done
        → RunServed (λ x. (⟦<dyn Receiver as Receiver>⟧ x.vtable).seen x.value) (first_in_time asked.limits history deliveries)
        routes receivers.old.held.items receivers.new.held.items receivers.new.progress }

    // Where no count of faults rose, the input alone decides, but for want of memory.
    ensures complete { (c : Command) (input : List ℕ) (ending : Ending)
        → command_for (vec_len receivers.old.held) (map string_bytes words.now) ≡ Some c
        → AreBytes input → (S.seen source.old).told ≡ Some input → EndsBy c input ending
        → ¬ Rose (S.seen source.old).faults (S.seen source.new).faults
        → ¬ Rose (K.seen sink.old).faults (K.seen sink.new).faults
        → ¬ Rose (L.seen link.old).faults (L.seen link.new).faults
        → (result ≡ ending) ⊎ (result ≡ Status.Memory) }

    // What comes over a link and what doesn't come leave a collection its work, whatever the source is.
    ensures all_turns { (asked : Collection) → command_for (vec_len receivers.old.held) (map string_bytes words.now) ≡ Some (Command.Collect asked)
        → ¬ Rose (K.seen sink.old).faults (K.seen sink.new).faults
        → ¬ Rose (L.seen link.old).faults (L.seen link.new).faults
        → (result ≡ Status.Done) ⊎ (result ≡ Status.Memory) }

    // And so it is with `relay`, whatever becomes of the receivers.
    ensures relay_turns { (asked : Collection) (routes : List Route)
        → command_for (vec_len receivers.old.held) (map string_bytes words.now) ≡ Some (Command.Relay asked routes)
        → ¬ Rose (K.seen sink.old).faults (K.seen sink.new).faults
        → ¬ Rose (L.seen link.old).faults (L.seen link.new).faults
        → (result ≡ Status.Done) ⊎ (result ≡ Status.Memory) }
{
    scripts_are_lawful();
    scripts_are_read();
    scripts_are_histories();
    scripts_are_accepted();
    four_tests_are_the_premises();
    made_runs_are_histories();
    made_runs_are_accepted();
    match read_words(alloc, words, receivers.len()) {
        Ok(command) => perform(alloc, command, seeds, source, sink, link, taps, receivers),
        Err(WordsRefusal::Usage) => Status::Usage,
        Err(WordsRefusal::Memory) => Status::Memory,
    }
}

// Does what the command says.
fn perform<S: Source, K: Sink, L: Link>(
    alloc: Global,
    command: Asked<'_>,
    seeds: Seeds,
    source: &mut S,
    sink: &mut K,
    link: &mut L,
    taps: &mut Taps,
    receivers: &mut Receivers,
) -> Status
    requires lawful { HasLawfulLimits command }
    requires length { HasLawfulLength command }
    requires enough { receivers_needed command ≤ vec_len receivers.old.held }
    requires few { taps.old.ended + vec_len taps.old.held < 2 ^ 64 }
    ensures runs { Performs command.entry (surroundings (S.seen source.old) (K.seen sink.old) (L.seen link.old)
        (shown_taps (λ x. (⟦<dyn Tap as Tap>⟧ x.vtable).text x.value) taps.old.held.items taps.old.ended))
        (surroundings (S.seen source.new) (K.seen sink.new) (L.seen link.new)
        (shown_taps (λ x. (⟦<dyn Tap as Tap>⟧ x.vtable).text x.value) taps.new.held.items taps.new.ended)) result }
    ensures fed { IsFed (λ x b y. (v : _) × (y ≡ record x { value = v }) × (⟦<dyn Tap as Tap>⟧ x.vtable).step x.value b v)
        (λ x. (⟦<dyn Tap as Tap>⟧ x.vtable).ended x.value) command.entry
        (surroundings (S.seen source.old) (K.seen sink.old) (L.seen link.old)
        (shown_taps (λ x. (⟦<dyn Tap as Tap>⟧ x.vtable).text x.value) taps.old.held.items taps.old.ended))
        (surroundings (S.seen source.new) (K.seen sink.new) (L.seen link.new)
        (shown_taps (λ x. (⟦<dyn Tap as Tap>⟧ x.vtable).text x.value) taps.new.held.items taps.new.ended)) result
        taps.old.held.items taps.new.held.items }
    ensures ended { taps.new.ended + vec_len taps.new.held ≡ taps.old.ended + vec_len taps.old.held }
    ensures relay_lines { (asked : Collection) (routes : List Route) → command.entry ≡ Command.Relay asked routes
        → RelaysOver asked routes receivers.new.progress (surroundings (S.seen source.old) (K.seen sink.old) (L.seen link.old)
        (shown_taps (λ x. (⟦<dyn Tap as Tap>⟧ x.vtable).text x.value) taps.old.held.items taps.old.ended))
        (surroundings (S.seen source.new) (K.seen sink.new) (L.seen link.new)
        (shown_taps (λ x. (⟦<dyn Tap as Tap>⟧ x.vtable).text x.value) taps.new.held.items taps.new.ended)) result }
    ensures relayed { (asked : Collection) (routes : List Route) → command.entry ≡ Command.Relay asked routes
        → Relayed (λ x. (⟦<dyn Receiver as Receiver>⟧ x.vtable).seen x.value) asked routes
        (L.seen link.old) (L.seen link.new) result receivers.old.held.items receivers.old.progress
        receivers.new.held.items receivers.new.progress }
    ensures unrelayed { relays command.entry ≡ false → receivers.new ≡ receivers.old }
    ensures turns { (asked : Collection) (routes : List Route) → command.entry ≡ Command.Relay asked routes
        → asked.turns < 2 ^ 32 }
{
    match command {
        Asked::Replay { limits, interfaces } => {
            replay(alloc, limits, interfaces, seeds, source, sink, taps)
        }
        Asked::Show => show(alloc, source, sink),
        Asked::Check { pad } => check(alloc, pad, source, sink),
        Asked::Canon { version } => canon(alloc, version, source, sink),
        Asked::Pcap { output } => pcap(alloc, output, source, sink),
        Asked::Collect { asked } => collect(alloc, &asked, seeds, sink, link, taps),
        Asked::Send { to } => send(alloc, to.text(), source, sink, link),
        Asked::Relay { asked, routes } => relay(
            alloc, &asked, &routes, seeds, sink, link, taps, receivers,
        ),
        Asked::Agent => agent(alloc, source, sink),
        Asked::Trial { limits, interfaces } => {
            trial(alloc, limits, interfaces, seeds, source, sink, taps)
        }
        Asked::TrialMade {
            limits,
            interfaces,
            seed,
            packets,
        } => made_trial(alloc, limits, interfaces, seeds, seed, packets, sink, taps),
    }
}
