//! The laws. Deliveries have the latest first.

ghost use Rattle.std.specs.Prelude.{◌≡◌, ◌≤◌, ◌<◌, ◌^◌, ℕ, List, length, map, reverse, Ok};
ghost use Rattle.wire_spec.specs.declared.pad.Pad.TheVariants.{Any};
ghost use Rattle.wire_spec.specs.Shapes.{Tree, Trees};
ghost use Rattle.wire_spec.specs.Captures.{Entry};
ghost use Rattle.wire_spec.specs.Whole.{whole_reading};
ghost use Rattle.datagram_core.specs.Tables.{datagram_read};
ghost use Rattle.books_spec.specs.Items.{Sample};
ghost use Rattle.agent_spec.specs.Spelled.{sent_tree};
ghost use Rattle.account_spec.specs.Histories.{SubAgent, agent_of, IsHistory};
ghost use Rattle.account_spec.specs.Deliveries.{Delivery, AreSent, Delivers, entry_of, item};
ghost use Rattle.delivered_items.specs.Accepted.{AreAccepted};
ghost use Rattle.delivered_items.specs.Readers.{IsReader, entry_item};
ghost use Rattle.books_spec.specs.declared.limits.Limits.{Limits};
ghost use Rattle.books_spec.specs.SampledHeaders.{SampledHeader, first_headers};
ghost use Rattle.account_spec.specs.Accounts.{account};
ghost use Rattle.account_spec.specs.Premises.{Premises};
ghost use Rattle.sample_taps.specs.BookBriefs.{book_briefs, book_classes};
ghost use Rattle.sample_taps.specs.Classes.{headers_counted};
ghost use Rattle.delivered_items.specs.AccountHeaders.{account_headers, account_briefs, account_classes, flow_samples_received};
ghost use Rattle.delivered_items.specs.PacketHeaders.{headered, IsHeaderReader, headered_entry};
ghost use Rattle.std.specs.List.{AllByRecursion};
ghost use Rattle.trial_spec.specs.Made.{made_history};
ghost use Rattle.script_spec.specs.Lines.{Line};
ghost use Rattle.script_spec.specs.Sent.{all_delivered};
ghost use Rattle.script_laws.specs.Lawful.{AreLawful};
ghost use Rattle.script_histories.specs.Histories.{history_of, deliveries_of};

use script_histories::laws::scripts_are_histories;

/// The bytes of each datagram that was delivered are at most 65,535, and are read as the value that was sent.
pub fn what_was_sent_is_read()
    ensures few { (history : List SubAgent) (deliveries : List Delivery) → IsHistory history → AreAccepted history
        → AreSent history deliveries
        → AllByRecursion (λ (d : Delivery). length (entry_of history d).bytes ≤ 65535) deliveries }
    ensures read { (history : List SubAgent) (deliveries : List Delivery) → IsHistory history → AreAccepted history
        → AreSent history deliveries
        → AllByRecursion (λ (d : Delivery). whole_reading Any datagram_read (entry_of history d).bytes
        ≡ Ok (sent_tree (agent_of history d.stream).sender d.datagram)) deliveries }
{}

/// Whoever reads samples by their places in the formats: the items of the entries that a history and deliveries give are
/// those of the datagrams that were delivered.
pub fn entries_are_the_deliveries()
    ensures { (read : Tree → Sample) (reads : Trees → List Sample) (history : List SubAgent) (deliveries : List Delivery)
        (entries : List Entry) → IsReader read reads → IsHistory history → AreAccepted history
        → Delivers history deliveries entries → map (entry_item reads) entries ≡ map item deliveries }
{}

/// Whoever reads the headers of samples too, by their places in the formats: each entry has the headers of the packets that
/// its datagram's flow samples were taken of, and of counters samples none.
pub fn headers_are_those_of_the_packets()
    ensures { (read : Tree → Sample) (reads : Trees → List Sample) (records : Trees → List SampledHeader)
        (headers : Tree → List SampledHeader) (all_headers : Trees → List (List SampledHeader))
        (history : List SubAgent) (deliveries : List Delivery) (entries : List Entry)
        → IsReader read reads → IsHeaderReader records headers all_headers → IsHistory history → AreAccepted history
        → Delivers history deliveries entries
        → map (headered_entry reads all_headers) entries ≡ map headered deliveries }
{}

/// Where the premises hold, the headers that count in a collector's books are those of the account, in order: of each flow
/// sample that is delivered in time, once. So are the briefs that consumers are fed, and the totals of classes.
pub fn headers_that_count_are_the_account()
    ensures headers { (l : Limits) (history : List SubAgent) (deliveries : List Delivery) → Premises l history deliveries
        → first_headers l (map headered deliveries) ≡ account_headers l deliveries }
    ensures briefs { (l : Limits) (history : List SubAgent) (deliveries : List Delivery) → Premises l history deliveries
        → book_briefs l (map headered deliveries) ≡ account_briefs l deliveries }
    ensures classes { (l : Limits) (history : List SubAgent) (deliveries : List Delivery) → Premises l history deliveries
        → book_classes l (map headered deliveries) ≡ account_classes l deliveries }
{}

/// Under the premises the headers that count are as many as the flow samples that are received, over all sources: each sample
/// that came in time counts once. So the totals of the kinds of headers add up to what the lines of flow sources say.
pub fn headers_are_as_many_as_received()
    ensures headers { (l : Limits) (history : List SubAgent) (deliveries : List Delivery) → Premises l history deliveries
        → length (account_headers l deliveries) ≡ flow_samples_received (account l history deliveries) }
    ensures classes { (l : Limits) (history : List SubAgent) (deliveries : List Delivery) → Premises l history deliveries
        → length (account_headers l deliveries) < 2 ^ 64
        → headers_counted (account_classes l deliveries) ≡ flow_samples_received (account l history deliveries) }
{}

/// An agent's calls take what happens in a made run of at most 10,000,000 packets.
pub fn made_runs_are_accepted()
    ensures { (seed packets : ℕ) → packets ≤ 10000000 → AreAccepted (made_history seed packets) }
{}

/// An agent's calls take what happens in lawful lines of a script.
pub fn scripts_are_accepted()
    ensures { (lines : List Line) → AreLawful lines → AreAccepted (history_of lines) }
{}

/// Of lawful lines of a script, what is read of the entries that arrive are the datagrams that were delivered: their items,
/// by whoever reads samples by their places in the formats, and with them their headers, by whoever reads these too.
pub fn scripts_are_read_as_delivered()
    ensures items { (read : Tree → Sample) (reads : Trees → List Sample) (lines : List Line) → IsReader read reads
        → AreLawful lines → map (entry_item reads) (reverse (all_delivered lines)) ≡ map item (deliveries_of lines) }
    ensures headers { (read : Tree → Sample) (reads : Trees → List Sample) (records : Trees → List SampledHeader)
        (headers : Tree → List SampledHeader) (all_headers : Trees → List (List SampledHeader)) (lines : List Line)
        → IsReader read reads → IsHeaderReader records headers all_headers → AreLawful lines
        → map (headered_entry reads all_headers) (reverse (all_delivered lines)) ≡ map headered (deliveries_of lines) }
{
    scripts_are_histories();
    scripts_are_accepted();
    entries_are_the_deliveries();
    headers_are_those_of_the_packets();
}
