//! The laws. Lines and deliveries have the latest first; entries stand in the order in which they arrive.

ghost use Rattle.std.specs.Prelude.{◌≡◌, ℕ, false, List, [], ◌∷◌, map, reverse, slice_get, Some, None};
ghost use Rattle.agent_spec.specs.Samples.{Datagram};
ghost use Rattle.agent_spec.specs.Spelled.{sent_bytes};
ghost use Rattle.account_spec.specs.Histories.{stream_in, IsHistory};
ghost use Rattle.account_spec.specs.Deliveries.{AreSent, Delivers};
ghost use Rattle.script_spec.specs.Lines.{Line, DeliverLine, SubAgent, Delivery};
ghost use Rattle.script_spec.specs.Agents.{subs_in, sub_of, sender_of, delivered};
ghost use Rattle.script_spec.specs.Rules.{sets_up};
ghost use Rattle.script_spec.specs.Sent.{delivery_in, delivered_entry, all_delivered};
ghost use Rattle.script_laws.specs.Lawful.{AreLawful};
ghost use Rattle.script_histories.specs.Histories.{agent_in, history_of, without_boots, sources_in_order, arrival_of, delivery_at, deliveries_of, IsOneMore};

/// What lawful lines say is a history. What they deliver was sent, and stays the same behind further lines, so that history
/// and deliveries give the entries that arrive.
pub fn scripts_are_histories()
    ensures history { (lines : List Line) → AreLawful lines → IsHistory (history_of lines) }
    ensures sent { (lines : List Line) → AreLawful lines → AreSent (history_of lines) (deliveries_of lines) }
    ensures entries { (lines : List Line) → AreLawful lines
        → Delivers (history_of lines) (deliveries_of lines) (reverse (all_delivered lines)) }
{}

/// A line that delivers adds its delivery and its entry to those before it, and any other line adds none.
pub fn deliveries_are_added()
    ensures one_more { (lines : List Line) (d : Delivery) → AreLawful (DeliverLine d ∷ lines) → IsOneMore lines d }
    ensures other_entries { (lines : List Line) (line : Line) → AreLawful (line ∷ lines) → delivery_in line ≡ None
        → all_delivered (line ∷ lines) ≡ all_delivered lines }
    ensures other_deliveries { (lines : List Line) (line : Line) → delivery_in line ≡ None
        → deliveries_of (line ∷ lines) ≡ deliveries_of lines }
{}

/// A line that sets nothing up leaves the sub-agents as they are, but for what happened to them: their streams and their
/// sources.
pub fn set_ups_stay()
    ensures sub_agents { (lines : List Line) (line : Line) → sets_up line ≡ false
        → map without_boots (history_of (line ∷ lines)) ≡ map without_boots (history_of lines) }
    ensures streams { (lines : List Line) (line : Line) → sets_up line ≡ false
        → map stream_in (history_of (line ∷ lines)) ≡ map stream_in (history_of lines) }
    ensures sources { (lines : List Line) (line : Line) → sets_up line ≡ false
        → map sources_in_order (history_of (line ∷ lines)) ≡ map sources_in_order (history_of lines) }
{}

/// The sub-agent at a place of the lines stands there in the history, and is the one of its ID: a delivery that names it and
/// a datagram that is there is of both.
pub fn sub_agents_have_places()
    ensures agent { (lines : List Line) (place : ℕ) (s : SubAgent) → slice_get (reverse (subs_in lines)) place ≡ Some s
        → slice_get (history_of lines) place ≡ Some (agent_in lines s) }
    ensures id { (lines : List Line) (place : ℕ) (s : SubAgent) → AreLawful lines
        → slice_get (reverse (subs_in lines)) place ≡ Some s → sub_of s.id lines ≡ Some s }
    ensures delivery { (lines : List Line) (place : ℕ) (s : SubAgent) (d : Delivery) (x : Datagram) → AreLawful lines
        → slice_get (reverse (subs_in lines)) place ≡ Some s → d.id ≡ s.id → delivered lines d ≡ Some x
        → delivery_at lines d ≡ Some (arrival_of d s x) }
    ensures entry { (lines : List Line) (place : ℕ) (s : SubAgent) (d : Delivery) (x : Datagram) → AreLawful lines
        → slice_get (reverse (subs_in lines)) place ≡ Some s → d.id ≡ s.id → delivered lines d ≡ Some x
        → delivered_entry lines d ≡ Some (record { arrival = d.at; bytes = sent_bytes (sender_of lines s) x }) }
{}

/// Without sub-agents there is no history, and nothing arrives.
pub fn nobody_sends()
    ensures history { (lines : List Line) → subs_in lines ≡ [] → history_of lines ≡ [] }
    ensures deliveries { (lines : List Line) → subs_in lines ≡ [] → deliveries_of lines ≡ [] }
    ensures entries { (lines : List Line) → subs_in lines ≡ [] → all_delivered lines ≡ [] }
{}
