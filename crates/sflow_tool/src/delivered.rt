// That what the clause on agents asks of an input can be met.
ghost use Rattle.std.specs.Prelude.{◌≡◌, ◌++◌, ◌<◌, ◌≤◌, ◌^◌, false, List, length, map, reverse, codes};
ghost use Rattle.std.specs.List.{AllByRecursion};
ghost use Rattle.wire_spec.specs.Bytes.{AreBytes};
ghost use Rattle.capture_spec.specs.declared.capture_version.CaptureVersion.TheVariants.{One};
ghost use Rattle.capture_spec.specs.Items.{sent_by};
ghost use Rattle.capture_spec.specs.VersionedCaptures.{whole_bytes};
ghost use Rattle.std.specs.declared.option.Option.TheVariants.{None};
ghost use Rattle.books_spec.specs.declared.limits.Limits.{Limits};
ghost use Rattle.account_spec.specs.Histories.{SubAgent};
ghost use Rattle.account_spec.specs.Deliveries.{Delivery, entry_of};
ghost use Rattle.account_spec.specs.Accounts.{account};
ghost use Rattle.account_spec.specs.Premises.{Premises};
ghost use Rattle.account_spec.specs.Rows.{usual};
ghost use Rattle.delivered_items.specs.Accepted.{AreAccepted};
ghost use Rattle.delivered_items.specs.WholeRows.{whole_history, whole_deliveries};
ghost use Rattle.delivered_items.specs.AccountHeaders.{account_classes};
ghost use Rattle.report_lines.specs.HeaderLines.{no_taps};
ghost use Rattle.report_lines.specs.InterfaceLines.{report_with};
ghost use Rattle.sflow_tool.specs.Headlines.{IsDelivered};

use delivered_items::header_rows::whole_classes_row;
use delivered_items::laws::what_was_sent_is_read;
use delivered_items::whole::{
    whole_account_row, whole_deliveries_row, whole_history_row, whole_premises_row,
};

/// Whatever an agent's calls took, and whatever of it is delivered so that the premises hold: the capture of version 1 that
/// has the datagrams in order of arrival is an input of which the clause on agents speaks.
pub fn deliveries_have_a_capture()
    ensures { (l : Limits) (history : List SubAgent) (deliveries : List Delivery) → AreAccepted history
        → Premises l history deliveries
        → AllByRecursion (λ (d : Delivery). d.arrival < 2 ^ 64) deliveries → length deliveries ≤ 2 ^ 48
        → IsDelivered l history deliveries
        (whole_bytes One (map (sent_by None) (reverse (map (entry_of history) deliveries)))) }
{
    what_was_sent_is_read();
}

/// There is such an input in which datagrams are lost, come twice, out of order and too late, a source is reset and its
/// sub-agent restarts, while the numbers of datagrams and samples, the pool, the drops and the uptime pass 2^32.
pub fn what_is_asked_is_met()
    ensures bytes { AreBytes
        (whole_bytes One (map (sent_by None) (reverse (map (entry_of whole_history) whole_deliveries)))) }
    ensures met { IsDelivered usual whole_history whole_deliveries
        (whole_bytes One (map (sent_by None) (reverse (map (entry_of whole_history) whole_deliveries)))) }
{
    deliveries_have_a_capture();
    whole_history_row();
    whole_deliveries_row();
    whole_premises_row();
}

/// The report of it is that of the account; each of its seven flow samples that count has a header of no byte.
pub fn what_is_reported()
    ensures { report_with false (account usual whole_history whole_deliveries) (account_classes usual whole_deliveries) no_taps
        ≡ codes "stream 1 agent 10.0.0.1 sub 0 boots 2 issued 7 received 6 pending 0 lost 1 repeated 1 late 0 stale 1\n"
        ++ codes "source 1 flow 0:5 generations 3 issued 8 received 7 pending 0 lost 1 repeated 0 late 0 stale 0 pool 6 drops 1 rate 1\n"
        ++ codes "source 1 counters 0:5 generations 1 issued 2 received 2 pending 0 lost 0 repeated 0 late 0 stale 0\n"
        ++ codes "headers unscanned 0 short 7 length 0 undefined 0 arp 0 ipv4 0 ipv6 0 other 0 badip 0 tagged 0 tcp 0 udp 0\n"
        ++ codes "total entries 8 malformed 0 unlisted 0 unlisted_samples 0 other 0 taps_ended 0\n" }
{
    whole_account_row();
    whole_classes_row();
}
