// Tests over the rows of tables.
ghost use Rattle.std.specs.Prelude.{◌≡◌, map};
ghost use Rattle.script_tables.specs.Tables.{boot_said, boots_sent, has_row, is_free_in, knows, rows_of, sub_sent};

use crate::rows::{BootRow, SourceRow, SubRow};
use data_format::SourceId;

/// Whether there is a sub-agent of this ID.
pub(crate) fn knows(subs: &[SubRow], id: u32) -> bool
    ensures { result ≡ knows id subs.now }
{
    for sub in subs {
        if sub.id == id {
            return true;
        }
    }
    false
}

/// Whether there is this source of this kind.
pub(crate) fn has_row(rows: &[SourceRow], flow: bool, source: SourceId) -> bool
    ensures { result ≡ has_row flow source rows.now }
{
    for row in rows {
        if row.flow == flow
            && row.source.class == source.class
            && row.source.index == source.index
        {
            return true;
        }
    }
    false
}

/// Whether no source stands in the way of one of this sub-agent: none of its kind has its place, nor one of another
/// sub-agent.
pub(crate) fn is_free(rows: &[SourceRow], owner: u32, flow: bool, source: SourceId) -> bool
    ensures { result ≡ is_free_in owner flow source rows.now }
{
    for row in rows {
        if row.source.class == source.class
            && row.source.index == source.index
            && (row.flow == flow || row.owner != owner)
        {
            return false;
        }
    }
    true
}

/// How many sources of this kind the sub-agent has.
pub(crate) fn rows_of(rows: &[SourceRow], owner: u32, flow: bool) -> usize
    ensures { result ≡ rows_of owner flow rows.now }
{
    let mut count = 0;
    for row in rows {
        if row.owner == owner && row.flow == flow {
            count += 1;
        }
    }
    count
}

/// Whether the boot of this number has sent the datagram of this number, each counted from 1.
fn boots_sent(boots: &[BootRow], boot: u64, number: u64) -> bool
    ensures { result ≡ boots_sent (map boot_said boots.now) boot number }
{
    if boot == 0 || boot > boots.len() as u64 {
        return false;
    }
    let sent = boots[(boot - 1) as usize].sent;
    number >= 1 && number <= sent
}

/// The same of a sub-agent.
pub(crate) fn sub_sent(subs: &[SubRow], id: u32, boot: u64, number: u64) -> bool
    ensures { result ≡ sub_sent id boot number subs.now }
{
    for sub in subs {
        if sub.id == id {
            return boots_sent(&sub.boots, boot, number);
        }
    }
    false
}
