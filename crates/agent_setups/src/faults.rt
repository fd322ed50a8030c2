// What is wrong with a set-up.
ghost use Rattle.std.specs.Prelude.{◌≡◌};
ghost use Rattle.agent_setups.specs.Faults.{sampled_ids, polled_ids, has_zero_rate, has_zero_time, setup_fault};

use crate::ids::{has_great_class, has_great_index, has_twice};
use crate::setup::{CounterSetup, FlowSetup, Setup};
use data_format::{Form, SourceId};

/// How many sources of a kind a sub-agent has at most.
const MAX_SOURCES: usize = 1024;

/// How many samples wait at most.
const MAX_STAGE: u32 = 1024;

// Whether some rate is 0.
fn has_zero_rate(flows: &[FlowSetup]) -> bool
    ensures { result ≡ has_zero_rate flows.now }
{
    for flow in flows {
        if flow.rate == 0 {
            return true;
        }
    }
    false
}

// Whether some source would be polled every 0 ms.
fn has_zero_time(counters: &[CounterSetup]) -> bool
    ensures { result ≡ has_zero_time counters.now }
{
    for counter in counters {
        if counter.every == 0 {
            return true;
        }
    }
    false
}

/// The number of the first rule that a set-up breaks, whose sources of both kinds are these.
pub fn fault(setup: &Setup, form: Form, flows: &[SourceId], counters: &[SourceId]) -> Option<u32>
    requires flows { flows.now ≡ sampled_ids setup.now.flows.items }
    requires counters { counters.now ≡ polled_ids setup.now.counters.items }
    ensures { result ≡ setup_fault form setup.now }
{
    if setup.max_datagram < 64 || setup.max_datagram > 65_535 {
        return Some(1);
    }
    if setup.stage == 0 || setup.stage > MAX_STAGE {
        return Some(2);
    }
    if flows.len() > MAX_SOURCES || counters.len() > MAX_SOURCES {
        return Some(3);
    }
    if has_twice(flows) || has_twice(counters) {
        return Some(4);
    }
    if has_zero_rate(&setup.flows) || has_zero_time(&setup.counters) {
        return Some(5);
    }
    if has_great_class(flows) || has_great_class(counters) {
        return Some(6);
    }
    if form == Form::Compact && (has_great_index(flows) || has_great_index(counters)) {
        return Some(7);
    }
    None
}
