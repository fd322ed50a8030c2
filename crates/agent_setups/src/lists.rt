// Set-ups of the sub-agents of one device.
ghost use Rattle.std.specs.Prelude.{◌≡◌, Bool, true, false, ◌||◌};
ghost use Rattle.std.specs.List.{list_any};
ghost use Rattle.agent_setups.specs.Faults.{sampled_ids, polled_ids};
ghost use Rattle.agent_setups.specs.Ids.{is_among, has_great_index};
ghost use Rattle.agent_setups.specs.Lists.{needs_words, form_for, same_address, has_same_name, has_source, shares_source, some_two, list_fault};
ghost use Rattle.agent_setups.specs.declared.setup.FlowSetup.{FlowSetup};
ghost use Rattle.agent_setups.specs.declared.setup.CounterSetup.{CounterSetup};

use crate::setup::{CounterSetup, FlowSetup, Setup};
use data_format::{Address, Form, SourceId};

/// How many sub-agents a device has at most.
const MAX_SUBS: usize = 64;

/// The least index that a compact source can't say.
const GREAT_INDEX: u32 = 16_777_216;

// Whether some index is 2^24 or more.
fn flows_need_words(flows: &[FlowSetup]) -> bool
    ensures { result ≡ has_great_index (sampled_ids flows.now) }
{
    for flow in flows {
        if flow.source.index >= GREAT_INDEX {
            return true;
        }
    }
    false
}

fn counters_need_words(counters: &[CounterSetup]) -> bool
    ensures { result ≡ has_great_index (polled_ids counters.now) }
{
    for counter in counters {
        if counter.source.index >= GREAT_INDEX {
            return true;
        }
    }
    false
}

fn needs_words(setup: &Setup) -> bool
    ensures { result ≡ needs_words setup.now }
{
    flows_need_words(&setup.flows) || counters_need_words(&setup.counters)
}

/// The form of the samples of a device.
pub fn form_for(setups: &[Setup]) -> Form
    ensures { result ≡ form_for setups.now }
{
    for setup in setups {
        if needs_words(setup) {
            return Form::Expanded;
        }
    }
    Form::Compact
}

// Whether both are one address.
fn same_address(one: &Address, other: &Address) -> bool
    ensures { result ≡ same_address one.now other.now }
{
    match (one, other) {
        (Address::Unknown, Address::Unknown) => true,
        (Address::V4(xs), Address::V4(ys)) => xs[..] == ys[..],
        (Address::V6(xs), Address::V6(ys)) => xs[..] == ys[..],
        _ => false,
    }
}

fn has_same_name(one: &Setup, other: &Setup) -> bool
    ensures { result ≡ has_same_name one.now other.now }
{
    same_address(&one.agent, &other.agent) && one.sub_agent == other.sub_agent
}

// Whether the source is among those that are sampled.
fn is_sampled(source: SourceId, flows: &[FlowSetup]) -> bool
    ensures { result ≡ is_among source (sampled_ids flows.now) }
{
    for flow in flows {
        if flow.source == source {
            return true;
        }
    }
    false
}

// Whether the source is among those that are polled.
fn is_polled(source: SourceId, counters: &[CounterSetup]) -> bool
    ensures { result ≡ is_among source (polled_ids counters.now) }
{
    for counter in counters {
        if counter.source == source {
            return true;
        }
    }
    false
}

fn has_source(source: SourceId, setup: &Setup) -> bool
    ensures { result ≡ has_source source setup.now }
{
    is_sampled(source, &setup.flows) || is_polled(source, &setup.counters)
}

// Whether the set-up has one of these sources.
fn shares_flow(flows: &[FlowSetup], setup: &Setup) -> bool
    ensures { result ≡ list_any (λ (f : FlowSetup). has_source f.source setup.now) flows.now }
{
    for flow in flows {
        if has_source(flow.source, setup) {
            return true;
        }
    }
    false
}

fn shares_counter(counters: &[CounterSetup], setup: &Setup) -> bool
    ensures { result ≡ list_any (λ (c : CounterSetup). has_source c.source setup.now) counters.now }
{
    for counter in counters {
        if has_source(counter.source, setup) {
            return true;
        }
    }
    false
}

fn shares_source(one: &Setup, other: &Setup) -> bool
    ensures { result ≡ shares_source one.now other.now }
{
    shares_flow(&one.flows, other) || shares_counter(&one.counters, other)
}

// Whether one of these has the name of the set-up.
fn names_again(setup: &Setup, others: &[Setup]) -> bool
    ensures { result ≡ list_any (has_same_name setup.now) others.now }
{
    for other in others {
        if has_same_name(setup, other) {
            return true;
        }
    }
    false
}

// Whether one of these has a source of the set-up.
fn shares_again(setup: &Setup, others: &[Setup]) -> bool
    ensures { result ≡ list_any (shares_source setup.now) others.now }
{
    for other in others {
        if shares_source(setup, other) {
            return true;
        }
    }
    false
}

// Whether two of them have one name.
fn has_name_twice(setups: &[Setup]) -> bool
    ensures { result ≡ some_two has_same_name setups.now }
{
    for (place, setup) in setups.iter().enumerate() {
        if names_again(setup, &setups[place + 1..]) {
            return true;
        }
    }
    false
}

// Whether two of them share a source.
fn has_source_twice(setups: &[Setup]) -> bool
    ensures { result ≡ some_two shares_source setups.now }
{
    for (place, setup) in setups.iter().enumerate() {
        if shares_again(setup, &setups[place + 1..]) {
            return true;
        }
    }
    false
}

/// The number of the first rule that set-ups break together.
pub fn list_fault(setups: &[Setup]) -> Option<u32>
    ensures { result ≡ list_fault setups.now }
{
    if setups.is_empty() || setups.len() > MAX_SUBS {
        return Some(8);
    }
    if has_name_twice(setups) {
        return Some(9);
    }
    if has_source_twice(setups) {
        return Some(10);
    }
    None
}
