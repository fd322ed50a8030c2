ghost use Rattle.std.specs.Prelude.{◌≡◌, []};

use agent_poller::{IfCounters, ListMeter};
use agent_sampler::Skips;
use std::alloc::Global;
use std::test::Fail;
use sub_agents::{
    Address, CounterSetup, Device, FlowSetup, Form, ListOutlet, ObserveRefusal, OpenRefusal,
    OutletFault, Packet, PollRefusal, Port, Seen, Setup, SourceId, SubAgent,
};

// Sub-agent 1 of 10.0.0.1, without sources.
fn setup(alloc: Global, max_datagram: u32, stage: u32) -> Setup {
    Setup {
        agent: Address::V4([10, 0, 0, 1]),
        sub_agent: 1,
        max_datagram,
        stage,
        first: 1,
        flows: Vec::new(alloc),
        counters: Vec::new(alloc),
    }
}

fn source(index: u32) -> SourceId {
    SourceId { class: 0, index }
}

// A source each of whose packets is sampled.
fn flow(skips: Skips) -> FlowSetup {
    FlowSetup {
        source: source(5),
        rate: 1,
        skips,
        first: 1,
        pool: 0,
        drops: 0,
    }
}

fn counter(index: u32) -> CounterSetup {
    CounterSetup {
        source: source(index),
        every: 1000,
        first: 1,
    }
}

fn packet<'a>(input: u32, header: &'a [u8]) -> Packet<'a> {
    let form = 0;
    Packet {
        input: Port { form, value: input },
        output: Port { form, value: 6 },
        frame_length: 64,
        vlan: None,
        header,
    }
}

// What an interface has counted, which is nothing.
fn reading() -> IfCounters<'static>
    ensures { result.tail.now ≡ [] }
{
    IfCounters {
        index: 5,
        if_type: 6,
        speed: 1_000_000_000,
        direction: 1,
        status: 3,
        in_octets: 0,
        in_ucast: 0,
        in_multicast: 0,
        in_broadcast: 0,
        in_discards: 0,
        in_errors: 0,
        in_unknown: 0,
        out_octets: 0,
        out_ucast: 0,
        out_multicast: 0,
        out_broadcast: 0,
        out_discards: 0,
        out_errors: 0,
        promiscuous: 2,
        tail: &[],
    }
}

fn send(sub_agent: &mut SubAgent, outlet: &mut ListOutlet) -> Result<u64, OutletFault> {
    if sub_agent.numbered() > 9 {
        return Ok(0);
    }
    sub_agent.send(1000, outlet)
}

// A sample of 64 bytes of a packet makes a datagram of 156, one of none makes one of 92.
#[test]
fn packets_that_are_refused(rt: HostRuntime) -> Result<(), Fail> {
    let mut setup = setup(rt.alloc(), 100, 1);
    setup
        .flows
        .push(flow(Skips::new(&[1]).expect(&rt, "skips")))?;
    let mut agent = SubAgent::open(rt.alloc(), setup, Form::Compact).expect(&rt, "opened");
    assert!(rt; agent.observe(source(5), &packet(5, &[0; 64])) == Err(ObserveRefusal::TooLarge));
    assert!(rt; agent.observe(source(4), &packet(5, &[])) == Err(ObserveRefusal::NoSource));
    assert!(rt; agent.observe(source(5), &packet(1 << 30, &[])) == Err(ObserveRefusal::BadPort));
    assert!(rt; agent.observe(source(5), &packet(5, &[])) == Ok(Seen::Issued { sequence: 1 }));
    Ok(())
}

// A counters sample of its own makes a datagram of 144 bytes.
#[test]
fn polls_that_are_refused(rt: HostRuntime) -> Result<(), Fail> {
    for (most, answer) in [(143, Err(PollRefusal::TooLarge)), (144, Ok(1))] {
        let mut meter = ListMeter::new(vec![in rt.alloc(); reading()]?, Vec::new(rt.alloc()));
        let mut setup = setup(rt.alloc(), most, 1);
        setup.counters.push(counter(5))?;
        let mut agent = SubAgent::open(rt.alloc(), setup, Form::Compact).expect(&rt, "opened");
        assert!(rt; agent.poll(1000, &mut meter) == answer);
    }
    Ok(())
}

// The second read of three fails.
#[test]
fn a_meter_fails(rt: HostRuntime) -> Result<(), Fail> {
    let readings = vec![in rt.alloc(); reading(), reading(), reading()]?;
    let mut meter = ListMeter::new(readings, vec![in rt.alloc(); 2]?);
    let mut setup = setup(rt.alloc(), 1400, 3);
    setup.counters = vec![in rt.alloc(); counter(1), counter(2), counter(3)]?;
    let mut agent = SubAgent::open(rt.alloc(), setup, Form::Compact).expect(&rt, "opened");
    assert!(rt;
        agent.poll(1000, &mut meter) == Err(PollRefusal::MeterFault) && agent.staged() == 1
    );
    assert!(rt; agent.poll(1000, &mut meter) == Ok(2) && agent.staged() == 3);
    Ok(())
}

// The second of two datagrams is refused: its number is spent.
#[test]
fn an_outlet_fails(rt: HostRuntime) -> Result<(), Fail> {
    let mut outlet = ListOutlet::new(rt.alloc(), vec![in rt.alloc(); 2]?);
    let mut setup = setup(rt.alloc(), 156, 3);
    setup
        .flows
        .push(flow(Skips::new(&[1]).expect(&rt, "skips")))?;
    let mut agent = SubAgent::open(rt.alloc(), setup, Form::Compact).expect(&rt, "opened");
    for _ in 0..3 {
        assert!(rt; agent.observe(source(5), &packet(5, &[])).is_ok());
    }
    assert!(rt; send(&mut agent, &mut outlet) == Err(OutletFault) && agent.staged() == 0);
    assert!(rt; agent.observe(source(5), &packet(5, &[])).is_ok());
    assert!(rt; send(&mut agent, &mut outlet) == Ok(1));
    let [first, third] = outlet.puts() else {
        return Err(Fail::new("not two datagrams"));
    };
    assert!(rt; first.number == 1 && first.bytes.len() == 156);
    assert!(rt;
        third.number == 3 && third.bytes.len() == 92 && third.bytes[16..20] == [0, 0, 0, 3]
    );
    Ok(())
}

fn refusal(opened: Result<Device, OpenRefusal>) -> u32 {
    match opened {
        Ok(_) => 0,
        Err(OpenRefusal::BadSetup { number }) => number,
        Err(OpenRefusal::Memory) => u32::MAX,
    }
}

#[test]
fn devices_that_are_refused(rt: HostRuntime) -> Result<(), Fail> {
    let alloc = rt.alloc();
    assert!(rt; refusal(Device::open(alloc, Vec::new(alloc))) == 8);
    let twins = vec![in alloc; setup(alloc, 1400, 1), setup(alloc, 1400, 1)]?;
    assert!(rt; refusal(Device::open(alloc, twins)) == 9);
    let mut one = setup(alloc, 1400, 1);
    one.flows.push(flow(Skips::new(&[1]).expect(&rt, "skips")))?;
    let mut other = setup(alloc, 1400, 1);
    other.sub_agent = 2;
    other.counters.push(counter(5))?;
    assert!(rt; refusal(Device::open(alloc, vec![in alloc; one, other]?)) == 10);
    assert!(rt; refusal(Device::open(alloc, vec![in alloc; setup(alloc, 1400, 0)]?)) == 2);
    Ok(())
}
