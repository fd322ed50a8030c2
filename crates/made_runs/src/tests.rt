use crate::{Arrival, MadeRun, MadeScript, is_last_of_boot, is_sent, setup};
use data_format::Address;
use script_lines::ScriptLine;
use std::alloc::{AllocError, Global};

/// How many packets the run has.
const TOTAL: u32 = 256;

fn arrival(boot: u64, number: u64, at: u64) -> Option<Arrival> {
    Some(Arrival { boot, number, at })
}

// What arrives in the run of a seed, where each send is of one datagram.
fn arrivals(alloc: Global, seed: u64) -> Result<Vec<Option<Arrival>>, AllocError> {
    let mut run = MadeRun::begin(seed);
    let mut all = Vec::new(alloc);
    let mut number = 0u64;
    for before in 0..TOTAL {
        let packet = before + 1;
        run.packet();
        if is_sent(TOTAL, packet) {
            number = number.wrapping_add(1);
            let decided = run.decide(number);
            all.push(decided.first)?;
            all.push(decided.second)?;
            all.push(decided.held)?;
        }
        if is_last_of_boot(TOTAL, packet) {
            number = 0;
            all.push(run.restart())?;
        }
    }
    all.push(run.end())?;
    all.retain(|it| it.is_some());
    Ok(all)
}

// The arrivals are those of `made(20999, 256)` in compare/history.py: the fourth datagram of the first boot is held and
// arrives as the boot ends; the first of the second is held and arrives behind the second, which never does; the third
// comes twice, and the fourth is held and arrives as the run ends.
#[test]
fn each_way_to_arrive(rt: HostRuntime) -> Result<(), AllocError> {
    let alloc = rt.alloc();
    let all = arrivals(alloc, 20_999)?;
    let wanted = [
        arrival(1, 1, 1_000_329),
        arrival(1, 2, 1_000_666),
        arrival(1, 3, 1_000_981),
        arrival(1, 4, 1_001_324),
        arrival(2, 1, 1_061_948),
        arrival(2, 3, 1_062_253),
        arrival(2, 3, 1_062_281),
        arrival(2, 4, 1_062_596),
    ];
    assert!(rt; all.as_slice() == wanted.as_slice());
    Ok(())
}

// What the lines of a script say, each kind counted, where each send is of one datagram.
#[derive(Drop)]
struct LinesSaid {
    packets: u32,
    polls: u32,
    sends: u32,
    restarts: u32,
    arrivals: Vec<Option<Arrival>>,
}

fn lines_of_run(alloc: Global, seed: u64) -> Result<LinesSaid, AllocError> {
    let mut script = MadeScript::begin(seed, TOTAL);
    let mut sent = 0u64;
    let mut said = LinesSaid {
        packets: 0,
        polls: 0,
        sends: 0,
        restarts: 0,
        arrivals: Vec::new(alloc),
    };
    for _ in 0..400 {
        let Some(line) = script.next(alloc, sent)? else {
            return Ok(said);
        };
        match line {
            ScriptLine::Packet { .. } => said.packets = said.packets.wrapping_add(1),
            ScriptLine::Poll { .. } => said.polls = said.polls.wrapping_add(1),
            ScriptLine::Send { .. } => {
                sent = sent.wrapping_add(1);
                said.sends = said.sends.wrapping_add(1);
            }
            ScriptLine::Restart { .. } => {
                sent = 0;
                said.restarts = said.restarts.wrapping_add(1);
            }
            ScriptLine::Deliver {
                boot,
                number,
                at,
                ..
            } => said.arrivals.push(arrival(boot, number, at))?,
            _ => {}
        }
    }
    Ok(said)
}

// The script says what happens, and then it ends: its `deliver` lines are the arrivals above.
#[test]
fn the_script_says_what_arrives(rt: HostRuntime) -> Result<(), AllocError> {
    let alloc = rt.alloc();
    let said = lines_of_run(alloc, 20_999)?;
    let wanted = [
        arrival(1, 1, 1_000_329),
        arrival(1, 2, 1_000_666),
        arrival(1, 3, 1_000_981),
        arrival(1, 4, 1_001_324),
        arrival(2, 1, 1_061_948),
        arrival(2, 3, 1_062_253),
        arrival(2, 3, 1_062_281),
        arrival(2, 4, 1_062_596),
    ];
    assert!(rt; said.packets == 256 && said.polls == 8 && said.sends == 8 && said.restarts == 1);
    assert!(rt; said.arrivals.as_slice() == wanted.as_slice());
    Ok(())
}

// The first packet of the seed 7, by a calculation of its draws apart.
#[test]
fn the_first_packet(rt: HostRuntime) {
    let mut run = MadeRun::begin(7);
    let packet = run.packet();
    let drawn = [
        137, 212, 179, 120, 162, 169, 38, 70, 3, 136, 205, 70, 245, 82, 182, 168, 239, 96, 80, 17,
        63, 34, 211, 175, 3, 189, 161, 93, 66, 88, 6, 99,
    ];
    assert!(rt; packet.frame_length == 144 && packet.input.value == 1 && packet.output.value == 2);
    assert!(rt;
        packet.header[5] == 255
            && packet.header[14] == 69
            && &packet.header[16..] == drawn.as_slice()
    );
    assert!(rt;
        run.uptime() == 10 && run.packets() == 1 && run.base() == 1_000_000 && run.boot() == 1
    );
}

#[test]
fn one_sub_agent(rt: HostRuntime) -> Result<(), AllocError> {
    let made = setup(rt.alloc(), 7)?;
    assert!(rt;
        made.agent == Address::V4([10, 0, 0, 1]) && made.sub_agent == 1 && made.stage == 16
    );
    assert!(rt; made.max_datagram == 1400 && made.first == 4_294_967_290);
    assert!(rt; made.flows.len() == 1 && made.counters.len() == 1);
    Ok(())
}
