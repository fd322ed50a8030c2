//! The program `sflow`: the commands over standard input, standard output and a UDP socket.
#![tactic(auto)]

ghost use Rattle.std.specs.Prelude.{◌≡◌};
ghost use Rattle.std.specs.Process.{exit_status};
ghost use Rattle.command_runs.specs.Statuses.{code_of};

use sflow_tool::{
    CountTap, InputSource, LengthTap, OutputSink, Receiver, Receivers, Seeds, Status, SystemClock,
    Tap, Taps, TopPortTap, UdpLink, UdpReceiver, run,
};
use std::alloc::{AllocError, Global};
use std::env::Env;
use std::hash::RandomState;
use std::process::ExitCode;
use std::random::RandomSource;
use std::{env, io};

#[cfg(test)]
mod tests;

// The exit codes where the machine gives no list of words, and where it gives no random bytes.
const NO_WORDS: u8 = 9;

const NO_RANDOM_BYTES: u8 = 10;

// So many headers that the count of them is never done: 2^63.
const MANY_HEADERS: u64 = 9_223_372_036_854_775_808;

// Why there is no run.
#[derive(Clone, Copy, Debug, PartialEq, Eq)]
enum Lack {
    // Memory was refused.
    Memory,
    // A word isn't text in UTF-8, so it is none that a command takes.
    Usage,
    // There is no list of words, not even one with the program's name.
    Words,
    // There are no random bytes for the seeds.
    RandomBytes,
}

// The words of the command line, without the program's name.
fn words<R: Env + Alloc<A = Global>>(rt: &R) -> Result<Vec<String>, Lack> {
    let mut given = env::args(rt).map_err(|error| lack_of_words(&error))?;
    if given.next().is_none() {
        return Err(Lack::Words);
    }
    let mut words = Vec::new(rt.alloc());
    for word in given {
        if words.push(word).is_err() {
            return Err(Lack::Memory);
        }
    }
    Ok(words)
}

fn lack_of_words(error: &io::Error) -> Lack {
    match error.kind() {
        io::ErrorKind::OutOfMemory => Lack::Memory,
        io::ErrorKind::InvalidData => Lack::Usage,
        _ => Lack::Words,
    }
}

// What the hashes of a collector's tables begin with, so that no stranger can choose keys of one hash.
fn seeds(rt: &impl RandomSource) -> Result<Seeds, io::Error> {
    Ok(Seeds {
        streams: RandomState::new(rt)?,
        sources: RandomState::new(rt)?,
    })
}

fn lack_of_seeds(error: &io::Error) -> Lack {
    match error.kind() {
        io::ErrorKind::OutOfMemory => Lack::Memory,
        _ => Lack::RandomBytes,
    }
}

// Says the text on standard error, where there is one.
fn end(rt: &impl Eprint, text: &str, code: u8) -> ExitCode
    ensures { exit_status result ≡ code }
{
    if !text.is_empty() {
        let _ = eprintln!(rt; "sflow: {text}");
    }
    ExitCode::from(code)
}

fn end_run(rt: &impl Eprint, status: &Status) -> ExitCode
    ensures { exit_status result ≡ code_of status.now }
{
    end(rt, status.text().as_str(), status.code())
}

fn end_without_run(rt: &impl Eprint, lack: Lack) -> ExitCode {
    match lack {
        Lack::Memory => end_run(rt, &Status::Memory),
        Lack::Usage => end_run(rt, &Status::Usage),
        Lack::Words => end(rt, "no words", NO_WORDS),
        Lack::RandomBytes => end(rt, "no random bytes", NO_RANDOM_BYTES),
    }
}

// The consumers of sampled headers, in the order of their lines.
struct Consumers {
    lengths: Box<LengthTap>,
    ports: Box<TopPortTap>,
    headers: Box<CountTap>,
}

fn new_consumers(alloc: Global) -> Result<Consumers, AllocError> {
    Ok(Consumers {
        lengths: Box::new(alloc, LengthTap::new())?,
        ports: Box::new(alloc, TopPortTap::open(alloc)?)?,
        headers: Box::new(alloc, CountTap::new(MANY_HEADERS))?,
    })
}

// As many receivers as there may be routes.
const RECEIVERS: usize = 8;

fn new_receivers(rt: HostRuntime) -> Result<Vec<Box<UdpReceiver<HostRuntime>>>, AllocError> {
    let mut receivers = Vec::new(rt.alloc());
    for _ in 0..RECEIVERS {
        receivers.push(Box::new(rt.alloc(), UdpReceiver::new(rt))?)?;
    }
    Ok(receivers)
}

fn main(rt: HostRuntime) -> ExitCode {
    let seeds = match seeds(&rt) {
        Ok(seeds) => seeds,
        Err(error) => return end_without_run(&rt, lack_of_seeds(&error)),
    };
    let words = match words(&rt) {
        Ok(words) => words,
        Err(lack) => return end_without_run(&rt, lack),
    };
    let Ok(
        Consumers {
            lengths,
            ports,
            headers,
        },
    ) = new_consumers(rt.alloc())
    else {
        return end_run(&rt, &Status::Memory);
    };
    let boxes: [Box<dyn Tap>; 3] = [lengths, ports, headers];
    let Ok(boxes) = Vec::from_array(rt.alloc(), boxes) else {
        return end_run(&rt, &Status::Memory);
    };
    let mut taps = Taps::new(boxes);
    let Ok(receivers) = new_receivers(rt) else {
        return end_run(&rt, &Status::Memory);
    };
    let mut boxes: Vec<Box<dyn Receiver>> = Vec::new(rt.alloc());
    for receiver in receivers {
        if boxes.push(receiver).is_err() {
            return end_run(&rt, &Status::Memory);
        }
    }
    let mut receivers = Receivers::new(boxes);
    let mut source = InputSource::new(rt);
    let mut sink = OutputSink::new(rt);
    let mut link = UdpLink::new(rt, SystemClock::new(rt));
    let status = run(
        rt.alloc(),
        &words,
        seeds,
        &mut source,
        &mut sink,
        &mut link,
        &mut taps,
        &mut receivers,
    );
    end_run(&rt, &status)
}
