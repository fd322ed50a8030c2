//! Runs the worked rows of the tables in data/ through the commands, and prints those that don't hold.
#![tactic(auto)]

mod misread;
mod row;
mod spelling;
mod table;
mod trial;

use row::Row;
use sflow_tool::Seeds;
use std::hash::RandomState;
use std::random::RandomSource;
use std::rt::Files;
use std::{fs, io};
use table::Table;

// What rows share comes first.
const TABLES: [&str; 20] = [
    "parts.txt",
    "words.txt",
    "replay.txt",
    "sources.txt",
    "interfaces.txt",
    "taps.txt",
    "show.txt",
    "check.txt",
    "records.txt",
    "more_records.txt",
    "canon.txt",
    "ends.txt",
    "pcap.txt",
    "versions.txt",
    "links.txt",
    "relay.txt",
    "agent.txt",
    "scripts.txt",
    "trial.txt",
    "wrong.txt",
];

fn main(rt: HostRuntime) -> io::Result<()> {
    let mut table = Table::new(rt.alloc());
    for name in TABLES {
        read(&rt, name, &mut table)?;
    }
    let held = count_held(&rt, seeds(&rt)?, table.rows())?;
    println!(rt; "{held} rows hold")
}

// Reads the table, and prints which of its lines can't be read.
fn read<R: Files + Print + AllocGlobal>(rt: &R, name: &str, table: &mut Table) -> io::Result<()> {
    let text = fs::read_to_string(rt, name)?;
    let mut number = 0u64;
    for line in text.as_str().lines() {
        number = number.saturating_add(1);
        if let Err(misread) = table.take(line) {
            println!(rt; "{name}:{number}: {}", misread.text())?;
        }
    }
    Ok(())
}

// What the hashes of a collector's tables begin with.
fn seeds(rt: &impl RandomSource) -> io::Result<Seeds> {
    Ok(Seeds {
        streams: RandomState::new(rt)?,
        sources: RandomState::new(rt)?,
    })
}

// Runs the rows, and prints what comes of those that don't hold.
fn count_held(rt: &(impl Print + AllocGlobal), seeds: Seeds, rows: &[Row]) -> io::Result<u64> {
    let mut held = 0u64;
    for row in rows {
        match trial::difference(rt.alloc(), seeds, row)? {
            Some(text) => println!(rt; "{}: {text}", row.name)?,
            None => held = held.saturating_add(1),
        }
    }
    Ok(held)
}
