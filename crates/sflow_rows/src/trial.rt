//! A row's runs over the memory forms of the outside.
use crate::row::{Consumer, Item, Row};
use sflow_tool::{
    CountTap, LengthTap, LinkItem, ListReceiver, MemoryLink, MemorySink, MemorySource, Receiver,
    Receivers, Seeds, Source, Status, Tap, Taps, TopPortTap, run,
};
use std::alloc::{AllocError, Global};

// The piece that a read moves where the row names none.
const WHOLE: usize = 65_536;

/// What comes of the row that it doesn't say; None where it holds.
pub fn difference(alloc: Global, seeds: Seeds, row: &Row) -> Result<Option<String>, AllocError> {
    let (first, last) = row.fronts.unwrap_or((row.input.len(), row.input.len()));
    let whole = [WHOLE];
    let pieces = if row.pieces.is_empty() {
        whole.as_slice()
    } else {
        row.pieces.as_slice()
    };
    for length in first..=last {
        for piece in pieces {
            let input = row.input.get(..length).unwrap_or(&row.input);
            let found = difference_in_pieces(alloc, seeds, row, input, *piece)?;
            if found.is_some() {
                return Ok(found);
            }
        }
    }
    Ok(None)
}

fn difference_in_pieces(
    alloc: Global,
    seeds: Seeds,
    row: &Row,
    input: &[u8],
    piece: usize,
) -> Result<Option<String>, AllocError> {
    let bytes = Vec::from_slice(alloc, input)?;
    let read_fails = Vec::from_slice(alloc, &row.read_fails)?;
    let write_fails = Vec::from_slice(alloc, &row.write_fails)?;
    let mut source = MemorySource::new(bytes, piece.max(1), read_fails);
    let mut sink = MemorySink::new(alloc, row.room, write_fails);
    let link_fails = Vec::from_slice(alloc, &row.link_fails)?;
    let mut link = MemoryLink::new(alloc, items_of(alloc, row)?, link_fails);
    let mut boxes: Vec<Box<dyn Tap>> = Vec::new(alloc);
    for tap in &row.taps {
        match tap {
            Consumer::Length => boxes.push(Box::new(alloc, LengthTap::new())?)?,
            Consumer::Port => boxes.push(Box::new(alloc, TopPortTap::open(alloc)?)?)?,
            Consumer::Count(limit) => boxes.push(Box::new(alloc, CountTap::new(*limit))?)?,
        }
    }
    let mut taps = Taps::new(boxes);
    let mut boxes: Vec<Box<dyn Receiver>> = Vec::new(alloc);
    for receiver in receivers_of(alloc, row)? {
        boxes.push(receiver)?;
    }
    let mut receivers = Receivers::new(boxes);
    let status = run(
        alloc,
        &row.words,
        seeds,
        &mut source,
        &mut sink,
        &mut link,
        &mut taps,
        &mut receivers,
    );
    let status = shown(alloc, &status)?;
    if status.as_str() != row.status.as_str() {
        return Ok(Some(format!(in alloc; "status {status}")?));
    }
    if sink.bytes() != row.output.as_slice() {
        let output = String::from_utf8_lossy(alloc, sink.bytes())?;
        return Ok(Some(format!(in alloc; "output {output:?}")?));
    }
    if sink.lacked() != 0 || link.lacked() != 0 {
        return Ok(Some(String::from_str(alloc, "memory was lacking")?));
    }
    if link.sent() != row.sent.as_slice() {
        return Ok(Some(format!(in alloc; "sent {:?}", link.sent())?));
    }
    for (place, want) in row.receivers.iter().enumerate() {
        if place < receivers.len() && receivers.taken(place) != want.taken.as_slice() {
            let taken = receivers.taken(place);
            return Ok(Some(format!(in alloc; "taken {place} {taken:?}")?));
        }
    }
    if let Some(want) = &row.held {
        let held = held_lines(alloc, &taps)?;
        if held.as_str() != want.as_str() {
            return Ok(Some(format!(in alloc; "held {held:?}")?));
        }
    }
    let Some(want) = row.left else {
        return Ok(None);
    };
    let left = rest_of(alloc, &mut source)?;
    if left.len() != want || !input.ends_with(&left) {
        return Ok(Some(format!(in alloc; "left {}", left.len())?));
    }
    Ok(None)
}

// What the link gives.
fn items_of(alloc: Global, row: &Row) -> Result<Vec<LinkItem>, AllocError> {
    let mut items = Vec::new(alloc);
    for item in &row.items {
        let item = match item {
            Item::Got { at, bytes } => LinkItem::Got {
                at: *at,
                bytes: bytes.clone()?,
            },
            Item::Quiet => LinkItem::Quiet,
        };
        items.push(item)?;
    }
    Ok(items)
}

// The receivers that are handed in.
fn receivers_of(alloc: Global, row: &Row) -> Result<Vec<Box<ListReceiver>>, AllocError> {
    let mut receivers = Vec::new(alloc);
    for receiver in &row.receivers {
        let fails = Vec::from_slice(alloc, &receiver.fails)?;
        receivers.push(Box::new(alloc, ListReceiver::new(alloc, fails))?)?;
    }
    Ok(receivers)
}

// The lines of the consumers that are held.
fn held_lines(alloc: Global, taps: &Taps) -> Result<String, AllocError> {
    let mut lines = String::from_str(alloc, "")?;
    for place in 0..taps.len() {
        lines.push_str(taps.line(place).as_str())?;
        lines.push_str("\n")?;
    }
    Ok(lines)
}

// The code of the status, and its text where it has one.
fn shown(alloc: Global, status: &Status) -> Result<String, AllocError> {
    let text = status.text();
    let text = text.as_str();
    if text.is_empty() {
        return format!(in alloc; "{}", status.code());
    }
    format!(in alloc; "{} {text}", status.code())
}

// What the source still has; reads that fail are made again.
fn rest_of(alloc: Global, source: &mut MemorySource) -> Result<Vec<u8>, AllocError> {
    let mut rest = Vec::new(alloc);
    let mut room = [0; 4096];
    for _ in 0..u64::MAX {
        match source.read(&mut room) {
            Ok(0) => break,
            Ok(count) => rest.extend_from_slice(&room[..count])?,
            Err(_) => {}
        }
    }
    Ok(rest)
}
