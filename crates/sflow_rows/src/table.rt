//! The lines of a table; data/parts.txt says what each of them means.
use crate::misread::Misread;
use crate::row::{Consumer, Item, Row, Taker};
use crate::spelling::{Part, append};
use std::alloc::Global;

/// The rows that were read, and the parts that they share.
#[derive(Drop)]
pub struct Table {
    alloc: Global,
    parts: Vec<Part>,
    rows: Vec<Row>,
}

impl Table {
    pub fn new(alloc: Global) -> Table {
        Table {
            alloc,
            parts: Vec::new(alloc),
            rows: Vec::new(alloc),
        }
    }

    pub fn rows(&self) -> &[Row] {
        &self.rows
    }

    /// Reads a line: `times N` takes the line behind it N times, with the numbers from 1 to N in place of each `@`.
    pub fn take(&mut self, line: &str) -> Result<(), Misread> {
        let Some(rest) = line.strip_prefix("times ") else {
            return self.take_one(line);
        };
        let (times, line) = key_of(rest);
        let times = times.parse::<u32>()?;
        for number in 0..times {
            let digits = format!(in self.alloc; "{}", number + 1)?;
            let one = line.replace(self.alloc, "@", &digits)?;
            self.take_one(&one)?;
        }
        Ok(())
    }

    fn take_one(&mut self, line: &str) -> Result<(), Misread> {
        let (key, _) = key_of(line);
        match key {
            ">" | "~" | "<" => self.take_text(line),
            _ => self.take_words(without_comment(line)),
        }
    }

    // Text that is read or printed stands behind one space, with all the spaces that it has.
    fn take_text(&mut self, line: &str) -> Result<(), Misread> {
        let row = self.rows.last_mut().ok_or(Misread::NoRow)?;
        if let Some(text) = line.strip_prefix("<") {
            row.input
                .extend_from_slice(text.strip_prefix(" ").unwrap_or("").as_bytes())?;
            row.input.push(b'\n')?;
            return Ok(());
        }
        if let Some(text) = line.strip_prefix("~ ") {
            row.output.extend_from_slice(text.as_bytes())?;
            return Ok(());
        }
        let text = line.strip_prefix("> ").unwrap_or("");
        row.output.extend_from_slice(text.as_bytes())?;
        row.output.push(b'\n')?;
        Ok(())
    }

    fn take_words(&mut self, line: &str) -> Result<(), Misread> {
        let (key, rest) = key_of(line);
        match key {
            "" => Ok(()),
            "part" => self.take_part(rest),
            "row" => {
                self.rows.push(Row::new(self.alloc, rest)?)?;
                Ok(())
            }
            "also" => self.take_again(rest),
            _ => {
                let row = self.rows.last_mut().ok_or(Misread::NoRow)?;
                take_of_row(row, self.alloc, &self.parts, key, rest)
            }
        }
    }

    // The row above once more, with other words.
    fn take_again(&mut self, rest: &str) -> Result<(), Misread> {
        let mut row = self.rows.last().ok_or(Misread::NoRow)?.clone()?;
        row.name = String::from_str(self.alloc, rest)?;
        row.words = Vec::new(self.alloc);
        take_words_of(&mut row.words, self.alloc, rest)?;
        self.rows.push(row)?;
        Ok(())
    }

    // A part may stand on several lines.
    fn take_part(&mut self, rest: &str) -> Result<(), Misread> {
        let (name, text) = key_of(rest);
        let mut bytes = Vec::new(self.alloc);
        append(&mut bytes, &self.parts, text)?;
        for part in &mut self.parts {
            if part.name.as_str() == name {
                part.bytes.extend_from_slice(&bytes)?;
                return Ok(());
            }
        }
        let name = String::from_str(self.alloc, name)?;
        self.parts.push(Part { name, bytes })?;
        Ok(())
    }
}

fn take_of_row(
    row: &mut Row,
    alloc: Global,
    parts: &[Part],
    key: &str,
    rest: &str,
) -> Result<(), Misread> {
    match key {
        "words" => take_words_of(&mut row.words, alloc, rest),
        "input" => append(&mut row.input, parts, rest),
        "output" => append(&mut row.output, parts, rest),
        "pieces" => take_lengths(&mut row.pieces, rest),
        "read-fails" => take_numbers(&mut row.read_fails, rest),
        "write-fails" => take_numbers(&mut row.write_fails, rest),
        "fronts" => {
            let (first, last) = key_of(rest);
            row.fronts = Some((first.parse::<usize>()?, last.parse::<usize>()?));
            Ok(())
        }
        "room" => {
            row.room = rest.parse::<u64>()?;
            Ok(())
        }
        "left" => {
            row.left = Some(rest.parse::<usize>()?);
            Ok(())
        }
        "got" => take_got(row, alloc, parts, rest),
        "quiet" => {
            row.items.push(Item::Quiet)?;
            Ok(())
        }
        "link-fails" => take_numbers(&mut row.link_fails, rest),
        "sent" => {
            let mut bytes = Vec::new(alloc);
            append(&mut bytes, parts, rest)?;
            row.sent.push(bytes)?;
            Ok(())
        }
        "receiver" => take_receiver(row, alloc, rest),
        "taken" => take_taken(row, alloc, parts, rest),
        "taps" => take_taps(&mut row.taps, rest),
        "held" => take_held(row, alloc, rest),
        "status" => {
            row.status = String::from_str(alloc, rest)?;
            Ok(())
        }
        _ => Err(Misread::Key),
    }
}

// `''` stands for the word without letters.
fn take_words_of(words: &mut Vec<String>, alloc: Global, rest: &str) -> Result<(), Misread> {
    for word in rest.split_whitespace() {
        let word = if word == "''" { "" } else { word };
        words.push(String::from_str(alloc, word)?)?;
    }
    Ok(())
}

// The arrival in ms, and the bytes of the datagram.
fn take_got(row: &mut Row, alloc: Global, parts: &[Part], rest: &str) -> Result<(), Misread> {
    let (at, text) = key_of(rest);
    let at = at.parse::<u64>()?;
    let mut bytes = Vec::new(alloc);
    append(&mut bytes, parts, text)?;
    row.items.push(Item::Got { at, bytes })?;
    Ok(())
}

// One more receiver, with the numbers of its calls that fail.
fn take_receiver(row: &mut Row, alloc: Global, rest: &str) -> Result<(), Misread> {
    let mut fails = Vec::new(alloc);
    take_numbers(&mut fails, rest)?;
    let taken = Vec::new(alloc);
    row.receivers.push(Taker { fails, taken })?;
    Ok(())
}

// A datagram that the receiver above it takes.
fn take_taken(row: &mut Row, alloc: Global, parts: &[Part], rest: &str) -> Result<(), Misread> {
    let receiver = row.receivers.last_mut().ok_or(Misread::NoReceiver)?;
    let mut bytes = Vec::new(alloc);
    append(&mut bytes, parts, rest)?;
    receiver.taken.push(bytes)?;
    Ok(())
}

// The words `length` and `port`, and for a count the number at which it is done.
fn take_taps(taps: &mut Vec<Consumer>, rest: &str) -> Result<(), Misread> {
    for word in rest.split_whitespace() {
        let tap = match word {
            "length" => Consumer::Length,
            "port" => Consumer::Port,
            _ => Consumer::Count(word.parse::<u64>()?),
        };
        taps.push(tap)?;
    }
    Ok(())
}

// The line of a consumer that is held after the run; without a text none is.
fn take_held(row: &mut Row, alloc: Global, rest: &str) -> Result<(), Misread> {
    let mut held = String::from_str(alloc, "")?;
    if let Some(lines) = &row.held {
        held.push_str(lines)?;
    }
    if !rest.is_empty() {
        held.push_str(rest)?;
        held.push_str("\n")?;
    }
    row.held = Some(held);
    Ok(())
}

fn take_numbers(numbers: &mut Vec<u64>, rest: &str) -> Result<(), Misread> {
    for word in rest.split_whitespace() {
        numbers.push(word.parse::<u64>()?)?;
    }
    Ok(())
}

fn take_lengths(lengths: &mut Vec<usize>, rest: &str) -> Result<(), Misread> {
    for word in rest.split_whitespace() {
        lengths.push(word.parse::<usize>()?)?;
    }
    Ok(())
}

// The first word, and what stands behind it.
fn key_of(line: &str) -> (&str, &str) {
    match line.split_once(' ') {
        Some((key, rest)) => (key, rest.trim()),
        None => (line, ""),
    }
}

fn without_comment(line: &str) -> &str {
    match line.split_once('#') {
        Some((line, _)) => line.trim(),
        None => line.trim(),
    }
}
