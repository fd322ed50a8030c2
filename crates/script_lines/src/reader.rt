// A reader of scripts.
ghost use Rattle.std.specs.Prelude.{◌≡◌, ◌≤◌, ℕ, List, Some, None, Result, IfOk, length, vec_len};
ghost use Rattle.wire_spec.specs.declared.input_kind.InputKind.TheVariants.{Script};
ghost use Rattle.sflow_io.specs.declared.capture.ReadRefusal.TheVariants.{BadInput};
ghost use Rattle.script_lines.specs.declared.place.Place.{Place as PlaceIn};
ghost use Rattle.byte_ends.specs.Unread.{unread};
ghost use Rattle.sflow_io.specs.declared.capture.ReadRefusal.{ReadRefusal};
ghost use Rattle.script_lines.specs.Readers.{EndsAll, GivesNext, HasCause, IsFresh, Tells, ended_by, given_by, last_answer};

use crate::place::Place;
use crate::step::{Step, read_step};
use crate::{Memory, ReadRefusal, ScriptLine, Source};
use byte_ends::ReadAhead;
use std::alloc::{AllocError, Global};
use std::marker::Model;
use wire_spec::InputKind;

/// The most bytes of a line.
const MAX_LINE: usize = 16_384;

/// A reader of a script, line by line. It reads its source at least 64 KiB at a time, and tests the shape of each line
/// alone: its length and number, its words and the ranges of its numbers.
#[derive(Drop)]
pub struct ScriptReader {
    ahead: ReadAhead,
    room: Vec<u8>,
    place: Place,
    given: u64,
    ended: Option<Result<(), ReadRefusal>>,
}

impl Model for ScriptReader {
    ghost use Rattle.std.specs.Prelude.{◌≡◌, ◌≤◌, vec_len};
    ghost use Rattle.script_lines.specs.Readers.{ReaderState};

    ghost Value = { ReaderState };

    ghost view = { λ r. record { held = r.ahead; place = r.place; given = r.given; ended = r.ended } };

    ghost invariant = { λ r. (vec_len r.room ≡ 16384) × (r.place.count ≤ 4294967295) };
}

fn new_room(alloc: Global) -> Result<Vec<u8>, AllocError>
    ensures { IfOk result (λ room. vec_len room ≡ 16384) }
{
    Ok(vec![in alloc; 0; MAX_LINE]?)
}

impl ScriptReader {
    /// A reader before its first line. It takes memory for a line and for the bytes that it reads ahead.
    pub fn open(alloc: Global) -> Result<ScriptReader, Memory>
        ensures { IfOk result (λ reader. IsFresh reader) }
    {
        let Ok(room) = new_room(alloc) else {
            return Err(Memory);
        };
        match ReadAhead::new(alloc) {
            Ok(ahead) => Ok(ScriptReader {
                ahead,
                room,
                place: Place {
                    begun: false,
                    count: 0,
                },
                given: 0,
                ended: None,
            }),
            Err(_) => Err(Memory),
        }
    }

    /// The next line that says something, or `None` at the end of a script that has its first line.
    ///
    /// `BadInput` comes exactly where the next line that isn't skipped hasn't its shape, or the input ends before the
    /// first line; `at` is its number, and the kind `Script`. `ReadFault` comes only where the source's count of faults
    /// rose in this call. `Spent` never comes. After `None` and after a refusal it answers the same again, and reads
    /// nothing.
    ///
    /// The reader owns what it has read ahead, so a reader is used with one source.
    pub fn next<S: Source>(&mut self, source: &mut S) -> Result<Option<ScriptLine>, ReadRefusal>
        // The answer is that of the bytes that are left, whatever the pieces in which they come.
        ensures told { (bytes : List ℕ) → self.old.ended ≡ None → unread self.old.held (S.seen source.old) ≡ Some bytes
            → Tells self.old.place self.new.place bytes (unread self.new.held (S.seen source.new)) (S.seen source.new).told result }
        ensures ended { self.new.ended ≡ ended_by result }
        ensures given { self.new.given ≡ given_by self.old.given self.new.place result }
        ensures at_end { self.old.ended ≡ None → EndsAll (S.seen source.new).told result }

        // A line has its shape, whether the source tells its bytes or not.
        ensures next { self.old.ended ≡ None → GivesNext self.old.place self.new.place result }

        // The last answer comes again.
        ensures again { (last : Result (Unit {0}) ReadRefusal) → self.old.ended ≡ Some last → result ≡ last_answer last }
        ensures unmoved { (last : Result (Unit {0}) ReadRefusal) → self.old.ended ≡ Some last
            → (self.new ≡ self.old) × (source.new ≡ source.old) }
        ensures cause { self.old.ended ≡ None → HasCause (S.seen source.old) (S.seen source.new) result }
    {
        if let Some(last) = self.ended {
            return answer_again(last);
        }
        let answer = read_line(&mut self.ahead, source, &mut self.room, &mut self.place);
        self.ended = end_of(&answer);
        self.given = number_of(self.given, self.place, &answer);
        answer
    }

    /// The number of the line that `next` gave last, counted from 1; 0 where it gave none yet.
    pub fn number(&self) -> u64
        ensures { result ≡ self.now.given }
    {
        self.given
    }
}

// The last answer, once more.
fn answer_again(last: Result<(), ReadRefusal>) -> Result<Option<ScriptLine>, ReadRefusal>
    ensures answer { result ≡ last_answer last }
    ensures ended { ended_by result ≡ Some last }
    ensures given { (before : ℕ) (place : PlaceIn) → given_by before place result ≡ before }
{
    match last {
        Ok(()) => Ok(None),
        Err(refusal) => Err(refusal),
    }
}

// How an answer ends the reading, if it does.
fn end_of(answer: &Result<Option<ScriptLine>, ReadRefusal>) -> Option<Result<(), ReadRefusal>>
    ensures { result ≡ ended_by answer.now }
{
    match answer {
        Ok(Some(_)) => None,
        Ok(None) => Some(Ok(())),
        Err(refusal) => Some(Err(*refusal)),
    }
}

// The number of the line given last, where this is the answer.
fn number_of(before: u64, place: Place, answer: &Result<Option<ScriptLine>, ReadRefusal>) -> u64
    ensures { result ≡ given_by before place answer.now }
{
    match answer {
        Ok(Some(_)) => place.count,
        _ => before,
    }
}

// The next line that says something; where it isn't a line, the answer is the last.
fn read_line<S: Source>(
    ahead: &mut ReadAhead,
    source: &mut S,
    room: &mut [u8],
    place: &mut Place,
) -> Result<Option<ScriptLine>, ReadRefusal>
    requires room { length room.old ≡ 16384 }
    requires count { place.old.count ≤ 4294967295 }
    ensures told { (bytes : List ℕ) → unread ahead.old (S.seen source.old) ≡ Some bytes
        → Tells place.old place.new bytes (unread ahead.new (S.seen source.new)) (S.seen source.new).told result }
    ensures count { place.new.count ≤ 4294967295 }
    ensures at_end { EndsAll (S.seen source.new).told result }
    ensures next { GivesNext place.old place.new result }
    ensures cause { HasCause (S.seen source.old) (S.seen source.new) result }
{
    'lines: loop {
        let number = place.count + 1;
        let Ok(step) = read_step(ahead, source, room, place.begun, number) else {
            return Err(ReadRefusal::ReadFault);
        };
        match step {
            Step::Skipped => {}
            Step::Heading => place.begun = true,
            Step::Says(line) => {
                place.count = number;
                return Ok(Some(line));
            }
            Step::Shapeless => return Err(broken(number)),
            Step::End if place.begun => return Ok(None),
            Step::End => return Err(broken(number)),
        }
        place.count = number;
    }
}

// The line of this number isn't a script's.
fn broken(number: u64) -> ReadRefusal
    ensures { result ≡ BadInput number Script }
{
    ReadRefusal::BadInput {
        at: number as u128,
        kind: InputKind::Script,
    }
}
