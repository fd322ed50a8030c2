// What a line of the input is, as a part of a script.
ghost use Rattle.std.specs.Prelude.{◌≡◌, ◌≤◌, ℕ, List, Some, length};
ghost use Rattle.byte_ends.specs.Unread.{unread};
ghost use Rattle.script_spec.specs.Texts.{is_in_bounds as in_bounds, is_skipped as skipped, shape_of, unskipped_shape};
ghost use Rattle.script_lines.specs.Fronts.{EndsSource, HasFaults, IsNumbered, LeadsOn, SaysLine, StepSays, TellsStep, shape_in};

use crate::ScriptLine;
use crate::forms::line_in;
use crate::text::{Front, read_text};
use byte_ends::{Failed, ReadAhead, Source};

/// The first line that isn't skipped.
const HEADING: [u8; 14] = *b"sflow-script 1";

/// The greatest number of a line, and the most bytes of one.
const MAX_LINES: u64 = 4_294_967_295;

const MAX_LINE: usize = 16_384;

/// What comes next of a script.
#[derive(Drop)]
pub(crate) enum Step {
    /// A line that is skipped.
    Skipped,
    /// The line that a script begins with.
    Heading,
    /// A line that says something.
    Says(ScriptLine),
    /// Another line, or one that is too long or one too many.
    Shapeless,
    /// The end.
    End,
}

fn is_in_bounds(number: u64, text: &[u8]) -> bool
    ensures { result ≡ in_bounds number text.now }
{
    text.len() <= MAX_LINE && number <= MAX_LINES
}

fn is_skipped(text: &[u8]) -> bool
    ensures { result ≡ skipped text.now }
{
    match text.first() {
        Some(byte) => *byte == b'#',
        None => true,
    }
}

// A line that isn't skipped, by whether the heading stands before it.
fn unskipped(begun: bool, text: &[u8]) -> Step
    ensures shape { shape_in result ≡ unskipped_shape begun text.now }
    ensures bounds { (number : ℕ) → number ≤ 4294967295 → IsNumbered number result }
    ensures said { SaysLine result }
{
    if begun {
        match line_in(text) {
            Some(line) => Step::Says(line),
            None => Step::Shapeless,
        }
    } else if text == HEADING.as_slice() {
        Step::Heading
    } else {
        Step::Shapeless
    }
}

// The line of this number.
#[tactic(auto, unfolding(script_spec::specs::Texts::shape_of))]
fn classify(begun: bool, number: u64, text: &[u8]) -> Step
    ensures shape { shape_in result ≡ shape_of begun number text.now }
    ensures bounds { IsNumbered number result }
    ensures said { SaysLine result }
{
    if !is_in_bounds(number, text) {
        Step::Shapeless
    } else if is_skipped(text) {
        Step::Skipped
    } else {
        unskipped(begun, text)
    }
}

/// The next line of the input, of this number, by whether the heading stands before it.
pub(crate) fn read_step<S: Source>(
    ahead: &mut ReadAhead,
    source: &mut S,
    room: &mut [u8],
    begun: bool,
    number: u64,
) -> Result<Step, Failed>
    requires { length room.old ≡ 16384 }
    ensures told { (bytes : List ℕ) → unread ahead.old (S.seen source.old) ≡ Some bytes
        → TellsStep begun number bytes (unread ahead.new (S.seen source.new)) (S.seen source.new).told result }
    ensures leads_on { LeadsOn number result }
    ensures said { StepSays result }
    ensures at_end { EndsSource (S.seen source.new).told result }
    ensures faults { HasFaults (S.seen source.old) (S.seen source.new) result }
{
    match read_text(ahead, source, room)? {
        Front::Line { len } => Ok(classify(begun, number, &room[..len])),
        Front::Long => Ok(Step::Shapeless),
        Front::End => Ok(Step::End),
    }
}
