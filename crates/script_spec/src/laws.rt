// The laws of scripts. Each is a function with nothing to do, whose contract is the law.
ghost use Rattle.std.specs.Prelude.{◌≡◌, ◌↔◌, ℕ, List, Ok, Err};
ghost use Rattle.script_spec.specs.Words.{Text};
ghost use Rattle.script_spec.specs.Lines.{Line};
ghost use Rattle.script_spec.specs.Scripts.{Behind, Script, ScriptFault, HasOneScript, reading_behind, script_reading};
ghost use Rattle.script_spec.specs.Steps.{next_in, reading_after};

/// Bytes are a script of exactly one list of lines and have no fault, or they have exactly one fault,
/// at one line, and are a script of no lines.
pub fn one_script()
    ensures { (bytes : List ℕ) → HasOneScript bytes }
{}

/// The reading gives lines exactly where the bytes are a script of them, and a line's number exactly
/// where that line is the first to break a rule.
pub fn script_reading_is_the_script()
    ensures lines { (bytes : List ℕ) (lines : List Line) → (script_reading bytes ≡ Ok lines) ↔ Script bytes lines }
    ensures fault { (bytes : List ℕ) (number : ℕ) → (script_reading bytes ≡ Err number) ↔ ScriptFault bytes number }
{}

/// From the lines so far the reading goes on with the next line that says something, with the end, or with the fault.
pub fn reading_goes_on()
    ensures { (b : Behind) (texts : List Text) → reading_behind b texts ≡ reading_after b (next_in b.begun b.count texts) }
{}
