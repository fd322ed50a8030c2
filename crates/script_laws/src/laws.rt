// The laws of lines. Each is a function with nothing to do, whose contract is the law.
ghost use Rattle.std.specs.Prelude.{◌≡◌, ◌↔◌, true, false, ℕ, List, reverse, Some, Ok, Err};
ghost use Rattle.script_spec.specs.Words.{Text};
ghost use Rattle.script_spec.specs.Lines.{Line, SubAgent};
ghost use Rattle.script_spec.specs.Forms.{line_in};
ghost use Rattle.script_laws.specs.Written.{Says};
ghost use Rattle.script_spec.specs.Rules.{may_follow};
ghost use Rattle.script_spec.specs.Texts.{texts_in};
ghost use Rattle.script_spec.specs.Scripts.{Behind, nothing_yet, script_reading};
ghost use Rattle.script_spec.specs.Steps.{Ends, Fails, Gives, behind_line, next_in};
ghost use Rattle.script_laws.specs.Given.{IsGiven};
ghost use Rattle.script_laws.specs.SoFar.{BreaksBehind, IsScriptOf, SoFar};
ghost use Rattle.script_laws.specs.Lawful.{AreLawful, BootsMayHappen, ScriptsAreLawful};

/// A text reads as a line exactly where it is the one text that writes the line, whose parts are within their ranges.
pub fn lines_are_written()
    ensures { (text : Text) (line : Line) → (line_in text ≡ Some line) ↔ Says text line }
{}

/// The lines of a script are lawful.
pub fn scripts_are_lawful()
    ensures { ScriptsAreLawful }
{}

/// In each boot that lawful lines make, what happens is what may happen: packets and resets are of sources of the
/// set-up, a poll reads sources that are due while the stage has places, and a send sends what the stage gives.
pub fn boots_may_happen()
    ensures { (lines : List Line) (s : SubAgent) → AreLawful lines → BootsMayHappen lines s }
{}

/// A line that comes next in a script stands behind lines that say nothing, and its number is that of its text.
pub fn lines_are_given()
    ensures { (b : Behind) (texts : List Text) (line : Line) (number : ℕ) (more : List Text)
        → next_in b.begun b.count texts ≡ Gives line number more → IsGiven b texts line number more }
{}

/// Behind texts of an input whose lines keep the rules: a line that comes next and may follow is one line more; where it
/// may not follow, or has no shape, it is the first line that breaks a rule; and at the end the input is a script.
pub fn scripts_go_on()
    ensures first { (input : List ℕ) → SoFar input nothing_yet (texts_in input) }
    ensures line { (input : List ℕ) (b : Behind) (texts : List Text) (line : Line) (number : ℕ) (more : List Text)
        → SoFar input b texts → next_in b.begun b.count texts ≡ Gives line number more → may_follow b.lines line ≡ true
        → SoFar input (behind_line b line number) more }
    ensures broken { (input : List ℕ) (b : Behind) (texts : List Text) (line : Line) (number : ℕ) (more : List Text)
        → SoFar input b texts → next_in b.begun b.count texts ≡ Gives line number more → may_follow b.lines line ≡ false
        → BreaksBehind b.lines input number }
    ensures fault { (input : List ℕ) (b : Behind) (texts : List Text) (number : ℕ) → SoFar input b texts
        → next_in b.begun b.count texts ≡ Fails number → BreaksBehind b.lines input number }
    ensures end { (input : List ℕ) (b : Behind) (texts : List Text) → SoFar input b texts
        → next_in b.begun b.count texts ≡ Ends → IsScriptOf b.lines input }
{}

/// What lines an input is a script of, or behind which lines it breaks a rule, and where, is what the reading gives.
pub fn scripts_are_read()
    ensures script { (lines : List Line) (input : List ℕ) → IsScriptOf lines input → script_reading input ≡ Ok (reverse lines) }
    ensures fault { (lines : List Line) (input : List ℕ) (number : ℕ) → BreaksBehind lines input number
        → script_reading input ≡ Err number }
{}
