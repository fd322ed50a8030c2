// What holds of the reading of words. Each law is the contract of a function with nothing to do.
ghost use Rattle.std.specs.Prelude.{◌≡◌, ◌↔◌, ◌<◌, ◌^◌, ℕ, List, Some, IsTrue, decimal};
ghost use Rattle.command_words.specs.declared.arguments.CommandName.{CommandName};
ghost use Rattle.command_words.specs.declared.command.Command.{Command};
ghost use Rattle.command_words.specs.Rules.{Rule};
ghost use Rattle.command_words.specs.Pieces.{Piece, AreLawful, Spell, are_rules};
ghost use Rattle.command_words.specs.Reading.{lawful_pieces};
ghost use Rattle.command_words.specs.Numbers.{number_in, wide_number_in};
ghost use Rattle.command_words.specs.Commands.{Asks, HasLawfulLength, HasLawfulLimits, command_of, rules_of};

/// The reading of words gives exactly the lawful pieces that spell them, and no other lawful pieces do.
pub fn lawful_words_have_one_reading()
    ensures read { (rules : List Rule) (words : List (List ℕ)) (pieces : List Piece) → IsTrue (are_rules rules)
        → (lawful_pieces rules words ≡ Some pieces) ↔ (AreLawful rules pieces × Spell pieces words) }
    ensures one { (rules : List Rule) (words : List (List ℕ)) (pieces others : List Piece) → IsTrue (are_rules rules)
        → AreLawful rules pieces → Spell pieces words → AreLawful rules others → Spell others words
        → pieces ≡ others }
{}

/// Words give a command exactly where they are its name and lawful pieces with its values, and they ask for one
/// command at most.
pub fn commands_are_spelled()
    ensures rules { (name : CommandName) → IsTrue (are_rules (rules_of name)) }
    ensures asks { (words : List (List ℕ)) (command : Command)
        → (command_of words ≡ Some command) ↔ ((pieces : List Piece) × Asks words pieces command) }
    ensures one { (words : List (List ℕ)) (pieces others : List Piece) (command other : Command)
        → Asks words pieces command → Asks words others other → (pieces ≡ others) × (command ≡ other) }
{}

/// A text writes a number exactly where it is that number in decimal.
pub fn numbers_are_decimal()
    ensures narrow { (text : List ℕ) (n : ℕ) → (number_in text ≡ Some n) ↔ ((n < 2 ^ 32) × (text ≡ decimal n)) }
    ensures wide { (text : List ℕ) (n : ℕ) → (wide_number_in text ≡ Some n) ↔ ((n < 2 ^ 64) × (text ≡ decimal n)) }
{}

/// Words that ask for limits ask for limits that a collector can have: each is within its range. So is the number of packets
/// of a made run.
pub fn limits_are_lawful()
    ensures limits { (words : List (List ℕ)) (command : Command) → command_of words ≡ Some command
        → HasLawfulLimits command }
    ensures length { (words : List (List ℕ)) (command : Command) → command_of words ≡ Some command
        → HasLawfulLength command }
{}
