// The words of a text, from the first one on.
ghost use Rattle.std.specs.Prelude.{◌≡◌, ◌≤◌, ◌⊎◌, [], ◌∷◌, ℕ, List, ◌==◌, IfSome, MatchOption};
ghost use Rattle.std.specs.List.{position_or_len};
ghost use Rattle.script_spec.specs.Words.{Text, number, number32};
ghost use Rattle.script_spec.specs.Parts.{one, named, split_at};
ghost use Rattle.script_words.specs.Taken.{Takes, Passes, StopsAt};

use crate::numbers::number_in;
use std::marker::Model;

/// The words that are left of a text, with a byte between each two of them. A call that reads one and answers None
/// leaves unsaid which words are left.
#[derive(Drop)]
pub struct Words<'a> {
    separator: u8,
    left: Option<&'a [u8]>,
}

impl<'a> Model for Words<'a> {
    ghost use Rattle.std.specs.Prelude.{List, ℕ, option_map};
    ghost use Rattle.script_words.specs.Taken.{words_in};

    ghost Value = { List (List ℕ) };

    ghost view = { λ w. words_in w.separator (option_map (λ t. t.now) w.left) };
}

// How many bytes stand before the first one that is this, or before the end.
fn length_before(text: &[u8], separator: u8) -> usize
    ensures { result ≡ position_or_len (λ b. b == separator) text.now }
{
    for (at, byte) in text.iter().enumerate() {
        if *byte == separator {
            return at;
        }
    }
    text.len()
}

impl<'a> Words<'a> {
    /// All words of the text, of which the first one may be empty.
    pub fn new(text: &'a [u8], separator: u8) -> Words<'a>
        ensures { result ≡ split_at separator text.entry.now }
    {
        Words {
            separator,
            left: Some(text),
        }
    }

    /// The first word that is left.
    pub fn next(&mut self) -> Option<&'a [u8]>
        ensures { MatchOption result (self.old ≡ []) (λ word. self.old ≡ word.now ∷ self.new) }
    {
        let text = self.left?;
        let at = length_before(text, self.separator);
        if at < text.len() {
            self.left = Some(&text[at + 1..]);
            Some(&text[..at])
        } else {
            self.left = None;
            Some(text)
        }
    }

    /// This word, alone.
    pub fn name(&mut self, name: &[u8]) -> Option<()>
        ensures { MatchOption result (self.old ≡ [] ⊎ StopsAt name.now self.old) (λ _. Passes name.now self.old self.new) }
    {
        if self.next()? == name { Some(()) } else { None }
    }

    /// No word is left.
    pub fn end(&mut self) -> Option<()>
        ensures { MatchOption result ((word : Text) × (more : List Text) × (self.old ≡ word ∷ more)) (λ _. self.old ≡ []) }
    {
        match self.next() {
            Some(_) => None,
            None => Some(()),
        }
    }

    /// A number in this range, in decimal digits without a leading zero.
    pub fn number(&mut self, least: u64, most: u64) -> Option<u64>
        ensures takes { Takes (λ n. n) (one (number least most)) self.old self.new result }
        ensures range { IfSome result (λ n. n ≤ most) }
    {
        number_in(self.next()?, least, most)
    }

    /// The name, and then a number.
    pub fn named(&mut self, name: &[u8], least: u64, most: u64) -> Option<u64>
        ensures takes { Takes (λ n. n) (named name.now (one (number least most))) self.old self.new result }
        ensures range { IfSome result (λ n. n ≤ most) }
    {
        self.name(name)?;
        self.number(least, most)
    }

    /// A number of 32 bits.
    pub fn number32(&mut self) -> Option<u32>
        ensures { Takes (λ n. n) (one number32) self.old self.new result }
    {
        Some(self.number(0, 4_294_967_295)? as u32)
    }

    /// The name, and then a number of 32 bits that isn't below this one.
    pub fn named32(&mut self, name: &[u8], least: u64) -> Option<u32>
        ensures { Takes (λ n. n) (named name.now (one (number least 4294967295))) self.old self.new result }
    {
        Some(self.named(name, least, 4_294_967_295)? as u32)
    }
}
