// The parts of a text between semicolons, from the first one on.
ghost use Rattle.std.specs.Prelude.{◌≡◌, [], ◌∷◌, MatchOption};
ghost use Rattle.script_spec.specs.Parts.{split_at};

use std::marker::Model;

/// The parts that are left of a text.
#[derive(Drop)]
pub(crate) struct Parts<'a> {
    left: Option<&'a str>,
}

impl<'a> Model for Parts<'a> {
    ghost use Rattle.std.specs.Prelude.{List, ℕ, option_map};
    ghost use Rattle.script_words.specs.Taken.{words_in};

    ghost Value = { List (List ℕ) };

    ghost view = { λ p. words_in 59 (option_map (λ t. t.now) p.left) };
}

impl<'a> Parts<'a> {
    pub(crate) fn new(text: &'a str) -> Parts<'a>
        ensures { result ≡ split_at 59 text.entry.now }
    {
        Parts { left: Some(text) }
    }

    pub(crate) fn next(&mut self) -> Option<&'a str>
        ensures { MatchOption result (self.old ≡ []) (λ part. self.old ≡ part.now ∷ self.new) }
    {
        let text = self.left?;
        match text.split_once(';') {
            Some((part, rest)) => {
                self.left = Some(rest);
                Some(part)
            }
            None => {
                self.left = None;
                Some(text)
            }
        }
    }
}
