ghost use Rattle.std.specs.Prelude.{◌≡◌, option_map};
ghost use Rattle.command_words.specs.Collections.{place_or};

use std::marker::Model;

/// A place on the network, as a word names it: a text that isn't empty. What it says is the link's to read.
#[derive(Debug, Drop)]
pub struct Place<'a> {
    text: &'a str,
}

impl<'a> Model for Place<'a> {
    ghost use Rattle.std.specs.Prelude.{ℕ, List};

    ghost Value = { List ℕ };

    ghost view = { λ p. p.text.now };
}

fn text_or<'a>(usual: &'a str, text: Option<&'a str>) -> &'a str
    ensures { result.now ≡ place_or usual.entry.now (option_map (λ t. t.now) text.entry) }
{
    match text {
        Some(text) => text,
        None => usual,
    }
}

impl<'a> Place<'a> {
    // The place that the text names, or the usual one where there is no text.
    pub(crate) fn or(usual: &'a str, text: Option<&'a str>) -> Place<'a>
        ensures { result ≡ place_or usual.entry.now (option_map (λ t. t.now) text.entry) }
    {
        Place {
            text: text_or(usual, text),
        }
    }

    /// Its text.
    pub fn text(&self) -> &str
        ensures { result.now ≡ self.now }
    {
        self.text
    }
}
