// What `collect` and `relay` are asked for, from the texts of their options.
ghost use Rattle.std.specs.Prelude.{◌≡◌, option_map};
ghost use Rattle.command_words.specs.Collections.{routes_asked, turns_asked};

use crate::number::number_in;
use crate::place::Place;
use collector_views::Limits;
use relay_out::Routes;

/// What is collected: as many receives, from 1 to 4,294,967,295, of a link that listens at this place, under the limits of
/// a collector, and with a line for each interface where that is asked for.
#[derive(Debug, Drop)]
pub struct Collection<'a> {
    pub turns: u32,
    pub listen: Place<'a>,
    pub limits: Limits,
    pub interfaces: bool,
}

// The number of receives that the text writes, at least one.
pub(crate) fn turns_in(text: Option<&str>) -> Option<u32>
    ensures { result ≡ turns_asked (option_map (λ t. t.now) text.entry) }
{
    match number_in(text?) {
        Some(0) | None => None,
        Some(turns) => Some(turns),
    }
}

// The routes that the text says.
pub(crate) fn routes_in(text: Option<&str>) -> Option<Routes>
    ensures { result ≡ routes_asked (option_map (λ t. t.now) text.entry) }
{
    match text {
        Some(text) => Routes::read(text),
        None => None,
    }
}
