// Which samples are First.
ghost use Rattle.std.specs.Prelude.{◌≡◌};
ghost use Rattle.count_spec.specs.Windows.{is_first as is_first_entered};
ghost use Rattle.books_spec.specs.SampledHeaders.{is_first_booked};
ghost use Rattle.flow_collector.specs.Steps.{is_first_at};

use collector_tables::EnteredAt;
use stream_books::{Booked, Entered};

/// Whether a sample that was entered so is First.
pub(crate) fn is_first_at(entered: &Option<EnteredAt>) -> bool
    ensures { result ≡ is_first_at entered.now }
{
    match entered {
        Some(entered) => is_first_booked(entered.booked),
        None => false,
    }
}

// Whether a sample that was answered so is First.
fn is_first_booked(booked: Booked) -> bool
    ensures { result ≡ is_first_booked booked }
{
    match booked {
        Booked::Entered(answer) => is_first_entered(answer),
        Booked::Past => false,
    }
}

fn is_first_entered(answer: Entered) -> bool
    ensures { result ≡ is_first_entered answer }
{
    match answer {
        Entered::First { .. } => true,
        Entered::Repeat => false,
        Entered::Late => false,
    }
}
