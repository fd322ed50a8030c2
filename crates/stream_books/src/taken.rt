ghost use Rattle.std.specs.Prelude.{◌≡◌};
ghost use Rattle.stream_books.specs.Receipts.{receipt_of};

use books_spec::Taken;
use late_window::Entered;

/// What is answered to a datagram of a stream.
#[derive(Debug, Clone, Copy, PartialEq, Eq)]
pub struct Receipt {
    /// The answer.
    pub taken: Taken,
    /// The number that its sequence word stands for in its boot, where it is First; else 0.
    pub number: i128,
}

/// What is answered to a datagram of the current boot whose number was answered so.
pub fn receipt_by(entered: Entered) -> Receipt
    ensures { result ≡ receipt_of entered }
{
    match entered {
        Entered::First { number, .. } => Receipt {
            taken: Taken::First,
            number,
        },
        Entered::Repeat => Receipt {
            taken: Taken::Repeat,
            number: 0,
        },
        Entered::Late => Receipt {
            taken: Taken::Late,
            number: 0,
        },
    }
}
