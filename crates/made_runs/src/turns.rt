// Which packets of a run have something behind them. Packets are numbered from 1.
ghost use Rattle.std.specs.Prelude.{◌≡◌};
ghost use Rattle.trial_spec.specs.Made as made;

/// Whether a poll and a send come behind the packet of this number, of so many.
pub fn is_sent(total: u32, number: u32) -> bool
    ensures { result ≡ made.is_sent total number }
{
    number % 32 == 0 || (number == total || number == total / 2)
}

/// Whether a restart comes behind the packet of this number, of so many.
pub fn is_last_of_boot(total: u32, number: u32) -> bool
    ensures { result ≡ made.is_last_of_boot total number }
{
    number == total / 2 && !(number == total)
}
