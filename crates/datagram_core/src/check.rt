ghost use Rattle.std.specs.Prelude.{◌≡◌};
ghost use Rattle.data_format.specs.Trees.{table_test};
ghost use Rattle.datagram_core.specs.Tables.{samples_read};

use crate::Sample;
use data_format::{BodyCheck, Fault, Frame};
use wire_spec::Pad;

/// The check of a datagram's samples: the first fault of a sample whose format is read.
#[derive(Clone, Copy, Drop)]
pub struct SampleCheck;

impl BodyCheck for SampleCheck {
    ghost test = { λ _ p f. table_test p samples_read f };

    fn check(&self, frame: Frame<'_>, pad: Pad) -> Result<(), Fault> {
        Sample::read(frame, pad)?;
        Ok(())
    }
}
