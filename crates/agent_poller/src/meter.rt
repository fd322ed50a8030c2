ghost use Rattle.std.specs.Prelude.{◌≡◌, [], IfOk, OnOk, OnErr};
ghost use Rattle.rec_counters.specs.Contents.{interface_content};
ghost use Rattle.agent_spec.specs.Counting.{next_count};

use data_format::{Failed, SourceId};
use rec_counters::IfCounters;

/// What reads the counters of interfaces.
pub trait Meter {
    ghost use Rattle.std.specs.Prelude.{ℕ};
    ghost use Rattle.data_format.specs.Records.{Content};
    ghost use Rattle.data_format.specs.declared.source.SourceId.{SourceId};

    /// Whether a read of a source gives these counters: the meter before it and after it.
    ghost gives: { Self → SourceId → Content → Self → Type 0 };

    /// How many reads have failed, up to 2^64 - 1.
    ghost faults: { Self → ℕ };

    /// The counters of a source, with no bytes behind the fields. `Failed` comes only where the count of faults
    /// rose in this call.
    fn read(&mut self, source: SourceId) -> Result<IfCounters<'static>, Failed>
        ensures gives { IfOk result (λ counters. gives self.old source (interface_content counters) self.new) }
        ensures tail { IfOk result (λ counters. counters.tail.now ≡ []) }
        ensures kept { OnOk result (faults self.new ≡ faults self.old) }
        ensures failed { OnErr result (faults self.new ≡ next_count (faults self.old)) };
}
