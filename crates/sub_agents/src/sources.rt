// The sources of flow samples of a sub-agent.
ghost use Rattle.std.specs.Prelude.{◌≡◌, ℕ, ◌+◌, true};
ghost use Rattle.agent_spec.specs.Marks.{is_marked};
ghost use Rattle.agent_sampler.specs.Following.{FlowCounts, with_packet, none_yet};
ghost use Rattle.sub_agents.specs.Counts.{flow_setup, HasCounts, taken_of, is_issued};

use agent_sampler::{Marks, Sampler, Verdict};
use data_format::SourceId;

/// A source of flow samples.
#[derive(Drop)]
pub(crate) struct FlowSource {
    /// What is sampled.
    pub source: SourceId,
    /// The sampling rate that samples show.
    pub rate: u32,
    /// Its counts.
    pub sampler: Sampler,
}

/// What comes of a packet of a source.
#[derive(Clone, Copy)]
pub(crate) enum Taken {
    /// It isn't marked.
    Passed,
    /// It is marked, but there is no place for its sample.
    Dropped,
    /// A sample of it is issued, which shows these words.
    Issued(Marks),
}

impl FlowSource {
    /// Counts a packet, of which a sample is issued where it is marked and there is a place.
    pub fn take(&mut self, has_place: bool) -> Taken
        ensures counts { (c : FlowCounts) → HasCounts c self.old
            → HasCounts (with_packet (is_marked self.old.sampler.skips (1 + c.packets)) has_place c) self.new }
        ensures taken { (c : FlowCounts) → HasCounts c self.old
            → result ≡ taken_of self.old.sampler.begin (is_marked self.old.sampler.skips (1 + c.packets)) has_place c }
        ensures place { is_issued result ≡ true → has_place ≡ true }
        ensures setup { flow_setup self.new ≡ flow_setup self.old }
        ensures source { self.new.source ≡ self.old.source }
    {
        match self.sampler.observe() {
            Verdict::Passed => Taken::Passed,
            Verdict::Marked => {
                if !has_place {
                    self.sampler.drop_one();
                    return Taken::Dropped;
                }
                let marks = self.sampler.marks();
                self.sampler.issue();
                Taken::Issued(marks)
            }
        }
    }

    /// Begins anew.
    pub fn restart(&mut self)
        ensures counts { HasCounts none_yet self.new }
        ensures setup { flow_setup self.new ≡ flow_setup self.old }
        ensures source { self.new.source ≡ self.old.source }
    {
        self.sampler.restart();
    }
}
