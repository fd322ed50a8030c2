ghost use Rattle.std.specs.Prelude.{◌≡◌, IfNone, IfSome};
ghost use Rattle.data_format.specs.Compact.{source_word, source_of, IsCompactSource};

/// What an agent takes samples of (sFlow Version 5, section 5).
#[derive(Clone, Copy, Debug, PartialEq, Eq, Hash)]
pub struct SourceId {
    /// What kind of source it is: 0 an interface (ifIndex), 1 a VLAN (smonVlanDataSource), 2 a physical entity
    /// (entPhysicalEntry). Others are accepted.
    pub class: u32,
    /// Which source of its kind.
    pub index: u32,
}

impl SourceId {
    /// The source of a word: the top 8 bits are the class, the lower 24 the index.
    #[inline(always)]
    pub fn from_compact(word: u32) -> SourceId
        ensures exact { result ≡ source_of word }
        ensures word { word ≡ source_word result }
        ensures compact { IsCompactSource result }
    {
        SourceId {
            class: word / 16_777_216,
            index: word % 16_777_216,
        }
    }

    /// The word of a source; `None` exactly where the class is above 255 or the index is 2^24 or more.
    #[inline(always)]
    pub fn compact(&self) -> Option<u32>
        ensures none { IfNone result (¬ IsCompactSource self.now) }
        ensures some { IfSome result (λ w. IsCompactSource self.now × (w ≡ source_word self.now)) }
        ensures inverse { IfSome result (λ w. source_of w ≡ self.now) }
    {
        if self.class > 255 || self.index >= 16_777_216 {
            return None;
        }
        Some(self.class * 16_777_216 + self.index)
    }
}
