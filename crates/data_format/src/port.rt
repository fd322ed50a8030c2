ghost use Rattle.std.specs.Prelude.{◌≡◌, IfNone, IfSome};
ghost use Rattle.data_format.specs.Compact.{port_word, port_of, IsCompactPort};

/// Where a packet came in or went out (sFlow Version 5, section 5).
#[derive(Clone, Copy, Debug, PartialEq, Eq)]
pub struct Port {
    /// What the value says: 0 a single interface, 1 why the packet was discarded, 2 out of how many interfaces it
    /// went. Others are accepted.
    pub form: u32,
    /// The index of the interface, the reason, or the number of interfaces.
    pub value: u32,
}

impl Port {
    /// The port of a word: the top 2 bits are the form, the lower 30 the value.
    #[inline(always)]
    pub fn from_compact(word: u32) -> Port
        ensures exact { result ≡ port_of word }
        ensures word { word ≡ port_word result }
        ensures compact { IsCompactPort result }
    {
        Port {
            form: word / 1_073_741_824,
            value: word % 1_073_741_824,
        }
    }

    /// The word of a port; `None` exactly where the form is above 3 or the value is 2^30 or more.
    #[inline(always)]
    pub fn compact(&self) -> Option<u32>
        ensures none { IfNone result (¬ IsCompactPort self.now) }
        ensures some { IfSome result (λ w. IsCompactPort self.now × (w ≡ port_word self.now)) }
        ensures inverse { IfSome result (λ w. port_of w ≡ self.now) }
    {
        if self.form > 3 || self.value >= 1_073_741_824 {
            return None;
        }
        Some(self.form * 1_073_741_824 + self.value)
    }
}
