ghost use Rattle.std.specs.Prelude.{◌≡◌, ◌+◌, ◌*◌, ◌<◌, ◌^◌};

/// The format of a sample or a record (sFlow Version 5, section 5).
#[derive(Clone, Copy, Debug, PartialEq, Eq)]
pub struct Format {
    /// Who defines the format, below 2^20; 0 is the standard itself.
    pub enterprise: u32,
    /// Which of its formats, below 2^12.
    pub number: u32,
}

impl Format {
    /// The format of a word: the upper 20 bits are the enterprise, the lower 12 the number.
    #[inline(always)]
    pub fn from_word(word: u32) -> Format
        ensures word { word ≡ result.enterprise * 4096 + result.number }
        ensures enterprise { result.enterprise < 2 ^ 20 }
        ensures number { result.number < 2 ^ 12 }
    {
        Format {
            enterprise: word / 4096,
            number: word % 4096,
        }
    }

    /// The word of a format, whose enterprise is below 2^20 and whose number is below 2^12.
    #[inline(always)]
    pub fn to_word(&self) -> u32
        requires enterprise { self.now.enterprise < 2 ^ 20 }
        requires number { self.now.number < 2 ^ 12 }
        ensures { result ≡ self.now.enterprise * 4096 + self.now.number }
    {
        self.enterprise * 4096 + self.number
    }
}

/// A sample or a record as it stands in a datagram: its format, and the bytes of its body without their padding.
#[derive(Clone, Copy, Debug, Drop)]
pub struct Frame<'a> {
    /// The format.
    pub format: Format,
    /// The body, without the padding behind it.
    pub body: &'a [u8],
    /// The place of the body's first byte: bytes from the datagram's first byte on.
    pub at: usize,
}
