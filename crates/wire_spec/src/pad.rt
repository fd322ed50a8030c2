/// How the padding after opaque bytes is read (RFC 4506 section 3).
#[derive(Clone, Copy, Debug, PartialEq, Eq)]
pub enum Pad {
    /// Padding bytes may have any value.
    Any,
    /// Each padding byte is zero, as the standard asks of a writer.
    Zero,
}
