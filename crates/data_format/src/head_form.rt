ghost use Rattle.std.specs.Prelude.{IfOk};
ghost use Rattle.wire_spec.specs.Reading.{members_at};
ghost use Rattle.wire_spec.specs.Shapes.{Shapes, Trees};
ghost use Rattle.wire_spec.specs.Spelling.{spell_all};
ghost use Rattle.xdr_words.specs.Readers.{Reads, remaining};
ghost use Rattle.xdr_words.specs.Written.{Puts};

use wire_spec::Fault;
use xdr_words::{Cursor, Out, OutFull};

/// How the head of a sample is spelled, which stands before its records (sFlow Version 5, section 5).
pub trait HeadForm<H> {
    /// The shapes of its members, in the order of the wire.
    ghost members: { Shapes };

    /// Their values.
    ghost trees: { H → Trees };

    /// Each part of the head is within the range that its member has for it.
    ghost fits: { H → Type 0 };

    /// The head that stands there. A fault, `Short` at the first word that isn't all there, leaves the cursor as it was.
    fn take(cursor: &mut Cursor<'_>) -> Result<H, Fault>
        ensures exact { Reads trees (λ f. f) cursor.old cursor.new result (members_at cursor.old.pad members (remaining cursor.old)) }
        ensures form { IfOk result (λ h. fits h) };

    /// The head, whole or not at all.
    fn put(head: &H, out: &mut Out<'_>) -> Result<(), OutFull>
        requires { fits head.now }
        ensures { Puts out.old out.new result (spell_all (trees head.now)) };
}
