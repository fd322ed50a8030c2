ghost use Rattle.std.specs.Prelude.{◌≡◌, ◌≤◌, length};
ghost use Rattle.wire_spec.specs.Reading.{fixed_at};
ghost use Rattle.wire_spec.specs.Shapes.{Tree};
ghost use Rattle.xdr_words.specs.ItemTrees.{item_tree, Fits};
ghost use Rattle.xdr_words.specs.Items.{fault_of};
ghost use Rattle.xdr_words.specs.Readers.{Reads, remaining};

use xdr_words::{Cursor, Item, XdrFault};

/// So many bytes and their padding.
#[inline(always)]
pub fn take_array<const N: usize>(cursor: &mut Cursor<'_>) -> Result<[u8; N], XdrFault>
    requires { N ≤ 65535 }
    ensures { Reads (λ v. v) fault_of cursor.old cursor.new result (fixed_at cursor.old.pad N (remaining cursor.old)) }
{
    let mut array = [0; N];
    array.copy_from_slice(cursor.fixed(N)?);
    Ok(array)
}

/// The bytes of an array as one item.
#[inline(always)]
pub fn fixed<const N: usize>(bytes: &[u8; N]) -> Item<'_>
    requires { N ≤ 65535 }
    ensures length { length bytes.now ≡ N }
    ensures tree { item_tree result ≡ Tree.fixed bytes.now }
    ensures fits { Fits result }
{
    let _ = bytes.len();
    Item::Fixed(bytes)
}
