// Lists of sources.
ghost use Rattle.std.specs.Prelude.{◌≡◌, true, false, slice_get, Some, IfSome, IfNone};
ghost use Rattle.agent_setups.specs.Ids.{is_among, has_twice, has_great_class, has_great_index};

use data_format::SourceId;

/// The place of a source, if it is one of these.
pub fn place_of(ids: &[SourceId], source: SourceId) -> Option<usize>
    ensures some { IfSome result (λ p. slice_get ids.now p ≡ Some source) }
    ensures here { IfSome result (λ p. is_among source ids.now ≡ true) }
    ensures none { IfNone result (is_among source ids.now ≡ false) }
{
    for (place, id) in ids.iter().enumerate() {
        if *id == source {
            return Some(place);
        }
    }
    None
}

/// Whether some source stands twice.
pub(crate) fn has_twice(ids: &[SourceId]) -> bool
    ensures { result ≡ has_twice ids.now }
{
    for (place, id) in ids.iter().enumerate() {
        if place_of(&ids[place + 1..], *id).is_some() {
            return true;
        }
    }
    false
}

/// Whether some class is above 255.
pub(crate) fn has_great_class(ids: &[SourceId]) -> bool
    ensures { result ≡ has_great_class ids.now }
{
    for id in ids {
        if id.class > 255 {
            return true;
        }
    }
    false
}

/// Whether some index is 2^24 or more.
pub(crate) fn has_great_index(ids: &[SourceId]) -> bool
    ensures { result ≡ has_great_index ids.now }
{
    for id in ids {
        if id.index >= 16_777_216 {
            return true;
        }
    }
    false
}
