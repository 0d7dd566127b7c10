//! The elements of a list, place by place.

ghost use Rattle.std.specs.Prelude.{◌≡◌, ◌<◌, length, slice_index_or};
ghost use Rattle.key_elements.specs.declared.element.Element.{Element};

use key_elements::{Element, ElementList};

// The element at a place.
pub(crate) fn element_at(list: &ElementList, place: u64) -> &Element
    requires { place < length list.now }
    ensures { (d : Element) → result.now ≡ slice_index_or list.now place d }
{
    list.get(place).unwrap()
}
