//! The common name in a name.

ghost use Rattle.std.specs.Prelude.{◌≡◌, filter_map};
ghost use Rattle.std.specs.List.{slice_get};
ghost use Rattle.std.specs.Option.{option_copied};
ghost use Rattle.names_core.specs.DirectoryName.{common_name_of, first_common_name};

use name_types::{
    AttributeTypeAndValue, AttributeValue, DirectoryString, NameAttr, RelativeDistinguishedName,
};

/// The first common name in the sets, `None` if there is none.
pub fn first_common_name(sets: &[RelativeDistinguishedName]) -> Option<&DirectoryString>
    ensures { option_copied result ≡ first_common_name sets.now }
{
    let mut rest = sets;
    while let Some((set, others)) = rest.split_first() {
        let found = first_in(set.as_slice());
        if found.is_some() {
            return found;
        }
        rest = others;
    }
    None
}

/// The first common name in a set, `None` if there is none.
fn first_in(members: &[AttributeTypeAndValue]) -> Option<&DirectoryString>
    ensures { option_copied result ≡ slice_get (filter_map common_name_of members.now) 0 }
{
    let mut rest = members;
    while let Some((attribute, others)) = rest.split_first() {
        let found = common_name_of(attribute);
        if found.is_some() {
            return found;
        }
        rest = others;
    }
    None
}

/// The string of an attribute that is a common name; `None` for any other attribute, and for a
/// common name that is no DirectoryString.
fn common_name_of(attribute: &AttributeTypeAndValue) -> Option<&DirectoryString>
    ensures { option_copied result ≡ common_name_of attribute.now }
{
    if !NameAttr::CommonName.is_type(&attribute.ty) {
        return None;
    }
    match &attribute.value {
        AttributeValue::DirectoryString(string) => Some(string),
        AttributeValue::Ia5String(_) | AttributeValue::Other(_) => None,
    }
}
