//! The texts of names.

ghost use Rattle.std.specs.Prelude.{Some, ◌++◌, codes};
ghost use Rattle.std.specs.Fmt.{WritesOnOk};
ghost use Rattle.hex.specs.Hex.{encode_lower};
ghost use Rattle.der_core.specs.Encoding.{encoding};
ghost use Rattle.asn1_types.specs.Values.{arcs_of};
ghost use Rattle.name_types.specs.NameText.{attribute_text, name_text, set_text, type_descriptor, value_text};

use crate::attribute::AttributeTypeAndValue;
use crate::attribute_value::AttributeValue;
use crate::email::is_email_address;
use crate::name::Name;
use crate::name_attr::NameAttr;
use crate::other_value::OtherValue;
use crate::relative_name::RelativeDistinguishedName;
use asn1_types::ObjectIdentifier;
use der_core::write_hexadecimal;
use std::fmt::{self, Display};

impl fmt::Display for OtherValue {
    ghost output = { λ value. Some (codes "#" ++ encode_lower (encoding value.element.element)) };

    fn fmt<W: fmt::Write>(&self, f: &mut fmt::Formatter<W>) -> fmt::Result {
        f.write_str("#")?;
        write_hexadecimal(self.element().as_bytes(), f)
    }
}

impl fmt::Display for AttributeValue {
    ghost output = { λ value. Some (value_text value) };

    fn fmt<W: fmt::Write>(&self, f: &mut fmt::Formatter<W>) -> fmt::Result {
        match self {
            AttributeValue::DirectoryString(string) => string.fmt(f),
            AttributeValue::Ia5String(string) => f.write_str(string.as_str()),
            AttributeValue::Other(value) => value.fmt(f),
        }
    }
}

impl fmt::Display for AttributeTypeAndValue {
    ghost output = { λ attribute. Some (attribute_text attribute) };

    fn fmt<W: fmt::Write>(&self, f: &mut fmt::Formatter<W>) -> fmt::Result {
        write_type(&self.ty, f)?;
        f.write_str("=")?;
        self.value.fmt(f)
    }
}

/// The descriptor of an attribute type, or the dotted text of its OID.
fn write_type<W: fmt::Write>(ty: &ObjectIdentifier, f: &mut fmt::Formatter<W>) -> fmt::Result
    ensures { WritesOnOk W.write_str_gives f.old result (type_descriptor (arcs_of ty.now)) f.new }
{
    if let Some(attr) = NameAttr::from_contents(ty.as_bytes()) {
        return f.write_str(attr.descriptor());
    }
    if is_email_address(ty) {
        return f.write_str("EMAIL");
    }
    ty.fmt(f)
}

impl fmt::Display for RelativeDistinguishedName {
    ghost output = { λ members. Some (set_text members) };

    fn fmt<W: fmt::Write>(&self, f: &mut fmt::Formatter<W>) -> fmt::Result {
        let Some((first, others)) = self.as_slice().split_first() else {
            return Ok(());
        };
        first.fmt(f)?;
        for member in others {
            f.write_str("+")?;
            member.fmt(f)?;
        }
        Ok(())
    }
}

/// Prints the name for people, without escapes. Different names may print alike, so no rule depends
/// on the text.
impl fmt::Display for Name {
    ghost output = { λ sets. Some (name_text sets) };

    fn fmt<W: fmt::Write>(&self, f: &mut fmt::Formatter<W>) -> fmt::Result {
        let Some((first, others)) = self.as_slice().split_first() else {
            return Ok(());
        };
        first.fmt(f)?;
        for set in others {
            f.write_str(",")?;
            set.fmt(f)?;
        }
        Ok(())
    }
}
