//! Distinguished names.

ghost use Rattle.std.specs.Prelude.{◌≡◌, ◌↔◌, [], IsTrue, Some, IfOk, OnOk, OnErr};
ghost use Rattle.std.specs.Option.{option_copied};
ghost use Rattle.asn1_types.specs.Values.{arcs_of};
ghost use Rattle.name_types.specs.declared.name_attr.NameAttr.TheVariants as attributes;
ghost use Rattle.name_types.specs.declared.attribute_value.AttributeValue.TheVariants as values;
ghost use Rattle.name_types.specs.NameAttr.{attribute_arcs};
ghost use Rattle.name_types.specs.NameText.{email_address, name_text};
ghost use Rattle.names_core.specs.DirectoryName.{IsExtended, utf8_value, first_common_name};

use crate::common_name::first_common_name;
use asn1_types::{Ia5String, ObjectIdentifier};
use der_core::{DerError, Elem, ListOf, Structure, Tree};
use name_types::{
    AttributeTypeAndValue, AttributeValue, DirectoryString, Name, NameAttr,
    RelativeDistinguishedName, email_address_oid,
};
use std::alloc::{AllocError, Global};
use std::fmt::{self, Display};

/// A distinguished name, to be built, searched and printed.
#[derive(Debug, Drop)]
pub struct DirectoryName {
    name: Name,
}

/// Names in order.
pub type NameList = ListOf<DirectoryName>;

impl DirectoryName {
    /// The empty name.
    pub fn new(alloc: Global) -> DirectoryName
        ensures { result.name ≡ [] }
    {
        DirectoryName {
            name: Name::new(alloc),
        }
    }

    /// The name with a single attribute, this common name as a UTF8String.
    pub fn new_common_name(alloc: Global, name: &str) -> Result<DirectoryName, AllocError>
        ensures { IfOk result (λ made. IsExtended (attribute_arcs attributes.CommonName)
            (utf8_value name.now) [] made.name) }
    {
        let mut made = DirectoryName::new(alloc);
        made.add_attr(NameAttr::CommonName, name)?;
        Ok(made)
    }

    /// The first common name, sets and their members in order; `None` if there is none. A common
    /// name whose value isn't a DirectoryString is skipped.
    pub fn find_common_name(&self) -> Option<&DirectoryString>
        ensures { option_copied result ≡ first_common_name self.now.name }
    {
        first_common_name(self.name.as_slice())
    }

    /// Appends a set with one attribute of this type, whose value is the text as a UTF8String.
    pub fn add_attr(&mut self, attr: NameAttr, value: &str) -> Result<(), AllocError>
        ensures ok { OnOk result
            (IsExtended (attribute_arcs attr) (utf8_value value.now) self.old.name self.new.name) }
        ensures err { OnErr result (self.new ≡ self.old) }
    {
        let alloc = self.name.allocator();
        let ty = attr.to_oid(alloc)?;
        let string = DirectoryString::from_text(alloc, value)?;
        self.add(ty, AttributeValue::DirectoryString(string))
    }

    /// Appends a set with one attribute, an email address (RFC 2985 5.2.1).
    pub fn add_email(&mut self, value: Ia5String) -> Result<(), AllocError>
        ensures ok { OnOk result
            (IsExtended email_address (values.Ia5String value) self.old.name self.new.name) }
        ensures err { OnErr result (self.new ≡ self.old) }
    {
        let ty = email_address_oid(self.name.allocator())?;
        self.add(ty, AttributeValue::Ia5String(value))
    }

    /// Appends a set with one attribute.
    fn add(&mut self, ty: ObjectIdentifier, value: AttributeValue) -> Result<(), AllocError>
        ensures ok { OnOk result (IsExtended (arcs_of ty) value self.old.name self.new.name) }
        ensures err { OnErr result (self.new ≡ self.old) }
    {
        let mut set = RelativeDistinguishedName::new(self.name.allocator());
        set.push(AttributeTypeAndValue { ty, value })?;
        self.name.push(set)?;
        Ok(())
    }

    /// A copy of the name.
    pub fn try_clone(&self, alloc: Global) -> Result<DirectoryName, AllocError>
        ensures { IfOk result (λ copy. copy ≡ self.now) }
    {
        Ok(DirectoryName {
            name: self.name.try_clone(alloc)?,
        })
    }
}

impl From<Name> for DirectoryName {
    ghost from_gives = { λ name made. made.name ≡ name };

    fn from(name: Name) -> DirectoryName {
        DirectoryName { name }
    }
}

impl From<DirectoryName> for Name {
    ghost from_gives = { λ made name. name ≡ made.name };

    fn from(made: DirectoryName) -> Name {
        let DirectoryName { name } = made;
        name
    }
}

impl fmt::Display for DirectoryName {
    ghost output = { λ made. Some (name_text made.name) };

    fn fmt<W: fmt::Write>(&self, f: &mut fmt::Formatter<W>) -> fmt::Result {
        self.name.fmt(f)
    }
}

/// A distinguished name is read and written as its Name.
impl Structure for DirectoryName {
    ghost use Rattle.name_types.specs.Name.{name};
    ghost use Rattle.names_core.specs.Facts.{directory_names};

    ghost written = { λ made. name made.name };

    ghost spells = { λ element made. element ≡ name made.name };

    fn has_shape(elem: Elem<'_>) -> bool {
        Name::has_shape(elem)
    }

    fn read_at(alloc: Global, elem: Elem<'_>) -> Result<DirectoryName, DerError> {
        Ok(DirectoryName {
            name: Name::read_at(alloc, elem)?,
        })
    }

    fn write(&self, alloc: Global) -> Result<Tree, DerError> {
        self.name.write(alloc)
    }

    fn try_clone(&self, alloc: Global) -> Result<DirectoryName, AllocError> {
        DirectoryName::try_clone(self, alloc)
    }

    ghost grammar = { directory_names };
}

/// Names are equal exactly if their encodings are.
impl PartialEq for DirectoryName {
    ghost use Rattle.der_core.specs.Equality.{same_octets};
    ghost use Rattle.der_core.specs.Facts.Equality.{same_octets_per};
    ghost use Rattle.name_types.specs.Name.{name};

    ghost eq = { same_octets (λ made. name made.name) };

    ghost laws = { same_octets_per (λ made. name made.name) };

    fn eq(&self, other: &DirectoryName) -> bool
        ensures octets { result ≡ same_octets (λ made. name made.name) self.now other.now }
        ensures same { IsTrue result ↔ (self.now ≡ other.now) }
    {
        self.name == other.name
    }
}

impl Eq for DirectoryName {
    ghost use Rattle.der_core.specs.Facts.Equality.{same_octets_equiv};
    ghost use Rattle.name_types.specs.Name.{name};

    ghost laws = { same_octets_equiv (λ made. name made.name) };
}
