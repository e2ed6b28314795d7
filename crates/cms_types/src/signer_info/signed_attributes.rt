//! The signed attributes of a signer, stored with their encoding.

ghost use Rattle.std.specs.Prelude.{◌≡◌};
ghost use Rattle.der_core.specs.Each.{Prints};
ghost use Rattle.x509_types.specs.Attribute.{AreAttributes};

use der_core::{DerError, Elem, Raw, Structure, Tree, has_list, read_list};
use std::alloc::{AllocError, Global};
use x509_types::{Attribute, AttributeList};

/// The tag of signed attributes in a SignerInfo (RFC 5652 5.3).
pub const SIGNED_ATTRIBUTES: u8 = 0xA0;

/// The attributes that a signer signs, with the element that they were read from (RFC 5652 5.3):
/// its octets are what is signed. An empty set is read, too.
#[derive(Debug, Drop)]
pub struct SignedAttributes {
    element: Raw,
    list: AttributeList,
    pub ghost are: { ∥ AreAttributes element.element list ∥₁ },
}

impl SignedAttributes {
    /// The element, with the tag that it has in a signer.
    pub fn element(&self) -> &Raw
        ensures { result.now ≡ self.now.element }
    {
        &self.element
    }

    /// The attributes in order.
    pub fn list(&self) -> &AttributeList
        ensures { result.now ≡ self.now.list }
    {
        &self.list
    }
}

impl Structure for SignedAttributes {
    ghost use Rattle.cms_types.specs.SignedAttributesElement.{signed_attributes};
    ghost use Rattle.cms_types.specs.Facts.Signed.{all_signed_attributes};

    ghost written = { signed_attributes };

    ghost spells = { Prints signed_attributes };

    fn has_shape(elem: Elem<'_>) -> bool {
        has_list::<Attribute>(elem, SIGNED_ATTRIBUTES)
    }

    fn read_at(alloc: Global, elem: Elem<'_>) -> Result<SignedAttributes, DerError> {
        let list = read_list(alloc, elem, SIGNED_ATTRIBUTES)?;
        let element = Raw::from_elem(alloc, elem)?;
        Ok(SignedAttributes { element, list })
    }

    fn write(&self, alloc: Global) -> Result<Tree, DerError> {
        Ok(self.element.tree(alloc)?)
    }

    fn try_clone(&self, alloc: Global) -> Result<SignedAttributes, AllocError> {
        Ok(SignedAttributes {
            element: self.element.try_clone(alloc)?,
            list: self.list.try_clone(alloc)?,
        })
    }

    ghost grammar = { all_signed_attributes };
}

/// Signed attributes are equal exactly where their elements are, which determine the attributes.
impl PartialEq for SignedAttributes {
    ghost use Rattle.std.specs.Prelude.{◌↔◌, IsTrue};
    ghost use Rattle.der_core.specs.Equality.{same_octets};
    ghost use Rattle.der_core.specs.Facts.Equality.{same_octets_per};
    ghost use Rattle.cms_types.specs.SignedAttributesElement.{signed_attributes};

    ghost eq = { same_octets signed_attributes };

    ghost laws = { same_octets_per signed_attributes };

    fn eq(&self, other: &SignedAttributes) -> bool
        ensures octets { result ≡ same_octets signed_attributes self.now other.now }
        ensures same { IsTrue result ↔ (self.now ≡ other.now) }
    {
        self.element == other.element
    }
}

impl Eq for SignedAttributes {
    ghost use Rattle.der_core.specs.Facts.Equality.{same_octets_equiv};
    ghost use Rattle.cms_types.specs.SignedAttributesElement.{signed_attributes};

    ghost laws = { same_octets_equiv signed_attributes };
}
