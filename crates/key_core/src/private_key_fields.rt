//! Private keys with their algorithms, borrowed.

ghost use Rattle.std.specs.Prelude.{◌≡◌, ◌≢◌, false, ℕ, List, Option, IsTrue, MatchOption, MatchResult};
ghost use Rattle.std.specs.Option.{option_copied};
ghost use Rattle.der_core.specs.DerElement.{DerElement};
ghost use Rattle.der_core.specs.BorrowedOption.{at_option};
ghost use Rattle.key_core.specs.PrivateKeyVersion.{key_version};
ghost use Rattle.key_core.specs.PrivateKeyFields.{HaveTag, private_key_info_of};
ghost use Rattle.key_core.specs.declared.private_key_version.PrivateKeyVersion.{PrivateKeyVersion};

use crate::private_key_version::PrivateKeyVersion;
use der_core::tag::{OCTET_STRING, SEQUENCE};
use der_core::{Elem, Kids, leaf_at};

/// The tag of the attributes.
pub(crate) const ATTRIBUTES: u8 = 0xA0;

/// The tag of the public key.
pub(crate) const PUBLIC_KEY: u8 = 0x81;

/// The fields of a PrivateKeyInfo, borrowed: the algorithm as any element, the attributes as any
/// element with their tag, the keys as octets (RFC 5958 2).
#[derive(Clone, Copy)]
pub(crate) struct PrivateKeyFields<'a> {
    pub version: PrivateKeyVersion,
    pub algorithm: Elem<'a>,
    pub private_key: &'a [u8],
    pub attributes: Option<Elem<'a>>,
    pub public_key: Option<&'a [u8]>,
}

impl<'a> PrivateKeyFields<'a> {
    /// The fields of the element.
    pub fn of(elem: Elem<'a>) -> Option<PrivateKeyFields<'a>>
        ensures { MatchOption result
            ((v : PrivateKeyVersion) (algorithm : DerElement) (private_key : List ℕ)
            (attributes : Option DerElement) (public_key : Option (List ℕ))
            → HaveTag attributes
            → elem.entry.is.0 ≢ private_key_info_of (key_version v) algorithm private_key
            attributes public_key)
            (λ f. (elem.entry.is.0 ≡ private_key_info_of (key_version f.version) f.algorithm.is.0
            f.private_key.now (at_option f.attributes) (option_copied f.public_key))
            × HaveTag (at_option f.attributes)) }
    {
        let mut kids = Kids::of(elem, SEQUENCE)?;
        let version = PrivateKeyVersion::at(kids.next()?)?;
        let algorithm = kids.next()?;
        let private_key = leaf_at(kids.next()?, OCTET_STRING)?;
        let attributes = kids.next_tagged(ATTRIBUTES);
        let public_key = kids.next_leaf(PUBLIC_KEY);
        kids.end()?;
        Some(PrivateKeyFields {
            version,
            algorithm,
            private_key,
            attributes,
            public_key,
        })
    }
}
