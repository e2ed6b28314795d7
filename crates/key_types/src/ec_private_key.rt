//! Private keys of elliptic curves.

ghost use Rattle.std.specs.Prelude.{◌≡◌, ◌≢◌, ◌↔◌, IsTrue, Option, MatchOption};
ghost use Rattle.der_core.specs.DerElement.{DerElement};
ghost use Rattle.der_core.specs.BorrowedOption.{at_option};
ghost use Rattle.key_types.specs.ECPrivateKey.{ec_private_key, ec_private_key_of};

use asn1_types::{BitString, ObjectIdentifier};
use der_core::tag::{INTEGER, SEQUENCE};
use der_core::{
    DerError, Elem, Kids, NewKids, Octets, Structure, Tree, copy_option, expect_leaf, has_option,
    leaf, push_explicit, read_option,
};
use std::alloc::{AllocError, Global};

/// The contents octets of the version, which is 1.
const VERSION: [u8; 1] = [1];

const PARAMETERS: u8 = 0xA0;

const PUBLIC_KEY: u8 = 0xA1;

/// A private key of an elliptic curve (RFC 5915 3): the octets of the secret number; optionally the
/// OID of the curve and the public key, a point. The number of octets, the curve, and whether the
/// point belongs to the number aren't checked. It has no `Debug`, so no secret is printed by
/// mistake.
pub struct ECPrivateKey {
    pub private_key: Octets,
    pub parameters: Option<ObjectIdentifier>,
    pub public_key: Option<BitString>,
}

/// Overwrites the secret number.
impl Drop for ECPrivateKey {
    fn drop(self) {
        let ECPrivateKey {
            private_key,
            parameters: _parameters,
            public_key: _public_key,
        } = self;
        private_key.overwrite();
    }
}

/// The fields of a borrowed private key, each as any element.
#[derive(Clone, Copy)]
struct Fields<'a> {
    private_key: Elem<'a>,
    parameters: Option<Elem<'a>>,
    public_key: Option<Elem<'a>>,
}

impl<'a> Fields<'a> {
    /// The fields of the element.
    fn of(elem: Elem<'a>) -> Option<Fields<'a>>
        ensures { MatchOption result
            ((private_key : DerElement) (parameters public_key : Option DerElement)
            → elem.entry.is.0 ≢ ec_private_key_of private_key parameters public_key)
            (λ f. elem.entry.is.0 ≡ ec_private_key_of f.private_key.is.0 (at_option f.parameters)
            (at_option f.public_key)) }
    {
        let mut kids = Kids::of(elem, SEQUENCE)?;
        expect_leaf(kids.next()?, INTEGER, &VERSION)?;
        let private_key = kids.next()?;
        let parameters = kids.next_explicit(PARAMETERS)?;
        let public_key = kids.next_explicit(PUBLIC_KEY)?;
        kids.end()?;
        Some(Fields {
            private_key,
            parameters,
            public_key,
        })
    }
}

impl Structure for ECPrivateKey {
    ghost use Rattle.key_types.specs.Facts.ECPrivateKeys.{ec_private_keys};

    ghost written = { ec_private_key };

    ghost spells = { λ element key. element ≡ ec_private_key key };

    fn has_shape(elem: Elem<'_>) -> bool {
        match Fields::of(elem) {
            Some(fields) => {
                Octets::has_shape(fields.private_key)
                    && has_option::<ObjectIdentifier>(fields.parameters)
                    && has_option::<BitString>(fields.public_key)
            }
            None => false,
        }
    }

    fn read_at(alloc: Global, elem: Elem<'_>) -> Result<ECPrivateKey, DerError> {
        let Some(fields) = Fields::of(elem) else {
            return Err(DerError::Shape);
        };
        let parameters = read_option(alloc, fields.parameters)?;
        let public_key = read_option(alloc, fields.public_key)?;
        // The secret comes last: nothing is refused after it, so it is only dropped inside a key.
        let private_key = Octets::read_at(alloc, fields.private_key)?;
        Ok(ECPrivateKey {
            private_key,
            parameters,
            public_key,
        })
    }

    fn write(&self, alloc: Global) -> Result<Tree, DerError> {
        let mut kids = NewKids::new(alloc);
        kids.push(leaf(alloc, INTEGER, &VERSION)?)?;
        kids.push(self.private_key.write(alloc)?)?;
        push_explicit(alloc, &mut kids, PARAMETERS, &self.parameters)?;
        push_explicit(alloc, &mut kids, PUBLIC_KEY, &self.public_key)?;
        Ok(kids.into_branch(SEQUENCE))
    }

    fn try_clone(&self, alloc: Global) -> Result<ECPrivateKey, AllocError> {
        let parameters = copy_option(alloc, &self.parameters)?;
        let public_key = copy_option(alloc, &self.public_key)?;
        Ok(ECPrivateKey {
            private_key: self.private_key.try_clone(alloc)?,
            parameters,
            public_key,
        })
    }

    ghost grammar = { ec_private_keys };
}

/// Keys are equal exactly if their encodings are. The comparison doesn't run in constant time.
impl PartialEq for ECPrivateKey {
    ghost use Rattle.der_core.specs.Equality.{same_octets};
    ghost use Rattle.der_core.specs.Facts.Equality.{same_octets_per};

    ghost eq = { same_octets ec_private_key };

    ghost laws = { same_octets_per ec_private_key };

    fn eq(&self, other: &ECPrivateKey) -> bool
        ensures octets { result ≡ same_octets ec_private_key self.now other.now }
        ensures same { IsTrue result ↔ (self.now ≡ other.now) }
    {
        self.private_key == other.private_key
            && self.parameters == other.parameters
            && self.public_key == other.public_key
    }
}

impl Eq for ECPrivateKey {
    ghost use Rattle.der_core.specs.Facts.Equality.{same_octets_equiv};

    ghost laws = { same_octets_equiv ec_private_key };
}
