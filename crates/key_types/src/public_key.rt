//! RSA public keys.

ghost use Rattle.std.specs.Prelude.{◌≡◌, ◌↔◌, IsTrue};

use asn1_types::IntegerAsn1;
use der_core::tag::SEQUENCE;
use der_core::{DerError, Elem, NewKids, Structure, Tree, two_kids};
use std::alloc::{AllocError, Global};

/// An RSA public key (RFC 8017 A.1.1).
#[derive(Debug, Drop)]
pub struct RsaPublicKey {
    pub modulus: IntegerAsn1,
    pub public_exponent: IntegerAsn1,
}

impl Structure for RsaPublicKey {
    ghost use Rattle.key_types.specs.RsaPublicKey.{rsa_public_key};
    ghost use Rattle.key_types.specs.Facts.Algorithms.{rsa_public_keys};

    ghost written = { rsa_public_key };

    ghost spells = { λ element key. element ≡ rsa_public_key key };

    fn has_shape(elem: Elem<'_>) -> bool {
        match two_kids(elem, SEQUENCE) {
            Some((modulus, exponent)) => {
                IntegerAsn1::has_shape(modulus) && IntegerAsn1::has_shape(exponent)
            }
            None => false,
        }
    }

    fn read_at(alloc: Global, elem: Elem<'_>) -> Result<RsaPublicKey, DerError> {
        let Some((modulus, exponent)) = two_kids(elem, SEQUENCE) else {
            return Err(DerError::Shape);
        };
        let modulus = IntegerAsn1::read_at(alloc, modulus)?;
        let public_exponent = IntegerAsn1::read_at(alloc, exponent)?;
        Ok(RsaPublicKey {
            modulus,
            public_exponent,
        })
    }

    fn write(&self, alloc: Global) -> Result<Tree, DerError> {
        let mut kids = NewKids::new(alloc);
        kids.push(self.modulus.write(alloc)?)?;
        kids.push(self.public_exponent.write(alloc)?)?;
        Ok(kids.into_branch(SEQUENCE))
    }

    fn try_clone(&self, alloc: Global) -> Result<RsaPublicKey, AllocError> {
        Ok(RsaPublicKey {
            modulus: self.modulus.try_clone(alloc)?,
            public_exponent: self.public_exponent.try_clone(alloc)?,
        })
    }

    ghost grammar = { rsa_public_keys };
}

/// Keys are equal exactly if their encodings are.
impl PartialEq for RsaPublicKey {
    ghost use Rattle.der_core.specs.Equality.{same_octets};
    ghost use Rattle.der_core.specs.Facts.Equality.{same_octets_per};
    ghost use Rattle.key_types.specs.RsaPublicKey.{rsa_public_key};

    ghost eq = { same_octets rsa_public_key };

    ghost laws = { same_octets_per rsa_public_key };

    fn eq(&self, other: &RsaPublicKey) -> bool
        ensures octets { result ≡ same_octets rsa_public_key self.now other.now }
        ensures same { IsTrue result ↔ (self.now ≡ other.now) }
    {
        self.modulus == other.modulus && self.public_exponent == other.public_exponent
    }
}

impl Eq for RsaPublicKey {
    ghost use Rattle.der_core.specs.Facts.Equality.{same_octets_equiv};
    ghost use Rattle.key_types.specs.RsaPublicKey.{rsa_public_key};

    ghost laws = { same_octets_equiv rsa_public_key };
}
