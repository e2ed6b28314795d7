//! The public key in a borrowed RSA private key.

ghost use Rattle.std.specs.Prelude.{◌≡◌, ◌≢◌, [], ◌∷◌, ℕ, List, IfOk, IfErr, MatchOption};
ghost use Rattle.asn1_types.specs.Elements.{integer_of};
ghost use Rattle.asn1_types.specs.Integer.{IsInteger};
ghost use Rattle.der_core.specs.DerElement.{DerElement};
ghost use Rattle.der_core.specs.Encoding.{encoding};
ghost use Rattle.sig_core.specs.RsaSecret.{RsaNumbers, AreIntegers, rsa_private_element, rsa_public_element, IsRsaSecret};
ghost use Rattle.sig_core.specs.declared.scheme.SchemeError.TheVariants.{Memory};

use crate::scheme::SchemeError;
use der_core::tag::{INTEGER, SEQUENCE};
use der_core::{Elem, Kids, NewKids, expect_leaf, leaf, leaf_at, whole_element, write};
use std::alloc::Global;

/// The contents octets of the modulus and of the public exponent in an RSA private key with two
/// primes (RFC 8017 A.1.2).
#[derive(Clone, Copy)]
pub(crate) struct RsaSecret<'a> {
    pub(crate) modulus: &'a [u8],
    pub(crate) public_exponent: &'a [u8],
}

impl<'a> RsaSecret<'a> {
    /// The public numbers of the secret, `None` if it isn't the encoding of such a key.
    pub(crate) fn of(secret: &'a [u8]) -> Option<RsaSecret<'a>>
        ensures { MatchOption result (IsRsaSecret secret.now → ⊥)
            (λ rsa. (is : IsRsaSecret secret.now) × (is.numbers.modulus ≡ rsa.modulus.now)
            × (is.numbers.public_exponent ≡ rsa.public_exponent.now)) }
    {
        let elem = whole_element(secret)?;
        match RsaSecret::within(elem) {
            Some(rsa) => Some(rsa),
            None => None,
        }
    }

    /// The public numbers in the element of such a key.
    fn within(elem: Elem<'a>) -> Option<RsaSecret<'a>>
        ensures { MatchOption result
            ((numbers : RsaNumbers) → AreIntegers numbers
            → elem.entry.is.0 ≢ rsa_private_element numbers)
            (λ rsa. (numbers : RsaNumbers) × AreIntegers numbers
            × (elem.entry.is.0 ≡ rsa_private_element numbers)
            × (numbers.modulus ≡ rsa.modulus.now)
            × (numbers.public_exponent ≡ rsa.public_exponent.now)) }
    {
        let mut kids = Kids::of(elem, SEQUENCE)?;
        // The version of keys with two primes.
        expect_leaf(kids.next()?, INTEGER, &[0])?;
        let modulus = next_integer(&mut kids)?;
        let public_exponent = next_integer(&mut kids)?;
        let _private_exponent = next_integer(&mut kids)?;
        let _prime1 = next_integer(&mut kids)?;
        let _prime2 = next_integer(&mut kids)?;
        let _exponent1 = next_integer(&mut kids)?;
        let _exponent2 = next_integer(&mut kids)?;
        let _coefficient = next_integer(&mut kids)?;
        kids.end()?;
        Some(RsaSecret {
            modulus,
            public_exponent,
        })
    }

    /// The encoding of the RSAPublicKey (RFC 8017 A.1.1).
    pub(crate) fn public_key(self, alloc: Global) -> Result<Vec<u8>, SchemeError>
        ensures written { IfOk result (λ key. key.items ≡ encoding
            (rsa_public_element self.entry.modulus.now self.entry.public_exponent.now)) }
        ensures only { IfErr result (λ e. e ≡ Memory) }
    {
        let mut kids = NewKids::new(alloc);
        kids.push(leaf(alloc, INTEGER, self.modulus)?)?;
        kids.push(leaf(alloc, INTEGER, self.public_exponent)?)?;
        // It is neither too deep nor too long, since its numbers are those of a private key.
        match write(alloc, &kids.into_branch(SEQUENCE)) {
            Ok(key) => Ok(key),
            Err(_) => Err(SchemeError::Memory),
        }
    }
}

/// The contents octets of the next element if it is an INTEGER.
fn next_integer<'a>(kids: &mut Kids<'a>) -> Option<&'a [u8]>
    ensures { MatchOption result
        ((contents : List ℕ) (rest : List DerElement) → IsInteger contents
        → kids.old.are.0 ≢ integer_of contents ∷ rest)
        (λ contents. IsInteger contents.now
        × (kids.old.are.0 ≡ integer_of contents.now ∷ kids.new.are.0)) }
{
    let contents = leaf_at(kids.next()?, INTEGER)?;
    if contents.is_empty() {
        return None;
    }
    Some(contents)
}
