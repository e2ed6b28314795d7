//! RSA private keys.

ghost use Rattle.std.specs.Prelude.{◌≡◌, ◌≢◌, ◌↔◌, ◌++◌, ◌∷◌, [], IsTrue, IfOk, MatchOption, MatchResult};
ghost use Rattle.asn1_types.specs.Elements.{integer};
ghost use Rattle.der_core.specs.Refusals.{RefusesShape, RefusesInner};
ghost use Rattle.key_types.specs.RsaPrivateKey.{two_prime, rsa_private_key, rsa_private_key_of};
ghost use Rattle.der_core.specs.Structure.{Fits};

use asn1_types::IntegerAsn1;
use der_core::tag::{INTEGER, SEQUENCE};
use der_core::{DerError, Elem, Kids, NewKids, Structure, Tree, leaf, leaf_at};
use std::alloc::{AllocError, Global};

/// An RSA private key with two primes (RFC 8017 A.1.2). It has no `Debug`, so no secret is printed
/// by mistake.
pub struct RsaPrivateKey {
    /// The modulus.
    pub n: IntegerAsn1,
    /// The public exponent.
    pub e: IntegerAsn1,
    /// The private exponent.
    pub d: IntegerAsn1,
    /// The first prime.
    pub p: IntegerAsn1,
    /// The second prime.
    pub q: IntegerAsn1,
    /// The private exponent modulo p - 1.
    pub dp: IntegerAsn1,
    /// The private exponent modulo q - 1.
    pub dq: IntegerAsn1,
    /// The inverse of q modulo p.
    pub qinv: IntegerAsn1,
}

/// Overwrites the secret numbers.
impl Drop for RsaPrivateKey {
    fn drop(self) {
        let RsaPrivateKey {
            n: _modulus,
            e: _public_exponent,
            d,
            p,
            q,
            dp,
            dq,
            qinv,
        } = self;
        d.overwrite();
        p.overwrite();
        q.overwrite();
        dp.overwrite();
        dq.overwrite();
        qinv.overwrite();
    }
}

/// The fields of a borrowed RSA private key.
#[derive(Clone, Copy)]
struct Fields<'a> {
    n: Elem<'a>,
    e: Elem<'a>,
    d: Elem<'a>,
    p: Elem<'a>,
    q: Elem<'a>,
    dp: Elem<'a>,
    dq: Elem<'a>,
    qinv: Elem<'a>,
}

impl<'a> Fields<'a> {
    ghost use Rattle.key_types.specs.declared.rsa_private_key.RsaPrivateKey.{RsaPrivateKey};

    /// The fields of the element.
    fn of(elem: Elem<'a>) -> Option<Fields<'a>>
        ensures { MatchOption result
            ((key : RsaPrivateKey) → elem.entry.is.0 ≢ rsa_private_key key)
            (λ f. (elem.entry.is.0 ≡ rsa_private_key_of (record {
              n = f.n.is.0;
              e = f.e.is.0;
              d = f.d.is.0;
              p = f.p.is.0;
              q = f.q.is.0;
              dp = f.dp.is.0;
              dq = f.dq.is.0;
              qinv = f.qinv.is.0;
            }))
            × Fits (λ element key. element ≡ rsa_private_key key) elem.entry.is.0) }
    {
        let mut kids = Kids::of(elem, SEQUENCE)?;
        two_prime(kids.next()?)?;
        let n = kids.next_as::<IntegerAsn1>()?;
        let e = kids.next_as::<IntegerAsn1>()?;
        let d = kids.next_as::<IntegerAsn1>()?;
        let p = kids.next_as::<IntegerAsn1>()?;
        let q = kids.next_as::<IntegerAsn1>()?;
        let dp = kids.next_as::<IntegerAsn1>()?;
        let dq = kids.next_as::<IntegerAsn1>()?;
        let qinv = kids.next_as::<IntegerAsn1>()?;
        kids.end()?;
        Some(Fields {
            n,
            e,
            d,
            p,
            q,
            dp,
            dq,
            qinv,
        })
    }
}

/// `Some` if the element is the version of keys with two primes.
fn two_prime(elem: Elem<'_>) -> Option<()>
    ensures { MatchOption result
        (elem.entry.is.0 ≢ two_prime)
        (λ _. elem.entry.is.0 ≡ two_prime) }
{
    match leaf_at(elem, INTEGER)? {
        [0] => Some(()),
        _ => None,
    }
}

/// Two numbers of an unfinished key, which are overwritten when they are dropped.
struct TwoNumbers {
    one: IntegerAsn1,
    other: IntegerAsn1,
}

impl Drop for TwoNumbers {
    fn drop(self) {
        let TwoNumbers { one, other } = self;
        one.overwrite();
        other.overwrite();
    }
}

impl TwoNumbers {
    /// The numbers in two elements.
    fn read(alloc: Global, one: Elem<'_>, other: Elem<'_>) -> Result<TwoNumbers, DerError>
        ensures { MatchResult result
            (λ two. (one.entry.is.0 ≡ integer two.one) × (other.entry.is.0 ≡ integer two.other))
            (RefusesShape (λ (two : TwoNumbers). (one.entry.is.0 ≡ integer two.one)
            × (other.entry.is.0 ≡ integer two.other))) }
    {
        let one = IntegerAsn1::read_at(alloc, one)?;
        match IntegerAsn1::read_at(alloc, other) {
            Ok(other) => Ok(TwoNumbers { one, other }),
            Err(refusal) => {
                one.overwrite();
                Err(refusal)
            }
        }
    }

    /// Copies of two numbers.
    fn copy(alloc: Global, one: &IntegerAsn1, other: &IntegerAsn1) -> Result<TwoNumbers, AllocError>
        ensures { IfOk result (λ two. (two.one ≡ one.now) × (two.other ≡ other.now)) }
    {
        let one = one.try_clone(alloc)?;
        match other.try_clone(alloc) {
            Ok(other) => Ok(TwoNumbers { one, other }),
            Err(refusal) => {
                one.overwrite();
                Err(refusal)
            }
        }
    }

    fn into_numbers(self) -> (IntegerAsn1, IntegerAsn1)
        ensures { result ≡ (self.one, self.other) }
    {
        let TwoNumbers { one, other } = self;
        (one, other)
    }
}

/// The key with these numbers, in pairs.
fn of_numbers(
    public: TwoNumbers,
    first: TwoNumbers,
    second: TwoNumbers,
    third: TwoNumbers,
) -> RsaPrivateKey
    ensures { result ≡ record {
      n = public.one;
      e = public.other;
      d = first.one;
      p = first.other;
      q = second.one;
      dp = second.other;
      dq = third.one;
      qinv = third.other;
    } }
{
    let (n, e) = public.into_numbers();
    let (d, p) = first.into_numbers();
    let (q, dp) = second.into_numbers();
    let (dq, qinv) = third.into_numbers();
    RsaPrivateKey {
        n,
        e,
        d,
        p,
        q,
        dp,
        dq,
        qinv,
    }
}

/// Appends the element of a number.
fn push_number(alloc: Global, kids: &mut NewKids, number: &IntegerAsn1) -> Result<(), DerError>
    ensures { MatchResult result
        (λ _. kids.new.kids ≡ kids.old.kids ++ integer number.now ∷ [])
        (RefusesInner []) }
{
    Ok(kids.push(number.write(alloc)?)?)
}

impl Structure for RsaPrivateKey {
    ghost use Rattle.key_types.specs.Facts.RsaPrivateKeys.{rsa_private_keys};

    ghost written = { rsa_private_key };

    ghost spells = { λ element key. element ≡ rsa_private_key key };

    fn has_shape(elem: Elem<'_>) -> bool {
        matches!(Fields::of(elem), Some(_))
    }

    fn read_at(alloc: Global, elem: Elem<'_>) -> Result<RsaPrivateKey, DerError> {
        let Some(fields) = Fields::of(elem) else {
            return Err(DerError::Shape);
        };
        let public = TwoNumbers::read(alloc, fields.n, fields.e)?;
        let first = TwoNumbers::read(alloc, fields.d, fields.p)?;
        let second = TwoNumbers::read(alloc, fields.q, fields.dp)?;
        let third = TwoNumbers::read(alloc, fields.dq, fields.qinv)?;
        Ok(of_numbers(public, first, second, third))
    }

    fn write(&self, alloc: Global) -> Result<Tree, DerError> {
        let mut kids = NewKids::new(alloc);
        kids.push(leaf(alloc, INTEGER, &[0])?)?;
        push_number(alloc, &mut kids, &self.n)?;
        push_number(alloc, &mut kids, &self.e)?;
        push_number(alloc, &mut kids, &self.d)?;
        push_number(alloc, &mut kids, &self.p)?;
        push_number(alloc, &mut kids, &self.q)?;
        push_number(alloc, &mut kids, &self.dp)?;
        push_number(alloc, &mut kids, &self.dq)?;
        push_number(alloc, &mut kids, &self.qinv)?;
        Ok(kids.into_branch(SEQUENCE))
    }

    fn try_clone(&self, alloc: Global) -> Result<RsaPrivateKey, AllocError> {
        let public = TwoNumbers::copy(alloc, &self.n, &self.e)?;
        let first = TwoNumbers::copy(alloc, &self.d, &self.p)?;
        let second = TwoNumbers::copy(alloc, &self.q, &self.dp)?;
        let third = TwoNumbers::copy(alloc, &self.dq, &self.qinv)?;
        Ok(of_numbers(public, first, second, third))
    }

    ghost grammar = { rsa_private_keys };
}

/// Keys are equal exactly if their encodings are. The comparison doesn't run in constant time.
impl PartialEq for RsaPrivateKey {
    ghost use Rattle.der_core.specs.Equality.{same_octets};
    ghost use Rattle.der_core.specs.Facts.Equality.{same_octets_per};

    ghost eq = { same_octets rsa_private_key };

    ghost laws = { same_octets_per rsa_private_key };

    fn eq(&self, other: &RsaPrivateKey) -> bool
        ensures octets { result ≡ same_octets rsa_private_key self.now other.now }
        ensures same { IsTrue result ↔ (self.now ≡ other.now) }
    {
        self.n == other.n
            && self.e == other.e
            && self.d == other.d
            && self.p == other.p
            && self.q == other.q
            && self.dp == other.dp
            && self.dq == other.dq
            && self.qinv == other.qinv
    }
}

impl Eq for RsaPrivateKey {
    ghost use Rattle.der_core.specs.Facts.Equality.{same_octets_equiv};

    ghost laws = { same_octets_equiv rsa_private_key };
}
