//! The signed part of a certificate.

ghost use Rattle.std.specs.Prelude.{◌≡◌, ◌↔◌, IsTrue};
ghost use Rattle.der_core.specs.Borrowed.{AreDer};

use crate::certificate::tbs_fields::{
    EXTENSIONS, ISSUER_UNIQUE_ID, SUBJECT_UNIQUE_ID, TbsFields, VERSION,
};
use crate::certificate::tbs_parts::{AddedFields, IssuedBy, IssuedTo, join};
use crate::certificate::version::Version;
use crate::{AlgorithmIdentifier, Extensions, Name, SubjectPublicKeyInfo, Validity};
use asn1_types::IntegerAsn1;
use der_core::tag::SEQUENCE;
use der_core::{
    DerError, Elem, NewKids, Octets, Structure, Tree, push_explicit, push_leaf, push_value,
};
use std::alloc::{AllocError, Global};

/// The signed part of a certificate (RFC 5280 4.1.2). An absent version, which means V1, and an
/// explicit one are different values. The unique identifiers are owned contents octets.
#[derive(Debug, Drop)]
pub struct TbsCertificate {
    pub version: Option<Version>,
    pub serial_number: IntegerAsn1,
    pub signature: AlgorithmIdentifier,
    pub issuer: Name,
    pub validity: Validity,
    pub subject: Name,
    pub subject_public_key_info: SubjectPublicKeyInfo,
    pub issuer_unique_id: Option<Octets>,
    pub subject_unique_id: Option<Octets>,
    pub extensions: Option<Extensions>,
}

impl TbsCertificate {
    ghost use Rattle.x509_types.specs.TbsCertificate.{HasSameOptions};

    /// Whether the OPTIONAL fields are the same.
    fn has_same_options(&self, other: &TbsCertificate) -> bool
        ensures { IsTrue result ↔ HasSameOptions self.now other.now }
    {
        is_same_version(&self.version, &other.version)
            && is_same_id(&self.issuer_unique_id, &other.issuer_unique_id)
            && is_same_id(&self.subject_unique_id, &other.subject_unique_id)
            && are_same_extensions(&self.extensions, &other.extensions)
    }
}

/// Whether the versions are the same, each present or absent.
fn is_same_version(a: &Option<Version>, b: &Option<Version>) -> bool
    ensures { IsTrue result ↔ (a.now ≡ b.now) }
{
    a == b
}

/// Whether the unique identifiers are the same, each present or absent.
fn is_same_id(a: &Option<Octets>, b: &Option<Octets>) -> bool
    ensures { IsTrue result ↔ (a.now ≡ b.now) }
{
    a == b
}

/// Whether the extensions are the same, each present or absent.
fn are_same_extensions(a: &Option<Extensions>, b: &Option<Extensions>) -> bool
    ensures { IsTrue result ↔ (a.now ≡ b.now) }
{
    a == b
}

impl Structure for TbsCertificate {
    ghost use Rattle.x509_types.specs.TbsCertificate.{tbs_certificate, inner_tbs, IsTbsCertificate};
    ghost use Rattle.x509_types.specs.Facts.TbsCertificates.{tbs_certificates};

    ghost written = { tbs_certificate };

    ghost spells = { IsTbsCertificate };

    ghost inner = { inner_tbs };

    fn has_shape(elem: Elem<'_>) -> bool {
        match TbsFields::of(elem) {
            Some(fields) => fields.expect_shapes().is_some(),
            None => false,
        }
    }

    fn read_at(alloc: Global, elem: Elem<'_>) -> Result<TbsCertificate, DerError> {
        match TbsFields::of(elem) {
            Some(fields) => fields.read(alloc),
            None => Err(DerError::Shape),
        }
    }

    fn write(&self, alloc: Global) -> Result<Tree, DerError> {
        let mut kids = NewKids::new(alloc);
        push_explicit(alloc, &mut kids, VERSION, &self.version)?;
        push_value(alloc, &mut kids, &self.serial_number)?;
        push_value(alloc, &mut kids, &self.signature)?;
        push_value(alloc, &mut kids, &self.issuer)?;
        push_value(alloc, &mut kids, &self.validity)?;
        push_value(alloc, &mut kids, &self.subject)?;
        push_value(alloc, &mut kids, &self.subject_public_key_info)?;
        push_leaf(alloc, &mut kids, ISSUER_UNIQUE_ID, &self.issuer_unique_id)?;
        push_leaf(alloc, &mut kids, SUBJECT_UNIQUE_ID, &self.subject_unique_id)?;
        push_explicit(alloc, &mut kids, EXTENSIONS, &self.extensions)?;
        Ok(kids.into_branch(SEQUENCE))
    }

    fn try_clone(&self, alloc: Global) -> Result<TbsCertificate, AllocError> {
        let added = AddedFields::copy(alloc, self)?;
        let by = IssuedBy::copy(alloc, self)?;
        let to = IssuedTo::copy(alloc, self)?;
        Ok(join(by, to, added))
    }

    ghost grammar = { tbs_certificates };
}

/// TBSCertificates are equal exactly if the kinds of their extension values and their encodings
/// are; if both can be written, the encodings alone decide.
impl PartialEq for TbsCertificate {
    ghost use Rattle.std.specs.Ordering.{on};
    ghost use Rattle.std.specs.Cmp.Lexicographic.{nat_list_eq_equiv};
    ghost use Rattle.std.specs.Cmp.{on_per, partial_equiv_from_equiv};
    ghost use Rattle.std.specs.Prelude.{bytes_eq};
    ghost use Rattle.der_core.specs.Equality.{same_octets};
    ghost use Rattle.x509_types.specs.TbsCertificate.{tbs_certificate, inner_tbs, tbs_octets};

    ghost eq = { on (λ value. tbs_octets value) bytes_eq };

    ghost laws = { on_per (λ value. tbs_octets value)
        (partial_equiv_from_equiv nat_list_eq_equiv) };

    fn eq(&self, other: &TbsCertificate) -> bool
        ensures octets { AreDer (inner_tbs self.now) → AreDer (inner_tbs other.now)
            → result ≡ same_octets tbs_certificate self.now other.now }
        ensures compared { result ≡ bytes_eq (tbs_octets self.now) (tbs_octets other.now) }
        ensures same { IsTrue result ↔ (self.now ≡ other.now) }
    {
        self.has_same_options(other)
            && self.serial_number == other.serial_number
            && self.signature == other.signature
            && self.issuer == other.issuer
            && self.validity == other.validity
            && self.subject == other.subject
            && self.subject_public_key_info == other.subject_public_key_info
    }
}

impl Eq for TbsCertificate {
    ghost use Rattle.std.specs.Cmp.Lexicographic.{nat_list_eq_equiv};
    ghost use Rattle.std.specs.Cmp.{on_equiv};
    ghost use Rattle.x509_types.specs.TbsCertificate.{tbs_octets};

    ghost laws = { on_equiv (λ value. tbs_octets value) nat_list_eq_equiv };
}
