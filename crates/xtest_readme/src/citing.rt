//! Callers that cite a clause, or a law, of the libraries for a promise of their own.

ghost use Rattle.std.specs.Prelude.{◌≡◌, ◌∷◌, ℕ, ℤ, List, Option, Result, IfOk, MatchOption, MatchResult};
ghost use Rattle.asn1_types.specs.declared.generalized_time.GeneralizedTime.{GeneralizedTime};
ghost use Rattle.authenticode_core.specs.Basic.{HasSignedData};
ghost use Rattle.authenticode_core.specs.Trusted.{IsAnswer};
ghost use Rattle.authenticode_core.specs.declared.accepted.Accepted.{Accepted};
ghost use Rattle.authenticode_core.specs.declared.policy.Policy.{Policy};
ghost use Rattle.authenticode_parts.specs.Carried.{AreCarried, elements_of};
ghost use Rattle.authenticode_signature.specs.HistorySignature.{all_checks_at};
ghost use Rattle.authenticode_signature.specs.KeptAncestors.{AreKeptOf, IsDecidedBy, IsWithAncestors};
ghost use Rattle.authenticode_signature.specs.MadeFile.{IsMadeSignature};
ghost use Rattle.cms_types.specs.SignedDataElements.{SignedDataElements};
ghost use Rattle.key_core.specs.Signing.{IsKeyPair};
ghost use Rattle.key_core.specs.Verifying.{Judge};
ghost use Rattle.key_types.specs.declared.key_info.SubjectPublicKeyInfo.{SubjectPublicKeyInfo};
ghost use Rattle.pe_core.specs.Bound.{HaveSameParts, bound_octets, table_of};
ghost use Rattle.pe_image.specs.PeAnswer.{IsPeAnswer};
ghost use Rattle.pe_image.specs.declared.error.PeCheckError.{PeCheckError};
ghost use Rattle.signature_questions.specs.Agreement.{Agree};
ghost use Rattle.signature_questions.specs.Asked.{IsOfLink, IsQuestion};
ghost use Rattle.signature_questions.specs.Tables.{HasRowsOf};
ghost use Rattle.trust_anchors.specs.Agreement.{IsAbove, IsBelow};
ghost use Rattle.trust_anchors.specs.AnchoredPath.{HasNoPath, IsAnchoredPath};
ghost use Rattle.trust_anchors.specs.FirstPath.{IsFirstPath};
ghost use Rattle.trust_anchors.specs.declared.anchor.Anchor.{Anchor};
ghost use Rattle.trust_anchors.specs.declared.anchor.Purpose.{Purpose};
ghost use Rattle.trust_anchors.specs.declared.path.AnchoredPath.{AnchoredPath};
ghost use Rattle.x509_core.specs.History.{IssuingStep, History, HasStep, IsDuring};
ghost use Rattle.x509_core.specs.Link.{HasKey};
ghost use Rattle.x509_core.specs.OwnedCertificate.{KeptCertificate};
ghost use Rattle.x509_core.specs.declared.error.CertError.TheVariants as cert_errors;
ghost use Rattle.x509_types.specs.CertificateElements.{CertificateElements};

use crate::of_trust_anchors::{LEAF, certificate};
use authenticode_core::{Accepted, CheckError, Policy, check_wincert};
use authenticode_signature::{
    AuthenticodeSignature, Pkcs7, check_made, encode_signature, histories_decide_made_signatures,
};
use cms_types::SignedData;
use demo_core::private_key_of;
use der_core::{DerError, Structure, values_are_read_again};
use key_core::PrivateKey;
use pe_core::{PeError, PeImage, bound_octets_fix_the_image};
use pe_image::tables_decide_programs;
use sig_core::{DemoScheme, Scheme, ShaVariant, VerdictTable};
use signature_questions::{questions_decide, questions_decide_chains, shared_tables_decide};
use std::alloc::Global;
use std::test::Fail;
use trust_anchors::links_decide_paths;
use wincert_core::CertificateType;
use x509_core::{Cert, CertError};

/// The certificate, read again from its octets. Only out of memory is an error.
fn certificate_again(alloc: Global, cert: &Cert) -> Result<Cert, CertError>
    ensures { MatchResult result (λ again. again ≡ cert.now) (λ e. e ≡ cert_errors.Memory) }
{
    Cert::from_der(alloc, cert.as_bytes())
}

/// The signed data, written and read again.
fn signed_data_again(alloc: Global, value: &SignedData) -> Result<SignedData, DerError>
    ensures { IfOk result (λ again. again ≡ value.now) }
{
    // the law; the call does nothing
    values_are_read_again::<SignedData>();
    let octets = value.to_der(alloc)?;
    SignedData::from_der(alloc, &octets)
}

/// Checks a signature file by a table that serves many files: the result is one that a scheme would
/// give, if the table has the rows of the file's questions with its verdicts, among any others.
fn check_by_shared_table(
    alloc: Global,
    file: &[u8],
    policy: &Policy<'_>,
    table: &VerdictTable,
) -> Result<Accepted, CheckError>
    ensures { (judge : Judge)
        → ((f : SignedDataElements) → HasSignedData file.now f
        → HasRowsOf judge (IsQuestion f) table.now)
        → IsAnswer judge policy.entry.now file.now result }
{
    // the law; the call does nothing
    shared_tables_decide();
    check_wincert(alloc, file, policy, table)
}

/// Two schemes with the same verdicts on the questions about its table have the same results of a
/// program.
fn questions_decide_programs()
    ensures { (a b : Judge) (policy : Policy) (octets : List ℕ)
        (result : Result Accepted PeCheckError)
        → ((f : SignedDataElements) → HasSignedData (table_of octets) f
        → Agree (IsQuestion f) a b)
        → IsPeAnswer a policy octets result → IsPeAnswer b policy octets result }
{
    questions_decide();
    tables_decide_programs();
}

/// Two schemes with the same verdicts on the questions about its links have the same result of a
/// search.
fn questions_decide_paths()
    ensures { (a b : Judge) (date : GeneralizedTime) (checked : KeptCertificate)
        (pool : List KeptCertificate) (anchors : List Anchor) (purpose : Purpose)
        (found : Option AnchoredPath)
        → ((parent child : KeptCertificate) → IsAbove pool anchors purpose parent
        → IsBelow checked pool child → Agree (IsOfLink parent.elements child.elements) a b)
        → MatchOption found
        (HasNoPath (IsAnchoredPath a date checked pool anchors purpose))
        (IsFirstPath (IsAnchoredPath a date checked pool anchors purpose))
        → MatchOption found
        (HasNoPath (IsAnchoredPath b date checked pool anchors purpose))
        (IsFirstPath (IsAnchoredPath b date checked pool anchors purpose)) }
{
    questions_decide_chains();
    links_decide_paths();
}

/// The signature file of a program with this SHA-256, by the first certificate and its key. The
/// other certificates are its ancestors.
fn file_with_ancestors<S: Scheme>(
    alloc: Global,
    certificates: &[Cert],
    digest: &[u8],
    key: &PrivateKey,
    scheme: &S,
) -> Result<Vec<u8>, CheckError>
    ensures { IfOk result (λ file. (history : History) (issued : List KeptCertificate) (index : ℕ)
        (ancestors : List ℕ) (cert : KeptCertificate) (parents : List KeptCertificate)
        (info : SubjectPublicKeyInfo) → certificates.now ≡ cert ∷ parents
        → IsWithAncestors (S.judge scheme.now) history issued index ancestors cert parents
        → HasKey cert.elements info → IsKeyPair (S.pair scheme.now) key.now info
        → (carried : List CertificateElements)
        × AreCarried (elements_of (cert ∷ parents)) (cert.elements ∷ carried)
        × IsMadeSignature (S.judge scheme.now) cert.elements carried file.items digest.now) }
{
    let Ok(bag) = Pkcs7::of_certificates(alloc, certificates) else {
        return Err(CheckError::Memory);
    };
    let sha = ShaVariant::SHA2_256;
    let made = AuthenticodeSignature::new(alloc, &bag, digest, sha, key, None, scheme)?;
    // the law; the call does nothing
    histories_decide_made_signatures();
    encode_signature(alloc, &made, CertificateType::WinCertTypePkcsSignedData)
}

/// Signs a program, and checks the file: with all checks at a date it is accepted exactly where the
/// history allows each of the kept ancestors then, out of memory aside.
fn sign_and_check<S: Scheme>(
    alloc: Global,
    certificates: &[Cert],
    digest: &[u8],
    key: &PrivateKey,
    policy: &Policy<'_>,
    scheme: &S,
) -> Result<Result<Accepted, CheckError>, CheckError>
    ensures { IfOk result (λ answer. (history : History) (issued : List KeptCertificate)
        (index : ℕ) (step : IssuingStep) (ancestors : List ℕ) (cert : KeptCertificate)
        (parents : List KeptCertificate) (info : SubjectPublicKeyInfo) (date : GeneralizedTime)
        (now : ℤ) → certificates.now ≡ cert ∷ parents
        → IsWithAncestors (S.judge scheme.now) history issued index ancestors cert parents
        → HasStep history index step → IsDuring step date
        → HasKey cert.elements info → IsKeyPair (S.pair scheme.now) key.now info
        → policy.entry.now ≡ all_checks_at date now digest.now
        → (kept : List ℕ) × AreKeptOf history ancestors kept
        × IsDecidedBy history date kept answer) }
{
    let file = file_with_ancestors(alloc, certificates, digest, key, scheme)?;
    // the law; the call does nothing
    histories_decide_made_signatures();
    Ok(check_made(alloc, &file, policy, scheme))
}

/// Parses two programs. If the same octets are signed of them, they differ in the checksum, the
/// table's entry and the table alone.
fn images_of_two<'a>(
    first: &'a [u8],
    second: &'a [u8],
) -> Result<(PeImage<'a>, PeImage<'a>), PeError>
    ensures { IfOk result (λ _. bound_octets first.now ≡ bound_octets second.now
        → HaveSameParts first.now second.now) }
{
    // the law; the call does nothing
    bound_octets_fix_the_image();
    Ok((PeImage::parse(first)?, PeImage::parse(second)?))
}

#[test]
fn values_are_the_same_again(rt: HostRuntime) -> Result<(), Fail> {
    let alloc = rt.alloc();
    let leaf = certificate(alloc, LEAF)?;
    assert!(rt; certificate_again(alloc, &leaf)? == leaf);
    let data = SignedData::from_der(alloc, &hex::decode(alloc, CERTIFICATES_ALONE)?)?;
    assert!(rt; signed_data_again(alloc, &data)? == data);
    Ok(())
}

#[test]
fn laws_are_cited(rt: HostRuntime) -> Result<(), Fail> {
    questions_decide_programs();
    questions_decide_paths();
    let table = VerdictTable::parse(rt.alloc(), b"picky-verdicts 2\n".as_slice())?;
    let policy = Policy::new(rt.alloc());
    let refused = check_by_shared_table(rt.alloc(), b"1234567".as_slice(), &policy, &table);
    assert!(rt; matches!(&refused, Err(CheckError::Win(_))));
    Ok(())
}

#[test]
fn laws_on_files_are_cited(rt: HostRuntime) -> Result<(), Fail> {
    let (key, policy) = (private_key_of(rt.alloc(), 0)?, Policy::new(rt.alloc()));
    let scheme = DemoScheme::new();
    let refused = sign_and_check(rt.alloc(), &[], &[0; 32], &key, &policy, &scheme);
    assert!(rt; matches!(&refused, Err(CheckError::Authenticode(_))));
    let octets = b"1234567".as_slice();
    assert!(rt; images_of_two(octets, octets).err() == Some(PeError::NotMz));
    Ok(())
}

/// Version 1, no digest algorithms, no content of the type 1.2.840.113549.1.7.1, empty fields of
/// certificates and revocation lists, no signers (RFC 2315 9.1).
#[rattlefmt::skip]
const CERTIFICATES_ALONE: &str = "30180201013100300b06092a864886f70d010701a000a1003100";
