//! A certificate with its header.

ghost use Rattle.std.specs.Prelude.{◌≡◌, ◌≢◌, ◌↔◌, Ok, Err, IfOk, IfErr, IsTrue, nat_eq};
ghost use Rattle.std.specs.Ordering.{on};
ghost use Rattle.std.specs.Cmp.Lexicographic.{pointwise, nat_list_eq_equiv};
ghost use Rattle.std.specs.Cmp.{on_per, on_equiv, partial_equiv_from_equiv};
ghost use Rattle.wincert_core.specs.declared.error.WinCertificateError.{WinCertificateError};
ghost use Rattle.wincert_core.specs.WinCert.{WinCert, BeginsWith, stated_length, with_padding, kept};
ghost use Rattle.wincert_core.specs.Refusal.{contents_in, current, encoded, Gives};

use crate::error::{WinCertificateError, WinCertificateResult};
use crate::header::{HEADER_LENGTH, header_of};
use crate::kinds::{CertificateType, RevisionType};
use std::alloc::{AllocError, Global};
use std::marker::Model;

const ALIGNMENT: usize = 8;

const MAX_LENGTH: usize = u32::MAX as usize;

/// A certificate with its header: signed data in most cases, and the zeros that it was padded with.
#[derive(Debug, Drop)]
pub struct WinCertificate {
    revision: RevisionType,
    certificate_type: CertificateType,
    certificate: Vec<u8>,
}

impl Model for WinCertificate {
    ghost use Rattle.wincert_core.specs.WinCert.{WinCert, FitsHeader};

    ghost Value = { WinCert };

    ghost view = { λ w. record {
      revision = w.revision;
      certificate_type = w.certificate_type;
      certificate = w.certificate.items;
    } };

    ghost invariant = { λ w. FitsHeader w.certificate.items };
}

impl WinCertificate {
    /// Reads the WIN_CERTIFICATE at the start of the octets. The certificate is everything that the
    /// stated length counts after the header, padding included; later octets are ignored.
    pub fn decode(alloc: Global, bytes: &[u8]) -> WinCertificateResult<WinCertificate>
        // The certificate that the header delimits, or the first refusal.
        ensures given { Gives (λ w. w.certificate) result (contents_in bytes.now) }
        // A refusal comes before anything is allocated.
        ensures refused { (error : WinCertificateError)
            → contents_in bytes.now ≡ Err error → result ≡ Err error }
        // The octets begin with the encoding of what is read.
        ensures spelled { IfOk result (λ w. BeginsWith bytes.now w) }
        // Where the octets begin with an encoding, it is read.
        ensures only { (w : WinCert) → BeginsWith bytes.now w → Gives (λ v. v) result (Ok w) }
    {
        let header = header_of(bytes)?;
        let certificate = Vec::from_slice(alloc, &bytes[HEADER_LENGTH..header.length])?;
        Ok(WinCertificate {
            revision: header.revision,
            certificate_type: header.certificate_type,
            certificate,
        })
    }

    /// Wraps a certificate with the current revision, 2.0.
    pub fn from_certificate(
        alloc: Global,
        certificate: &[u8],
        certificate_type: CertificateType,
    ) -> WinCertificateResult<WinCertificate>
        ensures given { Gives (λ w. w) result (current certificate.now certificate_type) }
        // A refusal comes before anything is allocated.
        ensures refused { (error : WinCertificateError)
            → current certificate.now certificate_type ≡ Err error → result ≡ Err error }
    {
        if MAX_LENGTH - HEADER_LENGTH < certificate.len() {
            return Err(WinCertificateError::TooLong);
        }
        Ok(WinCertificate {
            revision: RevisionType::WinCertificateRevision20,
            certificate_type,
            certificate: Vec::from_slice(alloc, certificate)?,
        })
    }

    /// The encoding in a file, padded with zeros to a multiple of eight octets.
    pub fn encode(self, alloc: Global) -> WinCertificateResult<Vec<u8>>
        ensures given { Gives (λ v. v.items) result (encoded self) }
        // A refusal comes before anything is allocated.
        ensures refused { (error : WinCertificateError)
            → encoded self ≡ Err error → result ≡ Err error }
        // Decoded again, it is the same with the padding as part of the certificate,
        ensures read_back { IfOk result (λ v. BeginsWith v.items (with_padding self)) }
        // and that is encoded as the same octets.
        ensures again { IfOk result (λ v. encoded (with_padding self) ≡ Ok v.items) }
    {
        let length = self.certificate.len().next_multiple_of(ALIGNMENT) + HEADER_LENGTH;
        let Ok(stated) = u32::try_from(length) else {
            return Err(WinCertificateError::TooLong);
        };
        let mut octets = Vec::with_capacity(alloc, length)?;
        octets.extend_from_slice(&stated.to_le_bytes())?;
        octets.extend_from_slice(&self.revision.number().to_le_bytes())?;
        octets.extend_from_slice(&self.certificate_type.number().to_le_bytes())?;
        octets.extend_from_slice(&self.certificate)?;
        octets.resize(length, 0)?;
        Ok(octets)
    }

    /// The length in the header before padding, in octets: eight more than the certificate's.
    pub fn length(&self) -> u32
        ensures { result ≡ stated_length self.now.certificate }
    {
        (self.certificate.len() + HEADER_LENGTH) as u32
    }

    /// The revision in the header.
    pub fn revision(&self) -> RevisionType
        ensures { result ≡ self.now.revision }
    {
        self.revision
    }

    /// The certificate type in the header.
    pub fn certificate_type(&self) -> CertificateType
        ensures { result ≡ self.now.certificate_type }
    {
        self.certificate_type
    }

    /// The certificate, with its padding if it was decoded with some.
    pub fn get_certificate(&self) -> &[u8]
        ensures { result.now ≡ self.now.certificate }
    {
        &self.certificate
    }

    /// A copy of the value.
    pub fn try_clone(&self, alloc: Global) -> Result<WinCertificate, AllocError>
        ensures { IfOk result (λ copy. copy ≡ self.now) }
    {
        Ok(WinCertificate {
            revision: self.revision,
            certificate_type: self.certificate_type,
            certificate: Vec::from_slice(alloc, &self.certificate)?,
        })
    }
}

impl PartialEq for WinCertificate {
    ghost eq = { on kept (pointwise nat_eq) };

    ghost laws = { on_per kept (partial_equiv_from_equiv nat_list_eq_equiv) };

    fn eq(&self, other: &WinCertificate) -> bool
        ensures value { result ≡ on kept (pointwise nat_eq) self.now other.now }
        ensures same { IsTrue result ↔ (self.now ≡ other.now) }
    {
        self.revision.number() == other.revision.number()
            && self.certificate_type.number() == other.certificate_type.number()
            && self.certificate.as_slice() == other.certificate.as_slice()
    }
}

impl Eq for WinCertificate {
    ghost laws = { on_equiv kept nat_list_eq_equiv };
}

/// The certificate that `WinCertificate::decode` returns, borrowed, with the same refusals except
/// out of memory.
pub fn certificate_of(bytes: &[u8]) -> WinCertificateResult<&[u8]>
    ensures lent { IfOk result (λ part. contents_in bytes.now ≡ Ok part.now) }
    ensures refused { IfErr result (λ e. contents_in bytes.now ≡ Err e) }
    ensures never_memory { result ≢ Err WinCertificateError.Memory }
    // The octets begin with the encoding of what is borrowed, and where they begin with one, it is
    // borrowed.
    ensures spelled { IfOk result (λ part.
        (w : WinCert) × BeginsWith bytes.now w × (w.certificate ≡ part.now)) }
    ensures only { (w : WinCert) → BeginsWith bytes.now w
        → contents_in bytes.now ≡ Ok w.certificate }
{
    let header = header_of(bytes)?;
    Ok(&bytes[HEADER_LENGTH..header.length])
}
