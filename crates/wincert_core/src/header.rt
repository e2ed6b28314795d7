//! The eight octets before a certificate.

ghost use Rattle.std.specs.Prelude.{◌≡◌, ◌↔◌, ◌<◌, ◌≤◌, ◌^◌, length, IfSome, IfOk, IfErr};
ghost use Rattle.wincert_core.specs.Kinds.{revision_number, type_number};
ghost use Rattle.wincert_core.specs.WinCert.{length_field, revision_field, type_field};
ghost use Rattle.wincert_core.specs.Refusal.{first_refusal};

use crate::error::{WinCertificateError, WinCertificateResult};
use crate::kinds::{CertificateType, RevisionType};

pub(crate) const HEADER_LENGTH: usize = 8;

/// The numbers of a header, unchecked.
#[derive(Clone, Copy)]
struct Fields {
    length: u32,
    revision: u16,
    certificate_type: u16,
}

fn fields_of(bytes: &[u8]) -> Option<Fields>
    ensures none { result ≡ None ↔ (length bytes.now < 8) }
    ensures some { IfSome result (λ f. (f.length ≡ length_field bytes.now)
        × (f.revision ≡ revision_field bytes.now)
        × (f.certificate_type ≡ type_field bytes.now)) }
{
    let [l0, l1, l2, l3, r0, r1, t0, t1, ..] = bytes else {
        return None;
    };
    Some(Fields {
        length: u32::from_le_bytes([*l0, *l1, *l2, *l3]),
        revision: u16::from_le_bytes([*r0, *r1]),
        certificate_type: u16::from_le_bytes([*t0, *t1]),
    })
}

fn too_short(got: usize) -> WinCertificateError
    ensures { result ≡ WinCertificateError.WrongLength 8 got }
{
    WinCertificateError::WrongLength {
        minimum: HEADER_LENGTH,
        got,
    }
}

/// A checked header, whose certificate is within the octets after it.
#[derive(Clone, Copy)]
pub(crate) struct Header {
    pub(crate) length: usize,
    pub(crate) revision: RevisionType,
    pub(crate) certificate_type: CertificateType,
}

/// Reads the header at the start of the octets. The stated length is compared with the octets at
/// hand, so nothing is ever allocated by that length alone.
#[tactic(auto, unfolding(crate::specs::Refusal::first_refusal))]
pub(crate) fn header_of(bytes: &[u8]) -> WinCertificateResult<Header>
    ensures accepted { IfOk result (λ h. (first_refusal bytes.now ≡ None)
        × (8 ≤ h.length) × (h.length ≤ length bytes.now)) }
    ensures fields { IfOk result (λ h. (h.length ≡ length_field bytes.now)
        × (revision_number h.revision ≡ revision_field bytes.now)
        × (type_number h.certificate_type ≡ type_field bytes.now)) }
    ensures short { IfOk result (λ h. h.length < 2 ^ 32) }
    ensures refused { IfErr result (λ e. first_refusal bytes.now ≡ Some e) }
{
    let Some(fields) = fields_of(bytes) else {
        return Err(too_short(bytes.len()));
    };
    let length = fields.length as usize;
    if length == 0 {
        return Err(WinCertificateError::CertificateDataIsEmpty);
    }
    let revision = RevisionType::try_from(fields.revision)?;
    let certificate_type = CertificateType::try_from(fields.certificate_type)?;
    if length < HEADER_LENGTH {
        return Err(too_short(length));
    }
    if bytes.len() < length {
        return Err(WinCertificateError::Io {
            stated: fields.length,
            got: bytes.len(),
        });
    }
    Ok(Header {
        length,
        revision,
        certificate_type,
    })
}
