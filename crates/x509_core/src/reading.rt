//! Reading certificates one after another.

ghost use Rattle.std.specs.Prelude.{map, MatchResult};
ghost use Rattle.x509_core.specs.OwnedCertificates.{AreKeptCertificates, IsFirstUnread};

use crate::cert::Cert;
use crate::error::CertError;
use std::alloc::Global;

/// Reads certificates, each from exactly its octets. The first that isn't read refuses all.
pub fn read_certificates(alloc: Global, octets: &[Vec<u8>]) -> Result<Vec<Cert>, CertError>
    ensures { MatchResult result
        (λ read. AreKeptCertificates (map (λ octets. octets.items) octets.now) read.items)
        (IsFirstUnread (map (λ octets. octets.items) octets.now)) }
{
    let mut certificates = Vec::new(alloc);
    let mut rest = octets;
    while let Some((first, others)) = rest.split_first() {
        certificates.push(Cert::from_der(alloc, first)?)?;
        rest = others;
    }
    Ok(certificates)
}
