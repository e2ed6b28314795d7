//! Reading a chain of certificates.

ghost use Rattle.std.specs.Prelude.{◌∷◌, MatchResult};
ghost use Rattle.program_frame.specs.Owned.{contents_held};
ghost use Rattle.x509_core.specs.OwnedCertificates.{AreKeptCertificates, IsFirstUnread};

use program_frame::Contents;
use std::alloc::Global;
use x509_core::{Cert, CertError, read_certificates};

/// Reads the certificates of a chain, each from exactly its octets: the first, and its parents. The
/// first that isn't read refuses all.
pub(crate) fn read_chain(alloc: Global, read: &Contents) -> Result<(Cert, Vec<Cert>), CertError>
    ensures { MatchResult result
        (λ chain. AreKeptCertificates (contents_held read.now) (chain.0 ∷ chain.1.items))
        (IsFirstUnread (contents_held read.now)) }
{
    let checked = Cert::from_der(alloc, &read.first)?;
    let parents = read_certificates(alloc, &read.others)?;
    Ok((checked, parents))
}
