//! Reading the certificates of the files.

ghost use Rattle.std.specs.Prelude.{◌≡◌, ◌≢◌, ◌+◌, ◌<◌, ◌++◌, ◌∷◌, [], List, length, map, IfErr, IfOk, OnOk};
ghost use Rattle.x509_core.specs.OwnedCertificate.{KeptCertificate, kept_octets};
ghost use Rattle.x509_core.specs.declared.error.CertError.TheVariants as errors;
ghost use Rattle.trust_anchors.specs.Commands.{AreGiven, code_anchor};
ghost use Rattle.trust_anchors.specs.Reading.{AppendsAnchors, AppendsRead, IsUnread};
ghost use Rattle.trust_anchors.specs.declared.reading.ReadError.TheVariants as unread;

use crate::error::AnchorError;
use crate::store::AnchorStore;
use std::alloc::{AllocFailed, Global};
use x509_core::{Cert, CertError};

/// Why certificates aren't read.
#[derive(Clone, Copy, Debug)]
pub(crate) enum ReadError {
    /// Octets aren't a certificate.
    NoCertificate,
    /// Out of memory.
    Memory,
}

impl<T: Drop> From<AllocFailed<T>> for ReadError {
    ghost from_gives = { λ _ e. e ≡ unread.Memory };

    fn from(_error: AllocFailed<T>) -> ReadError {
        ReadError::Memory
    }
}

/// The certificates of a command.
#[derive(Debug, Drop)]
pub(crate) struct Given {
    /// The anchors, each trusted for signing code alone.
    pub(crate) anchors: AnchorStore,
    pub(crate) checked: Cert,
    pub(crate) pool: Vec<Cert>,
}

/// Reads the first anchor, as many more, the checked certificate, and the pool.
pub(crate) fn read_given(
    alloc: Global,
    first: &[u8],
    others: &[Vec<u8>],
    more: usize,
) -> Result<Given, ReadError>
    requires few { more < 64 }
    requires enough { more < length others.now }
    ensures read { IfOk result (λ given. (anchors : List KeptCertificate)
        × (given.anchors ≡ map code_anchor anchors)
        × AreGiven (more + 1) (first.now ∷ map (λ octets. octets.items) others.now)
        anchors given.checked given.pool.items) }
    ensures unread { IfErr result
        (IsUnread (first.now ∷ map (λ octets. octets.items) others.now)) }
{
    let mut anchors = AnchorStore::new(alloc);
    read_anchors(alloc, first, &others[..more], &mut anchors)?;
    let checked = read_certificate(alloc, &others[more])?;
    let mut pool = Vec::new(alloc);
    read_pool(alloc, &others[more + 1..], &mut pool)?;
    Ok(Given {
        anchors,
        checked,
        pool,
    })
}

/// Reads anchors and adds them, each trusted for signing code alone.
fn read_anchors(
    alloc: Global,
    first: &[u8],
    others: &[Vec<u8>],
    anchors: &mut AnchorStore,
) -> Result<(), ReadError>
    requires { length anchors.old + length others.now < 64 }
    ensures read { OnOk result (AppendsAnchors anchors.old anchors.new
        (first.now ∷ map (λ octets. octets.items) others.now)) }
    ensures unread { IfErr result
        (IsUnread (first.now ∷ map (λ octets. octets.items) others.now)) }
{
    let certificate = read_certificate(alloc, first)?;
    add_anchor(anchors, certificate)?;
    let [next, behind @ ..] = others else {
        return Ok(());
    };
    read_anchors(alloc, next, behind, anchors)
}

/// Adds an anchor that is trusted for signing code alone.
fn add_anchor(anchors: &mut AnchorStore, certificate: Cert) -> Result<(), ReadError>
    requires { length anchors.old < 64 }
    ensures added { OnOk result (anchors.new ≡ anchors.old ++ code_anchor certificate ∷ []) }
    ensures failed { IfErr result (λ error. error ≡ unread.Memory) }
{
    match anchors.add(certificate, true, false) {
        Ok(()) => Ok(()),
        Err(AnchorError::TooMany { .. }) => unreachable!(),
        Err(AnchorError::Memory) => Err(ReadError::Memory),
    }
}

/// Reads certificates and appends them.
fn read_pool(alloc: Global, octets: &[Vec<u8>], pool: &mut Vec<Cert>) -> Result<(), ReadError>
    ensures read { OnOk result (AppendsRead pool.old.items pool.new.items
        (map (λ octets. octets.items) octets.now)) }
    ensures unread { IfErr result (IsUnread (map (λ octets. octets.items) octets.now)) }
{
    let [first, others @ ..] = octets else {
        return Ok(());
    };
    let certificate = read_certificate(alloc, first)?;
    pool.push(certificate)?;
    read_pool(alloc, others, pool)
}

/// Reads a certificate.
fn read_certificate(alloc: Global, octets: &[u8]) -> Result<Cert, ReadError>
    ensures read { IfOk result (λ certificate. kept_octets certificate ≡ octets.now) }
    ensures unread { IfErr result (IsUnread (octets.now ∷ [])) }
{
    match Cert::from_der(alloc, octets) {
        Ok(certificate) => Ok(certificate),
        Err(error) => Err(cause_of(error)),
    }
}

/// Why a certificate isn't read.
fn cause_of(error: CertError) -> ReadError
    ensures { result ≡ unread.NoCertificate → error ≢ errors.Memory }
{
    match &error {
        CertError::Memory => ReadError::Memory,
        _ => ReadError::NoCertificate,
    }
}
