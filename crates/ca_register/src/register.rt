//! A register: its entries and its certificates.

ghost use Rattle.std.specs.Prelude.{◌≡◌, ◌≤◌, ◌<◌, ◌++◌, [], ◌∷◌, length, IfOk, MatchOption, OnErr, OnOk};
ghost use Rattle.x509_core.specs.Issued.{HasCert};
ghost use Rattle.ca_register.specs.Authorities.{IsRegister};
ghost use Rattle.ca_register.specs.Entries.{HasEntry};

use crate::entry::Entry;
use sig_core::Scheme;
use std::alloc::{AllocError, Global};
use x509_core::Cert;

/// A CA's certificates, each with its entry, in the order of issuing. The history of the entries
/// issued the certificates; each ancestor of an entry is a CA whose path length allows for the
/// certificates between; each root is a CA.
#[derive(Drop)]
pub struct Register<S: Scheme + Drop> {
    pub(crate) alloc: Global,
    pub(crate) scheme: S,
    pub(crate) entries: Vec<Entry>,
    pub(crate) certificates: Vec<Cert>,
    pub ghost kept: { ∥ IsRegister (S.judge scheme) entries.items certificates.items ∥₁ },
}

impl<S: Scheme + Drop> Register<S> {
    /// An empty register, whose certificates are signed and verified by the scheme.
    pub fn new(alloc: Global, scheme: S) -> Register<S>
        ensures scheme { result.scheme ≡ scheme }
        ensures entries { result.entries.items ≡ [] }
        ensures certificates { result.certificates.items ≡ [] }
    {
        Register {
            alloc,
            scheme,
            entries: Vec::new(alloc),
            certificates: Vec::new(alloc),
        }
    }

    /// The number of certificates.
    pub fn len(&self) -> usize
        ensures entries { result ≡ length self.now.entries.items }
        ensures certificates { result ≡ length self.now.certificates.items }
        // The history of the entries issued the certificates.
        ensures register { ∥ IsRegister (S.judge self.now.scheme) self.now.entries.items
            self.now.certificates.items ∥₁ }
    {
        self.entries.len()
    }

    /// The entry at an index, counted from 0. None exactly from `len` on. It doesn't allocate.
    pub fn entry(&self, place: usize) -> Option<&Entry>
        ensures { MatchOption result (length self.now.entries.items ≤ place)
            (λ entry. HasEntry self.now.entries.items place entry.now) }
    {
        self.entries.get(place)
    }

    /// The certificate at an index, counted from 0. None exactly from `len` on. It doesn't
    /// allocate.
    pub fn certificate(&self, place: usize) -> Option<&Cert>
        ensures { MatchOption result (length self.now.certificates.items ≤ place)
            (λ cert. HasCert self.now.certificates.items place cert.now) }
    {
        self.certificates.get(place)
    }

    /// Adds a certificate with its entry; returns its index. If memory runs out, nothing changes.
    pub(crate) fn add(&mut self, entry: Entry, cert: Cert) -> Result<usize, AllocError>
        requires { ∥ IsRegister (S.judge self.old.scheme) (self.old.entries.items ++ entry ∷ [])
            (self.old.certificates.items ++ cert ∷ []) ∥₁ }
        ensures ok { OnOk result ((self.new.entries.items ≡ self.old.entries.items ++ entry ∷ [])
            × (self.new.certificates.items ≡ self.old.certificates.items ++ cert ∷ [])) }
        ensures place { IfOk result (λ place. place ≡ length self.old.entries.items) }
        ensures within { IfOk result (λ place. place < length self.new.entries.items) }
        ensures scheme { self.new.scheme ≡ self.old.scheme }
        ensures err { OnErr result ((self.new.entries.items ≡ self.old.entries.items)
            × (self.new.certificates.items ≡ self.old.certificates.items)) }
    {
        let place = self.entries.len();
        push_both(&mut self.entries, &mut self.certificates, entry, cert)?;
        Ok(place)
    }
}

/// Appends to both lists, or to none.
fn push_both(
    entries: &mut Vec<Entry>,
    certificates: &mut Vec<Cert>,
    entry: Entry,
    cert: Cert,
) -> Result<(), AllocError>
    ensures ok { OnOk result ((entries.new.items ≡ entries.old.items ++ entry ∷ [])
        × (certificates.new.items ≡ certificates.old.items ++ cert ∷ [])) }
    ensures err { OnErr result ((entries.new.items ≡ entries.old.items)
        × (certificates.new.items ≡ certificates.old.items)) }
{
    entries.reserve(1)?;
    certificates.push(cert)?;
    match entries.push(entry) {
        Ok(()) => Ok(()),
        Err(_) => unreachable!(),
    }
}
