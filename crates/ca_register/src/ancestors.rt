//! The certificates of the ancestors of an entry.

ghost use Rattle.std.specs.Prelude.{◌≡◌};
ghost use Rattle.std.specs.List.{slice_get};
ghost use Rattle.std.specs.Iterator.{YieldsFirstRef, item_count};
ghost use Rattle.ca_register.specs.Above.{above_left, issuer_in};

use crate::entry::Entry;
use x509_core::Cert;

/// The certificates of the ancestors of an entry, the nearest first. It doesn't allocate.
#[derive(Clone, Copy)]
pub(crate) struct Ancestors<'a> {
    pub(crate) entries: &'a [Entry],
    pub(crate) certificates: &'a [Cert],
    /// The index of the next ancestor, none above a root.
    pub(crate) issuer: Option<usize>,
    /// How many there are at most.
    pub(crate) most: usize,
}

impl<'a> Iterator for Ancestors<'a> {
    type Item = &'a Cert;

    ghost next_gives = { YieldsFirstRef above_left };

    ghost remaining = { item_count above_left };

    fn next(&mut self) -> Option<&'a Cert> {
        let issuer = self.issuer?;
        let cert = self.certificates.get(issuer)?;
        let left = self.most.checked_sub(1)?;
        self.most = left;
        self.issuer = issuer_at(self.entries, issuer);
        Some(cert)
    }
}

/// The issuer of the entry at an index, if there is one.
fn issuer_at(entries: &[Entry], place: usize) -> Option<usize>
    ensures { result ≡ issuer_in (slice_get entries.now place) }
{
    match entries.get(place) {
        Some(entry) => entry.issuer,
        None => None,
    }
}
