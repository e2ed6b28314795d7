//! What is checked of a signature file.

ghost use Rattle.std.specs.Prelude.{◌≡◌};
ghost use Rattle.authenticode_core.specs.Policy.{policy_checks, first_policy};

use crate::ctl::CertificateTrustList;
use der_core::Octets;
use names_core::NameList;
use std::alloc::Global;
use x509_core::{ChainChecks, DateCheck, Window};

/// What is checked of a signature file.
#[derive(Debug, Drop)]
pub struct Policy<'a> {
    /// Whether basic validation is checked: the form of the signed data, the digest of the file and
    /// the signature.
    pub basic: bool,
    /// The expected digest of the file.
    pub file_hash: Option<Octets>,
    /// Whether the signer's certificate must be valid or its expiry excused. The next four fields
    /// say how.
    pub signing: bool,
    /// Whether certificates must have begun to be valid.
    pub not_before: bool,
    /// Whether certificates must not have expired. An excuse waives this for the signer's
    /// certificate alone.
    pub not_after: bool,
    /// Whether the certificates of the issuer path must be linked to the signer's, excused or not.
    pub chain: bool,
    /// The date or interval for which certificates must be valid.
    pub date: DateCheck,
    /// Whether the CA of the signer must be on the trust list, if there is one, or excluded.
    pub against_list: bool,
    /// The trust list. The CA of a token that excuses an expiry must be on it whatever
    /// `against_list` says.
    pub list: Option<&'a CertificateTrustList>,
    /// The time at which CAs must be on the list, in whole seconds since 1601-01-01, UTC.
    pub now: i64,
    /// Whether the CA of the signer may have an excluded name instead.
    pub exclude: bool,
    /// The names of CAs that needn't be on the list.
    pub excluded: NameList,
}

impl<'a> Policy<'a> {
    /// All checks, without a digest, a date, a list or names. It doesn't allocate.
    pub fn new(alloc: Global) -> Policy<'a>
        ensures { result ≡ first_policy }
    {
        Policy {
            basic: true,
            file_hash: None,
            signing: true,
            not_before: true,
            not_after: true,
            chain: true,
            date: DateCheck::Absent,
            against_list: true,
            list: None,
            now: 0,
            exclude: true,
            excluded: NameList::new(alloc),
        }
    }

    /// What is checked of the signer's certificate and those of its issuers. No root is required.
    pub(crate) fn checks(&self) -> ChainChecks
        ensures { result ≡ policy_checks self.entry.now }
    {
        ChainChecks {
            window: Window {
                date: self.date,
                not_before: self.not_before,
                not_after: self.not_after,
            },
            chain: self.chain,
            root: false,
        }
    }
}
