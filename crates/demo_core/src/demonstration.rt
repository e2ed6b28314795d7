//! The whole demonstration.

ghost use Rattle.std.specs.Prelude.{◌≡◌, ◌<◌, length, flat_map, MatchResult, Some};
ghost use Rattle.std.specs.Fmt.{WritesOnOk};
ghost use Rattle.sha2.specs.Sha256.{sha256};
ghost use Rattle.x509_core.specs.Issued.{HasCert};
ghost use Rattle.x509_core.specs.OwnedCertificate.{KeptCertificate, kept_octets};
ghost use Rattle.x509_core.specs.declared.error.CertError.TheVariants as errors;
ghost use Rattle.demo_core.specs.Demonstration.{IsDemonstration, counts_text, report_text, sum_text};

use crate::acceptance::{accepted_count, root_count};
use crate::certificates::certificates_of;
use crate::history::history_of;
use crate::issuing::new_year;
use der_core::write_hexadecimal;
use sha2::{Digest, Sha256};
use std::alloc::Global;
use std::fmt;
use x509_core::{Cert, CertError};

/// What a demonstration reports.
#[derive(Clone, Copy, Debug, PartialEq, Eq)]
pub struct Demonstration {
    /// The number of steps, and so of certificates.
    pub steps: u8,
    /// How many of them are roots.
    pub roots: usize,
    /// How many certificates are accepted at the first second of 2025, each over all its ancestors.
    pub accepted: usize,
    /// The SHA-256 of the octets of all certificates, in the order of the steps.
    pub sum: [u8; 32],
}

/// As `demo steps=N roots=R accepted=K sum=S`: numbers in decimal, the digest in hexadecimal.
impl fmt::Display for Demonstration {
    ghost output = { λ report. Some (report_text report) };

    fn fmt<W: fmt::Write>(&self, f: &mut fmt::Formatter<W>) -> fmt::Result {
        write_counts(self, f)?;
        write_sum(&self.sum, f)
    }
}

fn write_sum<W: fmt::Write>(sum: &[u8], f: &mut fmt::Formatter<W>) -> fmt::Result
    ensures { WritesOnOk W.write_str_gives f.old result (sum_text sum.now) f.new }
{
    f.write_str(" sum=")?;
    write_hexadecimal(sum, f)
}

fn write_counts<W: fmt::Write>(report: &Demonstration, f: &mut fmt::Formatter<W>) -> fmt::Result
    ensures { WritesOnOk W.write_str_gives f.old result (counts_text report.now) f.new }
{
    f.write_str("demo steps=")?;
    write!(f, "{}", report.steps)?;
    f.write_str(" roots=")?;
    write!(f, "{}", report.roots)?;
    f.write_str(" accepted=")?;
    write!(f, "{}", report.accepted)
}

/// Issues the certificates of the history of so many steps, each written and read again, and
/// validates each over all its ancestors. Only out of memory is an error.
pub fn demonstrate(alloc: Global, count: u8) -> Result<Demonstration, CertError>
    ensures { MatchResult result (IsDemonstration count) (λ e. e ≡ errors.Memory) }
{
    let steps = history_of(alloc, u32::from(count))?;
    let certificates = certificates_of(alloc, &steps)?;
    let date = new_year(2025);
    let accepted = accepted_count(alloc, &steps, &certificates, &date)?;
    Ok(Demonstration {
        steps: count,
        roots: root_count(&steps),
        accepted,
        sum: sum_of(&certificates),
    })
}

/// The SHA-256 of the octets of all certificates, in their order.
fn sum_of(certificates: &[Cert]) -> [u8; 32]
    ensures { result ≡ sha256 (flat_map kept_octets certificates.now) }
{
    let mut hasher = Sha256::new();
    for k in 0..certificates.len() {
        hasher.update(octets_at(certificates, k));
    }
    hasher.finalize()
}

/// The octets of the certificate of this index.
fn octets_at(certificates: &[Cert], index: usize) -> &[u8]
    requires within { index < length certificates.now }
    ensures { (cert : KeptCertificate) → HasCert certificates.now index cert
        → result.now ≡ kept_octets cert }
{
    certificates[index].as_bytes()
}
