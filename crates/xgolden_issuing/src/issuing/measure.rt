//! Timing the validation of a chain and the building of a certificate, for
//! `bench/issuing/issuing.py`.

ghost use Rattle.sig_core.specs.declared.scheme.Verdict.TheVariants.{Accept};

use crate::issuing::chains::certificates_of;
use crate::issuing::settings::issued_under;
use crate::issuing::words::key_of;
use anyhow::{Result, bail};
use key_core::PrivateKey;
use names_core::UtcDate;
use sig_core::{Scheme, SchemeError, SchemeKind, SigAlg, Verdict};
use std::alloc::{AllocError, Global};
use std::io::Write;
use std::slice;
use std::time::CpuClock;
use x509_core::Cert;
use x509_issuing::CertificateBuilder;
use x509_types::KeyUsage;
use xgolden::{date_of, print_time};

/// A scheme that does no work: it accepts every signature, and signs with fixed octets.
#[derive(Drop)]
struct AtOnce;

impl Scheme for AtOnce {
    ghost use Rattle.std.specs.Prelude.{true, None};
    ghost use Rattle.std.proofs.lemmas.Option.{none-some};

    ghost judge = { λ _ _ _ _ _. Accept };

    ghost signs = { λ _ _ _ _. true };

    ghost derives = { λ _ _ _. None };

    ghost pair = { λ _ _ _ _. ⊥ };

    ghost derived_pairs = { λ _ _ _ key none. none-some key none };

    fn verify(
        &self,
        _alloc: Global,
        _alg: SigAlg,
        _key: &[u8],
        _msg: &[u8],
        _sig: &[u8],
    ) -> Result<Verdict, AllocError> {
        Ok(Verdict::Accept)
    }

    fn sign(
        &self,
        alloc: Global,
        _alg: SigAlg,
        _secret: &[u8],
        _msg: &[u8],
    ) -> Result<Vec<u8>, SchemeError> {
        Ok(Vec::from_slice(alloc, &[0xaa; 256])?)
    }

    fn public_of(
        &self,
        _alloc: Global,
        _kind: SchemeKind,
        _secret: &[u8],
    ) -> Result<Vec<u8>, SchemeError> {
        Err(SchemeError::Refused)
    }
}

/// A certificate and its parents, a date, and the key of the nearest parent.
#[derive(Drop)]
struct Work {
    octets: Vec<Vec<u8>>,
    certificates: Vec<Cert>,
    date: UtcDate,
    key: PrivateKey,
}

/// The timed jobs.
#[derive(Clone, Copy)]
enum Job {
    /// Validating the certificate with its parents.
    Judging,
    /// Reading all of them, and validating it.
    Reading,
    /// Building it anew.
    Building,
}

impl Job {
    const ALL: [Job; 3] = [Job::Judging, Job::Reading, Job::Building];

    fn name(self) -> &'static str {
        match self {
            Job::Judging => "judged",
            Job::Reading => "read",
            Job::Building => "built",
        }
    }

    /// Does the job and returns a number, None if it fails.
    fn done(self, alloc: Global, work: &Work) -> Option<usize> {
        match self {
            Job::Judging => accepted(alloc, &work.certificates, &work.date),
            Job::Reading => read(alloc, work),
            Job::Building => built(alloc, work),
        }
    }
}

/// Prints a line for each job.
pub fn print_times(
    alloc: Global,
    clock: &impl CpuClock,
    row: &str,
    times: u32,
    out: &mut impl Write,
) -> Result<()> {
    let work = work_of(alloc, row)?;
    let printed = print_jobs(alloc, clock, &work, times, out);
    drop(work);
    printed
}

fn print_jobs(
    alloc: Global,
    clock: &impl CpuClock,
    work: &Work,
    times: u32,
    out: &mut impl Write,
) -> Result<()> {
    let works = slice::from_ref(work);
    for job in Job::ALL {
        let name = job.name();
        print_time(
            alloc,
            clock,
            times,
            name,
            works,
            |work| job.done(alloc, work),
            out,
        )?;
    }
    Ok(())
}

/// The work in the words of a vector: certificates, a date, a key.
fn work_of(alloc: Global, row: &str) -> Result<Work> {
    let words: Vec<&str> = row.split(' ').collect(alloc)?;
    let [certificates, date, key] = words.as_slice() else {
        bail!("a row has certificates, a date and a key");
    };
    let certificates = certificates_of(alloc, certificates)?;
    Ok(Work {
        octets: octets_of(alloc, &certificates)?,
        certificates,
        date: date_of(date)?,
        key: key_of(alloc, key)?,
    })
}

fn octets_of(alloc: Global, certificates: &[Cert]) -> Result<Vec<Vec<u8>>, AllocError> {
    let mut all = Vec::new(alloc);
    for certificate in certificates {
        all.push(Vec::from_slice(alloc, certificate.as_bytes())?)?;
    }
    Ok(all)
}

/// The number of certificates, if the first is accepted with the others as its parents.
fn accepted(alloc: Global, certificates: &[Cert], date: &UtcDate) -> Option<usize> {
    let (checked, parents) = certificates.split_first()?;
    let validator = checked.verifier().exact_date(date).chain(parents.iter());
    validator.verify(alloc, &AtOnce).ok()?;
    Some(certificates.len())
}

fn read(alloc: Global, work: &Work) -> Option<usize> {
    let mut certificates = Vec::new(alloc);
    for octets in &work.octets {
        let certificate = Cert::from_der(alloc, octets).ok()?;
        certificates.push(certificate).ok()?;
    }
    accepted(alloc, &certificates, &work.date)
}

/// The length of a certificate like the first, issued by the second.
fn built(alloc: Global, work: &Work) -> Option<usize> {
    let [like, authority, ..] = work.certificates.as_slice() else {
        return None;
    };
    built_under(alloc, builder_like(alloc, like)?, authority, &work.key)
}

fn builder_like<'a>(alloc: Global, like: &Cert) -> Option<CertificateBuilder<'a>> {
    let usage = KeyUsage::new(alloc, 1).ok()?;
    let subject = like.subject_name(alloc).ok()?;
    let public_key = like.public_key().try_clone(alloc).ok()?;
    let builder = CertificateBuilder::new(alloc)
        .validity(like.valid_not_before(), like.valid_not_after())
        .subject(subject, public_key);
    Some(builder.key_usage(usage))
}

fn built_under<'a>(
    alloc: Global,
    builder: CertificateBuilder<'a>,
    authority: &Cert,
    key: &'a PrivateKey,
) -> Option<usize> {
    let builder = issued_under(builder, authority, key).ok()?;
    length_under(alloc, builder, &AtOnce)
}

fn length_under<S: Scheme>(
    alloc: Global,
    builder: CertificateBuilder<'_>,
    scheme: &S,
) -> Option<usize> {
    let certificate = builder.build(alloc, 7, scheme).ok()?;
    let length = certificate.as_bytes().len();
    drop(certificate);
    Some(length)
}
