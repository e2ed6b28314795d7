//! Whether a scheme that knows the signatures of a CA accepts certificates that it didn't issue.

use crate::issuing::{Authority, years};
use crate::whole_rows::WholeRows;
use names_core::UtcDate;
use sig_core::{DemoScheme, Scheme, SigAlg};
use std::alloc::{AllocError, Global};
use std::test::Fail;
use x509_core::{Cert, CertCause, CertError};

/// Appends the signature of a certificate by its parent's key.
fn add(rows: &mut WholeRows, parent: &Cert, child: &Cert) -> Result<(), AllocError> {
    let (parent, child) = (parent.view(), child.view());
    rows.push(
        SigAlg::RsaSha256,
        parent.key(),
        child.tbs(),
        child.signature(),
    )
}

/// The signatures of the CA, on its root, its intermediate and a leaf.
fn rows_of(alloc: Global, ca: &Authority, leaf: &Cert) -> Result<WholeRows, AllocError> {
    let mut rows = WholeRows::new(alloc);
    add(&mut rows, &ca.root, &ca.root)?;
    add(&mut rows, &ca.root, &ca.intermediate)?;
    add(&mut rows, &ca.intermediate, leaf)?;
    Ok(rows)
}

/// Verifies a leaf of the CA at a date, with its parents.
fn verified<S: Scheme>(
    alloc: Global,
    (leaf, parents): (&Cert, &[Cert]),
    date: &UtcDate,
    scheme: &S,
) -> Result<(), CertError> {
    leaf.verifier()
        .exact_date(date)
        .chain(parents.iter())
        .verify(alloc, scheme)
}

/// Whether the error says that the signature of a certificate isn't one by its parent's key.
fn is_badly_signed(answer: &Result<(), CertError>) -> bool {
    matches!(
        answer,
        Err(CertError::InvalidCertificate {
            source: CertCause::Signature { .. },
            ..
        })
    )
}

#[test]
fn accepts_no_other_leaf(rt: HostRuntime) -> Result<(), Fail> {
    let ca = Authority::new(rt.alloc())?;
    let leaf = ca.leaf(rt.alloc(), "LEAF")?;
    let other = ca.leaf(rt.alloc(), "OTHER")?;
    let rows = rows_of(rt.alloc(), &ca, &leaf)?;
    let mut parents = Vec::new(rt.alloc());
    parents.push(ca.intermediate)?;
    parents.push(ca.root)?;
    let (date, _) = years(2025, 2026)?;
    let demo = DemoScheme::new();
    assert!(rt; verified(rt.alloc(), (&leaf, &parents), &date, &rows).is_ok());
    assert!(rt; verified(rt.alloc(), (&other, &parents), &date, &demo).is_ok());
    let refused = verified(rt.alloc(), (&other, &parents), &date, &rows);
    assert!(rt; is_badly_signed(&refused));
    Ok(())
}
