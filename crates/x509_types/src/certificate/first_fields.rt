//! The first fields of a borrowed certificate, read without those behind them.

ghost use Rattle.std.specs.Prelude.{◌≡◌, MatchOption};
ghost use Rattle.der_core.specs.Encoding.{encoding};
ghost use Rattle.x509_types.specs.CertificateElements.{CertificateElements, certificate_of};

use crate::certificate::tbs_fields::VERSION;
use der_core::tag::{INTEGER, SEQUENCE};
use der_core::{Elem, Kids, leaf_at};

/// The encoding of the issuer, and the contents octets of the serial number, of the certificate
/// that an element may be (RFC 5280 4.1.2.4, 4.1.2.2). Only heads are read, and none behind the
/// issuer, so an element that is no certificate may have both.
pub fn issuer_and_serial_at<'a>(elem: Elem<'a>) -> Option<(&'a [u8], &'a [u8])>
    ensures { (f : CertificateElements) → elem.entry.is.0 ≡ certificate_of f → MatchOption result ⊥
        (λ named. (named.0.now ≡ encoding f.tbs.issuer) × (named.1.now ≡ f.tbs.serial_number)) }
{
    let mut fields = Kids::of(elem, SEQUENCE)?;
    let mut kids = Kids::of(fields.next()?, SEQUENCE)?;
    let _version = kids.next_explicit(VERSION)?;
    let serial_number = leaf_at(kids.next()?, INTEGER)?;
    let _signature = kids.next()?;
    let issuer = kids.next()?;
    Some((issuer.whole, serial_number))
}
