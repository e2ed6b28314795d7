//! The signature of a borrowed certificate: its algorithm, as element, and its unused bits.

ghost use Rattle.std.specs.Prelude.{◌≡◌};
ghost use Rattle.x509_types.specs.CertificateView.{view_elements};

use crate::certificate::view::CertView;
use der_core::tag::BIT_STRING;
use der_core::{Elem, leaf_at};

impl<'a> CertView<'a> {
    /// The element of the AlgorithmIdentifier of the signature, the one in what is signed (RFC 5280
    /// 4.1.2.3).
    pub fn signed_algorithm(&self) -> Elem<'a>
        ensures { result.is.0 ≡ (view_elements self.now).tbs.signature }
    {
        self.parts.fields.signature
    }

    /// The element of the AlgorithmIdentifier of the signature, the one beside what is signed (RFC
    /// 5280 4.1.1.2).
    pub fn outer_algorithm(&self) -> Elem<'a>
        ensures { result.is.0 ≡ (view_elements self.now).algorithm }
    {
        self.parts.algorithm
    }

    /// How many bits of the last octet of the signature are unused (X.690 8.6.2.2).
    pub fn unused_bits(&self) -> u8
        ensures { result ≡ (view_elements self.now).unused }
    {
        match leaf_at(self.parts.value, BIT_STRING) {
            Some([unused, ..]) => *unused,
            _ => unreachable!(),
        }
    }
}
