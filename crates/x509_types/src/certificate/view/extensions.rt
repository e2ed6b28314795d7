//! What the extensions of a borrowed certificate say.

ghost use Rattle.std.specs.Prelude.{◌↔◌, List, ℕ, Bool, IsTrue, MatchOption};
ghost use Rattle.x509_types.specs.CertificateView.{view_elements};
ghost use Rattle.x509_types.specs.ExtensionParts.{HasCa, HasPathLength, HasSubjectKey, HasAuthorityKey};
ghost use Rattle.x509_types.specs.Purposes.{NamesPurpose, HasPurposes};

use crate::certificate::view::CertView;
use crate::extension::first::listed;
use crate::extension::parts::{flag_at, key_identifier_at, length_at};
use crate::extension::purposes::has_usage_for;
use der_core::tag::OCTET_STRING;
use der_core::{leaf_at, whole_element};

/// If several extensions have the same OID, the first counts; but `names` looks in every extended
/// key usage.
impl<'a> CertView<'a> {
    /// Whether the subject is a CA (RFC 5280 4.2.1.9); `None` without basic constraints, or if
    /// their flag is absent, which means FALSE.
    pub fn ca(&self) -> Option<bool>
        ensures { MatchOption result
            ((b : Bool) → HasCa (view_elements self.now) b → ⊥)
            (λ b. HasCa (view_elements self.now) b) }
    {
        let octets = self.firsts.constraints?;
        let constraints = whole_element(octets)?;
        flag_at(constraints)
    }

    /// How many non-self-issued intermediate certificates may follow this one in a path (RFC 5280
    /// 4.2.1.9); `None` without basic constraints, or if they set no limit.
    pub fn path_length(&self) -> Option<u8>
        ensures { MatchOption result
            ((number : ℕ) → HasPathLength (view_elements self.now) number → ⊥)
            (λ number. HasPathLength (view_elements self.now) number) }
    {
        let octets = self.firsts.constraints?;
        let constraints = whole_element(octets)?;
        length_at(constraints)
    }

    /// The octets of the subject key identifier (RFC 5280 4.2.1.2), `None` if there is none.
    pub fn subject_key_identifier(&self) -> Option<&'a [u8]>
        ensures { MatchOption result
            ((key : List ℕ) → HasSubjectKey (view_elements self.now) key → ⊥)
            (λ key. HasSubjectKey (view_elements self.now) key.now) }
    {
        let octets = self.firsts.subject_key?;
        let value = whole_element(octets)?;
        leaf_at(value, OCTET_STRING)
    }

    /// The octets of the keyIdentifier in the authority key identifier (RFC 5280 4.2.1.1), `None`
    /// if there is none.
    pub fn authority_key_identifier(&self) -> Option<&'a [u8]>
        ensures { MatchOption result
            ((key : List ℕ) → HasAuthorityKey (view_elements self.now) key → ⊥)
            (λ key. HasAuthorityKey (view_elements self.now) key.now) }
    {
        let octets = self.firsts.authority_key?;
        let value = whole_element(octets)?;
        key_identifier_at(value)
    }

    /// Whether an extended key usage holds this KeyPurposeId, given as contents octets (RFC 5280
    /// 4.2.1.12).
    pub fn names(&self, oid: &[u8]) -> bool
        ensures { IsTrue result ↔ NamesPurpose (view_elements self.now) oid.now }
    {
        if !self.has_purposes() {
            return false;
        }
        match listed(self.extensions()) {
            Some(kids) => has_usage_for(kids, oid),
            None => false,
        }
    }

    /// Whether there is an extended key usage (RFC 5280 4.2.1.12).
    pub fn has_purposes(&self) -> bool
        ensures { IsTrue result ↔ HasPurposes (view_elements self.now) }
    {
        self.firsts.purposes.is_some()
    }
}
