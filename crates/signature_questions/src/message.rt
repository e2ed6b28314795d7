//! Messages that are signed, borrowed.

ghost use Rattle.std.specs.Prelude.{◌≡◌, ◌≢◌, [], IfOk};
ghost use Rattle.cms_types.specs.SignerView.{signer_elements_at};
ghost use Rattle.authenticode_core.specs.SignedFields.{signed_message};
ghost use Rattle.signature_questions.specs.Borrowed.{message_octets};

use cms_types::SignerView;
use der_core::tag::SET;
use std::alloc::{AllocError, Global};

/// What follows the tag of an empty SET.
const EMPTY: &[u8] = &[0];

/// A message that is signed: its first octet, and the others, borrowed. What a signer signs differs
/// in the first octet from what is in the file.
#[derive(Clone, Copy)]
pub struct Message<'a> {
    pub first: u8,
    pub rest: &'a [u8],
}

impl<'a> Message<'a> {
    /// These octets.
    pub(crate) fn of(octets: &'a [u8]) -> Message<'a>
        requires { octets.now ≢ [] }
        ensures { message_octets result ≡ octets.now }
    {
        Message {
            first: octets[0],
            rest: &octets[1..],
        }
    }

    /// What a signer signs: its attributes with the tag of a SET, an empty one if they are absent
    /// (RFC 2315 9.3).
    pub(crate) fn of_signer(signer: &SignerView<'a>) -> Message<'a>
        ensures { message_octets result ≡ signed_message (signer_elements_at signer.now) }
    {
        match signer.signed_attributes() {
            Some(attributes) => Message {
                first: SET,
                rest: &attributes.whole[1..],
            },
            None => Message {
                first: SET,
                rest: EMPTY,
            },
        }
    }

    /// The octets, copied.
    pub fn to_vec(&self, alloc: Global) -> Result<Vec<u8>, AllocError>
        ensures { IfOk result (λ octets. octets.items ≡ message_octets self.now) }
    {
        let mut octets = Vec::with_capacity(alloc, self.rest.len().saturating_add(1))?;
        octets.push(self.first)?;
        octets.extend_from_slice(self.rest)?;
        Ok(octets)
    }
}
