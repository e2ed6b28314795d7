//! The time-stamp token of a signature, borrowed (Windows Authenticode Portable Executable
//! Signature Format).

ghost use Rattle.std.specs.Prelude.{◌≡◌, [], ◌∷◌, List, MatchOption};
ghost use Rattle.cms_types.specs.SignedDataElements.{SignedDataElements};
ghost use Rattle.cms_types.specs.SignedView.{data_elements};
ghost use Rattle.cms_types.specs.SignerElements.{SignerElements};
ghost use Rattle.cms_types.specs.SignerView.{signer_elements_at};
ghost use Rattle.der_core.specs.DerElement.{DerElement};
ghost use Rattle.der_core.specs.Optional.{members_of};
ghost use Rattle.authenticode_core.specs.Excuses.{HasToken};
ghost use Rattle.authenticode_core.specs.SignedFields.{IsFirstSigner};

use crate::form::first_within;
use crate::signature::attributes::values_of;
use asn1_types::oids::RFC3161_COUNTER_SIGN;
use cms_types::{SignedView, SignerView};
use der_core::Elem;

/// The first time-stamp token in the first unsigned attribute of the first signer, if that
/// attribute holds tokens. It doesn't allocate.
pub fn token_of<'a>(signed_data: &SignedView<'a>) -> Option<SignedView<'a>>
    ensures { MatchOption result
        ((t : SignedDataElements) → HasToken (data_elements signed_data.now) t → ⊥)
        (λ token. HasToken (data_elements signed_data.now) (data_elements token)) }
{
    let signer = first_signer_of(signed_data)?;
    let attribute = first_unsigned_of(&signer)?;
    let mut tokens = values_of(attribute, RFC3161_COUNTER_SIGN)?;
    let first = tokens.next()?;
    SignedView::read(first)
}

/// The first signer. It doesn't allocate.
pub fn first_signer_of<'a>(signed_data: &SignedView<'a>) -> Option<SignerView<'a>>
    ensures { MatchOption result
        ((g : SignerElements) → IsFirstSigner (data_elements signed_data.now) g → ⊥)
        (λ signer. IsFirstSigner (data_elements signed_data.now) (signer_elements_at signer)) }
{
    let first = first_within(signed_data.signers_infos())?;
    SignerView::read(first)
}

/// The first unsigned attribute of a signer.
fn first_unsigned_of<'a>(signer: &SignerView<'a>) -> Option<Elem<'a>>
    ensures { MatchOption result (members_of (signer_elements_at signer.now).unsigned_attrs ≡ [])
        (λ first. (others : List DerElement)
        × (members_of (signer_elements_at signer.now).unsigned_attrs ≡ first.is.0 ∷ others)) }
{
    let attributes = signer.unsigned_attributes()?;
    first_within(attributes)
}
