//! The members of counter-signatures: reading them and making them.

ghost use Rattle.std.specs.Prelude.{◌≡◌, ◌∷◌, ◌++◌, [], map, flat_map, MatchResult};
ghost use Rattle.der_core.specs.Borrowed.{AreDer};
ghost use Rattle.der_core.specs.Refusals.{RefusesInner};
ghost use Rattle.der_core.specs.declared.error.DerError.TheVariants as errors;
ghost use Rattle.cms_types.specs.Members.{elements_of_kept, all_inner};

use crate::signed_data::pkcs7::Pkcs7Certificate;
use crate::signer_info::SignerInfo;
use crate::unsigned_attribute::raw::RawList;
use crate::unsigned_attribute::signer_values::SignerValues;
use crate::unsigned_attribute::token_values::TokenValues;
use der_core::{DerError, ListOf, Raw, Structure};
use std::alloc::{AllocError, Global};

impl SignerValues {
    ghost use Rattle.std.specs.Prelude.{◌≤◌, length, slice_get, Ok, None, IfOk};
    ghost use Rattle.std.specs.Option.{option_map};
    ghost use Rattle.cms_types.specs.Members.{element_of_kept};
    ghost use Rattle.cms_types.specs.SignerInfo.{signer_info};

    /// The elements of the signers, in order. `TooDeep` or `TooLong` exactly where
    /// `der_core::write` refuses the first signer that can't be written that way.
    pub fn from_signers(alloc: Global, signers: &[SignerInfo]) -> Result<SignerValues, DerError>
        ensures { MatchResult result
            (λ values. elements_of_kept values.items ≡ map signer_info signers.now)
            (RefusesInner (map signer_info signers.now)) }
    {
        let items = keep_each(alloc, signers)?;
        Ok(SignerValues { items })
    }

    /// The signer at this index, `None` exactly from the length on.
    pub fn get(&self, alloc: Global, place: usize) -> Result<Option<SignerInfo>, AllocError>
        ensures found { IfOk result (λ signer. option_map signer_info signer
            ≡ option_map element_of_kept (slice_get self.now.items place)) }
        // From the length on nothing is allocated.
        ensures past { length self.now.items ≤ place → result ≡ Ok None }
    {
        let Some(member) = self.items.as_slice().get(place) else {
            return Ok(None);
        };
        match SignerInfo::read_at(alloc, member.elem()) {
            Ok(signer) => Ok(Some(signer)),
            Err(error) => Err(want_of_memory(error)),
        }
    }
}

impl TokenValues {
    ghost use Rattle.std.specs.Prelude.{◌≤◌, length, slice_get, Ok, None, IfOk};
    ghost use Rattle.std.specs.Option.{option_map};
    ghost use Rattle.cms_types.specs.Members.{element_of_kept};
    ghost use Rattle.cms_types.specs.Pkcs7.{pkcs7};

    /// The elements of the tokens, in order. `TooDeep` or `TooLong` exactly where `der_core::write`
    /// refuses the first token that can't be written that way.
    pub fn from_tokens(alloc: Global, tokens: &[Pkcs7Certificate]) -> Result<TokenValues, DerError>
        ensures { MatchResult result
            (λ values. elements_of_kept values.items ≡ map pkcs7 tokens.now)
            (RefusesInner (map pkcs7 tokens.now)) }
    {
        let items = keep_each(alloc, tokens)?;
        Ok(TokenValues { items })
    }

    /// The token at this index, `None` exactly from the length on.
    pub fn get(&self, alloc: Global, place: usize) -> Result<Option<Pkcs7Certificate>, AllocError>
        ensures found { IfOk result (λ token. option_map pkcs7 token ≡ option_map element_of_kept
            (slice_get self.now.items place)) }
        // From the length on nothing is allocated.
        ensures past { length self.now.items ≤ place → result ≡ Ok None }
    {
        let Some(member) = self.items.as_slice().get(place) else {
            return Ok(None);
        };
        match Pkcs7Certificate::read_at(alloc, member.elem()) {
            Ok(token) => Ok(Some(token)),
            Err(error) => Err(want_of_memory(error)),
        }
    }
}

/// The elements of the values, in order, each raw.
fn keep_each<T: Structure>(alloc: Global, values: &[T]) -> Result<RawList, DerError>
    ensures { MatchResult result
        (λ kept. elements_of_kept kept ≡ map T.written values.now)
        (RefusesInner (all_inner T.inner T.written values.now)) }
{
    let mut kept = ListOf::new(alloc);
    let mut rest = values;
    while let Some((value, others)) = rest.split_first() {
        kept.push(kept_of(alloc, value)?)?;
        rest = others;
    }
    Ok(kept)
}

/// The element of the value, raw.
fn kept_of<T: Structure>(alloc: Global, value: &T) -> Result<Raw, DerError>
    ensures { MatchResult result
        (λ kept. (kept.element ≡ T.written value.now)
        × AreDer (T.inner value.now ++ T.written value.now ∷ []))
        (RefusesInner (T.inner value.now ++ T.written value.now ∷ [])) }
{
    let tree = value.write(alloc)?;
    Ok(Raw::from_tree(alloc, &tree)?)
}

/// An element that encodes a value is only refused when out of memory.
fn want_of_memory(_error: DerError) -> AllocError
    requires { _error ≡ errors.Memory }
{
    AllocError
}
