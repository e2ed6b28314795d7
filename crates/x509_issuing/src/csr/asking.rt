//! The extensions that a request asks for.

ghost use Rattle.std.specs.Prelude.{◌≡◌, MatchOption, None, Some, [], ◌∷◌, length};
ghost use Rattle.std.specs.Option.{option_copied};
ghost use Rattle.x509_issuing.specs.Inherited.{asked_by, asked_first, asked_in};

use super::Csr;
use x509_types::{Attribute, AttributeValues, Extension, Extensions};

impl Csr {
    /// The extensions in the first value of the first attribute that asks for extensions.
    pub(crate) fn asked_extensions(&self) -> &[Extension]
        ensures { result.now ≡ asked_in self.now.request.certification_request_info.attributes }
    {
        match &self.attributes {
            Some(attributes) => asked_first(attributes.as_slice()),
            None => &[],
        }
    }
}

/// The same, among these attributes.
fn asked_first(attributes: &[Attribute]) -> &[Extension]
    ensures { result.now ≡ asked_first attributes.now }
{
    let mut rest = attributes;
    while let Some((attribute, others)) = rest.split_first() {
        if let Some(extensions) = asked_by(&attribute.value) {
            return extensions.as_slice();
        }
        rest = others;
    }
    &[]
}

/// The first value of an attribute that asks for extensions.
fn asked_by(values: &AttributeValues) -> Option<&Extensions>
    ensures { MatchOption result (asked_by values.now ≡ None)
        (λ extensions. asked_by values.now ≡ Some extensions.now) }
{
    match values {
        AttributeValues::Extensions(requests) => requests.as_slice().first(),
        AttributeValues::ContentType(_)
        | AttributeValues::MessageDigest(_)
        | AttributeValues::Raw(_) => None,
    }
}
