//! Signed data, borrowed.

ghost use Rattle.asn1_types.specs.Elements.{object_identifier_of};
ghost use Rattle.cms_types.specs.Borrowed.{signed_data_at};
ghost use Rattle.cms_types.specs.Levels.{AreSignedDataFields};
ghost use Rattle.cms_types.specs.SignedDataElements.{signed_data_of};
ghost use Rattle.cms_types.specs.Signers.{IsSignedData};
ghost use Rattle.der_core.specs.Lending.{LendsKids};
ghost use Rattle.std.specs.Prelude.{◌≡◌};
ghost use Rattle.der_core.specs.DerElement.{tag_of};
ghost use Rattle.der_core.specs.Encoding.{form_bit};

use crate::levels::signed_data_in;
use crate::shapes::has_signers;
use crate::signed_data::fields::SignedDataFields;
use crate::version::CmsVersion;
use cms_content::ContentView;
use der_core::{Cursor, Elem};

/// Borrowed signed data with its type (RFC 5652 3, 5.1). It doesn't allocate.
#[derive(Clone, Copy)]
pub struct SignedView<'a> {
    fields: SignedDataFields<'a>,
    ghost fits: { ∥ AreSignedDataFields (signed_data_at fields)
        × IsSignedData (signed_data_of (signed_data_at fields)) ∥₁ },
}

impl<'a> SignedView<'a> {
    ghost use Rattle.std.specs.Prelude.{◌≡◌, ◌≢◌, [], ◌∷◌, MatchOption, Option};
    ghost use Rattle.der_core.specs.DerElement.{DerElement, Primitive};
    ghost use Rattle.der_core.specs.BorrowedOption.{at_option};
    ghost use Rattle.cms_content.specs.ContentInfoElements.{content_info_of};
    ghost use Rattle.cms_types.specs.Pkcs7.{pkcs7};
    ghost use Rattle.cms_types.specs.SignedView.{data_elements, IsSignedView};
    ghost use Rattle.der_core.specs.Lending.{LendsMembers};
    ghost use Rattle.cms_types.specs.declared.signed_data.pkcs7.Pkcs7Certificate.{Pkcs7Certificate};

    /// The view of an element, None if it encodes no signed data with its type.
    pub fn read(elem: Elem<'a>) -> Option<SignedView<'a>>
        ensures { MatchOption result
            ((value : Pkcs7Certificate) → elem.entry.is.0 ≢ pkcs7 value)
            (IsSignedView elem.entry.is.0) }
    {
        let signed_data = signed_data_in(elem)?;
        let fields = SignedDataFields::of(signed_data)?;
        if !has_signers(fields.signers_infos) {
            return None;
        }
        Some(SignedView { fields })
    }

    /// The number of the version.
    pub fn version(&self) -> u8
        ensures { (data_elements self.now).version ≡ Primitive 0x02 (result ∷ []) }
    {
        match CmsVersion::at(self.fields.version) {
            Some(version) => version.number(),
            None => unreachable!(),
        }
    }

    /// The element of the digest algorithms.
    pub fn digest_algorithm_identifiers(&self) -> Elem<'a>
        ensures { result.is.0 ≡ (data_elements self.now).digest_algorithms }
    {
        self.fields.digest_algorithms
    }

    /// The digest algorithms.
    pub fn digest_algorithms(&self) -> Cursor<'a>
        ensures { LendsKids (data_elements self.now).digest_algorithms result }
    {
        kids_of(self.fields.digest_algorithms)
    }

    /// The contents octets of the OID of the content's type.
    pub fn content_type(&self) -> &'a [u8]
        ensures { (content : Option DerElement)
            × ((data_elements self.now).content_info
            ≡ content_info_of (object_identifier_of result.now) content) }
    {
        ContentView::of_known(self.fields.content_info).content_type()
    }

    /// The content, unless it is absent.
    pub fn content(&self) -> Option<Elem<'a>>
        ensures { (content_type : DerElement)
            × ((data_elements self.now).content_info
            ≡ content_info_of content_type (at_option result)) }
    {
        ContentView::of_known(self.fields.content_info).content()
    }

    /// The element of the certificates, unless it is absent.
    pub fn certificates(&self) -> Option<Elem<'a>>
        ensures { at_option result ≡ (data_elements self.now).certificates }
    {
        self.fields.certificates
    }

    /// The certificates, empty if the field is absent.
    pub fn members(&self) -> Cursor<'a>
        ensures { LendsMembers (data_elements self.now).certificates result }
    {
        match self.fields.certificates {
            Some(certificates) => kids_of(certificates),
            None => Cursor::new(&[]),
        }
    }

    /// The element of the signers.
    pub fn signers_infos(&self) -> Elem<'a>
        ensures { result.is.0 ≡ (data_elements self.now).signers_infos }
    {
        self.fields.signers_infos
    }

    /// The signers.
    pub fn signers(&self) -> Cursor<'a>
        ensures { LendsKids (data_elements self.now).signers_infos result }
    {
        kids_of(self.fields.signers_infos)
    }
}

/// The elements in a constructed element.
fn kids_of<'a>(elem: Elem<'a>) -> Cursor<'a>
    requires { form_bit (tag_of elem.is.0) ≡ 1 }
    ensures { LendsKids elem.entry.is.0 result }
{
    match elem.kids() {
        Some(kids) => kids,
        None => unreachable!(),
    }
}
