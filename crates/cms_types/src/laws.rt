//! Laws on signers and signed data.

ghost use Rattle.std.specs.Prelude.{◌≡◌};
ghost use Rattle.der_core.specs.DerElement.{DerElement};
ghost use Rattle.der_core.specs.Encoding.{IsDer};
ghost use Rattle.cms_types.specs.Pkcs7.{pkcs7};
ghost use Rattle.cms_types.specs.SignedData.{signed_data, signed_data_elements};
ghost use Rattle.cms_types.specs.SignedView.{data_elements, IsSignedView};
ghost use Rattle.cms_types.specs.SignerInfo.{signer_info, signer_elements};
ghost use Rattle.cms_types.specs.SignerView.{signer_elements_at, IsSignerView};
ghost use Rattle.cms_types.specs.Signers.{IsSignerInfo, IsUnsignedAttribute, IsSignedData, IsPkcs7};
ghost use Rattle.cms_types.specs.UnsignedAttribute.{unsigned_attribute};
ghost use Rattle.cms_types.specs.declared.signed_data.SignedData.{SignedData};
ghost use Rattle.cms_types.specs.declared.signed_data.pkcs7.Pkcs7Certificate.{Pkcs7Certificate};
ghost use Rattle.cms_types.specs.declared.signed_data.view.SignedView.{SignedView};
ghost use Rattle.cms_types.specs.declared.signer_info.SignerInfo.{SignerInfo};
ghost use Rattle.cms_types.specs.declared.signer_info.view.SignerView.{SignerView};
ghost use Rattle.cms_types.specs.declared.unsigned_attribute.UnsignedAttribute.{UnsignedAttribute};

/// Signers, unsigned attributes and signed data contain one another, so their structure is
/// specified on elements alone. An element within limits has it exactly where it is that of a
/// value.
pub fn shapes_are_those_of_values()
    ensures signers { (element : DerElement) → IsDer element → IsSignerInfo element
        → (value : SignerInfo) × (element ≡ signer_info value) }
    ensures of_signers { (value : SignerInfo) → ∥ IsSignerInfo (signer_info value) ∥₁ }
    ensures attributes { (element : DerElement) → IsDer element → IsUnsignedAttribute element
        → (value : UnsignedAttribute) × (element ≡ unsigned_attribute value) }
    ensures of_attributes { (value : UnsignedAttribute)
        → ∥ IsUnsignedAttribute (unsigned_attribute value) ∥₁ }
    ensures signed { (element : DerElement) → IsDer element → IsSignedData element
        → (value : SignedData) × (element ≡ signed_data value) }
    ensures of_signed { (value : SignedData) → ∥ IsSignedData (signed_data value) ∥₁ }
    ensures tokens { (element : DerElement) → IsDer element → IsPkcs7 element
        → (value : Pkcs7Certificate) × (element ≡ pkcs7 value) }
    ensures of_tokens { (value : Pkcs7Certificate) → ∥ IsPkcs7 (pkcs7 value) ∥₁ }
{}

/// The views of signed data and of signers borrow the fields of the value that is read.
pub fn views_lend_what_signed_data_has()
    ensures signed { (element : DerElement) (view : SignedView) (value : Pkcs7Certificate)
        → IsSignedView element view → element ≡ pkcs7 value
        → data_elements view ≡ signed_data_elements value.signed_data }
    ensures signers { (element : DerElement) (view : SignerView) (value : SignerInfo)
        → IsSignerView element view → element ≡ signer_info value
        → signer_elements_at view ≡ signer_elements value }
{}
