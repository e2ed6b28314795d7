//! Key usages (RFC 5280 4.2.1.3).

ghost use Rattle.extension_types.specs.KeyUsage.{HasBit, IsUsageOf};
ghost use Rattle.std.specs.Prelude.{◌≡◌, ◌↔◌, IfOk, IsTrue};

use asn1_types::BitString;
use der_core::{DerError, Elem, Structure, Tree};
use std::alloc::{AllocError, Global};

/// What a key may be used for, as bits (RFC 5280 4.2.1.3). The bits stay as they were read.
#[derive(Debug, Drop)]
pub struct KeyUsage {
    bits: BitString,
}

impl KeyUsage {
    /// The key usage with these flags: `1 << i` sets bit i, for i at most 8; other flags are
    /// ignored. The string ends with its last bit that is 1 (X.690 11.2.2), so it is empty if there
    /// is none.
    pub fn new(alloc: Global, flags: u16) -> Result<KeyUsage, AllocError>
        ensures { IfOk result (λ usage. IsUsageOf flags usage.bits) }
    {
        // The lowest flag is the highest bit.
        let first = ((flags % 256) as u8).reverse_bits();
        let bits = if flags >> 8 & 1 == 1 {
            BitString::with_unused(alloc, &[first, 0x80], 7)?
        } else if first != 0 {
            BitString::with_unused(alloc, &[first], first.trailing_zeros() as u8)?
        } else {
            BitString::with_bytes(alloc, &[])?
        };
        Ok(KeyUsage { bits })
    }

    /// The bits.
    pub fn bits(&self) -> &BitString
        ensures { result.now ≡ self.now.bits }
    {
        &self.bits
    }

    /// Whether the key may verify signatures other than those on certificates and CRLs:
    /// `digitalSignature`.
    pub fn digital_signature(&self) -> bool
        ensures { IsTrue result ↔ HasBit self.now.bits 0 }
    {
        self.has_bit(0)
    }

    /// Whether the key may verify signatures that their signer can't deny: `nonRepudiation`, also
    /// called `contentCommitment`.
    pub fn non_repudiation(&self) -> bool
        ensures { IsTrue result ↔ HasBit self.now.bits 1 }
    {
        self.has_bit(1)
    }

    /// Whether the key may encipher keys: `keyEncipherment`.
    pub fn key_encipherment(&self) -> bool
        ensures { IsTrue result ↔ HasBit self.now.bits 2 }
    {
        self.has_bit(2)
    }

    /// Whether the key may encipher data: `dataEncipherment`.
    pub fn data_encipherment(&self) -> bool
        ensures { IsTrue result ↔ HasBit self.now.bits 3 }
    {
        self.has_bit(3)
    }

    /// Whether the key may be used for key agreement: `keyAgreement`.
    pub fn key_agreement(&self) -> bool
        ensures { IsTrue result ↔ HasBit self.now.bits 4 }
    {
        self.has_bit(4)
    }

    /// Whether the key may verify signatures on certificates: `keyCertSign`.
    pub fn key_cert_sign(&self) -> bool
        ensures { IsTrue result ↔ HasBit self.now.bits 5 }
    {
        self.has_bit(5)
    }

    /// Whether the key may verify signatures on CRLs: `cRLSign`.
    pub fn crl_sign(&self) -> bool
        ensures { IsTrue result ↔ HasBit self.now.bits 6 }
    {
        self.has_bit(6)
    }

    /// Whether the key may only encipher while performing key agreement: `encipherOnly`.
    pub fn encipher_only(&self) -> bool
        ensures { IsTrue result ↔ HasBit self.now.bits 7 }
    {
        self.has_bit(7)
    }

    /// Whether the key may only decipher while performing key agreement: `decipherOnly`.
    pub fn decipher_only(&self) -> bool
        ensures { IsTrue result ↔ HasBit self.now.bits 8 }
    {
        self.has_bit(8)
    }

    /// Whether the bit at this index, counted from the highest bit of the first octet, is 1.
    fn has_bit(&self, number: usize) -> bool
        ensures { IsTrue result ↔ HasBit self.now.bits number }
    {
        let payload = self.bits.payload_view();
        let place = number / 8;
        if place >= payload.len() {
            return false;
        }
        let bit = (number % 8) as u8;
        // The last octet has fewer bits.
        if place == payload.len() - 1 && bit + self.bits.unused() >= 8 {
            return false;
        }
        payload[place] >> (7 - bit) & 1 == 1
    }
}

impl Structure for KeyUsage {
    ghost use Rattle.extension_types.specs.KeyUsage.{key_usage};
    ghost use Rattle.extension_types.specs.Facts.Usages.{key_usages};

    ghost written = { key_usage };

    ghost spells = { λ element usage. element ≡ key_usage usage };

    fn has_shape(elem: Elem<'_>) -> bool {
        BitString::has_shape(elem)
    }

    fn read_at(alloc: Global, elem: Elem<'_>) -> Result<KeyUsage, DerError> {
        Ok(KeyUsage {
            bits: BitString::read_at(alloc, elem)?,
        })
    }

    fn write(&self, alloc: Global) -> Result<Tree, DerError> {
        self.bits.write(alloc)
    }

    fn try_clone(&self, alloc: Global) -> Result<KeyUsage, AllocError> {
        Ok(KeyUsage {
            bits: self.bits.try_clone(alloc)?,
        })
    }

    ghost grammar = { key_usages };
}

/// Key usages are equal exactly if their encodings are.
impl PartialEq for KeyUsage {
    ghost use Rattle.der_core.specs.Equality.{same_octets};
    ghost use Rattle.der_core.specs.Facts.Equality.{same_octets_per};
    ghost use Rattle.extension_types.specs.KeyUsage.{key_usage};

    ghost eq = { same_octets key_usage };

    ghost laws = { same_octets_per key_usage };

    fn eq(&self, other: &KeyUsage) -> bool
        ensures octets { result ≡ same_octets key_usage self.now other.now }
        ensures same { IsTrue result ↔ (self.now ≡ other.now) }
    {
        self.bits == other.bits
    }
}

impl Eq for KeyUsage {
    ghost use Rattle.der_core.specs.Facts.Equality.{same_octets_equiv};
    ghost use Rattle.extension_types.specs.KeyUsage.{key_usage};

    ghost laws = { same_octets_equiv key_usage };
}
