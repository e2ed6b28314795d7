//! The revisions and certificate types of a header.

ghost use Rattle.std.specs.Prelude.{◌≡◌};
ghost use Rattle.std.specs.Option.{ok_or};
ghost use Rattle.wincert_core.specs.declared.error.WinCertificateError.TheVariants.{WrongRevisionValue, WrongCertificateType};
ghost use Rattle.wincert_core.specs.Kinds.{revision_number, revision_numbered, type_number, type_numbered};

use crate::error::WinCertificateError;

/// The version of the WIN_CERTIFICATE structure, its `wRevision`. It says nothing about the
/// certificate.
#[derive(Clone, Copy, Debug, PartialEq, Eq)]
pub enum RevisionType {
    /// 1.0, for old Authenticode signatures.
    WinCertificateRevision10 = 0x0100,
    /// 2.0, the current version.
    WinCertificateRevision20 = 0x0200,
}

impl RevisionType {
    /// All revisions, by number.
    pub const ALL: [RevisionType; 2] = [
        RevisionType::WinCertificateRevision10,
        RevisionType::WinCertificateRevision20,
    ];

    /// The number in a header, which `try_from` accepts.
    pub fn number(self) -> u16
        ensures { result ≡ revision_number self }
    {
        self as u16
    }
}

impl TryFrom<u16> for RevisionType {
    type Error = WinCertificateError;

    ghost try_from_gives = { λ n r. r ≡ ok_or (revision_numbered n) (WrongRevisionValue n) };

    fn try_from(number: u16) -> Result<Self, WinCertificateError> {
        match number {
            0x0100 => Ok(RevisionType::WinCertificateRevision10),
            0x0200 => Ok(RevisionType::WinCertificateRevision20),
            got => Err(WinCertificateError::WrongRevisionValue { got }),
        }
    }
}

/// The kind of the certificate, the `wCertificateType` of a WIN_CERTIFICATE.
#[derive(Clone, Copy, Debug, PartialEq, Eq)]
pub enum CertificateType {
    /// An X.509 certificate.
    WinCertTypeX509 = 1,
    /// PKCS #7 signed data: an Authenticode signature.
    WinCertTypePkcsSignedData = 2,
    /// Reserved.
    WinCertTypeReserved1 = 3,
    /// A PKCS #1 signature.
    WinCertTypePkcs1Sign = 9,
}

impl CertificateType {
    /// All types, by number.
    pub const ALL: [CertificateType; 4] = [
        CertificateType::WinCertTypeX509,
        CertificateType::WinCertTypePkcsSignedData,
        CertificateType::WinCertTypeReserved1,
        CertificateType::WinCertTypePkcs1Sign,
    ];

    /// The number in a header, which `try_from` accepts.
    pub fn number(self) -> u16
        ensures { result ≡ type_number self }
    {
        self as u16
    }
}

impl TryFrom<u16> for CertificateType {
    type Error = WinCertificateError;

    ghost try_from_gives = { λ n r. r ≡ ok_or (type_numbered n) (WrongCertificateType n) };

    fn try_from(number: u16) -> Result<Self, WinCertificateError> {
        match number {
            1 => Ok(CertificateType::WinCertTypeX509),
            2 => Ok(CertificateType::WinCertTypePkcsSignedData),
            3 => Ok(CertificateType::WinCertTypeReserved1),
            9 => Ok(CertificateType::WinCertTypePkcs1Sign),
            got => Err(WinCertificateError::WrongCertificateType { got }),
        }
    }
}
