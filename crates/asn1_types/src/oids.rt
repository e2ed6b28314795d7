//! The table of OIDs that this library knows: names, dotted texts and contents octets.

ghost use Rattle.std.specs.Prelude.{◌≡◌, ◌≢◌, map, MatchOption};
ghost use Rattle.std.specs.List.{All, AllPairs};
ghost use Rattle.asn1_types.specs.KnownIdentifiers.{known_row, known_rows, HasRow, IsOfOneIdentifier, Differ};
ghost use Rattle.asn1_types.specs.NamedIdentifiers.{named_identifiers};

/// An OID with its name.
#[derive(Clone, Copy, Debug)]
pub struct KnownOid {
    /// The name in the document that defines the OID.
    pub name: &'static str,
    /// The dotted text.
    pub text: &'static str,
    /// The contents octets.
    pub contents: &'static [u8],
}

/// A row of the table: name, dotted text and contents octets. It is a tuple because contracts can't
/// name a constant of structs that hold references.
pub type TableRow = (&'static str, &'static str, &'static [u8]);

/// The row with these contents octets, `None` exactly if there is none.
pub fn by_contents(contents: &[u8]) -> Option<KnownOid>
    ensures { MatchOption result (All (λ row. row.contents ≢ contents.now) known_rows)
        (λ known. HasRow known_rows known.name.now known.text.now known.contents.now
        × (known.contents.now ≡ contents.now)) }
{
    with_contents(rows(), contents)
}

/// The row with this name, `None` exactly if there is none.
pub fn by_name(name: &str) -> Option<KnownOid>
    ensures { MatchOption result (All (λ row. row.name ≢ name.now) known_rows)
        (λ known. HasRow known_rows known.name.now known.text.now known.contents.now
        × (known.name.now ≡ name.now)) }
{
    with_name(rows(), name)
}

/// The rows of the table.
fn rows() -> &'static [TableRow]
    ensures { map (λ row. known_row row.0.now row.1.now row.2.now) result.now ≡ known_rows }
{
    &TABLE
}

fn with_contents(rows: &[TableRow], contents: &[u8]) -> Option<KnownOid>
    ensures { let all = map (λ row. known_row row.0.now row.1.now row.2.now) rows.now in
        MatchOption result (All (λ row. row.contents ≢ contents.now) all)
        (λ known. HasRow all known.name.now known.text.now known.contents.now
        × (known.contents.now ≡ contents.now)) }
{
    for (name, text, octets) in rows {
        if *octets == contents {
            return Some(KnownOid {
                name,
                text,
                contents: octets,
            });
        }
    }
    None
}

fn with_name(rows: &[TableRow], wanted: &str) -> Option<KnownOid>
    ensures { let all = map (λ row. known_row row.0.now row.1.now row.2.now) rows.now in
        MatchOption result (All (λ row. row.name ≢ wanted.now) all)
        (λ known. HasRow all known.name.now known.text.now known.contents.now
        × (known.name.now ≡ wanted.now)) }
{
    for (name, text, contents) in rows {
        if *name == wanted {
            return Some(KnownOid {
                name,
                text,
                contents,
            });
        }
    }
    None
}

/// The rows are those of the list of named OIDs, and each name has a constant. The text and the
/// contents octets of each row are those of one OID, and no two rows have a name, a text or
/// contents octets in common.
pub fn rows_agree()
    ensures named { known_rows ≡ named_identifiers }
    ensures each { All IsOfOneIdentifier known_rows }
    ensures apart { AllPairs Differ known_rows }
{}

/// `rsaEncryption` (RFC 8017 appendix A.1, RFC 3279 section 2.3.1).
pub const RSA_ENCRYPTION: &[u8] = b"\x2A\x86\x48\x86\xF7\x0D\x01\x01\x01";

/// `md5WithRSAEncryption` (RFC 8017 appendix A.2.4, RFC 3279 section 2.2.1).
pub const MD5_WITH_RSA_ENCRYPTION: &[u8] = b"\x2A\x86\x48\x86\xF7\x0D\x01\x01\x04";

/// `sha1WithRSAEncryption` (RFC 8017 appendix A.2.4, RFC 3279 section 2.2.1).
pub const SHA1_WITH_RSA_ENCRYPTION: &[u8] = b"\x2A\x86\x48\x86\xF7\x0D\x01\x01\x05";

/// `sha256WithRSAEncryption` (RFC 8017 appendix A.2.4, RFC 4055 section 5).
pub const SHA256_WITH_RSA_ENCRYPTION: &[u8] = b"\x2A\x86\x48\x86\xF7\x0D\x01\x01\x0B";

/// `sha384WithRSAEncryption` (RFC 8017 appendix A.2.4, RFC 4055 section 5).
pub const SHA384_WITH_RSA_ENCRYPTION: &[u8] = b"\x2A\x86\x48\x86\xF7\x0D\x01\x01\x0C";

/// `sha512WithRSAEncryption` (RFC 8017 appendix A.2.4, RFC 4055 section 5).
pub const SHA512_WITH_RSA_ENCRYPTION: &[u8] = b"\x2A\x86\x48\x86\xF7\x0D\x01\x01\x0D";

/// `sha224WithRSAEncryption` (RFC 8017 appendix A.2.4, RFC 4055 section 5).
pub const SHA224_WITH_RSA_ENCRYPTION: &[u8] = b"\x2A\x86\x48\x86\xF7\x0D\x01\x01\x0E";

/// `id-ecPublicKey` (RFC 5480 section 2.1.1).
pub const EC_PUBLIC_KEY: &[u8] = b"\x2A\x86\x48\xCE\x3D\x02\x01";

/// `ecdsa-with-SHA256` (RFC 5758 section 3.2).
pub const ECDSA_WITH_SHA256: &[u8] = b"\x2A\x86\x48\xCE\x3D\x04\x03\x02";

/// `ecdsa-with-SHA384` (RFC 5758 section 3.2).
pub const ECDSA_WITH_SHA384: &[u8] = b"\x2A\x86\x48\xCE\x3D\x04\x03\x03";

/// `ecdsa-with-SHA512` (RFC 5758 section 3.2).
pub const ECDSA_WITH_SHA512: &[u8] = b"\x2A\x86\x48\xCE\x3D\x04\x03\x04";

/// `secp256r1` (RFC 5480 section 2.1.1.1).
pub const SECP256R1: &[u8] = b"\x2A\x86\x48\xCE\x3D\x03\x01\x07";

/// `secp384r1` (RFC 5480 section 2.1.1.1).
pub const SECP384R1: &[u8] = b"\x2B\x81\x04\x00\x22";

/// `secp521r1` (RFC 5480 section 2.1.1.1).
pub const SECP521R1: &[u8] = b"\x2B\x81\x04\x00\x23";

/// `id-X25519` (RFC 8410 section 3).
pub const X25519: &[u8] = b"\x2B\x65\x6E";

/// `id-X448` (RFC 8410 section 3).
pub const X448: &[u8] = b"\x2B\x65\x6F";

/// `id-Ed25519` (RFC 8410 section 3).
pub const ED25519: &[u8] = b"\x2B\x65\x70";

/// `id-Ed448` (RFC 8410 section 3).
pub const ED448: &[u8] = b"\x2B\x65\x71";

/// `id-ml-dsa-44` (RFC 9881 section 2).
pub const ML_DSA_44: &[u8] = b"\x60\x86\x48\x01\x65\x03\x04\x03\x11";

/// `id-ml-dsa-65` (RFC 9881 section 2).
pub const ML_DSA_65: &[u8] = b"\x60\x86\x48\x01\x65\x03\x04\x03\x12";

/// `id-ml-dsa-87` (RFC 9881 section 2).
pub const ML_DSA_87: &[u8] = b"\x60\x86\x48\x01\x65\x03\x04\x03\x13";

/// `id-md5` (RFC 8017 appendix B.1).
pub const MD5: &[u8] = b"\x2A\x86\x48\x86\xF7\x0D\x02\x05";

/// `id-sha1` (RFC 8017 appendix B.1).
pub const SHA1: &[u8] = b"\x2B\x0E\x03\x02\x1A";

/// `id-sha256` (RFC 8017 appendix B.1).
pub const SHA256: &[u8] = b"\x60\x86\x48\x01\x65\x03\x04\x02\x01";

/// `id-sha384` (RFC 8017 appendix B.1).
pub const SHA384: &[u8] = b"\x60\x86\x48\x01\x65\x03\x04\x02\x02";

/// `id-sha512` (RFC 8017 appendix B.1).
pub const SHA512: &[u8] = b"\x60\x86\x48\x01\x65\x03\x04\x02\x03";

/// `id-sha224` (RFC 8017 appendix B.1).
pub const SHA224: &[u8] = b"\x60\x86\x48\x01\x65\x03\x04\x02\x04";

/// `id-kp-codeSigning` (RFC 5280 section 4.2.1.12).
pub const KP_CODE_SIGNING: &[u8] = b"\x2B\x06\x01\x05\x05\x07\x03\x03";

/// `id-kp-timeStamping` (RFC 5280 section 4.2.1.12).
pub const KP_TIME_STAMPING: &[u8] = b"\x2B\x06\x01\x05\x05\x07\x03\x08";

/// `szOID_KP_LIFETIME_SIGNING` (Microsoft, wincrypt.h).
pub const KP_LIFETIME_SIGNING: &[u8] = b"\x2B\x06\x01\x04\x01\x82\x37\x0A\x03\x0D";

/// `id-data` (RFC 5652 section 4).
pub const DATA: &[u8] = b"\x2A\x86\x48\x86\xF7\x0D\x01\x07\x01";

/// `id-signedData` (RFC 5652 section 5.1).
pub const SIGNED_DATA: &[u8] = b"\x2A\x86\x48\x86\xF7\x0D\x01\x07\x02";

/// `emailAddress` (RFC 2985 section 5.2.1).
pub const EMAIL_ADDRESS: &[u8] = b"\x2A\x86\x48\x86\xF7\x0D\x01\x09\x01";

/// `contentType` (RFC 2985 section 5.3.1).
pub const CONTENT_TYPE: &[u8] = b"\x2A\x86\x48\x86\xF7\x0D\x01\x09\x03";

/// `messageDigest` (RFC 2985 section 5.3.2).
pub const MESSAGE_DIGEST: &[u8] = b"\x2A\x86\x48\x86\xF7\x0D\x01\x09\x04";

/// `counterSignature` (RFC 2985 section 5.3.6).
pub const COUNTERSIGNATURE: &[u8] = b"\x2A\x86\x48\x86\xF7\x0D\x01\x09\x06";

/// `extensionRequest` (RFC 2985 section 5.4.2).
pub const EXTENSION_REQUEST: &[u8] = b"\x2A\x86\x48\x86\xF7\x0D\x01\x09\x0E";

/// `SPC_INDIRECT_DATA_OBJID` (Microsoft, wintrust.h).
pub const SPC_INDIRECT_DATA: &[u8] = b"\x2B\x06\x01\x04\x01\x82\x37\x02\x01\x04";

/// `SPC_SP_OPUS_INFO_OBJID` (Microsoft, wintrust.h).
pub const SPC_SP_OPUS_INFO: &[u8] = b"\x2B\x06\x01\x04\x01\x82\x37\x02\x01\x0C";

/// `SPC_PE_IMAGE_DATA_OBJID` (Microsoft, wintrust.h).
pub const SPC_PE_IMAGE_DATA: &[u8] = b"\x2B\x06\x01\x04\x01\x82\x37\x02\x01\x0F";

/// `SPC_TIME_STAMP_REQUEST_OBJID` (Microsoft, wintrust.h).
pub const SPC_TIME_STAMP_REQUEST: &[u8] = b"\x2B\x06\x01\x04\x01\x82\x37\x03\x02\x01";

/// `szOID_RFC3161_counterSign` (Microsoft, wincrypt.h).
pub const RFC3161_COUNTER_SIGN: &[u8] = b"\x2B\x06\x01\x04\x01\x82\x37\x03\x03\x01";

/// `szOID_CTL` (Microsoft, wincrypt.h).
pub const CTL: &[u8] = b"\x2B\x06\x01\x04\x01\x82\x37\x0A\x01";

/// `CERT_SUBJECT_NAME_MD5_HASH_PROP_ID` (Microsoft, wincrypt.h, under szOID_CERT_PROP_ID_PREFIX).
pub const CERT_SUBJECT_NAME_MD5_HASH: &[u8] = b"\x2B\x06\x01\x04\x01\x82\x37\x0A\x0B\x1D";

/// `CERT_DISALLOWED_FILETIME_PROP_ID` (Microsoft, wincrypt.h, under szOID_CERT_PROP_ID_PREFIX).
pub const CERT_DISALLOWED_FILETIME: &[u8] = b"\x2B\x06\x01\x04\x01\x82\x37\x0A\x0B\x68";

/// `CERT_NOT_BEFORE_FILETIME_PROP_ID` (Microsoft, wincrypt.h, under szOID_CERT_PROP_ID_PREFIX).
pub const CERT_NOT_BEFORE_FILETIME: &[u8] = b"\x2B\x06\x01\x04\x01\x82\x37\x0A\x0B\x7E";

/// `CERT_NOT_BEFORE_ENHKEY_USAGE_PROP_ID` (Microsoft, wincrypt.h, under szOID_CERT_PROP_ID_PREFIX).
pub const CERT_NOT_BEFORE_ENHKEY_USAGE: &[u8] = b"\x2B\x06\x01\x04\x01\x82\x37\x0A\x0B\x7F";

/// `id-at-commonName` (X.520, RFC 5280 appendix A.1).
pub const AT_COMMON_NAME: &[u8] = b"\x55\x04\x03";

/// `id-at-surname` (X.520, RFC 5280 appendix A.1).
pub const AT_SURNAME: &[u8] = b"\x55\x04\x04";

/// `id-at-serialNumber` (X.520, RFC 5280 appendix A.1).
pub const AT_SERIAL_NUMBER: &[u8] = b"\x55\x04\x05";

/// `id-at-countryName` (X.520, RFC 5280 appendix A.1).
pub const AT_COUNTRY_NAME: &[u8] = b"\x55\x04\x06";

/// `id-at-localityName` (X.520, RFC 5280 appendix A.1).
pub const AT_LOCALITY_NAME: &[u8] = b"\x55\x04\x07";

/// `id-at-stateOrProvinceName` (X.520, RFC 5280 appendix A.1).
pub const AT_STATE_OR_PROVINCE_NAME: &[u8] = b"\x55\x04\x08";

/// `id-at-streetAddress` (X.520, RFC 4519 section 2.34).
pub const AT_STREET_ADDRESS: &[u8] = b"\x55\x04\x09";

/// `id-at-organizationName` (X.520, RFC 5280 appendix A.1).
pub const AT_ORGANIZATION_NAME: &[u8] = b"\x55\x04\x0A";

/// `id-at-organizationalUnitName` (X.520, RFC 5280 appendix A.1).
pub const AT_ORGANIZATIONAL_UNIT_NAME: &[u8] = b"\x55\x04\x0B";

/// `id-at-givenName` (X.520, RFC 5280 appendix A.1).
pub const AT_GIVEN_NAME: &[u8] = b"\x55\x04\x2A";

/// `id-ce-subjectKeyIdentifier` (RFC 5280 section 4.2.1.2).
pub const CE_SUBJECT_KEY_IDENTIFIER: &[u8] = b"\x55\x1D\x0E";

/// `id-ce-keyUsage` (RFC 5280 section 4.2.1.3).
pub const CE_KEY_USAGE: &[u8] = b"\x55\x1D\x0F";

/// `id-ce-subjectAltName` (RFC 5280 section 4.2.1.6).
pub const CE_SUBJECT_ALT_NAME: &[u8] = b"\x55\x1D\x11";

/// `id-ce-issuerAltName` (RFC 5280 section 4.2.1.7).
pub const CE_ISSUER_ALT_NAME: &[u8] = b"\x55\x1D\x12";

/// `id-ce-basicConstraints` (RFC 5280 section 4.2.1.9).
pub const CE_BASIC_CONSTRAINTS: &[u8] = b"\x55\x1D\x13";

/// `id-ce-authorityKeyIdentifier` (RFC 5280 section 4.2.1.1).
pub const CE_AUTHORITY_KEY_IDENTIFIER: &[u8] = b"\x55\x1D\x23";

/// `id-ce-extKeyUsage` (RFC 5280 section 4.2.1.12).
pub const CE_EXT_KEY_USAGE: &[u8] = b"\x55\x1D\x25";

/// The rows of the table.
#[rattlefmt::skip]
pub static TABLE: [TableRow; 64] = [
    ("rsaEncryption", "1.2.840.113549.1.1.1", RSA_ENCRYPTION),
    ("md5WithRSAEncryption", "1.2.840.113549.1.1.4", MD5_WITH_RSA_ENCRYPTION),
    ("sha1WithRSAEncryption", "1.2.840.113549.1.1.5", SHA1_WITH_RSA_ENCRYPTION),
    ("sha256WithRSAEncryption", "1.2.840.113549.1.1.11", SHA256_WITH_RSA_ENCRYPTION),
    ("sha384WithRSAEncryption", "1.2.840.113549.1.1.12", SHA384_WITH_RSA_ENCRYPTION),
    ("sha512WithRSAEncryption", "1.2.840.113549.1.1.13", SHA512_WITH_RSA_ENCRYPTION),
    ("sha224WithRSAEncryption", "1.2.840.113549.1.1.14", SHA224_WITH_RSA_ENCRYPTION),
    ("id-ecPublicKey", "1.2.840.10045.2.1", EC_PUBLIC_KEY),
    ("ecdsa-with-SHA256", "1.2.840.10045.4.3.2", ECDSA_WITH_SHA256),
    ("ecdsa-with-SHA384", "1.2.840.10045.4.3.3", ECDSA_WITH_SHA384),
    ("ecdsa-with-SHA512", "1.2.840.10045.4.3.4", ECDSA_WITH_SHA512),
    ("secp256r1", "1.2.840.10045.3.1.7", SECP256R1),
    ("secp384r1", "1.3.132.0.34", SECP384R1),
    ("secp521r1", "1.3.132.0.35", SECP521R1),
    ("id-X25519", "1.3.101.110", X25519),
    ("id-X448", "1.3.101.111", X448),
    ("id-Ed25519", "1.3.101.112", ED25519),
    ("id-Ed448", "1.3.101.113", ED448),
    ("id-ml-dsa-44", "2.16.840.1.101.3.4.3.17", ML_DSA_44),
    ("id-ml-dsa-65", "2.16.840.1.101.3.4.3.18", ML_DSA_65),
    ("id-ml-dsa-87", "2.16.840.1.101.3.4.3.19", ML_DSA_87),
    ("id-md5", "1.2.840.113549.2.5", MD5),
    ("id-sha1", "1.3.14.3.2.26", SHA1),
    ("id-sha256", "2.16.840.1.101.3.4.2.1", SHA256),
    ("id-sha384", "2.16.840.1.101.3.4.2.2", SHA384),
    ("id-sha512", "2.16.840.1.101.3.4.2.3", SHA512),
    ("id-sha224", "2.16.840.1.101.3.4.2.4", SHA224),
    ("id-kp-codeSigning", "1.3.6.1.5.5.7.3.3", KP_CODE_SIGNING),
    ("id-kp-timeStamping", "1.3.6.1.5.5.7.3.8", KP_TIME_STAMPING),
    ("szOID_KP_LIFETIME_SIGNING", "1.3.6.1.4.1.311.10.3.13", KP_LIFETIME_SIGNING),
    ("id-data", "1.2.840.113549.1.7.1", DATA),
    ("id-signedData", "1.2.840.113549.1.7.2", SIGNED_DATA),
    ("emailAddress", "1.2.840.113549.1.9.1", EMAIL_ADDRESS),
    ("contentType", "1.2.840.113549.1.9.3", CONTENT_TYPE),
    ("messageDigest", "1.2.840.113549.1.9.4", MESSAGE_DIGEST),
    ("counterSignature", "1.2.840.113549.1.9.6", COUNTERSIGNATURE),
    ("extensionRequest", "1.2.840.113549.1.9.14", EXTENSION_REQUEST),
    ("SPC_INDIRECT_DATA_OBJID", "1.3.6.1.4.1.311.2.1.4", SPC_INDIRECT_DATA),
    ("SPC_SP_OPUS_INFO_OBJID", "1.3.6.1.4.1.311.2.1.12", SPC_SP_OPUS_INFO),
    ("SPC_PE_IMAGE_DATA_OBJID", "1.3.6.1.4.1.311.2.1.15", SPC_PE_IMAGE_DATA),
    ("SPC_TIME_STAMP_REQUEST_OBJID", "1.3.6.1.4.1.311.3.2.1", SPC_TIME_STAMP_REQUEST),
    ("szOID_RFC3161_counterSign", "1.3.6.1.4.1.311.3.3.1", RFC3161_COUNTER_SIGN),
    ("szOID_CTL", "1.3.6.1.4.1.311.10.1", CTL),
    ("CERT_SUBJECT_NAME_MD5_HASH_PROP_ID", "1.3.6.1.4.1.311.10.11.29", CERT_SUBJECT_NAME_MD5_HASH),
    ("CERT_DISALLOWED_FILETIME_PROP_ID", "1.3.6.1.4.1.311.10.11.104", CERT_DISALLOWED_FILETIME),
    ("CERT_NOT_BEFORE_FILETIME_PROP_ID", "1.3.6.1.4.1.311.10.11.126", CERT_NOT_BEFORE_FILETIME),
    ("CERT_NOT_BEFORE_ENHKEY_USAGE_PROP_ID", "1.3.6.1.4.1.311.10.11.127", CERT_NOT_BEFORE_ENHKEY_USAGE),
    ("id-at-commonName", "2.5.4.3", AT_COMMON_NAME),
    ("id-at-surname", "2.5.4.4", AT_SURNAME),
    ("id-at-serialNumber", "2.5.4.5", AT_SERIAL_NUMBER),
    ("id-at-countryName", "2.5.4.6", AT_COUNTRY_NAME),
    ("id-at-localityName", "2.5.4.7", AT_LOCALITY_NAME),
    ("id-at-stateOrProvinceName", "2.5.4.8", AT_STATE_OR_PROVINCE_NAME),
    ("id-at-streetAddress", "2.5.4.9", AT_STREET_ADDRESS),
    ("id-at-organizationName", "2.5.4.10", AT_ORGANIZATION_NAME),
    ("id-at-organizationalUnitName", "2.5.4.11", AT_ORGANIZATIONAL_UNIT_NAME),
    ("id-at-givenName", "2.5.4.42", AT_GIVEN_NAME),
    ("id-ce-subjectKeyIdentifier", "2.5.29.14", CE_SUBJECT_KEY_IDENTIFIER),
    ("id-ce-keyUsage", "2.5.29.15", CE_KEY_USAGE),
    ("id-ce-subjectAltName", "2.5.29.17", CE_SUBJECT_ALT_NAME),
    ("id-ce-issuerAltName", "2.5.29.18", CE_ISSUER_ALT_NAME),
    ("id-ce-basicConstraints", "2.5.29.19", CE_BASIC_CONSTRAINTS),
    ("id-ce-authorityKeyIdentifier", "2.5.29.35", CE_AUTHORITY_KEY_IDENTIFIER),
    ("id-ce-extKeyUsage", "2.5.29.37", CE_EXT_KEY_USAGE),
];
