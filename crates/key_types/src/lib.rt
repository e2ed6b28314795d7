//! Algorithms and public keys of X.509 (RFC 5280 4.1.1.2, 4.1.2.7), and private keys of RSA (RFC
//! 8017 A.1.2) and of elliptic curves (RFC 5915), as values, read from octets or trees and written as
//! trees.
#![tactic(auto)]

mod algorithm;
mod algorithm_fields;
mod ec_private_key;
mod key_info;
mod key_kind;
mod public_key;
mod rsa_private_key;
mod subject_key;

pub use algorithm::AlgorithmIdentifier;
pub use ec_private_key::ECPrivateKey;
pub use key_info::SubjectPublicKeyInfo;
pub use key_kind::KeyKind;
pub use public_key::RsaPublicKey;
pub use rsa_private_key::RsaPrivateKey;
pub use subject_key::SubjectKey;
