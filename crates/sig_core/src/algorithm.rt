//! Signature algorithms.

ghost use Rattle.std.specs.Prelude.{◌≡◌, IfSome};
ghost use Rattle.sig_core.specs.declared.algorithm.SigAlg.{SigAlg};
ghost use Rattle.sig_core.specs.Algorithm.{name_of, kind_of_algorithm};

/// The kinds of keys: RSA, the named curves, and the Edwards and Montgomery forms of curve 25519.
#[derive(Clone, Copy, PartialEq, Eq, Debug)]
pub enum SchemeKind {
    Rsa,
    P256,
    P384,
    P521,
    Ed25519,
    X25519,
}

/// The signature algorithms: a kind of key and the digest that is signed.
#[derive(Clone, Copy, PartialEq, Eq, PartialOrd, Ord, Debug)]
pub enum SigAlg {
    RsaMd5,
    RsaSha1,
    RsaSha224,
    RsaSha256,
    RsaSha384,
    RsaSha512,
    P256Sha256,
    P384Sha384,
    P521Sha512,
    Ed25519,
}

impl SigAlg {
    /// Every algorithm, in the order of the enum.
    pub const ALL: [SigAlg; 10] = [
        SigAlg::RsaMd5,
        SigAlg::RsaSha1,
        SigAlg::RsaSha224,
        SigAlg::RsaSha256,
        SigAlg::RsaSha384,
        SigAlg::RsaSha512,
        SigAlg::P256Sha256,
        SigAlg::P384Sha384,
        SigAlg::P521Sha512,
        SigAlg::Ed25519,
    ];

    /// The algorithm with this name, as `name` returns it; `None` if there is none.
    pub fn from_name(name: &[u8]) -> Option<SigAlg>
        ensures named { (alg : SigAlg) → name_of alg ≡ name.now → result ≡ Some alg }
        ensures name { IfSome result (λ alg. name_of alg ≡ name.now) }
    {
        for alg in SigAlg::ALL {
            if alg.name().as_bytes() == name {
                return Some(alg);
            }
        }
        None
    }

    /// The name of the algorithm in a verdict table.
    pub fn name(self) -> &'static str
        ensures { result.now ≡ name_of self }
    {
        match self {
            SigAlg::RsaMd5 => "rsa-md5",
            SigAlg::RsaSha1 => "rsa-sha1",
            SigAlg::RsaSha224 => "rsa-sha224",
            SigAlg::RsaSha256 => "rsa-sha256",
            SigAlg::RsaSha384 => "rsa-sha384",
            SigAlg::RsaSha512 => "rsa-sha512",
            SigAlg::P256Sha256 => "p256-sha256",
            SigAlg::P384Sha384 => "p384-sha384",
            SigAlg::P521Sha512 => "p521-sha512",
            SigAlg::Ed25519 => "ed25519",
        }
    }

    /// The kind of key that the algorithm takes.
    pub fn kind(self) -> SchemeKind
        ensures { result ≡ kind_of_algorithm self }
    {
        match self {
            SigAlg::RsaMd5
            | SigAlg::RsaSha1
            | SigAlg::RsaSha224
            | SigAlg::RsaSha256
            | SigAlg::RsaSha384
            | SigAlg::RsaSha512 => SchemeKind::Rsa,
            SigAlg::P256Sha256 => SchemeKind::P256,
            SigAlg::P384Sha384 => SchemeKind::P384,
            SigAlg::P521Sha512 => SchemeKind::P521,
            SigAlg::Ed25519 => SchemeKind::Ed25519,
        }
    }
}
