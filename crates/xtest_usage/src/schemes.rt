//! Checking a signature file with a scheme of one's own.

ghost use Rattle.std.specs.Prelude.{bytes_eq, if◌then◌else◌};
ghost use Rattle.sig_core.specs.declared.scheme.Verdict.TheVariants.{Accept, Reject};

use authenticode_core::{CheckError, Policy, check_wincert};
use der_core::Octets;
use sig_core::{Scheme, SchemeError, SchemeKind, SigAlg, Verdict};
use std::alloc::{AllocError, Global};
use std::test::Fail;

/// A scheme that only compares keys: it accepts everything under this key.
#[derive(Drop)]
pub(crate) struct OneKey {
    pub(crate) key: Octets,
}

impl Scheme for OneKey {
    ghost use Rattle.std.specs.Prelude.{false, None};
    ghost use Rattle.std.proofs.lemmas.Option.{none-some};

    ghost judge = { λ scheme _ key _ _. if bytes_eq key scheme.key then Accept else Reject };

    ghost signs = { λ _ _ _ _. false };

    ghost derives = { λ _ _ _. None };

    ghost pair = { λ _ _ _ _. ⊥ };

    ghost derived_pairs = { λ _ _ _ key none. none-some key none };

    fn verify(
        &self,
        _alloc: Global,
        _alg: SigAlg,
        key: &[u8],
        _msg: &[u8],
        _sig: &[u8],
    ) -> Result<Verdict, AllocError> {
        if key == self.key.as_slice() {
            Ok(Verdict::Accept)
        } else {
            Ok(Verdict::Reject)
        }
    }

    fn sign(
        &self,
        _alloc: Global,
        _alg: SigAlg,
        _secret: &[u8],
        _msg: &[u8],
    ) -> Result<Vec<u8>, SchemeError> {
        Err(SchemeError::Refused)
    }

    fn public_of(
        &self,
        _alloc: Global,
        _kind: SchemeKind,
        _secret: &[u8],
    ) -> Result<Vec<u8>, SchemeError> {
        Err(SchemeError::Refused)
    }
}

/// Whether the file is signed for the digest under this key.
fn is_signed_under(
    alloc: Global,
    file: &[u8],
    hash: &[u8],
    key: &[u8],
) -> Result<bool, CheckError> {
    let scheme = OneKey {
        key: Octets::from_slice(alloc, key)?,
    };
    let mut policy = Policy::new(alloc);
    policy.file_hash = Some(Octets::from_slice(alloc, hash)?);
    policy.signing = false;
    match check_wincert(alloc, file, &policy, &scheme) {
        Ok(_) => Ok(true),
        Err(CheckError::Memory) => Err(CheckError::Memory),
        Err(_) => Ok(false),
    }
}

/// The file, which signs the digest of `abc`.
#[rattlefmt::skip]
pub(crate) const FILE: &str = "be01000000020200308201b206092a864886f70d010702a08201a33082019f020101310f300d06096086480165030402010500305c060a2b060104018237020104a04e304c3017060a2b06010401823702010f3009030100a004a20280003031300d060960864801650304020105000420ba7816bf8f01cfea414140de5dae2223b00361a396177a9cb410ff61f20015ada08187308184306fa003020102020101300d06092a864886f70d01010b0500300c310a300806035504030c0141301e170d3230303130313030303030305a170d3330303130313030303030305a300c310a300806035504030c0141301a300d06092a864886f70d01010105000309003006020111020103300d06092a864886f70d01010b0500030200bba10031819e30819b0201013011300c310a300806035504030c0141020101300d06096086480165030402010500a062301906092a864886f70d010903310c060a2b0601040182370201043014060a2b06010401823702010c31063004a1028000302f06092a864886f70d010904312204206b00646e9ba32b38bcdfe80a0e22b4671c4d01316d815cc7bb60626b24aa2832300d06092a864886f70d01010105000401aa";

pub(crate) const FILE_HASH: &str =
    "ba7816bf8f01cfea414140de5dae2223b00361a396177a9cb410ff61f20015ad";

/// The key in it.
pub(crate) const KEY: &str = "3006020111020103";

#[test]
fn checks(rt: HostRuntime) -> Result<(), Fail> {
    let file = hex::decode(rt.alloc(), FILE)?;
    let hash = hex::decode(rt.alloc(), FILE_HASH)?;
    let key = hex::decode(rt.alloc(), KEY)?;
    assert!(rt; is_signed_under(rt.alloc(), &file, &hash, &key)?);
    assert!(rt; !is_signed_under(rt.alloc(), &file, &hash, &[1])?);
    assert!(rt; !is_signed_under(rt.alloc(), &file, &[1], &key)?);
    Ok(())
}
