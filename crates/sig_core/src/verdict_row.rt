//! One row of a verdict table, and its line.

ghost use Rattle.std.specs.Prelude.{◌≡◌, ◌≢◌, ◌≤◌, ℕ, List, ◌∷◌, ◌++◌, ◌==◌, position, MatchOption, OnOk};
ghost use Rattle.hex.specs.Hex.{encode_lower};
ghost use Rattle.sig_core.specs.Algorithm.{name_of};
ghost use Rattle.sig_core.specs.VerdictTable.{IsDigest, AreDigests, IsOfVersion, IsRow, AdmitsVerdict, signature_line, line_of, first_line, first_number, verdict_word, space, BeginsWithNoSignature, BeginsWithNoLine};
ghost use Rattle.sig_core.specs.declared.algorithm.SigAlg.{SigAlg};
ghost use Rattle.sig_core.specs.declared.scheme.Verdict.{Verdict};

use crate::algorithm::SigAlg;
use crate::scheme::Verdict;
use std::alloc::{AllocError, Global};

/// The length of a digest in octets.
const DIGEST_LEN: usize = 32;

/// How many hexadecimal digits a digest has in a line.
const DIGITS_LEN: usize = 64;

/// The beginning of a table of version 2.
pub const FIRST_LINE: &[u8] = b"picky-verdicts 2\n";

/// Version 1 lists accepted signatures; version 2 gives each a verdict.
#[derive(Clone, Copy, PartialEq, Eq, Debug)]
pub enum TableVersion {
    One,
    Two,
}

impl TableVersion {
    /// The version of a table, and the text after the line that names it.
    pub fn split_from(text: &[u8]) -> (TableVersion, &[u8])
        ensures version { IsOfVersion text.now result.0 }
        ensures rest { text.now ≡ first_line result.0 ++ result.1.now }
    {
        match text.strip_prefix(FIRST_LINE) {
            Some(rest) => (TableVersion::Two, rest),
            None => (TableVersion::One, text),
        }
    }

    /// The number of the line of the first row.
    pub fn first_number(self) -> u64
        ensures value { result ≡ first_number self }
        ensures small { result ≤ 2 }
    {
        match self {
            TableVersion::One => 1,
            TableVersion::Two => 2,
        }
    }
}

/// A signature as a row names it: an algorithm, and the SHA-256 of key bytes, of a message and of
/// a signature.
#[derive(Clone, Copy, PartialEq, Eq, PartialOrd, Ord, Debug)]
pub struct SignatureDigests {
    pub alg: SigAlg,
    pub key: [u8; DIGEST_LEN],
    pub msg: [u8; DIGEST_LEN],
    pub sig: [u8; DIGEST_LEN],
}

impl SignatureDigests {
    /// The signature whose line the text begins with, and the text after that line.
    fn split_first(text: &[u8]) -> Option<(SignatureDigests, &[u8])>
        ensures { MatchOption result (BeginsWithNoSignature text.now)
            (λ split. AreDigests split.0 × (text.now ≡ signature_line split.0 ++ split.1.now)) }
    {
        let (alg, text) = split_algorithm(text)?;
        let (key, text) = split_digest(text, b' ')?;
        let (msg, text) = split_digest(text, b' ')?;
        let (sig, text) = split_digest(text, b'\n')?;
        Some((SignatureDigests { alg, key, msg, sig }, text))
    }

    /// Appends the line of the signature to the text.
    fn write(&self, alloc: Global, text: &mut Vec<u8>) -> Result<(), AllocError>
        ensures { OnOk result (text.new.items ≡ text.old.items ++ signature_line self.now) }
    {
        text.extend_from_slice(self.alg.name().as_bytes())?;
        write_digest(alloc, text, &self.key)?;
        write_digest(alloc, text, &self.msg)?;
        write_digest(alloc, text, &self.sig)?;
        text.push(b'\n')?;
        Ok(())
    }
}

/// A verdict on a signature.
#[derive(Clone, Copy, PartialEq, Eq, Debug)]
pub struct VerdictRow {
    pub verdict: Verdict,
    pub signature: SignatureDigests,
}

impl VerdictRow {
    /// The row whose line the text begins with, and the text after that line.
    pub fn split_first(version: TableVersion, text: &[u8]) -> Option<(VerdictRow, &[u8])>
        ensures { MatchOption result (BeginsWithNoLine version text.now)
            (λ split. IsRow version split.0
            × (text.now ≡ line_of version split.0 ++ split.1.now)) }
    {
        let (verdict, text) = split_verdict(version, text)?;
        let (signature, text) = SignatureDigests::split_first(text)?;
        Some((VerdictRow { verdict, signature }, text))
    }

    /// Appends the line of the row, in version 2, to the text.
    pub fn write(&self, alloc: Global, text: &mut Vec<u8>) -> Result<(), AllocError>
        ensures { OnOk result
            (text.new.items ≡ text.old.items ++ line_of TableVersion.Two self.now) }
    {
        text.extend_from_slice(word_of(self.verdict).as_bytes())?;
        self.signature.write(alloc, text)
    }
}

/// The verdicts, in the order of the enum.
const VERDICTS: [Verdict; 3] = [Verdict::Accept, Verdict::Reject, Verdict::Malformed];

/// The word that the line of a row of version 2 with this verdict begins with.
fn word_of(verdict: Verdict) -> &'static str
    ensures { result.now ≡ verdict_word TableVersion.Two verdict }
{
    match verdict {
        Verdict::Accept => "accept ",
        Verdict::Reject => "reject ",
        Verdict::Malformed => "malformed ",
    }
}

/// The verdict whose word the text begins with, and the text after it. Version 1 has no word, and
/// the verdict is `Accept`.
fn split_verdict(version: TableVersion, text: &[u8]) -> Option<(Verdict, &[u8])>
    ensures { MatchOption result
        ((verdict : Verdict) (after : List ℕ) → AdmitsVerdict version verdict
        → text.now ≢ verdict_word version verdict ++ after)
        (λ split. AdmitsVerdict version split.0
        × (text.now ≡ verdict_word version split.0 ++ split.1.now)) }
{
    match version {
        TableVersion::One => Some((Verdict::Accept, text)),
        TableVersion::Two => split_word(text),
    }
}

/// The same for version 2.
fn split_word(text: &[u8]) -> Option<(Verdict, &[u8])>
    ensures { MatchOption result
        ((verdict : Verdict) (after : List ℕ)
        → text.now ≢ verdict_word TableVersion.Two verdict ++ after)
        (λ split. text.now ≡ verdict_word TableVersion.Two split.0 ++ split.1.now) }
{
    for verdict in VERDICTS {
        if let Some(after) = text.strip_prefix(word_of(verdict).as_bytes()) {
            return Some((verdict, after));
        }
    }
    None
}

/// The algorithm whose name the text begins with, and the text after the space that follows.
fn split_algorithm(text: &[u8]) -> Option<(SigAlg, &[u8])>
    ensures { MatchOption result
        ((alg : SigAlg) (after : List ℕ) → text.now ≢ name_of alg ++ space ∷ after)
        (λ split. text.now ≡ name_of split.0 ++ space ∷ split.1.now) }
{
    let end = first_space(text)?;
    let alg = SigAlg::from_name(&text[..end])?;
    Some((alg, &text[end + 1..]))
}

fn first_space(text: &[u8]) -> Option<usize>
    ensures { result ≡ position (λ octet. octet == space) text.now }
{
    text.iter().position(|octet| *octet == b' ')
}

/// The digest whose digits the text begins with, and the text after the octet `end` that follows.
fn split_digest(text: &[u8], end: u8) -> Option<([u8; DIGEST_LEN], &[u8])>
    ensures { MatchOption result
        ((digest : List ℕ) (after : List ℕ) → IsDigest digest
        → text.now ≢ encode_lower digest ++ end ∷ after)
        (λ split. IsDigest split.0 × (text.now ≡ encode_lower split.0 ++ end ∷ split.1.now)) }
{
    let (digits, rest) = text.split_at_checked(DIGITS_LEN)?;
    let (next, rest) = rest.split_first()?;
    if *next != end {
        return None;
    }
    let digest = digest_of_digits(digits)?;
    Some((digest, rest))
}

/// The digest that lower-case digits encode.
fn digest_of_digits(digits: &[u8]) -> Option<[u8; DIGEST_LEN]>
    ensures { MatchOption result
        ((digest : List ℕ) → IsDigest digest → digits.now ≢ encode_lower digest)
        (λ digest. IsDigest digest × (digits.now ≡ encode_lower digest)) }
{
    let mut digest = [0u8; DIGEST_LEN];
    hex::decode_to_slice(digits, &mut digest).ok()?;
    let mut spelled = [0u8; DIGITS_LEN];
    hex::encode_to_slice(digest.as_slice(), &mut spelled).ok()?;
    if digits == spelled.as_slice() {
        Some(digest)
    } else {
        None
    }
}

/// Appends a space and the digits of the digest to the text.
fn write_digest(
    alloc: Global,
    text: &mut Vec<u8>,
    digest: &[u8; DIGEST_LEN],
) -> Result<(), AllocError>
    ensures { OnOk result (text.new.items ≡ text.old.items ++ space ∷ encode_lower digest.now) }
{
    text.push(b' ')?;
    text.extend_from_slice(hex::encode(alloc, digest.as_slice())?.as_bytes())?;
    Ok(())
}
