//! Whether a program is what its signer signed.

ghost use Rattle.std.specs.Prelude.{◌≡◌, Err, IfOk, Result};
ghost use Rattle.authenticode_core.specs.Basic.{RefusesValue};
ghost use Rattle.authenticode_core.specs.declared.accepted.Accepted.{Accepted};
ghost use Rattle.authenticode_core.specs.declared.error.CheckError.{CheckError};
ghost use Rattle.der_core.specs.Rules.{AreOneUnlessMemory, IsFirstBroken};
ghost use Rattle.pe_core.specs.Bound.{table_of};
ghost use Rattle.pe_core.specs.Image.{IsSignedImage, image_rules};
ghost use Rattle.pe_core.specs.declared.error.PeError.{PeError};
ghost use Rattle.pe_image.specs.ImageHash.{BindsImage};
ghost use Rattle.pe_image.specs.PeAnswer.{IsPeAnswer};
ghost use Rattle.pe_image.specs.declared.error.PeCheckError.{PeCheckError};

use crate::error::PeCheckError;
use crate::hashing::image_hash;
use authenticode_core::{Accepted, Policy, check_wincert};
use der_core::one_first_fault;
use pe_core::{PeImage, image_has_one_answer};
use sig_core::Scheme;
use std::alloc::Global;

/// Checks a signed program (Windows Authenticode Portable Executable Signature Format): that it is
/// an image with a certificate table at its end, then what `check_wincert` checks of the table's
/// first entry under the policy, with basic validation, and for the digest of the program in place
/// of the policy's. The first rule that fails is returned.
pub fn check_pe<S: Scheme>(
    alloc: Global,
    bytes: &[u8],
    policy: Policy<'_>,
    scheme: &S,
) -> Result<Accepted, PeCheckError>
    ensures answer { IsPeAnswer (S.judge scheme.now) policy.entry bytes.now result }
    // What is accepted is signed for the octets of the program outside the checksum, the
    // certificate table's entry and the table.
    ensures bound { IfOk result (λ _. BindsImage bytes.now) }
    // A refusal of the file comes however much memory there is,
    ensures refused { (e : PeError) → IsFirstBroken (image_rules bytes.now) e
        → result ≡ Err (PeCheckError.Pe e) }
    // and so does one of the table's header, or of a certificate that isn't signed data.
    ensures unread { (e : CheckError) → IsSignedImage bytes.now
        → RefusesValue (table_of bytes.now) e → result ≡ Err (PeCheckError.Check e) }
    // No other result has its cause, out of memory aside.
    ensures only { (other : Result Accepted PeCheckError)
        → IsPeAnswer (S.judge scheme.now) policy.entry bytes.now other
        → AreOneUnlessMemory PeCheckError.Memory result other }
{
    // laws that the proof uses; the calls do nothing
    one_first_fault();
    image_has_one_answer();
    let image = match PeImage::parse(bytes) {
        Ok(image) => image,
        Err(error) => return Err(PeCheckError::Pe(error)),
    };
    let mut policy = policy;
    policy.basic = true;
    policy.file_hash = image_hash(alloc, &image)?;
    let accepted = check_wincert(alloc, image.table(), &policy, scheme)?;
    Ok(accepted)
}
