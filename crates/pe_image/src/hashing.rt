//! The digest of a program for which its signature is checked.

ghost use Rattle.std.specs.Prelude.{IfOk, IsErr};
ghost use Rattle.pe_core.specs.Bound.{table_of};
ghost use Rattle.sig_core.specs.declared.hash.HashAlgorithm.{HashAlgorithm};
ghost use Rattle.pe_image.specs.ImageHash.{IsImageHash, NamesImageDigest};

use crate::content::algorithm_in;
use der_core::Octets;
use pe_core::PeImage;
use std::alloc::{AllocError, Global};

/// The digest of a program by the algorithm that its signature names (Windows Authenticode Portable
/// Executable Signature Format, "Calculating the PE Image Hash"), `None` if it names none: the
/// certificate table begins with no signed data, that is no indirect data, or its digest algorithm
/// isn't known.
pub fn image_hash(alloc: Global, image: &PeImage<'_>) -> Result<Option<Octets>, AllocError>
    ensures hash { IfOk result (IsImageHash image.now.file.now) }
    // Where the signature names no algorithm, memory doesn't run out.
    ensures memory { IsErr result → (algorithm : HashAlgorithm)
        × NamesImageDigest (table_of image.now.file.now) algorithm }
{
    let Some(algorithm) = algorithm_in(image.table()) else {
        return Ok(None);
    };
    let digest = image.digest(alloc, algorithm)?;
    Ok(Some(Octets::from(digest)))
}
