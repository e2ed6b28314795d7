//! Laws on revisions and certificate types.

ghost use Rattle.std.specs.Prelude.{◌≡◌, length, Contains};
ghost use Rattle.wincert_core.specs.declared.kinds.CertificateType.{CertificateType};
ghost use Rattle.wincert_core.specs.declared.kinds.RevisionType.{RevisionType};
ghost use Rattle.wincert_core.specs.declared.kinds.TheConstants.CertificateType as types;
ghost use Rattle.wincert_core.specs.declared.kinds.TheConstants.RevisionType as revisions;

/// `RevisionType::ALL` and `CertificateType::ALL` list each revision and each type once.
pub fn lists_have_each_kind()
    ensures each_revision { (revision : RevisionType) → Contains revisions.ALL revision }
    ensures revisions_once { length revisions.ALL ≡ 2 }
    ensures each_type { (certificate_type : CertificateType) → Contains types.ALL certificate_type }
    ensures types_once { length types.ALL ≡ 4 }
{}
