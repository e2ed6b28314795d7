//! That a scheme with the signatures of an issuing history accepts no others under its keys.

ghost use Rattle.std.specs.Prelude.{List};
ghost use Rattle.x509_core.specs.History.{History};
ghost use Rattle.x509_core.specs.Issued.{IsSealed};
ghost use Rattle.x509_core.specs.OwnedCertificate.{KeptCertificate};
ghost use Rattle.xtest_issuing.specs.Listed.{AreListed, HaveOwnKeys};
ghost use Rattle.xtest_issuing.specs.WholeRow.{verdict_of};
ghost use Rattle.xtest_issuing.specs.declared.whole_rows.WholeRow.{WholeRow};

/// Where the rows of a `WholeRows` are signatures of a history's certificates by their issuers'
/// keys alone, and no two of the certificates have the same key bytes, nothing else is accepted
/// under these keys.
pub fn listed_signatures_are_sealed()
    ensures { (rows : List WholeRow) (history : History) (certificates : List KeptCertificate)
        → AreListed history certificates rows → HaveOwnKeys certificates
        → IsSealed (verdict_of rows) history certificates }
{}
