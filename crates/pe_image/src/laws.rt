//! Laws on programs.

ghost use Rattle.std.specs.Prelude.{ℕ, List, Option, Result};
ghost use Rattle.authenticode_core.specs.Trusted.{IsAnswer};
ghost use Rattle.authenticode_core.specs.declared.accepted.Accepted.{Accepted};
ghost use Rattle.authenticode_core.specs.declared.error.CheckError.{CheckError};
ghost use Rattle.authenticode_core.specs.declared.policy.Policy.{Policy};
ghost use Rattle.key_core.specs.Verifying.{Judge};
ghost use Rattle.pe_core.specs.Bound.{table_of};
ghost use Rattle.pe_image.specs.PeAnswer.{IsPeAnswer, policy_for};
ghost use Rattle.pe_image.specs.declared.error.PeCheckError.{PeCheckError};

/// What is reported about a program depends on a scheme by what `check_wincert` may return for its
/// certificate table alone: where that is the same under two schemes, for whichever digest, what
/// `check_pe` returns under the one it may return under the other, by its clause `answer`. So says
/// `questions_decide` (`answer`) of `signature_questions`, where both have the same verdicts on the
/// questions about the table.
pub fn tables_decide_programs()
    ensures { (a b : Judge) (policy : Policy) (octets : List ℕ)
        (result : Result Accepted PeCheckError)
        → ((hash : Option (List ℕ)) (answer : Result Accepted CheckError)
        → IsAnswer a (policy_for policy hash) (table_of octets) answer
        → IsAnswer b (policy_for policy hash) (table_of octets) answer)
        → IsPeAnswer a policy octets result → IsPeAnswer b policy octets result }
{}
