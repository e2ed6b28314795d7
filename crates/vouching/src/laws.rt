//! Laws: what a table accepts, the verifier behind it accepts.

ghost use Rattle.std.specs.Prelude.{◌≡◌, ℕ, List, [], ◌∷◌, Option, Some, Contains, map};
ghost use Rattle.authenticode_core.specs.Basic.{VouchesFor};
ghost use Rattle.authenticode_core.specs.Trusted.{IsTrusted};
ghost use Rattle.authenticode_core.specs.declared.accepted.Accepted.{Accepted};
ghost use Rattle.authenticode_core.specs.declared.policy.Policy.{Policy};
ghost use Rattle.cms_types.specs.SignedDataElements.{SignedDataElements};
ghost use Rattle.key_core.specs.Verifying.{Judge};
ghost use Rattle.pe_image.specs.Vouched.{IsVouchedProgram};
ghost use Rattle.picky_check.specs.Vouched.{IsVouched};
ghost use Rattle.program_frame.specs.Limits.{IsWholeFile};
ghost use Rattle.program_frame.specs.Run.{IsRun};
ghost use Rattle.program_frame.specs.Shelf.{Files};
ghost use Rattle.program_frame.specs.Sink.{SinkState};
ghost use Rattle.program_frame.specs.Statuses as statuses;
ghost use Rattle.sig_core.specs.VerdictTable.{verdict_of};
ghost use Rattle.sig_core.specs.declared.scheme.Verdict.TheVariants.{Accept};
ghost use Rattle.sig_core.specs.declared.verdict_row.VerdictRow.{VerdictRow};
ghost use Rattle.signature_questions.specs.Asked.{IsOfChain, IsQuestion};
ghost use Rattle.signature_questions.specs.Commands.{program as questions};
ghost use Rattle.signature_questions.specs.Listed.{AreOfChain, AreQuestions};
ghost use Rattle.signature_questions.specs.Question.{Question, verdict_on};
ghost use Rattle.signature_questions.specs.Tables.{digests_of, row_of};
ghost use Rattle.vouching.specs.Listing.{IsListed, listed_questions};
ghost use Rattle.vouching.specs.ReadSame.{IsOneFile, ReadSame, ReadsItsTable};
ghost use Rattle.vouching.specs.Verified.{AreToldApart, AreVerified, HaveOwnDigests, IsInPlay, StandsBehind};
ghost use Rattle.vouching.specs.VouchedBy.{IsProgramVouchedBy, IsVouchedBy, MayAsk, rows_of};
ghost use Rattle.x509_core.specs.Chain.{IsAccepted};
ghost use Rattle.x509_core.specs.OwnedCertificate.{KeptCertificate};
ghost use Rattle.x509_core.specs.declared.validator.ChainChecks.{ChainChecks};

use program_frame::Shelf;

/// A verifier stands behind a table (`StandsBehind`) where each row that accepts names, by its
/// digests, a question that the verifier was asked and accepted, and questions in play with the same
/// digests are the same. Then what is trusted by the verdicts of the table, under any policy, is
/// trusted by those of the verifier (`trusted`), and so it is with a chain (`chain`).
///
/// It stands behind the table of its own verdicts on the questions about the file (`made`), and
/// behind a table with one row that accepts the only question about a file, as it did (`one`). By the
/// table without rows nothing is vouched for (`none`). Questions are told apart where no two keys, messages or
/// signatures in play have the same SHA-256 (`apart`); and of the questions about a file alone it
/// can be seen (`listed`, `listed_chain`).
pub fn verified_tables_decide()
    ensures trusted { (judge : Judge) (asked : List Question) (rows : List VerdictRow)
        (policy : Policy) (f : SignedDataElements) (accepted : Accepted)
        → StandsBehind judge asked (IsQuestion f) rows
        → IsTrusted (verdict_of rows) policy f accepted → IsTrusted judge policy f accepted }
    ensures chain { (judge : Judge) (asked : List Question) (rows : List VerdictRow)
        (checks : ChainChecks) (checked : KeptCertificate) (parents : List KeptCertificate)
        → StandsBehind judge asked (IsOfChain checked parents) rows
        → IsAccepted (verdict_of rows) checks checked (Some parents)
        → IsAccepted judge checks checked (Some parents) }
    ensures made { (judge : Judge) (f : SignedDataElements) (asked : List Question)
        → AreQuestions f asked → AreToldApart (Contains asked)
        → StandsBehind judge asked (IsQuestion f) (map (row_of judge) asked) }
    ensures one { (judge : Judge) (f : SignedDataElements) (question : Question)
        → AreQuestions f (question ∷ []) → verdict_on judge question ≡ Accept
        → StandsBehind judge (question ∷ []) (IsQuestion f)
        (record { verdict = Accept; signature = digests_of question } ∷ []) }
    ensures none { (f : SignedDataElements) (hash : List ℕ) (place : ℕ)
        → VouchesFor (verdict_of []) f hash place → ⊥ }
    ensures apart { (judge : Judge) (asked : List Question) (rows : List VerdictRow)
        (f : SignedDataElements) → AreVerified judge asked rows
        → HaveOwnDigests (IsInPlay asked (IsQuestion f))
        → StandsBehind judge asked (IsQuestion f) rows }
    ensures listed { (judge : Judge) (asked : List Question) (rows : List VerdictRow)
        (f : SignedDataElements) → AreQuestions f asked → AreVerified judge asked rows
        → AreToldApart (Contains asked) → StandsBehind judge asked (IsQuestion f) rows }
    ensures listed_chain { (judge : Judge) (asked : List Question) (rows : List VerdictRow)
        (checked : KeptCertificate) (parents : List KeptCertificate)
        → AreOfChain checked parents asked → AreVerified judge asked rows
        → AreToldApart (Contains asked)
        → StandsBehind judge asked (IsOfChain checked parents) rows }
{}

/// What a run of `picky_check` accepts, by its clause `vouched_for`, is vouched for by each verifier
/// that stands behind its table, whatever else that verifier was asked (`checked`); and so it is with
/// a run of `picky_pe` (`program`).
pub fn accepted_runs_are_vouched_for<F: Shelf>()
    ensures checked { (words : List (List ℕ)) (shelf shelf_now : F)
        (held held_now : Option (List ℕ))
        (run : IsVouched words (F.state shelf) (F.state shelf_now) held held_now)
        (judge : Judge) (asked : List Question)
        → StandsBehind judge asked (MayAsk run) (rows_of run) → IsVouchedBy judge run }
    ensures program { (words : List (List ℕ)) (shelf shelf_now : F)
        (held held_now : Option (List ℕ))
        (run : IsVouchedProgram words (F.state shelf) (F.state shelf_now) held held_now)
        (judge : Judge) (asked : List Question)
        → StandsBehind judge asked (IsQuestion run.vouched.signed_data) run.rows
        → IsProgramVouchedBy judge run }
{}

/// A run of `picky_ask` whose status is 0 has written the lines of the questions, which are those
/// about octets of its files.
pub fn asked_runs_are_listed<F: Shelf>()
    ensures { (words : List (List ℕ)) (shelf shelf_now : F) (out out_now : SinkState)
        → IsRun questions words F.state shelf shelf_now out out_now statuses.accepted
        → IsListed words (F.state shelf) (F.state shelf_now) out.held out_now.held }
{}

/// **End to end.** Where each row that accepts in the table of a run names, by its digests, a line
/// that `picky_ask` wrote about the same octets and a verifier accepted, and no two different lines
/// have the same digests, the status 0 of `picky_check` means vouched for by that verifier
/// (`checked`), and so does the status 0 of `picky_pe`, with the lines about the program's certificate
/// table (`program`). Two runs read the same octets where both shelves expose them as their file
/// (`same_file`).
pub fn listed_runs_are_vouched_for<E: Shelf, F: Shelf>()
    ensures checked { (asks words : List (List ℕ)) (first first_now : E) (shelf shelf_now : F)
        (lines lines_now held held_now : Option (List ℕ))
        (ask : IsListed asks (E.state first) (E.state first_now) lines lines_now)
        (run : IsVouched words (F.state shelf) (F.state shelf_now) held held_now)
        (judge : Judge) → ReadSame ask run
        → AreVerified judge (listed_questions ask) (rows_of run)
        → AreToldApart (Contains (listed_questions ask)) → IsVouchedBy judge run }
    ensures program { (asks words : List (List ℕ)) (first first_now : E) (shelf shelf_now : F)
        (lines lines_now held held_now : Option (List ℕ))
        (ask : IsListed asks (E.state first) (E.state first_now) lines lines_now)
        (run : IsVouchedProgram words (F.state shelf) (F.state shelf_now) held held_now)
        (judge : Judge) → ReadsItsTable ask run
        → AreVerified judge (listed_questions ask) run.rows
        → AreToldApart (Contains (listed_questions ask)) → IsProgramVouchedBy judge run }
    ensures same_file { (files others : Option Files) (name other octets more : List ℕ)
        → IsWholeFile files name octets → IsWholeFile others other more
        → IsOneFile files others name other → octets ≡ more }
{}
