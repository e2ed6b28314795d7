//! A signature scheme by a list of verdicts.

ghost use Rattle.std.specs.Prelude.{◌≡◌, ◌⊎◌, ◌↔◌, ℕ, List, [], length, Err, Some, IfOk, IfErr, IsOk, IsTrue, MatchResult};
ghost use Rattle.std.specs.Cmp.Lexicographic.{pointwise, lists_per, lists_equiv};
ghost use Rattle.sig_core.specs.ErrorText.{table_error_text};
ghost use Rattle.sig_core.specs.FirstVerdicts.{HasFirstVerdicts};
ghost use Rattle.sig_core.specs.VerdictTable.{IsTable, IsFirstBadLine, IsCause, version_2_text, verdict_of};
ghost use Rattle.sig_core.specs.declared.verdict_row.VerdictRow.{VerdictRow};
ghost use Rattle.sig_core.specs.declared.verdict_table.TableError.TheVariants.{Memory};

use crate::algorithm::{SchemeKind, SigAlg};
use crate::scheme::{Scheme, SchemeError, Verdict};
use crate::verdict_row::{FIRST_LINE, SignatureDigests, TableVersion, VerdictRow};
use sha2::{Digest, Sha256};
use std::alloc::{AllocError, AllocFailed, Global};
use std::collections::BTreeMap;
use std::fmt;
use std::marker::Model;
use thiserror::Error;

/// Why a text isn't a verdict table.
#[derive(Clone, Copy, PartialEq, Eq, Debug, Error)]
pub enum TableError {
    /// The number of the first line that isn't the line of a row, counted from 1.
    BadLine { number: u64 },
    /// Out of memory.
    Memory,
}

impl fmt::Display for TableError {
    ghost output = { λ error. Some (table_error_text error) };

    fn fmt<W: fmt::Write>(&self, f: &mut fmt::Formatter<W>) -> fmt::Result {
        match self {
            TableError::BadLine { number } => write!(
                f,
                "line {number} of the verdict table is not a row"
            ),
            TableError::Memory => write!(f, "out of memory"),
        }
    }
}

impl From<AllocError> for TableError {
    ghost from_gives = { λ _ e. e ≡ Memory };

    fn from(_error: AllocError) -> TableError {
        TableError::Memory
    }
}

impl<T: Drop> From<AllocFailed<T>> for TableError {
    ghost from_gives = { λ _ e. e ≡ Memory };

    fn from(_error: AllocFailed<T>) -> TableError {
        TableError::Memory
    }
}

/// A table of verdicts. Contracts see the list of its rows. A map has the first verdict on each
/// signature, so that one is found without a search in the rows.
#[derive(Debug, Drop)]
pub struct VerdictTable {
    rows: Vec<VerdictRow>,
    verdicts: BTreeMap<SignatureDigests, Verdict>,
}

impl Model for VerdictTable {
    ghost use Rattle.std.specs.Prelude.{List};
    ghost use Rattle.std.specs.List.{AllByRecursion};
    ghost use Rattle.sig_core.specs.FirstVerdicts.{HasFirstVerdicts};
    ghost use Rattle.sig_core.specs.VerdictTable.{IsRow};
    ghost use Rattle.sig_core.specs.declared.verdict_row.TableVersion.TheVariants.{Two};
    ghost use Rattle.sig_core.specs.declared.verdict_row.VerdictRow.{VerdictRow};

    ghost Value = { List VerdictRow };

    ghost view = { λ table. table.rows.items };

    ghost invariant = { λ table. AllByRecursion (IsRow Two) table.rows.items
        × HasFirstVerdicts ⟦<SignatureDigests as Ord>⟧.cmp table.rows.items table.verdicts };
}

impl VerdictTable {
    /// Reads a table of either version. Each line of version 1 is a row: the name of an algorithm,
    /// and the SHA-256 of key bytes, of a message and of a signature in lower-case hexadecimal
    /// digits, with one space between. In version 2 the first line is `picky-verdicts 2`, and each
    /// further one begins with `accept`, `reject` or `malformed` and a space.
    pub fn parse(alloc: Global, bytes: &[u8]) -> Result<VerdictTable, TableError>
        ensures table { IfOk result (λ table. IsTable bytes.now table) }
        // Memory runs out only if the text begins with a row.
        ensures cause { IfErr result (IsCause bytes.now) }
        // A table is parsed as its rows.
        ensures each_table { (rows : List VerdictRow) → IsTable bytes.now rows
            → MatchResult result (λ table. table ≡ rows) (λ e. e ≡ TableError.Memory) }
        // A text with a bad line is refused at that line.
        ensures each_bad_line { (number : ℕ) → IsFirstBadLine bytes.now number
            → MatchResult result (λ _. ⊥)
            (λ e. (e ≡ TableError.BadLine number) ⊎ (e ≡ TableError.Memory)) }
    {
        let rows = rows_of(alloc, bytes)?;
        let verdicts = first_verdicts(alloc, &rows)?;
        Ok(VerdictTable { rows, verdicts })
    }

    /// The table in version 2.
    pub fn to_bytes(&self, alloc: Global) -> Result<Vec<u8>, AllocError>
        ensures text { IfOk result (λ text. text.items ≡ version_2_text self.now) }
        // It is a table of the same rows.
        ensures table { IfOk result (λ text. IsTable text.items self.now) }
    {
        let mut text = Vec::from_slice(alloc, FIRST_LINE)?;
        for row in &self.rows {
            row.write(alloc, &mut text)?;
        }
        Ok(text)
    }

    /// A copy of the table.
    pub fn try_clone(&self, alloc: Global) -> Result<VerdictTable, AllocError>
        ensures { IfOk result (λ copy. copy ≡ self.now) }
    {
        let rows = Vec::from_slice(alloc, &self.rows)?;
        let verdicts = first_verdicts(alloc, &rows)?;
        Ok(VerdictTable { rows, verdicts })
    }

    /// How many rows the table has.
    pub fn len(&self) -> usize
        ensures { result ≡ length self.now }
    {
        self.rows.len()
    }

    /// Whether the table has no rows, so that it rejects everything.
    pub fn is_empty(&self) -> bool
        ensures { IsTrue result ↔ (self.now ≡ []) }
    {
        self.rows.is_empty()
    }
}

/// Tables are equal if they have the same rows in the same order.
impl PartialEq for VerdictTable {
    ghost eq = { pointwise ⟦<VerdictRow as PartialEq>⟧.eq };

    ghost use Rattle.sig_core.specs.contracts.verdict_row.VerdictRowPartialEq.TheImpl.Laws.{laws-law};

    ghost laws = { lists_per laws-law };

    fn eq(&self, other: &VerdictTable) -> bool
        ensures value { result ≡ pointwise ⟦<VerdictRow as PartialEq>⟧.eq self.now other.now }
        ensures same { IsTrue result ↔ (self.now ≡ other.now) }
    {
        self.rows == other.rows
    }
}

impl Eq for VerdictTable {
    ghost use Rattle.sig_core.specs.contracts.verdict_row.VerdictRowEq.TheImpl.Laws.{laws-law};

    ghost laws = { lists_equiv laws-law };
}

/// The rows whose lines are the text.
fn rows_of(alloc: Global, text: &[u8]) -> Result<Vec<VerdictRow>, TableError>
    ensures table { IfOk result (λ rows. IsTable text.now rows.items) }
    ensures cause { IfErr result (IsCause text.now) }
{
    let (version, mut rest) = TableVersion::split_from(text);
    let mut rows = Vec::new(alloc);
    while !rest.is_empty() {
        let Some((row, after)) = VerdictRow::split_first(version, rest) else {
            return Err(TableError::BadLine {
                number: rows.len() as u64 + version.first_number(),
            });
        };
        rows.push(row)?;
        rest = after;
    }
    Ok(rows)
}

/// The verdict of the first row on each signature.
fn first_verdicts(
    alloc: Global,
    rows: &[VerdictRow],
) -> Result<BTreeMap<SignatureDigests, Verdict>, AllocError>
    ensures first { IfOk result
        (HasFirstVerdicts ⟦<SignatureDigests as Ord>⟧.cmp rows.now) }
    // Nothing is allocated if there are no rows.
    ensures none { rows.now ≡ [] → IsOk result }
{
    let mut verdicts = BTreeMap::new(alloc);
    for row in rows {
        verdicts.entry(row.signature)?.or_insert(row.verdict);
    }
    Ok(verdicts)
}

impl Scheme for VerdictTable {
    ghost use Rattle.std.specs.Prelude.{false, None};
    ghost use Rattle.sig_core.specs.VerdictTable.{verdict_of};

    ghost judge = { λ rows alg key msg sig. verdict_of rows alg key msg sig };

    ghost signs = { λ _ _ _ _. false };

    ghost derives = { λ _ _ _. None };

    ghost pair = { λ _ _ _ _. ⊥ };

    ghost use Rattle.std.proofs.lemmas.Option.{none-some};

    ghost derived_pairs = { λ _ _ _ key none. none-some key none };

    fn verify(
        &self,
        _alloc: Global,
        alg: SigAlg,
        key: &[u8],
        msg: &[u8],
        sig: &[u8],
    ) -> Result<Verdict, AllocError>
        ensures verdict { IfOk result (λ verdict.
            verdict ≡ verdict_of self.now alg key.now msg.now sig.now) }
        // It doesn't allocate.
        ensures never_memory { IsOk result }
    {
        let signature = SignatureDigests {
            alg,
            key: Sha256::digest(key),
            msg: Sha256::digest(msg),
            sig: Sha256::digest(sig),
        };
        Ok(
            self.verdicts
                .get(&signature)
                .copied()
                .unwrap_or(Verdict::Reject),
        )
    }

    fn sign(
        &self,
        _alloc: Global,
        _alg: SigAlg,
        _secret: &[u8],
        _msg: &[u8],
    ) -> Result<Vec<u8>, SchemeError>
        // It doesn't allocate.
        ensures always { result ≡ Err SchemeError.Refused }
    {
        // Rows name signatures; they don't make any.
        Err(SchemeError::Refused)
    }

    fn public_of(
        &self,
        _alloc: Global,
        _kind: SchemeKind,
        _secret: &[u8],
    ) -> Result<Vec<u8>, SchemeError>
        // It doesn't allocate.
        ensures always { result ≡ Err SchemeError.Refused }
    {
        // Nor do they have the keys of secrets.
        Err(SchemeError::Refused)
    }
}
