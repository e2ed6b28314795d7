//! Files in one pool of octets, one after another, named by their numbers.

ghost use Rattle.std.specs.Prelude.{◌≡◌, ℕ, List, map, string_bytes, IfOk, OnOk};
ghost use Rattle.std.specs.Option.{option_or};
ghost use Rattle.door_frame.specs.Files.{lent_files};
ghost use Rattle.door_frame.specs.Pool.{pooled_files, pooled_under};

use crate::LentFile;
use std::alloc::{AllocError, Global};

/// The names of the files, in order.
const NUMBERS: [&str; 32] = [
    "0", "1", "2", "3", "4", "5", "6", "7", "8", "9", "10", "11", "12", "13", "14", "15", "16",
    "17", "18", "19", "20", "21", "22", "23", "24", "25", "26", "27", "28", "29", "30", "31",
];

/// The files of a pool, as `append_pool` appends them.
pub fn pooled<'a>(
    alloc: Global,
    pool: &'a [u8],
    lengths: &[usize],
) -> Result<Vec<LentFile<'a>>, AllocError>
    ensures { IfOk result (λ files. (name : List ℕ) → lent_files files.items name
        ≡ pooled_files pool.now lengths.now name) }
{
    let mut files = Vec::new(alloc);
    append_pool(&mut files, pool, lengths)?;
    Ok(files)
}

/// Appends the files of a pool, at most 32, which have these lengths. Where the pool ends, a file
/// ends too.
pub fn append_pool<'a>(
    files: &mut Vec<LentFile<'a>>,
    pool: &'a [u8],
    lengths: &[usize],
) -> Result<(), AllocError>
    ensures { OnOk result ((name : List ℕ) → lent_files files.new.items name
        ≡ option_or (lent_files files.old.items name) (pooled_files pool.now lengths.now name)) }
{
    append_under(files, &NUMBERS, pool, lengths)
}

/// The same, under these names.
fn append_under<'a>(
    files: &mut Vec<LentFile<'a>>,
    names: &[&'static str],
    pool: &'a [u8],
    lengths: &[usize],
) -> Result<(), AllocError>
    ensures { OnOk result ((name : List ℕ) → lent_files files.new.items name
        ≡ option_or (lent_files files.old.items name)
        (pooled_under (map (λ n. n.now) names.now) pool.now lengths.now name)) }
{
    let Some((name, names)) = names.split_first() else {
        return Ok(());
    };
    let Some((length, lengths)) = lengths.split_first() else {
        return Ok(());
    };
    let (octets, pool) = pool.split_at((*length).min(pool.len()));
    files.push(LentFile { name, octets })?;
    append_under(files, names, pool, lengths)
}
