//! Files that are stored by name.

ghost use Rattle.std.specs.Prelude.{◌≡◌, ◌<◌, ℕ, length, drop, Some, IfSome};
ghost use Rattle.program_frame.specs.Stored.{latest_file, found_at, octets_at};

#[derive(Drop)]
pub(crate) struct StoredFile {
    pub(crate) name: String,
    pub(crate) octets: Vec<u8>,
}

// The index of the file with this name; of two, of the one that was added later.
pub(crate) fn find_latest(files: &[StoredFile], name: &str) -> Option<usize>
    ensures found { latest_file files.now name.now ≡ found_at files.now result }
    ensures within { IfSome result (λ place. place < length files.now) }
{
    let mut found = None;
    for (place, file) in files.iter().enumerate() {
        if file.name.as_str() == name {
            found = Some(place);
        }
    }
    found
}

// The octets of the file at the index, none if none is picked.
pub(crate) fn octets_at(files: &[StoredFile], picked: Option<usize>) -> &[u8]
    requires { (place : ℕ) → picked ≡ Some place → place < length files.now }
    ensures { result.now ≡ octets_at files.now picked }
{
    match picked {
        Some(place) => &files[place].octets,
        None => &[],
    }
}

pub(crate) fn after(octets: &[u8], at: usize) -> &[u8]
    ensures { result.now ≡ drop at octets.now }
{
    if at < octets.len() {
        &octets[at..]
    } else {
        &[]
    }
}
