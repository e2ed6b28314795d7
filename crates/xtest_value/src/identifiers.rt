//! OIDs of the table print, and hash by their octets.

use asn1_types::{ObjectIdentifier, oids};
use std::hash::{DefaultHasher, Hash, Hasher};
use std::test::Fail;

#[test]
fn known_identifiers(rt: HostRuntime) -> Result<(), Fail> {
    let sha256 = ObjectIdentifier::from_known(rt.alloc(), oids::SHA256)?;
    let sha384 = ObjectIdentifier::from_known(rt.alloc(), oids::SHA384)?;
    let printed = sha256.to_text(rt.alloc())?;
    assert!(rt; printed.as_str() == "2.16.840.1.101.3.4.2.1");
    let copy = sha256.try_clone(rt.alloc())?;
    assert!(rt; hash_of(&copy) == hash_of(&sha256));
    assert!(rt; hash_of(&sha384) != hash_of(&sha256));
    Ok(())
}

fn hash_of(identifier: &ObjectIdentifier) -> u64 {
    let mut state = DefaultHasher::new();
    identifier.hash(&mut state);
    state.finish()
}
