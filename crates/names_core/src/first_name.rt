//! The first name of a form in a list of general names.

ghost use Rattle.std.specs.Prelude.{◌≡◌};
ghost use Rattle.std.specs.Option.{option_copied};
ghost use Rattle.names_core.specs.GeneralNames.{first_dns_name, first_directory_name};

use asn1_types::Ia5String;
use name_types::{Name, RawGeneralName};

/// The first DNS name, `None` if there is none.
pub fn first_dns_name(names: &[RawGeneralName]) -> Option<&Ia5String>
    ensures { option_copied result ≡ first_dns_name names.now }
{
    let mut rest = names;
    while let Some((name, others)) = rest.split_first() {
        if let RawGeneralName::DnsName(text) = name {
            return Some(text);
        }
        rest = others;
    }
    None
}

/// The first directory name, `None` if there is none.
pub fn first_directory_name(names: &[RawGeneralName]) -> Option<&Name>
    ensures { option_copied result ≡ first_directory_name names.now }
{
    let mut rest = names;
    while let Some((name, others)) = rest.split_first() {
        if let RawGeneralName::DirectoryName(sets) = name {
            return Some(sets);
        }
        rest = others;
    }
    None
}
