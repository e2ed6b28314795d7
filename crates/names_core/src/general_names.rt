//! Lists of general names.

ghost use Rattle.name_types.specs.declared.general_name.RawGeneralName.TheVariants as raw;
ghost use Rattle.std.specs.Prelude.{◌≡◌, ◌↔◌, ◌++◌, ◌∷◌, [], length, map, option_map, IsTrue, IfOk, OnOk, OnErr, Ok, None};
ghost use Rattle.std.specs.Option.{option_copied};
ghost use Rattle.names_core.specs.GeneralName.{raw_name};
ghost use Rattle.names_core.specs.GeneralNames.{first_dns_name, first_directory_name};

use crate::first_name::{first_directory_name, first_dns_name};
use crate::general_name::GeneralName;
use crate::name::DirectoryName;
use asn1_types::Ia5String;
use der_core::Structure;
use name_types::{RawGeneralName, RawGeneralNames};
use std::alloc::{AllocError, Global};
use std::marker::Model;

/// General names in order (RFC 5280 4.2.1.6), to be built and searched. Contracts see the list of
/// their raw names.
#[derive(Debug, Drop)]
pub struct GeneralNames {
    names: RawGeneralNames,
}

impl Model for GeneralNames {
    ghost use Rattle.std.specs.Prelude.{List};
    ghost use Rattle.name_types.specs.declared.general_name.RawGeneralName.{RawGeneralName};
    ghost use Rattle.name_types.specs.Facts.GeneralNames.{coded_general_names};

    ghost Value = { List RawGeneralName };

    ghost coded = { coded_general_names };

    ghost view = { λ n. n.names };
}

impl GeneralNames {
    /// A list of one name.
    pub fn new(alloc: Global, name: GeneralName) -> Result<GeneralNames, AllocError>
        ensures { IfOk result (λ names. names ≡ raw_name name ∷ []) }
    {
        GeneralNames::empty(alloc).with_name(name)
    }

    /// A list of one directory name.
    pub fn new_directory_name(
        alloc: Global,
        name: DirectoryName,
    ) -> Result<GeneralNames, AllocError>
        ensures { IfOk result (λ names. names ≡ raw.DirectoryName name.name ∷ []) }
    {
        GeneralNames::empty(alloc).with_directory_name(name)
    }

    /// A list of one DNS name.
    pub fn new_dns_name(alloc: Global, name: Ia5String) -> Result<GeneralNames, AllocError>
        ensures { IfOk result (λ names. names ≡ raw.DnsName name ∷ []) }
    {
        GeneralNames::empty(alloc).with_dns_name(name)
    }

    /// The names of a vector, in its order.
    pub fn from_list(alloc: Global, names: Vec<GeneralName>) -> Result<GeneralNames, AllocError>
        ensures { IfOk result (λ made. made ≡ map raw_name names.items) }
    {
        let mut made = GeneralNames::empty(alloc);
        for name in names {
            made.add_name(name)?;
        }
        Ok(made)
    }

    /// An empty list.
    fn empty(alloc: Global) -> GeneralNames
        ensures { result ≡ [] }
    {
        GeneralNames {
            names: RawGeneralNames::new(alloc),
        }
    }

    /// The list with a directory name appended.
    pub fn with_directory_name(self, name: DirectoryName) -> Result<GeneralNames, AllocError>
        ensures { IfOk result (λ names. names ≡ self ++ raw.DirectoryName name.name ∷ []) }
    {
        self.with_name(GeneralName::new_directory_name(name))
    }

    /// The list with a DNS name appended.
    pub fn with_dns_name(self, name: Ia5String) -> Result<GeneralNames, AllocError>
        ensures { IfOk result (λ names. names ≡ self ++ raw.DnsName name ∷ []) }
    {
        self.with_name(GeneralName::DNSName(name))
    }

    /// The list with a name appended.
    pub fn with_name(self, name: GeneralName) -> Result<GeneralNames, AllocError>
        ensures { IfOk result (λ names. names ≡ self ++ raw_name name ∷ []) }
    {
        let mut names = self;
        names.add_name(name)?;
        Ok(names)
    }

    /// Appends a name.
    pub fn add_name(&mut self, name: GeneralName) -> Result<(), AllocError>
        ensures ok { OnOk result (self.new ≡ self.old ++ raw_name name ∷ []) }
        ensures err { OnErr result (self.new ≡ self.old) }
    {
        self.names.push(RawGeneralName::from(name))
    }

    /// How many names there are.
    pub fn len(&self) -> usize
        ensures { result ≡ length self.now }
    {
        self.names.len()
    }

    /// Whether there are none.
    pub fn is_empty(&self) -> bool
        ensures { IsTrue result ↔ (self.now ≡ []) }
    {
        self.names.is_empty()
    }

    /// A copy of the first directory name, `None` exactly if there is none.
    pub fn find_directory_name(&self, alloc: Global) -> Result<Option<DirectoryName>, AllocError>
        ensures found { IfOk result
            (λ found. option_map (λ name. name.name) found ≡ first_directory_name self.now) }
        // That there is none is returned even if memory runs out.
        ensures none { first_directory_name self.now ≡ None → result ≡ Ok None }
    {
        match first_directory_name(self.names.as_slice()) {
            Some(name) => Ok(Some(DirectoryName::from(name.try_clone(alloc)?))),
            None => Ok(None),
        }
    }

    /// The first DNS name, `None` exactly if there is none.
    pub fn find_dns_name(&self) -> Option<&Ia5String>
        ensures { option_copied result ≡ first_dns_name self.now }
    {
        first_dns_name(self.names.as_slice())
    }

    /// A copy of each name, in order.
    pub fn to_general_names(&self, alloc: Global) -> Result<Vec<GeneralName>, AllocError>
        ensures { IfOk result (λ names. map raw_name names.items ≡ self.now) }
    {
        let mut names = Vec::new(alloc);
        for name in self.names.as_slice() {
            names.push(GeneralName::from(name.try_clone(alloc)?))?;
        }
        Ok(names)
    }

    /// A copy of each name, in order; the list is dropped.
    pub fn into_general_names(self, alloc: Global) -> Result<Vec<GeneralName>, AllocError>
        ensures { IfOk result (λ names. map raw_name names.items ≡ self) }
    {
        self.to_general_names(alloc)
    }

    /// A copy of the list.
    pub fn try_clone(&self, alloc: Global) -> Result<GeneralNames, AllocError>
        ensures { IfOk result (λ copy. copy ≡ self.now) }
    {
        Ok(GeneralNames {
            names: self.names.try_clone(alloc)?,
        })
    }
}

impl From<RawGeneralNames> for GeneralNames {
    ghost from_gives = { λ raw names. names ≡ raw };

    fn from(raw: RawGeneralNames) -> GeneralNames {
        GeneralNames { names: raw }
    }
}

impl From<GeneralNames> for RawGeneralNames {
    ghost from_gives = { λ names raw. raw ≡ names };

    fn from(names: GeneralNames) -> RawGeneralNames {
        names.names
    }
}

/// Lists of names are equal exactly if their encodings are.
impl PartialEq for GeneralNames {
    ghost use Rattle.der_core.specs.Equality.{same_octets};
    ghost use Rattle.der_core.specs.Facts.Equality.{same_octets_per};
    ghost use Rattle.name_types.specs.GeneralName.{general_names};

    ghost eq = { same_octets general_names };

    ghost laws = { same_octets_per general_names };

    fn eq(&self, other: &GeneralNames) -> bool
        ensures octets { result ≡ same_octets general_names self.now other.now }
        ensures same { IsTrue result ↔ (self.now ≡ other.now) }
    {
        self.names == other.names
    }
}

impl Eq for GeneralNames {
    ghost use Rattle.der_core.specs.Facts.Equality.{same_octets_equiv};
    ghost use Rattle.name_types.specs.GeneralName.{general_names};

    ghost laws = { same_octets_equiv general_names };
}
