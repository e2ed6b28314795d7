//! Attributes from their parts.

use asn1_types::ObjectIdentifier;
use der_core::DerError;
use std::alloc::Global;
use x509_types::{Attribute, AttributeValues, Extensions};
use xgolden::{Line, print_attribute, value_of};

/// Prints the details of the attribute, or that there is none.
pub fn print(alloc: Global, call: &str, octets: &[Option<Vec<u8>>], line: &mut Line) {
    match (call, octets) {
        ("extension_request", [Some(extensions)]) => {
            print_made(alloc, extension_request(alloc, extensions), line);
        }
        ("new", [Some(ty), Some(element)]) => print_made(
            alloc,
            with_values_of(alloc, ty, element),
            line,
        ),
        _ => line.no_call(),
    }
}

/// An attribute, that there is none, or why it isn't known.
type Made = Result<Option<Attribute>, DerError>;

fn print_made(alloc: Global, made: Made, line: &mut Line) {
    match made {
        Ok(Some(attribute)) => {
            print_attribute(alloc, &attribute, line);
            drop(attribute);
        }
        Ok(None) => line.word("None"),
        Err(error) => line.shown(&error),
    }
}

fn extension_request(alloc: Global, extensions: &[u8]) -> Made {
    let extensions = value_of::<Extensions>(alloc, extensions)?;
    Ok(Some(Attribute::new_extension_request(alloc, extensions)?))
}

/// The attribute with an OID and the values of another attribute.
fn with_values_of(alloc: Global, ty: &[u8], element: &[u8]) -> Made {
    let ty = ObjectIdentifier::from_content(alloc, ty)?;
    Ok(Attribute::new(ty, values_of(alloc, element)?))
}

fn values_of(alloc: Global, element: &[u8]) -> Result<AttributeValues, DerError> {
    Ok(value_of::<Attribute>(alloc, element)?.value)
}
