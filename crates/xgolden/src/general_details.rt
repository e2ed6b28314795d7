//! Printing times and general names.

use crate::line::Line;
use asn1_types::Ia5String;
use x509_types::{DirectoryString, EdiPartyName, OtherName, RawGeneralName, RawGeneralNames, Time};

/// The form of a Time, and its date.
pub fn print_time_form(time: &Time, line: &mut Line) {
    match time {
        Time::Utc(time) => {
            line.word("Utc");
            line.shown(time);
        }
        Time::Generalized(time) => {
            line.word("Generalized");
            line.shown(time);
        }
    }
}

/// Their number, and each.
pub fn print_general_names(names: &RawGeneralNames, line: &mut Line) {
    line.shown(&names.len());
    for name in names.iter() {
        print_general_name(name, line);
    }
}

/// The form of a name, and its value.
pub fn print_general_name(name: &RawGeneralName, line: &mut Line) {
    match name {
        RawGeneralName::OtherName(name) => print_other_name(name, line),
        RawGeneralName::Rfc822Name(name) => print_text("Rfc822Name", name, line),
        RawGeneralName::DnsName(name) => print_text("DnsName", name, line),
        RawGeneralName::DirectoryName(name) => {
            line.word("DirectoryName");
            line.text(name);
        }
        RawGeneralName::EdiPartyName(name) => print_edi_party_name(name, line),
        RawGeneralName::Uri(name) => print_text("Uri", name, line),
        RawGeneralName::IpAddress(address) => {
            line.word("IpAddress");
            line.octets(address.as_slice());
        }
        RawGeneralName::RegisteredId(id) => {
            line.word("RegisteredId");
            line.shown(id);
        }
    }
}

fn print_text(form: &str, text: &Ia5String, line: &mut Line) {
    line.word(form);
    line.octets(text.as_str().as_bytes());
}

fn print_other_name(name: &OtherName, line: &mut Line) {
    line.word("OtherName");
    line.shown(&name.type_id);
    line.octets(name.value.as_bytes());
}

fn print_edi_party_name(name: &EdiPartyName, line: &mut Line) {
    line.word("EdiPartyName");
    match &name.name_assigner {
        Some(string) => print_string(string, line),
        None => line.word("none"),
    }
    print_string(&name.party_name, line);
}

/// The type of a string, its octets, and its text.
fn print_string(string: &DirectoryString, line: &mut Line) {
    let (name, octets) = match string {
        DirectoryString::PrintableString(octets) => ("PrintableString", octets),
        DirectoryString::Utf8String(octets) => ("Utf8String", octets),
        DirectoryString::TeletexString(octets) => ("TeletexString", octets),
        DirectoryString::BmpString(octets) => ("BmpString", octets),
    };
    line.word(name);
    line.octets(octets.as_slice());
    line.text(string);
}
