//! The rules of a link but that of its signature. They need no memory, so a link that breaks one
//! makes no error.

ghost use Rattle.std.specs.Prelude.{◌↔◌, true, IsTrue};
ghost use Rattle.x509_core.specs.Link.{IsDeepEnough};
ghost use Rattle.x509_core.specs.Parent.{AgreeByKey};
ghost use Rattle.x509_core.specs.Window.{IsWithinWindow};
ghost use Rattle.x509_types.specs.CertificateView.{view_elements};
ghost use Rattle.x509_types.specs.ExtensionParts.{HasCa};
ghost use Rattle.trust_anchors.specs.Inside.Unsigned.{IsUnsignedLink};

use der_core::is_same;
use x509_core::{Window, chains_break_no_rule, names_agree};
use x509_types::CertView;

/// Whether the parent may have issued the child, by all rules but that of the signature
/// (`Cert::expect_link`).
pub(crate) fn is_unsigned_link(
    parent: CertView<'_>,
    child: CertView<'_>,
    number: u16,
    window: &Window,
) -> bool
    ensures { IsTrue result ↔ IsUnsignedLink window.now number (view_elements parent.entry)
        (view_elements child.entry) }
{
    if !is_authority(parent) || !is_deep_enough(parent, number) || !is_valid(parent, window) {
        return false;
    }
    keys_agree(parent, child) && names_agree(parent, child)
}

/// Whether the certificate is valid (`Window::expect_valid`).
pub(crate) fn is_valid(view: CertView<'_>, window: &Window) -> bool
    ensures { IsTrue result ↔ IsWithinWindow window.now (view_elements view.entry) }
{
    // a law that the proof rests on; the call does nothing
    chains_break_no_rule();
    window.expect_valid(view).is_ok()
}

/// Whether this is a CA certificate (RFC 5280 4.2.1.9).
fn is_authority(parent: CertView<'_>) -> bool
    ensures { IsTrue result ↔ HasCa (view_elements parent.entry) true }
{
    match parent.ca() {
        Some(ca) => ca,
        None => false,
    }
}

/// Whether the path length allows as many certificates below (RFC 5280 4.2.1.9).
fn is_deep_enough(parent: CertView<'_>, number: u16) -> bool
    ensures { IsTrue result ↔ IsDeepEnough number (view_elements parent.entry) }
{
    match parent.path_length() {
        Some(limit) => number <= u16::from(limit),
        None => true,
    }
}

/// Whether the key identifiers agree (RFC 5280 4.2.1.1).
fn keys_agree(parent: CertView<'_>, child: CertView<'_>) -> bool
    ensures { IsTrue result ↔ AgreeByKey (view_elements parent.entry) (view_elements child.entry) }
{
    let Some(named) = child.authority_key_identifier() else {
        return true;
    };
    match parent.subject_key_identifier() {
        Some(key) => is_same(named, key),
        None => false,
    }
}
