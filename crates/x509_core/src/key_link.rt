//! Whether the key identifiers of two borrowed certificates agree.

ghost use Rattle.x509_types.specs.CertificateView.{view_elements};
ghost use Rattle.x509_core.specs.Parent.{IsKeyLink};

use der_core::is_same;
use x509_types::CertView;

/// How the authority key identifier of a child relates to the subject key identifier of its parent.
#[derive(Clone, Copy)]
pub(crate) enum KeyLink<'a> {
    /// They are the same, or the child has none.
    Agree,
    /// The child has one, and the parent has none.
    Missing,
    /// The child has one, and the parent has another.
    Differ {
        expected: &'a [u8],
        actual: &'a [u8],
    },
}

/// How the key identifiers of two certificates relate.
pub(crate) fn key_link<'a>(parent: CertView<'a>, child: CertView<'a>) -> KeyLink<'a>
    ensures { IsKeyLink (view_elements parent.entry) (view_elements child.entry) result }
{
    let Some(expected) = child.authority_key_identifier() else {
        return KeyLink::Agree;
    };
    let Some(actual) = parent.subject_key_identifier() else {
        return KeyLink::Missing;
    };
    if is_same(expected, actual) {
        KeyLink::Agree
    } else {
        KeyLink::Differ { expected, actual }
    }
}
