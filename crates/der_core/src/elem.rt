//! Borrowed elements.

ghost use Rattle.der_core.specs.Borrowed.{HasElem};
ghost use Rattle.der_core.specs.Facts.Borrowed.{HasElem-prop};

/// A borrowed element within limits: its identifier octet, all of its octets, and its contents
/// octets (X.690 8.1.1).
#[derive(Clone, Copy, Debug)]
pub struct Elem<'a> {
    pub tag: u8,
    pub whole: &'a [u8],
    pub content: &'a [u8],
    pub ghost is: { HasElem whole.now tag content.now } by { HasElem-prop whole.now tag content.now },
}
