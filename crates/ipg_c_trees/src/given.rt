//! The text of a grammar that is given by it, or by a name.
ghost use Rattle.std.specs.Prelude.{◌≡◌};
ghost use Rattle.ipg_formats.specs.Names as names;
ghost use Rattle.ipg_c_trees.specs.Given as spec;

use ipg_formats::{Kind, text};

/// The format whose grammar has this name, as in `@gif`.
fn kind_of(given: &[u8]) -> Option<Kind>
    ensures { result ≡ names.kind_of given.now }
{
    if given == b"@elf".as_slice() {
        return Some(Kind::Elf);
    }
    if given == b"@pe".as_slice() {
        return Some(Kind::Pe);
    }
    if given == b"@gif".as_slice() {
        return Some(Kind::Gif);
    }
    if given == b"@pcap".as_slice() {
        return Some(Kind::Pcap);
    }
    None
}

/// The built-in text of this name, else these bytes.
pub(crate) fn text_of(given: &[u8]) -> &[u8]
    ensures { result.now ≡ spec.text_of given.now }
{
    match kind_of(given) {
        Some(kind) => text(kind),
        None => given,
    }
}
