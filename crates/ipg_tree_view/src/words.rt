//! Words, written to a sink.

ghost use Rattle.std.specs.Prelude.{◌≡◌, take, drop};
ghost use Rattle.ipg_tree.specs.Puts.{Puts};

use ipg_outside::{Sink, SinkFault};

/// Writes a text.
pub(crate) fn put<S: Sink>(out: &mut S, text: &[u8]) -> Result<(), SinkFault>
    ensures { Puts result text.now (S.output out.old) (S.faults out.old) (S.output out.new) (S.faults out.new) }
{
    out.write(text)
}

/// The first bytes; all of them where there are no more.
pub(crate) fn first(bytes: &[u8], count: usize) -> &[u8]
    ensures { result.now ≡ take count bytes.now }
{
    if count < bytes.len() {
        &bytes[..count]
    } else {
        bytes
    }
}

/// The bytes behind the first ones.
pub(crate) fn behind(bytes: &[u8], count: usize) -> &[u8]
    ensures { result.now ≡ drop count bytes.now }
{
    if count < bytes.len() {
        &bytes[count..]
    } else {
        &[]
    }
}
