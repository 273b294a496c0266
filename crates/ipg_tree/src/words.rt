//! Words, written to a sink.

ghost use Rattle.std.specs.Prelude.{◌≡◌, ◌-◌, ◌≤◌, ◌++◌, ◌∷◌, length, take, decimal};
ghost use Rattle.std.specs.Fmt.{signed_decimal};
ghost use Rattle.hex.specs.Hex.{encode_lower};
ghost use Rattle.ipg_core.specs.Lines as spec;
ghost use Rattle.ipg_tree.specs.Puts.{Puts};

use crate::tail::Tail;
use ipg_outside::{Sink, SinkFault};

/// Writes a text.
pub(crate) fn put<S: Sink>(out: &mut S, text: &[u8]) -> Result<(), SinkFault>
    ensures { Puts result text.now (S.output out.old) (S.faults out.old) (S.output out.new) (S.faults out.new) }
{
    out.write(text)
}

/// Writes `=` and a number.
fn put_set<S: Sink>(out: &mut S, n: i64) -> Result<(), SinkFault>
    ensures { Puts result (61 ∷ signed_decimal n) (S.output out.old) (S.faults out.old) (S.output out.new) (S.faults out.new) }
{
    let mut piece = Tail::new();
    piece.prepend_signed(n);
    piece.prepend(b"=");
    put(out, piece.as_slice())
}

/// Writes a word such as `x=-5`.
pub(crate) fn put_attr<S: Sink>(out: &mut S, name: &[u8], n: i64) -> Result<(), SinkFault>
    ensures { Puts result (spec.set_word name.now (signed_decimal n)) (S.output out.old) (S.faults out.old) (S.output out.new) (S.faults out.new) }
{
    put(out, name)?;
    put_set(out, n)
}

/// Writes two digits for each of at most 64 bytes.
fn put_some<S: Sink>(out: &mut S, bytes: &[u8]) -> Result<(), SinkFault>
    requires { length bytes.now ≤ 64 }
    ensures { Puts result (encode_lower bytes.now) (S.output out.old) (S.faults out.old) (S.output out.new) (S.faults out.new) }
{
    let mut piece = Tail::new();
    piece.prepend_hex(bytes);
    put(out, piece.as_slice())
}

/// Writes two digits for each byte.
pub(crate) fn put_digits<S: Sink>(out: &mut S, bytes: &[u8]) -> Result<(), SinkFault>
    ensures { Puts result (encode_lower bytes.now) (S.output out.old) (S.faults out.old) (S.output out.new) (S.faults out.new) }
{
    let mut left = bytes;
    while !left.is_empty() {
        let (some, more) = left.split_at(left.len().min(64));
        put_some(out, some)?;
        left = more;
    }
    Ok(())
}

/// Writes bytes in hexadecimal; `-` where there are none.
pub(crate) fn put_bytes<S: Sink>(out: &mut S, bytes: &[u8]) -> Result<(), SinkFault>
    ensures { Puts result (spec.hex bytes.now) (S.output out.old) (S.faults out.old) (S.output out.new) (S.faults out.new) }
{
    if bytes.is_empty() {
        put(out, b"-")
    } else {
        put_digits(out, bytes)
    }
}

/// Writes `+` and a number.
fn put_more<S: Sink>(out: &mut S, n: u64) -> Result<(), SinkFault>
    ensures { Puts result (43 ∷ decimal n) (S.output out.old) (S.faults out.old) (S.output out.new) (S.faults out.new) }
{
    let mut piece = Tail::new();
    piece.prepend_number(n);
    piece.prepend(b"+");
    put(out, piece.as_slice())
}

/// The first bytes; all of them where there are no more.
pub(crate) fn first(bytes: &[u8], count: usize) -> &[u8]
    ensures { result.now ≡ take count bytes.now }
{
    if count < bytes.len() {
        &bytes[..count]
    } else {
        bytes
    }
}

/// Writes the first 32 bytes in hexadecimal, and how many more there are.
fn put_long<S: Sink>(out: &mut S, bytes: &[u8]) -> Result<(), SinkFault>
    ensures { Puts result (spec.hex (take 32 bytes.now) ++ (43 ∷ decimal (length bytes.now - 32))) (S.output out.old) (S.faults out.old)
        (S.output out.new) (S.faults out.new) }
{
    put_bytes(out, first(bytes, 32))?;
    put_more(out, (bytes.len() as u64).saturating_sub(32))
}

/// Writes up to 32 bytes in hexadecimal, and how many more there are.
pub(crate) fn put_start<S: Sink>(out: &mut S, bytes: &[u8]) -> Result<(), SinkFault>
    ensures { Puts result (spec.short_hex bytes.now) (S.output out.old) (S.faults out.old) (S.output out.new) (S.faults out.new) }
{
    if bytes.len() <= 32 {
        put_bytes(out, bytes)
    } else {
        put_long(out, bytes)
    }
}
