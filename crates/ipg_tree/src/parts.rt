//! Lines of what is picked of a tree: parts of the input, and values.

ghost use Rattle.std.specs.Prelude.{[], ◌∷◌, decimal};
ghost use Rattle.std.specs.Fmt.{signed_decimal};
ghost use Rattle.ipg_core.specs.Lines as spec;
ghost use Rattle.ipg_tree.specs.Puts.{Puts};
ghost use Rattle.ipg_tree.specs.Words.{parted};

use crate::tail::Tail;
use crate::words::{put, put_bytes};
use ipg_outside::{Sink, SinkFault};

/// Writes two places, a space behind each.
fn put_places<S: Sink>(out: &mut S, from: u64, to: u64) -> Result<(), SinkFault>
    ensures { Puts result (parted (decimal from ∷ decimal to ∷ []) []) (S.output out.old) (S.faults out.old) (S.output out.new) (S.faults out.new) }
{
    let mut piece = Tail::new();
    piece.prepend(b" ");
    piece.prepend_number(to);
    piece.prepend(b" ");
    piece.prepend_number(from);
    put(out, piece.as_slice())
}

/// Writes the line of a part of the input: the places where it begins and ends, and its bytes in hexadecimal, all of them;
/// `-` where there are none.
pub fn print_part<S: Sink>(out: &mut S, from: u64, to: u64, bytes: &[u8]) -> Result<(), SinkFault>
    ensures { Puts result (spec.line (decimal from ∷ decimal to ∷ spec.hex bytes.now ∷ [])) (S.output out.old) (S.faults out.old)
        (S.output out.new) (S.faults out.new) }
{
    put_places(out, from, to)?;
    put_bytes(out, bytes)?;
    put(out, b"\n")
}

/// Writes the line of a value.
pub fn print_value<S: Sink>(out: &mut S, value: i64) -> Result<(), SinkFault>
    ensures { Puts result (spec.line (signed_decimal value ∷ [])) (S.output out.old) (S.faults out.old) (S.output out.new) (S.faults out.new) }
{
    let mut piece = Tail::new();
    piece.prepend(b"\n");
    piece.prepend_signed(value);
    put(out, piece.as_slice())
}
