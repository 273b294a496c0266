//! Lines of what isn't a node.

ghost use Rattle.std.specs.Prelude.{◌≡◌, ◌+◌, ◌≤◌, ◌++◌, ◌∷◌, [], ℕ, List, decimal, length, slice_get, Some, codes};
ghost use Rattle.ipg_core.specs.declared.grammar.Sym.{Sym};
ghost use Rattle.ipg_core.specs.Grammar.{Grammar};
ghost use Rattle.ipg_core.specs.Lines as spec;
ghost use Rattle.ipg_core.specs.Tree.{Kids};
ghost use Rattle.ipg_mach_nodes.specs.declared.kid.Kid.{Kid as Row};
ghost use Rattle.ipg_mach_nodes.specs.Stored.{Source, StandKids};
ghost use Rattle.ipg_table.specs.Rows.{StandFor};
ghost use Rattle.ipg_tree.specs.Puts.{Puts};
ghost use Rattle.ipg_tree.specs.Words.{parted};

use crate::names::sym_name;
use crate::tail::Tail;
use crate::words::{put, put_bytes, put_start};
use ipg_core::grammar::Primitive;
use ipg_mach_nodes::RunId;
use ipg_outside::{Sink, SinkFault};
use ipg_tree_walk::{Parsed, Visit};
use std::alloc::Allocator;

/// Puts the places of a leaf, after a space, before what follows them.
#[inline(always)]
fn prepend_interval(line: &mut Tail, visit: Visit)
    requires { length line.old ≤ 64 }
    ensures text { line.new ≡ 32 ∷ parted (decimal visit.from ∷ decimal visit.to ∷ []) line.old }
    ensures long { length line.new ≤ 43 + length line.old }
{
    line.prepend(b" ");
    line.prepend_number(visit.to);
    line.prepend(b" ");
    line.prepend_number(visit.from);
    line.prepend(b" ");
}

/// Puts the first words of a leaf's line before what follows them.
#[inline(always)]
fn prepend_words(line: &mut Tail, visit: Visit, kind: &[u8])
    requires { length kind.now + length line.old ≤ 64 }
    ensures { line.new ≡ parted (decimal visit.depth ∷ kind.now ∷ decimal visit.from ∷ decimal visit.to ∷ []) line.old }
{
    prepend_interval(line, visit);
    line.prepend(kind);
    line.prepend(b" ");
    line.prepend_number(visit.depth);
}

/// Puts the name of a primitive before what there is. Each has a place of its own here, as a text of a known length needs
/// no call to be copied.
#[inline(always)]
fn prepend_primitive(line: &mut Tail, prim: Primitive)
    requires { length line.old ≤ 128 }
    ensures text { line.new ≡ spec.primitive_name prim ++ line.old }
    ensures long { length line.new ≤ 5 + length line.old }
{
    match prim {
        Primitive::U8 => line.prepend(b"U8"),
        Primitive::U16LE => line.prepend(b"U16LE"),
        Primitive::U16BE => line.prepend(b"U16BE"),
        Primitive::U32LE => line.prepend(b"U32LE"),
        Primitive::U32BE => line.prepend(b"U32BE"),
        Primitive::U64LE => line.prepend(b"U64LE"),
        Primitive::U64BE => line.prepend(b"U64BE"),
        Primitive::Bytes => line.prepend(b"Bytes"),
    }
}

/// Puts the first words of a number's line before what follows them.
#[inline(always)]
fn prepend_number_words(line: &mut Tail, visit: Visit, prim: Primitive)
    requires { length line.old ≤ 64 }
    ensures { line.new ≡ parted (decimal visit.depth ∷ spec.primitive_name prim ∷ decimal visit.from ∷ decimal visit.to ∷ []) line.old }
{
    prepend_interval(line, visit);
    prepend_primitive(line, prim);
    line.prepend(b" ");
    line.prepend_number(visit.depth);
}

/// Writes the line of a number of at most 32 bits.
fn put_low<S: Sink>(
    out: &mut S,
    line: &mut Tail,
    visit: Visit,
    prim: Primitive,
    low: u32,
) -> Result<(), SinkFault>
    ensures { Puts result (spec.line (decimal visit.depth ∷ spec.primitive_name prim ∷ decimal visit.from ∷ decimal visit.to ∷ spec.set_word (codes "val")
        (decimal low) ∷ [])) (S.output out.old) (S.faults out.old) (S.output out.new) (S.faults out.new) }
{
    line.clear();
    line.prepend(b"\n");
    line.prepend_number(u64::from(low));
    line.prepend(b"val=");
    prepend_number_words(line, visit, prim);
    put(out, line.as_slice())
}

/// Writes the line of a number of 64 bits.
fn put_halves<S: Sink>(
    out: &mut S,
    line: &mut Tail,
    visit: Visit,
    prim: Primitive,
    high: u32,
    low: u32,
) -> Result<(), SinkFault>
    ensures { Puts result (spec.line (decimal visit.depth ∷ spec.primitive_name prim ∷ decimal visit.from ∷ decimal visit.to ∷ spec.set_word (codes "hi")
        (decimal high) ∷ spec.set_word (codes "lo") (decimal low) ∷ [])) (S.output out.old) (S.faults out.old) (S.output out.new) (S.faults out.new) }
{
    line.clear();
    line.prepend(b"\n");
    line.prepend_number(u64::from(low));
    line.prepend(b" lo=");
    line.prepend_number(u64::from(high));
    line.prepend(b"hi=");
    prepend_number_words(line, visit, prim);
    put(out, line.as_slice())
}

/// Writes the line of a number, which is made in `line`: both halves of one of 64 bits, else its value.
pub(crate) fn put_value<S: Sink>(
    out: &mut S,
    line: &mut Tail,
    visit: Visit,
    prim: Primitive,
    high: u32,
    low: u32,
) -> Result<(), SinkFault>
    ensures { Puts result (spec.line (decimal visit.depth ∷ spec.primitive_name prim ∷ decimal visit.from ∷ decimal visit.to ∷ spec.number_words prim
        high low)) (S.output out.old) (S.faults out.old) (S.output out.new) (S.faults out.new) }
{
    match prim {
        Primitive::U64LE | Primitive::U64BE => put_halves(out, line, visit, prim, high, low),
        _ => put_low(out, line, visit, prim, low),
    }
}

/// Writes the first words of a leaf's line.
fn put_words<S: Sink>(out: &mut S, visit: Visit, kind: &[u8]) -> Result<(), SinkFault>
    requires { length kind.now ≤ 5 }
    ensures { Puts result (parted (decimal visit.depth ∷ kind.now ∷ decimal visit.from ∷ decimal visit.to ∷ []) [])
        (S.output out.old) (S.faults out.old) (S.output out.new) (S.faults out.new) }
{
    let mut piece = Tail::new();
    prepend_words(&mut piece, visit, kind);
    put(out, piece.as_slice())
}

/// Writes the line of a terminal.
pub(crate) fn put_text<S: Sink>(out: &mut S, visit: Visit, text: &[u8]) -> Result<(), SinkFault>
    ensures { Puts result (spec.line (decimal visit.depth ∷ codes "tok" ∷ decimal visit.from ∷ decimal visit.to ∷ spec.hex text.now ∷ []))
        (S.output out.old) (S.faults out.old) (S.output out.new) (S.faults out.new) }
{
    put_words(out, visit, b"tok")?;
    put_bytes(out, text)?;
    put(out, b"\n")
}

/// Writes the line of raw bytes.
pub(crate) fn put_raw<S: Sink>(out: &mut S, visit: Visit, bytes: &[u8]) -> Result<(), SinkFault>
    ensures { Puts result (spec.line (decimal visit.depth ∷ codes "Bytes" ∷ decimal visit.from ∷ decimal visit.to ∷ spec.short_hex bytes.now ∷ []))
        (S.output out.old) (S.faults out.old) (S.output out.new) (S.faults out.new) }
{
    put_words(out, visit, b"Bytes")?;
    put_start(out, bytes)?;
    put(out, b"\n")
}

/// Writes a depth and a kind.
fn put_kind<S: Sink>(out: &mut S, depth: u64, kind: &[u8]) -> Result<(), SinkFault>
    requires { length kind.now ≤ 5 }
    ensures { Puts result (parted (decimal depth ∷ kind.now ∷ []) []) (S.output out.old) (S.faults out.old) (S.output out.new) (S.faults out.new) }
{
    let mut piece = Tail::new();
    piece.prepend(b" ");
    piece.prepend(kind);
    piece.prepend(b" ");
    piece.prepend_number(depth);
    put(out, piece.as_slice())
}

/// Writes a number as the last word of a line.
fn put_count<S: Sink>(out: &mut S, n: u64) -> Result<(), SinkFault>
    ensures { Puts result (32 ∷ decimal n ++ 10 ∷ []) (S.output out.old) (S.faults out.old) (S.output out.new) (S.faults out.new) }
{
    let mut piece = Tail::new();
    piece.prepend(b"\n");
    piece.prepend_number(n);
    piece.prepend(b" ");
    put(out, piece.as_slice())
}

/// Writes a line of a depth, a kind, a name and a count.
fn put_counted<S: Sink>(
    out: &mut S,
    depth: u64,
    kind: &[u8],
    name: &[u8],
    count: u64,
) -> Result<(), SinkFault>
    requires { length kind.now ≤ 5 }
    ensures { Puts result (spec.line (decimal depth ∷ kind.now ∷ name.now ∷ decimal count ∷ []))
        (S.output out.old) (S.faults out.old) (S.output out.new) (S.faults out.new) }
{
    put_kind(out, depth, kind)?;
    put(out, name)?;
    put_count(out, count)
}

/// Writes the line of an array or a repetition.
pub(crate) fn put_items<A: Allocator + Clone + Drop, S: Sink>(
    out: &mut S,
    p: &Parsed<'_, A>,
    visit: Visit,
    kind: &[u8],
    sym: u32,
    list: RunId,
) -> Result<(), SinkFault>
    requires { length kind.now ≤ 5 }
    ensures { (src : Source) (g : Grammar) (at : ℕ) (one : Sym) (rows : List Row) (items : Kids) → StandFor p.now.parse.tables g
        → slice_get p.now.parse.tables.syms sym ≡ Some one → slice_get p.now.parse.store.kids list.place ≡ Some rows
        → StandKids src p.now.parse.store at rows items
        → Puts result (spec.items_line g visit.depth kind.now one items) (S.output out.old) (S.faults out.old) (S.output out.new) (S.faults out.new) }
{
    let name = sym_name(p.tables(), sym);
    put_counted(out, visit.depth, kind, name, p.items(list).len() as u64)
}
