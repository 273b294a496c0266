//! Lines of bytes, as digits and as characters.

ghost use Rattle.std.specs.Prelude.{◌≡◌, ◌+◌, ◌*◌, ◌≤◌, ◌^◌, ◌++◌, [], ℕ, List, length, map};
ghost use Rattle.ipg_tree_view.specs.View as spec;
ghost use Rattle.ipg_tree_view.specs.Cutting.{begun};
ghost use Rattle.ipg_tree.specs.Puts.{Puts};

use crate::cut::{Cut, printable};
use crate::words::put;
use ipg_outside::{Sink, SinkFault};
use ipg_tree::Tail;

const BLANKS: &[u8; 78] =
    b"                                                                              ";

/// Puts blanks before what there is.
pub(crate) fn prepend_blanks(line: &mut Tail, count: usize)
    requires few { count ≤ 78 }
    requires room { count + length line.old ≤ 160 }
    ensures text { line.new ≡ spec.blanks count ++ line.old }
    ensures long { length line.new ≡ count + length line.old }
{
    line.prepend(&BLANKS[..count]);
}

/// Puts the digits of a place before what there is.
fn prepend_offset(line: &mut Tail, at: u64)
    requires { 8 + length line.old ≤ 160 }
    ensures { line.new ≡ spec.offset at ++ line.old }
{
    let place = (at % (1 << 32)) as u32;
    line.prepend_hex(&place.to_be_bytes());
}

/// Puts two digits and a blank for each byte before what there is.
fn prepend_cells(line: &mut Tail, bytes: &[u8])
    requires { 3 * length bytes.now + length line.old ≤ 150 }
    ensures text { line.new ≡ spec.cells bytes.now ++ line.old }
    ensures long { length line.new ≡ 3 * length bytes.now + length line.old }
{
    let mut left = bytes;
    while let Some((last, front)) = left.split_last() {
        line.prepend(b" ");
        line.prepend_hex(&[*last]);
        left = front;
    }
}

/// Puts a character for each byte before what there is.
fn prepend_characters(line: &mut Tail, bytes: &[u8])
    requires { length bytes.now + length line.old ≤ 150 }
    ensures text { line.new ≡ map spec.printable bytes.now ++ line.old }
    ensures long { length line.new ≡ length bytes.now + length line.old }
{
    let mut left = bytes;
    while let Some((last, front)) = left.split_last() {
        line.prepend(&[printable(*last)]);
        left = front;
    }
}

/// Puts bytes, as digits and as characters, before what there is.
fn prepend_filled(line: &mut Tail, bytes: &[u8])
    requires few { length bytes.now ≤ 16 }
    requires room { length line.old ≤ 60 }
    ensures text { line.new ≡ spec.filled bytes.now ++ line.old }
    ensures long { length line.new ≡ 66 + length line.old }
{
    let count = bytes.len();
    line.prepend(b"|");
    prepend_blanks(line, 16 - count);
    prepend_characters(line, bytes);
    line.prepend(b"|");
    prepend_blanks(line, 48 - 3 * count);
    prepend_cells(line, bytes);
}

/// Puts the columns of bytes before what there is.
fn prepend_columns(line: &mut Tail, bytes: &[u8])
    requires few { length bytes.now ≤ 16 }
    requires room { length line.old ≤ 60 }
    ensures text { line.new ≡ spec.columns bytes.now ++ line.old }
    ensures long { length line.new ≡ 66 + length line.old }
{
    if bytes.is_empty() {
        prepend_blanks(line, 66);
    } else {
        prepend_filled(line, bytes);
    }
}

/// Writes a line of bytes, and what they are.
pub(crate) fn put_line<S: Sink>(
    out: &mut S,
    line: &mut Tail,
    at: u64,
    bytes: &[u8],
    cut: &Cut,
) -> Result<(), SinkFault>
    requires { length bytes.now ≤ 16 }
    ensures { (text : List ℕ) → cut.now ≡ begun text
        → Puts result (spec.line at bytes.now text) (S.output out.old) (S.faults out.old) (S.output out.new) (S.faults out.new) }
{
    line.clear();
    line.prepend(b"\n");
    cut.prepend_to(line);
    prepend_blanks(line, 2);
    prepend_columns(line, bytes);
    prepend_blanks(line, 2);
    prepend_offset(line, at);
    put(out, line.as_slice())
}

/// Writes a line of bytes that go on; nothing where there are none.
pub(crate) fn put_more_line<S: Sink>(
    out: &mut S,
    line: &mut Tail,
    at: u64,
    bytes: &[u8],
) -> Result<(), SinkFault>
    requires { length bytes.now ≤ 16 }
    ensures { Puts result (spec.more_line at bytes.now) (S.output out.old) (S.faults out.old) (S.output out.new) (S.faults out.new) }
{
    if bytes.is_empty() {
        return put(out, b"");
    }
    line.clear();
    line.prepend(b"\n");
    prepend_columns(line, bytes);
    prepend_blanks(line, 2);
    prepend_offset(line, at);
    put(out, line.as_slice())
}

/// Writes a line of what has neither a place nor bytes.
pub(crate) fn put_bare_line<S: Sink>(
    out: &mut S,
    line: &mut Tail,
    cut: &Cut,
) -> Result<(), SinkFault>
    ensures { (text : List ℕ) → cut.now ≡ begun text
        → Puts result (spec.bare_line text) (S.output out.old) (S.faults out.old) (S.output out.new) (S.faults out.new) }
{
    line.clear();
    line.prepend(b"\n");
    cut.prepend_to(line);
    prepend_blanks(line, 78);
    put(out, line.as_slice())
}
