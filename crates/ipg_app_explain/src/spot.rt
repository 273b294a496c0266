//! A place in a text, and its line with a mark.
ghost use Rattle.std.specs.Prelude.{◌≡◌, ◌++◌, ◌∷◌, ◌+◌, ◌≤◌, ◌^◌, ◌-◌, [], drop, take, length, decimal, replicate, map, OnOk};
ghost use Rattle.ipg_app_explain.specs.Spot as spec;
ghost use Rattle.ipg_app_explain.specs.Spot.{ends_line, first_line, line_of, start_of, seen_byte, marked};

use itoa::Buffer;
use std::alloc::AllocError;

/// Of a line so many bytes are shown at most.
const SHOWN: usize = 100;

/// So many of them at most stand before the place.
const BEFORE: usize = 72;

/// Where a place lies: its line, counted from 1, and where that begins.
#[derive(Clone, Copy)]
struct Spot {
    line: u64,
    start: usize,
}

fn ends_line(text: &[u8], at: usize) -> bool
    ensures { result ≡ ends_line text.now at }
{
    text.get(at) == Some(&b'\n')
}

/// Goes over the text up to the place.
fn spot_of(text: &[u8], at: u32) -> Spot
    ensures line { result.line ≡ line_of text.now at }
    ensures start { result.start ≡ start_of text.now at }
    ensures before { result.start ≤ at }
{
    let mut spot = Spot { line: 1, start: 0 };
    for n in 0..at as usize {
        if ends_line(text, n) {
            spot = Spot {
                line: spot.line + 1,
                start: n + 1,
            };
        }
    }
    spot
}

/// The bytes up to the first line feed.
fn first_line(bytes: &[u8]) -> &[u8]
    ensures { result.now ≡ first_line bytes.now }
{
    for (n, byte) in bytes.iter().enumerate() {
        if *byte == b'\n' {
            return &bytes[..n];
        }
    }
    bytes
}

/// What is behind the first n bytes; nothing where there are fewer.
pub fn behind(bytes: &[u8], n: usize) -> &[u8]
    ensures { result.now ≡ drop n bytes.now }
{
    bytes.get(n..).unwrap_or(&[])
}

/// The first n bytes, or all where there are fewer.
pub fn upto(bytes: &[u8], n: usize) -> &[u8]
    ensures { result.now ≡ take n bytes.now }
{
    bytes.get(..n).unwrap_or(bytes)
}

/// A byte as it is shown: a tab as a blank, what isn't plain as a dot.
pub fn seen_byte(byte: u8) -> u8
    ensures { result ≡ seen_byte byte }
{
    match byte {
        32..=126 => byte,
        b'\t' => b' ',
        _ => b'.',
    }
}

/// Bytes as they are shown.
pub fn add_seen(out: &mut Vec<u8>, bytes: &[u8]) -> Result<(), AllocError>
    ensures { OnOk result (out.new.items ≡ out.old.items ++ map spec.seen_byte bytes.now) }
{
    for byte in bytes {
        out.push(seen_byte(*byte))?;
    }
    Ok(())
}

fn add_blanks(out: &mut Vec<u8>, count: usize) -> Result<(), AllocError>
    ensures { OnOk result (out.new.items ≡ out.old.items ++ replicate count 32) }
{
    for _ in 0..count {
        out.push(b' ')?;
    }
    Ok(())
}

/// A colon and a number.
fn add_number(out: &mut Vec<u8>, number: u64) -> Result<(), AllocError>
    ensures { OnOk result (out.new.items ≡ out.old.items ++ 58 ∷ decimal number) }
{
    let mut buffer = Buffer::new();
    out.push(b':')?;
    out.extend_from_slice(buffer.format(number).as_bytes())
}

/// NAME:LINE:COLUMN.
fn add_place(out: &mut Vec<u8>, name: &[u8], spot: Spot, at: u32) -> Result<(), AllocError>
    requires { spot.start ≤ at }
    ensures { OnOk result (out.new.items ≡ out.old.items ++ (name.now ++ 58 ∷ (decimal spot.line ++ 58 ∷ (decimal (at - spot.start + 1) ++ 10 ∷ [])))) }
{
    out.extend_from_slice(name)?;
    add_number(out, spot.line)?;
    add_number(out, u64::from(at) - spot.start as u64 + 1)?;
    out.push(b'\n')?;
    Ok(())
}

/// The part of the line that is shown, and a mark behind so many of its bytes.
fn add_marked(out: &mut Vec<u8>, window: &[u8], before: usize) -> Result<(), AllocError>
    ensures { OnOk result (out.new.items ≡ out.old.items ++ (marked window.now before)) }
{
    out.extend_from_slice(b"  ")?;
    add_seen(out, window)?;
    out.extend_from_slice(b"\n  ")?;
    add_blanks(out, before)?;
    out.extend_from_slice(b"^\n")
}

/// The place alone.
pub fn add_place_line(
    out: &mut Vec<u8>,
    name: &[u8],
    text: &[u8],
    at: u32,
) -> Result<(), AllocError>
    ensures { OnOk result (out.new.items ≡ out.old.items ++ spec.place_line name.now text.now at) }
{
    let spot = spot_of(text, at);
    add_place(out, name, spot, at)
}

/// The place, its line, and a mark under it.
pub fn add_spot(out: &mut Vec<u8>, name: &[u8], text: &[u8], at: u32) -> Result<(), AllocError>
    ensures { OnOk result (out.new.items ≡ out.old.items ++ spec.spot_lines name.now text.now at) }
{
    let spot = spot_of(text, at);
    let before = at as usize - spot.start;
    let left = before.saturating_sub(BEFORE);
    let line = first_line(behind(text, spot.start));
    add_place(out, name, spot, at)?;
    add_marked(out, upto(behind(line, left), SHOWN), before - left)
}
