//! Writes certificates.
ghost use Rattle.std.specs.Prelude.{◌≡◌, ◌++◌, length, IfOk, OnOk};
ghost use Rattle.std.specs.List.{flat_map};
ghost use Rattle.ipg_proof.specs.Texts as spec;
ghost use Rattle.ipg_proof.specs.Texts.{number_text, refutation_line, counted_text, text_of};

use crate::certificate::Certificate;
use ipg_cert::{Refutation, refutation_text};
use ipg_num::List;
use itoa::Buffer;
use std::alloc::{AllocError, Global};

fn put(out: &mut Vec<u8>, bytes: &[u8]) -> Result<(), AllocError>
    ensures { OnOk result (out.new.items ≡ out.old.items ++ bytes.now) }
{
    out.extend_from_slice(bytes)
}

/// Writes a number and the byte behind it.
fn put_number(out: &mut Vec<u8>, n: u64, stop: u8) -> Result<(), AllocError>
    ensures { OnOk result (out.new.items ≡ out.old.items ++ number_text stop n) }
{
    let mut buffer = Buffer::new();
    out.extend_from_slice(buffer.format(n).as_bytes())?;
    out.push(stop)?;
    Ok(())
}

fn put_refutation(alloc: Global, out: &mut Vec<u8>, r: &Refutation) -> Result<(), AllocError>
    ensures { OnOk result (out.new.items ≡ out.old.items ++ refutation_line r.now) }
{
    let words = refutation_text(alloc, r)?;
    out.extend_from_slice(words.as_slice())?;
    out.push(b'\n')?;
    Ok(())
}

fn put_numbers(out: &mut Vec<u8>, numbers: &[u32]) -> Result<(), AllocError>
    ensures { OnOk result (out.new.items ≡ out.old.items ++ flat_map (number_text 32) numbers.now) }
{
    for number in numbers {
        put_number(out, u64::from(*number), b' ')?;
    }
    Ok(())
}

fn put_edge_line(
    alloc: Global,
    out: &mut Vec<u8>,
    entry: &(u32, Refutation),
) -> Result<(), AllocError>
    ensures { OnOk result (out.new.items ≡ out.old.items ++ spec.edge_line entry.now) }
{
    put_number(out, u64::from(entry.0), b' ')?;
    put_refutation(alloc, out, &entry.1)
}

fn put_cycle_line(
    alloc: Global,
    out: &mut Vec<u8>,
    entry: &(List<u32>, Refutation),
) -> Result<(), AllocError>
    ensures { OnOk result (out.new.items ≡ out.old.items ++ spec.cycle_line entry.now) }
{
    let edges = entry.0.as_slice();
    put_number(out, edges.len() as u64, b' ')?;
    put_numbers(out, edges)?;
    put_refutation(alloc, out, &entry.1)
}

fn put_edge_lines(
    alloc: Global,
    out: &mut Vec<u8>,
    dead: &[(u32, Refutation)],
) -> Result<(), AllocError>
    ensures { OnOk result (out.new.items ≡ out.old.items ++ flat_map spec.edge_line dead.now) }
{
    for entry in dead {
        put_edge_line(alloc, out, entry)?;
    }
    Ok(())
}

fn put_cycle_lines(
    alloc: Global,
    out: &mut Vec<u8>,
    cycles: &[(List<u32>, Refutation)],
) -> Result<(), AllocError>
    ensures { OnOk result (out.new.items ≡ out.old.items ++ flat_map spec.cycle_line cycles.now) }
{
    for entry in cycles {
        put_cycle_line(alloc, out, entry)?;
    }
    Ok(())
}

/// The certificate as a text.
pub fn cert_text(alloc: Global, c: &Certificate) -> Result<Vec<u8>, AllocError>
    ensures text { IfOk result (λ text. text.items ≡ text_of c.now) }
{
    let mut out = Vec::new(alloc);
    let dead = c.dead.as_slice();
    put(&mut out, b"ipgcert 2\ndead ")?;
    put_number(&mut out, dead.len() as u64, b'\n')?;
    put_edge_lines(alloc, &mut out, dead)?;
    let cycles = c.cycles.as_slice();
    put(&mut out, b"cycles ")?;
    put_number(&mut out, cycles.len() as u64, b'\n')?;
    put_cycle_lines(alloc, &mut out, cycles)?;
    Ok(out)
}
