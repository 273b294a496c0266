ghost use Rattle.std.specs.Prelude.{◌≡◌, ◌++◌, [], ◌∷◌, decimal, IfOk, OnOk};
ghost use Rattle.std.specs.Fmt.{signed_decimal};
ghost use Rattle.std.specs.List.{flat_map};
ghost use Rattle.ipg_cert.specs.Words.{number_word, entry_words, step_words, spaced, words_of};

use crate::refutation::{Refutation, Step};
use itoa::Buffer;
use std::alloc::{AllocError, Global};

/// Writes a space and a number.
fn put_number(out: &mut Vec<u8>, n: u64) -> Result<(), AllocError>
    ensures { OnOk result (out.new.items ≡ out.old.items ++ number_word n) }
{
    let mut buffer = Buffer::new();
    out.push(b' ')?;
    out.extend_from_slice(buffer.format(n).as_bytes())
}

/// Writes a space and a signed number.
fn put_signed(out: &mut Vec<u8>, n: i64) -> Result<(), AllocError>
    ensures { OnOk result (out.new.items ≡ out.old.items ++ 32 ∷ signed_decimal n) }
{
    let mut buffer = Buffer::new();
    out.push(b' ')?;
    out.extend_from_slice(buffer.format(n).as_bytes())
}

fn put_letter(out: &mut Vec<u8>, letter: u8) -> Result<(), AllocError>
    ensures { OnOk result (out.new.items ≡ out.old.items ++ letter ∷ []) }
{
    out.push(letter)?;
    Ok(())
}

fn put_entries(out: &mut Vec<u8>, entries: &[(u64, u64)]) -> Result<(), AllocError>
    ensures { OnOk result (out.new.items ≡ out.old.items ++ flat_map entry_words entries.now) }
{
    for entry in entries {
        put_number(out, entry.0)?;
        put_number(out, entry.1)?;
    }
    Ok(())
}

fn put_step(out: &mut Vec<u8>, step: &Step) -> Result<(), AllocError>
    ensures { OnOk result (out.new.items ≡ out.old.items ++ step_words step.now) }
{
    match step {
        Step::Combine(entries) => {
            put_letter(out, b'c')?;
            put_number(out, entries.len() as u64)?;
            put_entries(out, entries.as_slice())
        }
        Step::Split { var, at } => {
            put_letter(out, b's')?;
            put_number(out, *var)?;
            put_signed(out, *at)
        }
        Step::Either { fact, parts } => {
            put_letter(out, b'e')?;
            put_number(out, *fact)?;
            put_number(out, *parts)
        }
    }
}

fn put_others(out: &mut Vec<u8>, steps: &[Step]) -> Result<(), AllocError>
    ensures { OnOk result (out.new.items ≡ out.old.items ++ flat_map spaced steps.now) }
{
    for step in steps {
        put_letter(out, b' ')?;
        put_step(out, step)?;
    }
    Ok(())
}

/// The words of a refutation, in prefix order.
pub fn refutation_text(alloc: Global, r: &Refutation) -> Result<Vec<u8>, AllocError>
    ensures { IfOk result (λ text. text.items ≡ words_of r.now.steps) }
{
    let mut out = Vec::new(alloc);
    if let [first, others @ ..] = r.steps.as_slice() {
        put_step(&mut out, first)?;
        put_others(&mut out, others)?;
    }
    Ok(out)
}
