//! Texts with many names.

ghost use Rattle.std.specs.Prelude.{◌<◌};

use anyhow::Result;
use std::alloc::Global;

/// How many numbers below the size a number is moved by, around the end.
fn moved(k: u32, by: u32, size: u32) -> u32
    requires { k < size }
{
    if by < size - k { k + by } else { k }
}

/// A rule that calls ten rules after it, and reads an attribute of each four times.
fn put_rule(alloc: Global, text: &mut String, k: u32, size: u32) -> Result<()>
    requires { k < size }
{
    text.push_str(format!(in alloc; "Rule{k} ->")?.as_str())?;
    for by in 0..10 {
        let callee = moved(k, by, size);
        text.push_str(format!(in alloc; " Rule{callee}[0, 1]")?.as_str())?;
    }
    for turn in 0..4 {
        text.push_str(format!(in alloc; " {{number{turn} = 0")?.as_str())?;
        for by in 0..10 {
            let callee = moved(k, by, size);
            text.push_str(format!(in alloc; " + Rule{callee}.number0")?.as_str())?;
        }
        text.push_str("}")?;
    }
    text.push_str(" ;\n")?;
    Ok(())
}

/// So many rules of 40 references each.
pub fn rules(alloc: Global, size: u32) -> Result<String> {
    let mut text = String::new(alloc);
    for k in 0..size {
        put_rule(alloc, &mut text, k, size)?;
    }
    Ok(text)
}

/// Eight sums of eight references to attributes of one alternative, six times.
fn put_sums(alloc: Global, text: &mut String, k: u32, size: u32) -> Result<()>
    requires { k < size }
{
    for _ in 0..6 {
        text.push_str(" + (0")?;
        for group in 0..8 {
            text.push_str(" + (0")?;
            for by in 0..8 {
                let other = moved(k, 8 * group + by + 1, size);
                text.push_str(format!(in alloc; " + a{other}")?.as_str())?;
            }
            text.push_str(")")?;
        }
        text.push_str(")")?;
    }
    Ok(())
}

/// One alternative of so many terms, each an attribute with 384 references to others.
pub fn terms(alloc: Global, size: u32) -> Result<String> {
    let mut text = String::new(alloc);
    text.push_str("S ->")?;
    for k in 0..size {
        text.push_str(format!(in alloc; "\n{{a{k} = 0")?.as_str())?;
        put_sums(alloc, &mut text, k, size)?;
        text.push_str("}")?;
    }
    text.push_str(" ;\n")?;
    Ok(text)
}
