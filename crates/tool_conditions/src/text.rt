//! Formulas and their bounds as text.

use anyhow::Result;
use ipg_lin::{Boxed, Formula, Linear};
use std::alloc::Global;

fn put_atom(alloc: Global, out: &mut String, form: &Linear) -> Result<()> {
    for term in form.terms() {
        let part = format!(in alloc; "{}*v{} + ", term.1, term.0)?;
        out.push_str(part.as_str())?;
    }
    let constant = format!(in alloc; "{} <= 0\n", form.constant())?;
    out.push_str(constant.as_str())?;
    Ok(())
}

/// A formula, member by member; an `all` of one member is that member.
#[cycle(text)]
fn put(alloc: Global, out: &mut String, f: &Formula, indent: &str) -> Result<()> {
    match f {
        Formula::Atom(form) => {
            out.push_str(indent)?;
            put_atom(alloc, out, form)
        }
        Formula::All(members) => match members.as_slice() {
            [one] => put(alloc, out, one, indent),
            members => put_members(alloc, out, "all\n", members, indent),
        },
        Formula::Any(members) => put_members(alloc, out, "any\n", members.as_slice(), indent),
    }
}

#[cycle(text)]
fn put_members(
    alloc: Global,
    out: &mut String,
    word: &str,
    members: &[Formula],
    indent: &str,
) -> Result<()> {
    out.push_str(indent)?;
    out.push_str(word)?;
    let deeper = format!(in alloc; "{indent}  ")?;
    for member in members {
        put(alloc, out, member, deeper.as_str())?;
    }
    Ok(())
}

/// The formula, and the bounds of each of its variables.
pub fn put_conditions(alloc: Global, out: &mut String, f: &Formula, b: &Boxed) -> Result<()> {
    put(alloc, out, f, "")?;
    for (x, bound) in b.bounds.as_slice().iter().enumerate() {
        let line = format!(in alloc; "v{x} from {} to {}\n", bound.0, bound.1)?;
        out.push_str(line.as_str())?;
    }
    Ok(())
}
