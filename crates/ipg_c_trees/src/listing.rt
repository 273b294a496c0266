//! The names of a grammar.
ghost use Rattle.std.specs.Prelude.{◌≡◌, ◌++◌, IfOk, OnOk};
ghost use Rattle.ipg_c_trees.specs.Names as spec;

use crate::format::Format;
use ipg_core::grammar::{CoreRule, Name};
use std::alloc::{AllocError, Global};

fn add_line(text: &mut Vec<u8>, name: &[u8]) -> Result<(), AllocError>
    ensures { OnOk result (text.new.items ≡ text.old.items ++ spec.line name.now) }
{
    text.extend_from_slice(name)?;
    text.push(b'\n')?;
    Ok(())
}

fn add_rules(text: &mut Vec<u8>, rules: &[CoreRule]) -> Result<(), AllocError>
    ensures { OnOk result (text.new.items ≡ text.old.items ++ spec.rule_lines rules.now) }
{
    for rule in rules {
        add_line(text, rule.name.as_slice())?;
    }
    Ok(())
}

fn add_attrs(text: &mut Vec<u8>, names: &[Name]) -> Result<(), AllocError>
    ensures { OnOk result (text.new.items ≡ text.old.items ++ spec.attr_lines names.now) }
{
    for name in names {
        add_line(text, name.as_slice())?;
    }
    Ok(())
}

/// The names of a grammar as a text: a line for each rule, an empty line, and a line for each attribute; each by its number.
pub fn names(alloc: Global, format: &Format) -> Result<Vec<u8>, AllocError>
    ensures { IfOk result (λ text. text.items ≡ spec.names_of format.now) }
{
    let core = format.grammar().core();
    let mut text = Vec::new(alloc);
    add_rules(&mut text, core.rules())?;
    text.push(b'\n')?;
    add_attrs(&mut text, core.names())?;
    Ok(text)
}
