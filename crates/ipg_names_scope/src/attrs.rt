//! The numbers of attributes.
ghost use Rattle.std.specs.Prelude.{◌≡◌, ◌<◌, ◌^◌, Some, IfOk, length, slice_get, bytes_eq};
ghost use Rattle.std.specs.List.{position_or_len};
ghost use Rattle.ipg_names_scope.specs.Lookup.{shown};
ghost use Rattle.ipg_names_scope.specs.Names as spec;

use crate::names::{Names, attr_names};
use ipg_ast::Grammar;
use ipg_core::grammar::Name;
use ipg_num::List;
use std::alloc::{AllocError, Global};

/// The names of attributes, of which there are few enough to number them.
#[derive(Drop)]
pub struct Attrs<'a> {
    pub names: Names<'a>,
    ghost few: { length names.keys < 2 ^ 32 },
}

impl<'a> Attrs<'a> {
    /// The number of the attribute of that name, or how many there are.
    pub fn number(&self, name: &[u8]) -> u32
        ensures { result ≡ position_or_len (bytes_eq name.now) (shown self.now.names) }
    {
        match self.names.get_index_of(name) {
            Some(number) => number as u32,
            None => self.names.len() as u32,
        }
    }
}

/// The attributes of a grammar.
pub fn attrs_of<'a>(alloc: Global, g: &'a Grammar) -> Result<Attrs<'a>, AllocError>
    requires { length (spec.attr_names g.now) < 2 ^ 32 }
    ensures { IfOk result (λ attrs. shown attrs.names ≡ spec.attr_names g.now) }
{
    Ok(Attrs {
        names: attr_names(alloc, g.rules.as_slice())?,
    })
}

fn name_at(alloc: Global, attrs: &Attrs<'_>, at: usize) -> Result<Name, AllocError>
    requires { at < length (shown attrs.now.names) }
    ensures { IfOk result (λ name. slice_get (shown attrs.now.names) at ≡ Some name) }
{
    match attrs.names.get_index(at) {
        Some(name) => Ok(List::from_vec(Vec::from_slice(alloc, name)?)),
        None => unreachable!(),
    }
}

/// The names of attributes by their numbers.
pub fn listed(alloc: Global, attrs: &Attrs<'_>) -> Result<List<Name>, AllocError>
    ensures { IfOk result (λ names. names ≡ shown attrs.now.names) }
{
    let count = attrs.names.len();
    let mut names = Vec::with_capacity(alloc, count)?;
    for at in 0..count {
        names.push(name_at(alloc, attrs, at)?)?;
    }
    Ok(List::from_vec(names))
}
