//! What a node of an alternative looks like, and the names of its children.

ghost use Rattle.std.specs.Prelude.{◌≡◌, ◌++◌, OnOk, IfOk};
ghost use Rattle.ipg_label.specs.Labels as spec;

use crate::naming::{Label, label_at};
use ipg_core::grammar::{CoreAlt, CoreTerm, Name};
use ipg_num::List;
use std::alloc::{AllocError, Global};

/// The attributes that a node has, by their numbers in text order, and the names of its children.
#[derive(Debug, Drop)]
pub struct Shape {
    pub attrs: List<u32>,
    pub labels: List<Option<Label>>,
}

/// The attributes that terms set, in text order.
fn sets_in(alloc: Global, terms: &[CoreTerm]) -> Result<Vec<u32>, AllocError>
    ensures { IfOk result (λ sets. sets.items ≡ spec.sets_in terms.now) }
{
    let mut sets = Vec::new(alloc);
    let mut left = terms;
    while let Some((term, more)) = left.split_first() {
        add_set(&mut sets, term)?;
        left = more;
    }
    Ok(sets)
}

fn add_set(sets: &mut Vec<u32>, term: &CoreTerm) -> Result<(), AllocError>
    ensures { OnOk result (sets.new.items ≡ sets.old.items ++ spec.set_by term.now) }
{
    match term {
        CoreTerm::Set { attr, .. } => {
            sets.push(*attr)?;
            Ok(())
        }
        _ => Ok(()),
    }
}

/// Puts the name of a term's result behind others, where the term has one.
fn add_label(
    labels: &mut Vec<Option<Label>>,
    names: &[Name],
    terms: &[CoreTerm],
    number: usize,
    term: &CoreTerm,
) -> Result<(), AllocError>
    ensures { OnOk result (labels.new.items ≡ labels.old.items ++ spec.called names.now terms.now number term.now) }
{
    match term {
        CoreTerm::Set { .. } => Ok(()),
        CoreTerm::Test(_) => Ok(()),
        _ => {
            labels.push(label_at(names, terms, number))?;
            Ok(())
        }
    }
}

/// The names of the terms' results.
fn labels_in(
    alloc: Global,
    names: &[Name],
    terms: &[CoreTerm],
) -> Result<Vec<Option<Label>>, AllocError>
    ensures { IfOk result (λ labels. labels.items ≡ spec.labels_in names.now terms.now 0 terms.now) }
{
    let mut labels = Vec::new(alloc);
    let mut number = 0;
    let mut left = terms;
    while let Some((term, more)) = left.split_first() {
        add_label(&mut labels, names, terms, number, term)?;
        left = more;
        number += 1;
    }
    Ok(labels)
}

/// What a node of the alternative looks like.
pub(crate) fn shape_of(alloc: Global, names: &[Name], alt: &CoreAlt) -> Result<Shape, AllocError>
    ensures { IfOk result (λ shape. shape ≡ spec.shape names.now alt.now) }
{
    let terms = alt.terms.as_slice();
    let attrs = List::from_vec(sets_in(alloc, terms)?);
    let labels = List::from_vec(labels_in(alloc, names, terms)?);
    Ok(Shape { attrs, labels })
}
