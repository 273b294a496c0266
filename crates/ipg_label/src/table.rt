//! The names of the children of nodes, by rules and by what nodes look like.

ghost use Rattle.std.specs.Prelude.{◌≡◌, ℕ, ℤ, length, map, if◌then◌else◌, IfOk};
ghost use Rattle.ipg_core.specs.Grammar.{Grammar};
ghost use Rattle.ipg_label.specs.Labels as spec;

use crate::naming::Label;
use crate::shape::{Shape, shape_of};
use ipg_core::accepted::Core;
use ipg_core::grammar::{CoreRule, Name};
use ipg_num::{List, item_at};
use std::alloc::{AllocError, Global};

/// What nodes of each rule look like, with the names of their children.
#[derive(Debug, Drop)]
pub struct Labels {
    pub rules: List<List<Shape>>,
}

fn same_numbers(a: &[u32], b: &[u32]) -> bool
    ensures { result ≡ spec.same_attrs a.now b.now }
{
    let mut left = a;
    let mut others = b;
    while let Some((x, more)) = left.split_first() {
        match others.split_first() {
            Some((y, rest)) => {
                if x != y {
                    return false;
                }
                others = rest;
            }
            None => return false,
        }
        left = more;
    }
    others.is_empty()
}

fn same_attrs(a: &[u32], b: &[(u32, i64)]) -> bool
    ensures { result ≡ spec.same_attrs a.now (map (λ (attr : ℕ × ℤ). attr.0) b.now) }
{
    let mut left = a;
    let mut others = b;
    while let Some((x, more)) = left.split_first() {
        match others.split_first() {
            Some((y, rest)) => {
                if *x != y.0 {
                    return false;
                }
                others = rest;
            }
            None => return false,
        }
        left = more;
    }
    others.is_empty()
}

fn same_label(a: Label, b: Label) -> bool
    ensures { result ≡ spec.same_label a b }
{
    a.attr == b.attr && a.long == b.long
}

fn both_call(a: Option<Label>, b: Option<Label>) -> Option<Label>
    ensures { result ≡ spec.both_call a b }
{
    match (a, b) {
        (Some(a), Some(b)) if same_label(a, b) => Some(a),
        _ => None,
    }
}

/// What both call the children of a node.
fn both(
    alloc: Global,
    a: &[Option<Label>],
    b: &[Option<Label>],
) -> Result<Vec<Option<Label>>, AllocError>
    ensures { IfOk result (λ labels. labels.items ≡ spec.both a.now b.now) }
{
    let mut labels = Vec::new(alloc);
    let mut left = a;
    let mut others = b;
    while let Some((x, more)) = left.split_first() {
        match others.split_first() {
            Some((y, rest)) => {
                labels.push(both_call(*x, *y))?;
                others = rest;
            }
            None => return Ok(labels),
        }
        left = more;
    }
    Ok(labels)
}

/// What they and the other shape call them, where a node looks like both.
fn with_shape(
    alloc: Global,
    labels: Vec<Option<Label>>,
    one: &Shape,
    other: &Shape,
) -> Result<Vec<Option<Label>>, AllocError>
    ensures { IfOk result (λ called. called.items ≡
        (if spec.fits one.now.attrs (length one.now.labels) other.now then spec.both labels.items other.now.labels else labels.items)) }
{
    let is_alike = same_numbers(other.attrs.as_slice(), one.attrs.as_slice());
    if is_alike && other.labels.len() == one.labels.len() {
        both(alloc, labels.as_slice(), other.labels.as_slice())
    } else {
        Ok(labels)
    }
}

/// The shape, its children called what all of these shapes call them that a node of it looks like.
fn agreed_shape(alloc: Global, shapes: &[Shape], one: &Shape) -> Result<Shape, AllocError>
    ensures { IfOk result (λ shape. shape ≡ spec.agreed_shape shapes.now one.now) }
{
    let mut labels = Vec::from_slice(alloc, one.labels.as_slice())?;
    let mut left = shapes;
    while let Some((other, more)) = left.split_first() {
        labels = with_shape(alloc, labels, one, other)?;
        left = more;
    }
    let attrs = List::from_vec(Vec::from_slice(alloc, one.attrs.as_slice())?);
    let labels = List::from_vec(labels);
    Ok(Shape { attrs, labels })
}

/// What nodes of the rule's alternatives look like, each by itself.
fn raw_shapes(alloc: Global, names: &[Name], rule: &CoreRule) -> Result<Vec<Shape>, AllocError>
    ensures { IfOk result (λ shapes. shapes.items ≡ map (spec.shape names.now) rule.now.alts) }
{
    let mut shapes = Vec::new(alloc);
    let mut left = rule.alts.as_slice();
    while let Some((alt, more)) = left.split_first() {
        shapes.push(shape_of(alloc, names, alt)?)?;
        left = more;
    }
    Ok(shapes)
}

fn agreed_shapes(alloc: Global, shapes: &[Shape]) -> Result<Vec<Shape>, AllocError>
    ensures { IfOk result (λ agreed. agreed.items ≡ map (spec.agreed_shape shapes.now) shapes.now) }
{
    let mut agreed = Vec::new(alloc);
    let mut left = shapes;
    while let Some((one, more)) = left.split_first() {
        agreed.push(agreed_shape(alloc, shapes, one)?)?;
        left = more;
    }
    Ok(agreed)
}

fn shapes_of(alloc: Global, names: &[Name], rule: &CoreRule) -> Result<List<Shape>, AllocError>
    ensures { IfOk result (λ shapes. shapes ≡ spec.shapes_of names.now rule.now) }
{
    let shapes = raw_shapes(alloc, names, rule)?;
    Ok(List::from_vec(agreed_shapes(alloc, shapes.as_slice())?))
}

fn all_shapes(
    alloc: Global,
    names: &[Name],
    rules: &[CoreRule],
) -> Result<Vec<List<Shape>>, AllocError>
    ensures { IfOk result (λ shapes. shapes.items ≡ map (spec.shapes_of names.now) rules.now) }
{
    let mut shapes = Vec::new(alloc);
    let mut left = rules;
    while let Some((rule, more)) = left.split_first() {
        shapes.push(shapes_of(alloc, names, rule)?)?;
        left = more;
    }
    Ok(shapes)
}

/// The names of the first shape that a node with these attributes and so many children looks like.
fn first_fit<'a>(attrs: &[(u32, i64)], kids: usize, shapes: &'a [Shape]) -> &'a [Option<Label>]
    ensures { result.now ≡ spec.first_fit (map (λ (attr : ℕ × ℤ). attr.0) attrs.now) kids shapes.now }
{
    let mut left = shapes;
    while let Some((one, more)) = left.split_first() {
        if same_attrs(one.attrs.as_slice(), attrs) && one.labels.len() == kids {
            return one.labels.as_slice();
        }
        left = more;
    }
    &[]
}

impl Labels {
    /// The names of the children of nodes of the grammar.
    pub fn of_grammar(alloc: Global, core: &Core) -> Result<Labels, AllocError>
        ensures { IfOk result (λ labels. labels.rules ≡ spec.table_of core.now) }
    {
        let shapes = all_shapes(alloc, core.names(), core.rules())?;
        Ok(Labels {
            rules: List::from_vec(shapes),
        })
    }

    /// The names of the children of a node of the rule that has these attributes and so many children. Takes no memory.
    pub fn of_node(&self, rule: u32, attrs: &[(u32, i64)], kids: usize) -> &[Option<Label>]
        ensures { (g : Grammar) → self.now.rules ≡ spec.table_of g
            → result.now ≡ spec.labels_of g rule (map (λ (attr : ℕ × ℤ). attr.0) attrs.now) kids }
    {
        match item_at(self.rules.as_slice(), rule as usize) {
            Some(shapes) => first_fit(attrs, kids, shapes.as_slice()),
            None => &[],
        }
    }
}
