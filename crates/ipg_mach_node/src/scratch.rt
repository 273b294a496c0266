//! The rows of a node that is being made.

ghost use Rattle.std.specs.Prelude.{◌≡◌, ◌+◌, ◌<◌, ◌≤◌, ◌++◌, OnOk, vec_len, vec_capacity};
ghost use Rattle.ipg_core.specs.Environment as environment;
ghost use Rattle.ipg_core.specs.Meaning.{entry};
ghost use Rattle.ipg_mach_node.specs.Kept.{rows_done, attrs_at};

use ipg_mach_nodes::Kid;
use ipg_mach_results::value_at;
use ipg_mach_slot::Done;
use std::alloc::{AllocError, Allocator};

/// Rows of a node that is being made, kept to be used again.
#[derive(Drop)]
pub struct Scratch<A: Allocator> {
    pub(crate) attrs: Vec<(u32, i64), A>,
    pub(crate) kids: Vec<Kid, A>,
}

impl<A: Allocator + Clone + Drop> Scratch<A> {
    /// No rows.
    pub fn new(alloc: A) -> Result<Scratch<A>, AllocError> {
        let again = alloc.clone()?;
        Ok(Scratch {
            attrs: Vec::new(alloc),
            kids: Vec::new(again),
        })
    }
}

/// One attribute more, where it has a value; there is room for it.
fn put_attr<A: Allocator + Clone + Drop>(
    attrs: &mut Vec<(u32, i64), A>,
    attr: u32,
    own: &[(u32, i64)],
)
    requires { vec_len attrs.old < vec_capacity attrs.old }
    ensures items { attrs.new.items ≡ attrs.old.items ++ entry attr (environment.value_at own.now attr) }
    ensures len { vec_len attrs.new ≤ vec_len attrs.old + 1 }
    ensures capacity { vec_capacity attrs.new ≡ vec_capacity attrs.old }
{
    match value_at(own, attr) {
        Some(value) => attrs.push_reserved((attr, value)),
        None => {}
    }
}

/// The attributes in text order, with their values.
pub(crate) fn put_attrs<A: Allocator + Clone + Drop>(
    attrs: &mut Vec<(u32, i64), A>,
    sets: &[u32],
    own: &[(u32, i64)],
) -> Result<(), AllocError>
    ensures { OnOk result (attrs.new.items ≡ attrs_at own.now sets.now) }
{
    attrs.clear();
    attrs.reserve(sets.len())?;
    for attr in sets {
        put_attr(attrs, *attr, own);
    }
    Ok(())
}

/// The results of terms in text order.
pub(crate) fn put_kids<A: Allocator + Clone + Drop>(
    kids: &mut Vec<Kid, A>,
    done: &[Option<Done>],
) -> Result<(), AllocError>
    ensures { OnOk result (kids.new.items ≡ rows_done done.now) }
{
    kids.clear();
    kids.reserve(done.len())?;
    for result in done {
        if let Some(one) = result {
            kids.push_reserved(one.kid);
        }
    }
    Ok(())
}
