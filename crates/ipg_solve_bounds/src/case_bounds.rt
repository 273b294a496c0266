use crate::atoms::Atoms;
use crate::trail::BoundTrail;
use ipg_lin::Boxed;
use std::alloc::{AllocError, Global};

/// The atoms of a case, and the bounds that they leave its variables.
#[derive(Drop)]
pub struct CaseBounds<'a> {
    pub alloc: Global,
    pub vars: usize,
    pub atoms: Atoms<'a>,
    pub trail: BoundTrail<'a>,
}

impl<'a> CaseBounds<'a> {
    /// The bounds of a box, whose facts come first, and no atom.
    pub fn new(alloc: Global, b: &Boxed) -> Result<CaseBounds<'a>, AllocError> {
        let vars = b.bounds.len();
        Ok(CaseBounds {
            alloc,
            vars,
            atoms: Atoms::new(alloc, vars)?,
            trail: BoundTrail::new(alloc, b.bounds.as_slice())?,
        })
    }
}
