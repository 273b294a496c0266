ghost use Rattle.std.specs.Prelude.{◌≡◌, IfOk};

use std::alloc::{AllocError, Global};
use std::marker::Model;
use std::rc::Rc;

/// A list that stands once for all of its copies.
#[derive(Drop)]
pub struct Shared<T> {
    items: Rc<Vec<T>>,
}

impl<T> Model for Shared<T> {
    ghost use Rattle.std.specs.Prelude.{List as Listed};
    ghost use Rattle.std.specs.Coded.{coded_list};

    ghost Value = { Listed T };

    ghost coded = { coded_list T.code };

    ghost view = { λ it. it.items.value.items };
}

impl<T> Shared<T> {
    pub fn as_slice(&self) -> &[T]
        ensures { result.now ≡ self.now }
    {
        self.items.as_slice()
    }
}

impl<T: Drop> Shared<T> {
    pub fn from_vec(alloc: Global, items: Vec<T>) -> Result<Shared<T>, AllocError>
        ensures { IfOk result (λ shared. shared ≡ items.items) }
    {
        Ok(Shared {
            items: Rc::new(alloc, items)?,
        })
    }

    /// A copy, which takes no memory.
    pub fn copy(&self) -> Result<Shared<T>, AllocError>
        ensures { IfOk result (λ copy. copy ≡ self.now) }
    {
        Ok(Shared {
            items: self.items.clone()?,
        })
    }
}

/// A value that stands once for all of its copies.
#[derive(Drop)]
pub struct Sole<T> {
    inner: Rc<T>,
}

impl<T> Model for Sole<T> {
    ghost Value = { T };

    ghost coded = { T.code };

    ghost view = { λ it. it.inner.value };
}

impl<T> Sole<T> {
    /// The value.
    pub fn get(&self) -> &T
        ensures { result.now ≡ self.now }
    {
        &self.inner
    }
}

impl<T: Drop> Sole<T> {
    pub fn new(alloc: Global, value: T) -> Result<Sole<T>, AllocError>
        ensures { IfOk result (λ sole. sole ≡ value) }
    {
        Ok(Sole {
            inner: Rc::new(alloc, value)?,
        })
    }

    /// A copy, which takes no memory.
    pub fn copy(&self) -> Result<Sole<T>, AllocError>
        ensures { IfOk result (λ copy. copy ≡ self.now) }
    {
        Ok(Sole {
            inner: self.inner.clone()?,
        })
    }
}
