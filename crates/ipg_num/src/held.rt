ghost use Rattle.std.specs.Prelude.{◌≡◌, IfOk};

use std::alloc::{AllocError, Global};
use std::marker::Model;

/// A `Box` that contracts see as the value it holds.
#[derive(Debug, Drop)]
pub struct Held<T> {
    inner: Box<T>,
}

impl<T> Model for Held<T> {
    ghost Value = { T };

    ghost coded = { T.code };

    ghost view = { λ h. h.inner.value };
}

impl<T> Held<T> {
    /// The value.
    pub fn get(&self) -> &T
        ensures { result.now ≡ self.now }
    {
        &self.inner
    }

    /// The value, out of its memory.
    pub fn into_inner(self) -> T
        ensures { result ≡ self }
    {
        let Held { inner } = self;
        Box::into_inner(inner)
    }
}

impl<T: Drop> Held<T> {
    /// Holds a value in memory of its own, where there is some.
    pub fn new(alloc: Global, value: T) -> Result<Held<T>, AllocError>
        ensures { IfOk result (λ held. held ≡ value) }
    {
        Ok(Held {
            inner: Box::new(alloc, value)?,
        })
    }
}
