ghost use Rattle.std.specs.Prelude.{◌≡◌, [], ◌∷◌, OnOk};
ghost use Rattle.ipg_read_scan.specs.Popped.{Pops};

use std::alloc::{AllocError, Global};
use std::marker::Model;

/// A stack, which contracts see with its top first.
#[derive(Drop)]
pub struct ParseStack<T> {
    items: Vec<T>,
}

impl<T> Model for ParseStack<T> {
    ghost use Rattle.std.specs.Prelude.{List};
    ghost use Rattle.std.specs.Coded.{coded_list};
    ghost use Rattle.ipg_read_scan.specs.Popped.{top_first};

    ghost Value = { List T };

    ghost coded = { coded_list T.code };

    ghost view = { λ s. top_first s.items.items };
}

impl<T> ParseStack<T> {
    /// No items, and no memory yet.
    pub fn new(alloc: Global) -> ParseStack<T>
        ensures { result ≡ [] }
    {
        ParseStack {
            items: Vec::new(alloc),
        }
    }
}

impl<T: Drop> ParseStack<T> {
    /// Puts an item on top. The only other answer is want of memory.
    pub fn push(&mut self, item: T) -> Result<(), AllocError>
        ensures { OnOk result (self.new ≡ item ∷ self.old) }
    {
        self.items.push(item)?;
        Ok(())
    }

    /// Takes the item on top away; None where there is none.
    pub fn pop(&mut self) -> Option<T>
        ensures { Pops self.old self.new result }
    {
        self.items.pop()
    }
}
