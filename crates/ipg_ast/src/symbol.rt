ghost use Rattle.std.specs.Prelude.{◌≡◌, [], ◌∷◌};

use std::marker::Model;

/// A symbol of one byte or two, which lie in the value itself. Contracts see the list of its bytes.
#[derive(Debug, Drop)]
pub struct Symbol {
    bytes: [u8; 2],
    count: usize,
}

impl Model for Symbol {
    ghost use Rattle.std.specs.Prelude.{◌≡◌, ◌≤◌, ℕ, List, length, take};
    ghost use Rattle.std.specs.Coded.{coded_list, coded_ℕ};

    ghost Value = { List ℕ };

    ghost coded = { coded_list coded_ℕ };

    ghost view = { λ it. take it.count it.bytes };

    ghost invariant = { λ it. (it.count ≤ 2) × (length it.bytes ≡ 2) };
}

impl Symbol {
    /// The symbol of one byte.
    pub fn one(a: u8) -> Symbol
        ensures { result ≡ a ∷ [] }
    {
        Symbol {
            bytes: [a, 0],
            count: 1,
        }
    }

    /// The symbol of two bytes.
    pub fn two(a: u8, b: u8) -> Symbol
        ensures { result ≡ a ∷ b ∷ [] }
    {
        Symbol {
            bytes: [a, b],
            count: 2,
        }
    }

    /// The bytes.
    pub fn as_slice(&self) -> &[u8]
        ensures { result.now ≡ self.now }
    {
        &self.bytes[..self.count]
    }
}
