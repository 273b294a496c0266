ghost use Rattle.std.specs.Prelude.{◌≡◌, ℕ, ◌+◌, ◌<◌, ◌^◌, Some, All, length, IfOk, vec_len};
ghost use Rattle.ipg_graph_parts.specs.Chain.{Keys, key, IsFirst, IsLinked};

use std::alloc::{AllocError, Global};
use std::marker::Model;

/// A list of keys, in which the places of a key are found one after another.
#[derive(Drop)]
pub struct Chain {
    keys: Vec<u32>,
    limit: u32,
    firsts: Vec<Option<u32>>,
    nexts: Vec<Option<u32>>,
}

impl Model for Chain {
    ghost Value = { Keys };

    ghost view = { λ c. record { keys = c.keys.items; limit = c.limit } };

    ghost invariant = { λ c. IsLinked (record { keys = c.keys.items; limit = c.limit }) c.firsts.items c.nexts.items 0 };
}

impl Chain {
    pub fn new(alloc: Global, keys: Vec<u32>, limit: u32) -> Result<Self, AllocError>
        requires few { vec_len keys < 2 ^ 32 }
        requires inside { All (λ key. key < limit) keys.items }
        ensures { IfOk result (λ c. c ≡ record { keys = keys.items; limit = limit }) }
    {
        let mut firsts = vec![in alloc; None; limit as usize]?;
        let mut nexts = vec![in alloc; None; keys.len()]?;
        let mut at = keys.len();
        while at > 0 {
            at -= 1;
            let key = keys[at] as usize;
            nexts[at] = firsts[key];
            firsts[key] = Some(at as u32);
        }
        Ok(Chain {
            keys,
            limit,
            firsts,
            nexts,
        })
    }

    pub fn limit(&self) -> u32
        ensures { result ≡ self.now.limit }
    {
        self.limit
    }

    pub fn key(&self, place: u32) -> u32
        requires { place < length self.now.keys }
        ensures value { result ≡ key self.now place }
        ensures inside { result < self.now.limit }
    {
        self.keys[place as usize]
    }

    /// The first place of the key.
    pub fn first(&self, key: u32) -> Option<u32>
        requires { key < self.now.limit }
        ensures { IsFirst self.now key 0 result }
    {
        self.firsts[key as usize]
    }

    /// The next place of the key that stands at `place`.
    pub fn next(&self, place: u32) -> Option<u32>
        requires { place < length self.now.keys }
        ensures { IsFirst self.now (key self.now place) (place + 1) result }
    {
        self.nexts[place as usize]
    }
}
