ghost use Rattle.std.specs.Prelude.{◌≡◌, ℕ, ◌+◌, ◌<◌, ◌≤◌, ◌^◌, length, vec_len, IfOk, slice_index_or};
ghost use Rattle.ipg_graph.specs.Chain.{Keys, key, IsFirst, IsLinked};

use std::alloc::{AllocError, Global};
use std::marker::Model;

/// A list of keys in which the next place of a key is found by place. A number that is not below the
/// limit is no key.
#[derive(Drop)]
pub struct Chain {
    keys: Vec<u32>,
    limit: u32,
    firsts: Vec<u32>,
    nexts: Vec<u32>,
}

impl Model for Chain {
    ghost Value = { Keys };

    ghost view = { λ c. record { keys = c.keys.items; limit = c.limit } };

    ghost invariant = { λ c. IsLinked (record { keys = c.keys.items; limit = c.limit }) c.firsts.items c.nexts.items 0 };
}

impl Chain {
    pub fn new(alloc: Global, keys: Vec<u32>, limit: u32) -> Result<Self, AllocError>
        requires { vec_len keys < 2 ^ 32 }
        ensures { IfOk result (λ c. c ≡ record { keys = keys.items; limit = limit }) }
    {
        let none = keys.len() as u32;
        let mut firsts = vec![in alloc; none; limit as usize]?;
        let mut nexts = vec![in alloc; none; keys.len()]?;
        let mut at = keys.len();
        while at > 0 {
            at -= 1;
            let key = keys[at];
            if key < limit {
                nexts[at] = firsts[key as usize];
                firsts[key as usize] = at as u32;
            }
        }
        Ok(Chain {
            keys,
            limit,
            firsts,
            nexts,
        })
    }

    pub fn len(&self) -> u32
        ensures { result ≡ length self.now.keys }
    {
        self.keys.len() as u32
    }

    pub fn key(&self, place: u32) -> u32
        requires { place < length self.now.keys }
        ensures { result ≡ key self.now place }
    {
        self.keys[place as usize]
    }

    /// The first place of the key.
    pub fn first(&self, key: u32) -> u32
        requires { key < self.now.limit }
        ensures { IsFirst self.now key 0 result }
    {
        self.firsts[key as usize]
    }

    /// The next place of the key that stands at `place`.
    pub fn next(&self, place: u32) -> u32
        requires within { place < length self.now.keys }
        requires is_key { key self.now place < self.now.limit }
        ensures { IsFirst self.now (key self.now place) (place + 1) result }
    {
        self.nexts[place as usize]
    }
}
