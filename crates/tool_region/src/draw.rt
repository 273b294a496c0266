use ipg_memo::Key;

/// The factors by which the memo mixes keys.
const OF_FROM: u64 = 11400714819323198485;

const OF_TO: u64 = 14686920831342365939;

const OF_RULE: u64 = 14029467366897019727;

/// Numbers that look random.
#[derive(Drop)]
pub struct Draw {
    state: u64,
}

/// How far among all heads a key begins, of 2^32.
fn high(key: &Key) -> u64 {
    u64::from(key.from / 8)
        .wrapping_mul(OF_FROM)
        .wrapping_add(u64::from(key.to / 8).wrapping_mul(OF_TO))
        .wrapping_add(u64::from(key.rule).wrapping_mul(OF_RULE))
        >> 32
}

/// The next key that begins in the first 64th of the heads.
fn collided(first: Key) -> Key {
    let mut key = first;
    for _ in 0..4096 {
        if high(&key) < 1 << 26 {
            return key;
        }
        key.from = key.from.wrapping_add(8);
    }
    key
}

impl Draw {
    pub fn new(seed: u64) -> Draw {
        Draw { state: seed }
    }

    /// A number below 2^31.
    pub fn next(&mut self) -> u32 {
        self.state = self
            .state
            .wrapping_mul(6364136223846793005)
            .wrapping_add(1442695040888963407);
        (self.state >> 33) as u32
    }

    /// A key: many have their low bits in common, and all their heads.
    pub fn key(&mut self) -> Key {
        let rule = self.next() % 3;
        let from = self.next() % 4096 * 65536;
        let to = from + self.next() % 64 * 65536;
        collided(Key { rule, from, to })
    }
}
