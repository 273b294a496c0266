use ipg_num::item_at;
use std::alloc::{AllocError, Global};

const BITS: usize = 64;

/// Which way the next place is looked for.
#[derive(Clone, Copy)]
enum Way {
    Up,
    Down,
}

/// Places that wait. They are taken upwards and then downwards in turns, so that a walk along the places is
/// followed either way in one go.
#[derive(Drop)]
pub struct WaitingAtoms {
    /// A bit for each place.
    words: Vec<u64>,
    /// The place that was taken last.
    at: usize,
    way: Way,
}

/// The place of a word's bit.
fn place_of(word: usize, bit: u32) -> usize {
    word.saturating_mul(BITS).saturating_add(bit as usize)
}

impl WaitingAtoms {
    pub fn new(alloc: Global) -> WaitingAtoms {
        WaitingAtoms {
            words: Vec::new(alloc),
            at: 0,
            way: Way::Up,
        }
    }

    pub fn put(&mut self, place: usize) -> Result<(), AllocError> {
        let word = place / BITS;
        if self.words.len() <= word {
            self.words.resize(word.saturating_add(1), 0)?;
        }
        if let Some(bits) = self.words.get_mut(word) {
            *bits |= 1u64 << (place % BITS);
        }
        Ok(())
    }

    pub fn is_empty(&self) -> bool {
        self.words.iter().all(|bits| *bits == 0)
    }

    pub fn clear(&mut self) {
        for bits in self.words.iter_mut() {
            *bits = 0;
        }
        self.at = 0;
        self.way = Way::Up;
    }

    /// Takes the next place, and turns round where none is left on the way.
    pub fn take(&mut self) -> Option<usize> {
        let place = match self.way {
            Way::Up => match self.next_up() {
                Some(place) => place,
                None => {
                    self.way = Way::Down;
                    self.next_down()?
                }
            },
            Way::Down => match self.next_down() {
                Some(place) => place,
                None => {
                    self.way = Way::Up;
                    self.next_up()?
                }
            },
        };
        if let Some(bits) = self.words.get_mut(place / BITS) {
            *bits &= !(1u64 << (place % BITS));
        }
        self.at = place;
        Some(place)
    }

    /// The least place from the last one on.
    fn next_up(&self) -> Option<usize> {
        let here = self.at / BITS;
        let above = !0u64 << (self.at % BITS);
        for word in here..self.words.len() {
            let bits = *item_at(&self.words, word)?;
            let bits = if word == here { bits & above } else { bits };
            if bits != 0 {
                return Some(place_of(word, bits.trailing_zeros()));
            }
        }
        None
    }

    /// The greatest place up to the last one.
    fn next_down(&self) -> Option<usize> {
        let here = self.at / BITS;
        let below = !0u64 >> (BITS - 1 - self.at % BITS);
        for word in (0..self.words.len().min(here.saturating_add(1))).rev() {
            let bits = *item_at(&self.words, word)?;
            let bits = if word == here { bits & below } else { bits };
            if bits != 0 {
                return Some(place_of(word, bits.ilog2()));
            }
        }
        None
    }
}
