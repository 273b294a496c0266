//! Families of systems, each with members of every size.
use crate::maker::{Maker, System, at_most_zero, both, either, less, zero};
use anyhow::Result;
use ipg_lin::Formula;
use ipg_num::List;
use std::alloc::Global;

/// The greatest length of an input.
const LONGEST: i64 = 1 << 30;

/// Steps of at least 1 and at most 5 from one variable to the next. Closed, the last variable is at most
/// the first, and there is no solution.
pub fn chain(alloc: Global, count: u32, is_closed: bool) -> Result<System> {
    let mut maker = Maker::new(alloc);
    let first = maker.wide()?;
    let mut here = first;
    for _ in 0..count {
        let next = maker.wide()?;
        maker.at_most_zero(&[(here, 1), (next, -1)], 1)?;
        maker.at_most_zero(&[(here, 1), (next, -1)], 0)?;
        maker.at_most_zero(&[(next, 1), (here, -1)], -5)?;
        here = next;
    }
    if is_closed {
        maker.at_most_zero(&[(here, 1), (first, -1)], 0)?;
    }
    Ok(maker.system())
}

/// A slot from `left` on in a part of length `eoi`: it touches, or it starts at the length and its end is
/// its left end. The variables of its start and its end.
fn put_slot(alloc: Global, maker: &mut Maker, left: u64, eoi: u64) -> Result<(u64, u64)> {
    let start = maker.wide()?;
    let end = maker.wide()?;
    let mut touching = List::new(alloc);
    touching.push(at_most_zero(alloc, &[(left, 1), (start, -1)], 0)?)?;
    touching.push(less(alloc, start, end)?)?;
    touching.push(at_most_zero(alloc, &[(end, 1), (eoi, -1)], 0)?)?;
    let passing = both(
        alloc,
        zero(alloc, &[(start, 1), (eoi, -1)], 0)?,
        zero(alloc, &[(end, 1), (left, -1)], 0)?,
    )?;
    maker.put(either(alloc, Formula::All(touching), passing)?)?;
    Ok((start, end))
}

/// A chain of slots that may touch or not. Closed, it ends at 0 and its first slot at 1 or later, and there
/// is no solution.
pub fn slots(alloc: Global, count: u32, is_closed: bool) -> Result<System> {
    let mut maker = Maker::new(alloc);
    let eoi = maker.var(0, LONGEST)?;
    let mut left = maker.wide()?;
    for slot in 0..count {
        maker.at_most_zero(&[(left, -1)], 0)?;
        maker.at_most_zero(&[(left, 1), (eoi, -1)], 0)?;
        let (_start, end) = put_slot(alloc, &mut maker, left, eoi)?;
        left = end;
        if is_closed && slot == 0 {
            maker.at_most_zero(&[(end, -1)], 1)?;
        }
    }
    if is_closed {
        maker.at_most_zero(&[(left, 1)], 0)?;
    }
    Ok(maker.system())
}

/// A header of so many bytes, each with its value, before a call on the whole part whose length is tested
/// to be four times a field, and more.
pub fn header(alloc: Global, count: u32) -> Result<System> {
    let mut maker = Maker::new(alloc);
    let eoi = maker.var(0, LONGEST)?;
    let field = maker.var(0, (1 << 32) - 1)?;
    let mut left = maker.wide()?;
    maker.at_most_zero(&[(left, -1)], 0)?;
    for _ in 0..count {
        let start = maker.wide()?;
        let end = maker.wide()?;
        let _value = maker.var(0, 255)?;
        maker.zero(&[(start, 1), (left, -1)], 0)?;
        maker.zero(&[(end, 1), (start, -1)], -1)?;
        maker.at_most_zero(&[(end, 1), (eoi, -1)], 0)?;
        left = end;
    }
    maker.zero(&[(eoi, -1), (field, 4)], 0)?;
    maker.at_most_zero(&[(eoi, -1), (field, 4)], 1)?;
    Ok(maker.system())
}

/// A total of so many bytes, the last not 0, and a call on the whole part from the total less the others on.
pub fn total(alloc: Global, count: u32) -> Result<System> {
    let mut maker = Maker::new(alloc);
    let total = maker.wide()?;
    let mut sum = maker.var(0, 0)?;
    let mut rest = maker.wide()?;
    maker.zero(&[(rest, 1), (total, -1)], 0)?;
    for place in 0..count {
        let byte = maker.var(0, 255)?;
        let more = maker.wide()?;
        maker.zero(&[(more, 1), (sum, -1), (byte, -1)], 0)?;
        sum = more;
        if place.wrapping_add(1) < count {
            let less = maker.wide()?;
            maker.zero(&[(less, 1), (rest, -1), (byte, 1)], 0)?;
            rest = less;
        } else {
            maker.at_most_zero(&[(byte, -1)], 1)?;
        }
    }
    maker.zero(&[(total, 1), (sum, -1)], 0)?;
    maker.zero(&[(rest, 1)], 0)?;
    Ok(maker.system())
}

/// Slots that may touch nothing, and twice a byte is 7.
pub fn rounded(alloc: Global, count: u32) -> Result<System> {
    let mut maker = Maker::new(alloc);
    let eoi = maker.var(0, LONGEST)?;
    let mut left = maker.var(0, 0)?;
    for _ in 0..count {
        let (_start, end) = put_slot(alloc, &mut maker, left, eoi)?;
        left = end;
    }
    let byte = maker.var(0, 255)?;
    maker.zero(&[(byte, 2)], -7)?;
    Ok(maker.system())
}

/// `x < y`, `x = y` or `x > y`.
fn compared(alloc: Global, x: u64, y: u64) -> Result<Formula> {
    let mut members = List::new(alloc);
    members.push(less(alloc, x, y)?)?;
    members.push(zero(alloc, &[(x, 1), (y, -1)], 0)?)?;
    members.push(less(alloc, y, x)?)?;
    Ok(Formula::Any(members))
}

/// Comparisons that don't matter, beside four pigeons in three holes.
pub fn beside(alloc: Global, count: u32) -> Result<System> {
    let mut maker = Maker::new(alloc);
    let mut pigeons = Vec::new(alloc);
    for _ in 0..4 {
        let pigeon = maker.var(0, 2)?;
        for other in pigeons.iter() {
            maker.put(either(
                alloc,
                less(alloc, *other, pigeon)?,
                less(alloc, pigeon, *other)?,
            )?)?;
        }
        pigeons.push(pigeon)?;
    }
    for _ in 0..count {
        let x = maker.var(0, 255)?;
        let y = maker.var(0, 255)?;
        maker.put(compared(alloc, x, y)?)?;
    }
    Ok(maker.system())
}

/// `12 x + 2 = eoi = 3 y + 1` for a length of at most so much.
pub fn rounds(alloc: Global, count: u32) -> Result<System> {
    let mut maker = Maker::new(alloc);
    let eoi = maker.var(0, i64::from(count))?;
    let x = maker.var(0, (1 << 32) - 1)?;
    let y = maker.var(0, (1 << 32) - 1)?;
    maker.zero(&[(eoi, -1), (x, 12)], 2)?;
    maker.zero(&[(eoi, -1), (y, 3)], 1)?;
    Ok(maker.system())
}

/// So many edges, each with two slots that may touch or not before a call on the whole part.
pub fn joint(alloc: Global, count: u32) -> Result<System> {
    let mut maker = Maker::new(alloc);
    let eoi = maker.var(1, LONGEST)?;
    for _ in 0..count {
        let left = maker.wide()?;
        maker.zero(&[(left, 1)], 0)?;
        let (_start, end) = put_slot(alloc, &mut maker, left, eoi)?;
        let (_start, end) = put_slot(alloc, &mut maker, end, eoi)?;
        maker.zero(&[(end, 1)], 0)?;
    }
    Ok(maker.system())
}

/// Each variable is at least 2^30 times the one before it, and the last is below 2^60: no solution, and the
/// sum that shows it has weights past 2^40.
pub fn heavy(alloc: Global, count: u32) -> Result<System> {
    let mut maker = Maker::new(alloc);
    let mut here = maker.var(1, i64::MAX)?;
    for _ in 0..count {
        let next = maker.var(1, 1 << 59)?;
        maker.at_most_zero(&[(here, 1 << 30), (next, -1)], 0)?;
        here = next;
    }
    Ok(maker.system())
}

/// Twice a number of so many bits is twice another and 1.
pub fn parity(alloc: Global, bits: u32) -> Result<System> {
    let most = 1i64.checked_shl(bits).unwrap_or(i64::MAX);
    let mut maker = Maker::new(alloc);
    let x = maker.var(0, most)?;
    let y = maker.var(0, most)?;
    maker.zero(&[(x, 2), (y, -2)], -1)?;
    Ok(maker.system())
}

/// An atom within so many Alls of one member each.
pub fn deep(alloc: Global, count: u32) -> Result<System> {
    let mut maker = Maker::new(alloc);
    let x = maker.var(0, 1)?;
    let mut formula = at_most_zero(alloc, &[(x, 1)], 0)?;
    for _ in 0..count {
        let mut members = List::new(alloc);
        members.push(formula)?;
        formula = Formula::All(members);
    }
    maker.put(formula)?;
    Ok(maker.system())
}

/// The next number of a generator, from -3 to 3.
fn draw(state: &mut u64) -> i64 {
    *state = state
        .wrapping_mul(6364136223846793005)
        .wrapping_add(1442695040888963407);
    match (*state >> 33) % 7 {
        0 => -3,
        1 => -2,
        2 => -1,
        3 => 0,
        4 => 1,
        5 => 2,
        _ => 3,
    }
}

/// Eight atoms over four variables of 64 bits, with coefficients from -3 to 3.
pub fn dense(alloc: Global, seed: u32) -> Result<System> {
    let mut state = u64::from(seed);
    let mut maker = Maker::new(alloc);
    for _ in 0..4 {
        let _var = maker.wide()?;
    }
    for _ in 0..8 {
        let mut terms = Vec::new(alloc);
        for var in 0..4u64 {
            let coefficient = draw(&mut state);
            if coefficient != 0 {
                terms.push((var, coefficient))?;
            }
        }
        maker.at_most_zero(&terms, draw(&mut state).wrapping_mul(9))?;
    }
    Ok(maker.system())
}
