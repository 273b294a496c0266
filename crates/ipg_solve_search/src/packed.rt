use ipg_num::item_at;
use std::alloc::AllocError;

/// The most bytes that a refutation takes: of a larger one the search says that memory is wanting.
const MOST_BYTES: usize = 1 << 27;

/// More bytes count as want of memory.
const TOO_LONG: AllocError = AllocError;

/// Puts a number behind the others, the lowest seven bits first; all bytes but its last are 128 or more.
pub fn put_number(bytes: &mut Vec<u8>, number: u64) -> Result<(), AllocError> {
    if MOST_BYTES <= bytes.len() {
        return Err(TOO_LONG);
    }
    let mut left = number;
    for _ in 0..10 {
        let low = (left % 128) as u8;
        left /= 128;
        if left == 0 {
            bytes.push(low)?;
            return Ok(());
        }
        bytes.push(low | 128)?;
    }
    Ok(())
}

/// Puts a number with its sign.
pub fn put_signed(bytes: &mut Vec<u8>, number: i64) -> Result<(), AllocError> {
    let size = number.unsigned_abs();
    put_number(bytes, if number < 0 { 1 } else { 0 })?;
    put_number(bytes, size)
}

/// Reads packed steps, number by number.
#[derive(Clone, Copy)]
pub struct StepReader<'b> {
    pub bytes: &'b [u8],
    pub at: usize,
}

impl<'b> StepReader<'b> {
    pub fn number(&mut self) -> Option<u64> {
        let mut number = 0u64;
        for place in 0..10u32 {
            let byte = *item_at(self.bytes, self.at)?;
            self.at = self.at.saturating_add(1);
            number |= u64::from(byte % 128) << (7 * place);
            if byte < 128 {
                return Some(number);
            }
        }
        None
    }

    pub fn signed(&mut self) -> Option<i64> {
        let sign = self.number()?;
        let size = self.number()?;
        if sign == 0 {
            i64::try_from(size).ok()
        } else {
            i64::try_from(-i128::from(size)).ok()
        }
    }
}
