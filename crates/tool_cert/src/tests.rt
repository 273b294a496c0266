//! Numbers and formulas.

mod lin;
mod num;
