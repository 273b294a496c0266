//! Rows lent.

ghost use Rattle.std.specs.Prelude.{◌≡◌, drop, take};
ghost use Rattle.ipg_table.specs.Rows.{rows_at};

use crate::row::RowSpan;

/// The rows behind the first `count`; none where there are fewer.
pub(crate) fn past<T>(rows: &[T], count: usize) -> &[T]
    ensures { result.now ≡ drop count rows.now }
{
    if count < rows.len() {
        &rows[count..]
    } else {
        &[]
    }
}

/// The first `count` rows; all of them where there are fewer.
pub(crate) fn first<T>(rows: &[T], count: usize) -> &[T]
    ensures { result.now ≡ take count rows.now }
{
    if count < rows.len() {
        &rows[..count]
    } else {
        rows
    }
}

/// The rows at a span that reaches past the last one: as far as there are any.
#[cold]
#[inline(never)]
fn rows_left<T>(rows: &[T], at: RowSpan) -> &[T]
    ensures { result.now ≡ rows_at rows.now at }
{
    first(past(rows, at.from as usize), at.count as usize)
}

/// The rows at a span, as far as there are any.
#[inline(always)]
pub(crate) fn rows_in<T>(rows: &[T], at: RowSpan) -> &[T]
    ensures { result.now ≡ rows_at rows.now at }
{
    let from = at.from as usize;
    let to = from + at.count as usize;
    if to <= rows.len() {
        &rows[from..to]
    } else {
        rows_left(rows, at)
    }
}
