ghost use Rattle.std.specs.Prelude.{◌≡◌, [], ◌∷◌, ◌++◌, OnOk};
ghost use Rattle.ipg_read_scan.specs.Rowed.{row_of, rows_of};
ghost use Rattle.ipg_read_scan.specs.Asked as A;
ghost use Rattle.ipg_read_scan.specs.Answered.{Does, rows_in, next_of};

use crate::due::{Due, Next, Rows};
use crate::row::Row;
use crate::stack::ParseStack;
use std::alloc::AllocError;

/// The rows so far, and what is due.
#[derive(Drop)]
pub struct Progress<'a> {
    pub rows: Vec<Row<'a>>,
    pub due: ParseStack<Due>,
}

/// What is due has ended before the token, or has taken it; or no grammar goes on so.
#[derive(Clone, Copy)]
pub enum Answer {
    Stuck,
    Passed,
    Taken,
}

/// What was due has ended before the token; its rows are made.
#[inline(always)]
pub fn passed<'a>(to: &mut Progress<'a>, rows: Rows<'a>) -> Result<Answer, AllocError>
    ensures { Does (A.passed (rows_in rows.entry)) to.old to.new result }
{
    put_rows(&mut to.rows, rows)?;
    Ok(Answer::Passed)
}

/// What was due takes the token: its rows are made, and what is due next is put on top.
#[inline(always)]
pub fn taken<'a>(to: &mut Progress<'a>, rows: Rows<'a>, next: Next) -> Result<Answer, AllocError>
    ensures { Does (A.taken (rows_in rows.entry) (next_of next)) to.old to.new result }
{
    put_rows(&mut to.rows, rows)?;
    put_due(&mut to.due, next)?;
    Ok(Answer::Taken)
}

/// What was due takes the token, which makes one row; nothing more is due.
#[inline(always)]
pub fn made<'a>(to: &mut Progress<'a>, row: Row<'a>) -> Result<Answer, AllocError>
    ensures { Does (A.made (row_of row.entry)) to.old to.new result }
{
    taken(to, Rows::One(row), Next::Zero)
}

/// What was due takes the token without a row, and more is due.
#[inline(always)]
pub fn onward<'a>(to: &mut Progress<'a>, next: Next) -> Result<Answer, AllocError>
    ensures { Does (A.onward (next_of next)) to.old to.new result }
{
    taken(to, Rows::Zero, next)
}

#[inline(always)]
fn put_rows<'a>(rows: &mut Vec<Row<'a>>, made: Rows<'a>) -> Result<(), AllocError>
    ensures { OnOk result (rows_of rows.new.items ≡ rows_of rows.old.items ++ rows_in made.entry) }
{
    match made {
        Rows::Zero => Ok(()),
        Rows::One(row) => put_row(rows, row),
        Rows::Two(first, second) => {
            put_row(rows, first)?;
            put_row(rows, second)
        }
    }
}

#[inline(always)]
fn put_row<'a>(rows: &mut Vec<Row<'a>>, row: Row<'a>) -> Result<(), AllocError>
    ensures { OnOk result (rows_of rows.new.items ≡ rows_of rows.old.items ++ (row_of row.entry ∷ [])) }
{
    rows.push(row)?;
    Ok(())
}

/// The first on top.
#[inline(always)]
fn put_due(due: &mut ParseStack<Due>, next: Next) -> Result<(), AllocError>
    ensures { OnOk result (due.new ≡ next_of next ++ due.old) }
{
    match next {
        Next::Zero => Ok(()),
        Next::One(a) => due.push(a),
        Next::Two(a, b) => {
            due.push(b)?;
            due.push(a)
        }
        Next::Three(a, b, c) => {
            due.push(c)?;
            due.push(b)?;
            due.push(a)
        }
        Next::Four(a, b, c, d) => {
            due.push(d)?;
            due.push(c)?;
            due.push(b)?;
            due.push(a)
        }
    }
}
