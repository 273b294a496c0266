//! The rows of a text's tokens.

ghost use Rattle.std.specs.Prelude.{◌≡◌, ◌+◌, ◌<◌, ◌^◌, [], IfOk};
ghost use Rattle.ipg_read_syntax.specs.Classes.{classes};
ghost use Rattle.ipg_read_scan.specs.Lexemes.{tok_of};
ghost use Rattle.ipg_read_scan.specs.Rowed.{rows_of};
ghost use Rattle.ipg_read_scan.specs.Asked as A;
ghost use Rattle.ipg_read_scan.specs.Scanned.{step_of, rows_found};

use crate::due::{Due, ask};
use crate::lexeme::{Lexeme, lexeme_of};
use crate::progress::{Answer, Progress};
use crate::row::{Row, Site};
use crate::stack::ParseStack;
use ipg_read_tokens::Token;
use std::alloc::{AllocError, Global};

/// A grammar goes on with the token, or none does.
#[derive(Clone, Copy)]
pub enum Step {
    Moved,
    Lost,
}

/// The rows of a grammar, or the number of the first token that no grammar goes on with.
#[derive(Drop)]
pub enum ScanEnd<'a> {
    Rows(Vec<Row<'a>>),
    Stuck(usize),
}

/// The rows of the grammar whose text has these tokens; where none has, the number of the first token that no grammar goes
/// on with, which is how many tokens there are where the text ends too early. The only other answer is want of memory.
pub fn scan<'a>(alloc: Global, tokens: &'a [Token]) -> Result<ScanEnd<'a>, AllocError>
    ensures { IfOk result (λ found. rows_found found ≡ A.run 0 A.start (classes tokens.now)) }
{
    let mut to = begin(alloc)?;
    for (at, token) in tokens.iter().enumerate() {
        match advance(&mut to, at, lexeme_of(token))? {
            Step::Moved => {}
            Step::Lost => return Ok(ScanEnd::Stuck(at)),
        }
    }
    Ok(ended(tokens.len(), to))
}

/// A rule is due, and then what rules there are.
fn begin<'a>(alloc: Global) -> Result<Progress<'a>, AllocError>
    ensures { IfOk result (λ to. (to.rows.items ≡ []) × (to.due ≡ A.start)) }
{
    let mut due = ParseStack::new(alloc);
    due.push(Due::Rules)?;
    due.push(Due::Rule(Site::Global))?;
    let rows = Vec::new(alloc);
    Ok(Progress { rows, due })
}

/// A grammar ends where nothing but further rules is due.
fn ended<'a>(at: usize, to: Progress<'a>) -> ScanEnd<'a>
    ensures { rows_found result ≡ A.rows_then (rows_of to.entry.rows.items) (A.ended at to.entry.due) }
{
    let Progress { rows, mut due } = to;
    match due.pop() {
        Some(Due::Rules) => match due.pop() {
            None => ScanEnd::Rows(rows),
            Some(_) => ScanEnd::Stuck(at),
        },
        _ => ScanEnd::Stuck(at),
    }
}

/// Entries that have ended are dropped, up to the one that takes the token.
fn advance<'a>(to: &mut Progress<'a>, at: usize, token: Lexeme<'a>) -> Result<Step, AllocError>
    requires { at + 1 < 2 ^ 64 }
    ensures { IfOk result
        (λ step. step_of step (rows_of to.new.rows.items) to.new.due
        ≡ A.after_rows (rows_of to.old.rows.items) (A.advance at (tok_of token.entry) to.old.due)) }
{
    while let Some(entry) = to.due.pop() {
        match ask(to, at, entry, token)? {
            Answer::Stuck => return Ok(Step::Lost),
            Answer::Passed => {}
            Answer::Taken => return Ok(Step::Moved),
        }
    }
    Ok(Step::Lost)
}
