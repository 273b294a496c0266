ghost use Rattle.std.specs.Prelude.{◌≡◌, ◌⊎◌, ◌≤◌, ◌^◌, ℕ, List, MatchResult, IfOk, length, Ok, Err};
ghost use Rattle.ipg_read_syntax.specs.Laws.{Refused};
ghost use Rattle.ipg_read_syntax.specs.Reading.{ReadsWithin, read_of, place_of};
ghost use Rattle.ipg_read_scan.specs.Rowed.{rows_of};
ghost use Rattle.ipg_read_tokens.specs.declared.token.Token.{Token as Tokened};
ghost use Rattle.ipg_read.specs.Told.{answer, rows_answer};
ghost use Rattle.ipg_read.specs.Outcomes.{told};

use crate::build::built;
use crate::count::first_over;
use crate::limits::Over;
use crate::{Grammar, ReadFault, Token, tokens};
use ipg_ast::Rule;
use ipg_num::List;
use ipg_read_scan::{Row, ScanEnd, scan};
use ipg_read_syntax::laws::{reads_exactly, refused_exactly};
use std::alloc::{AllocError, Global};

/// The grammar that a text reads as, within the limits.
///
/// # Errors
/// Why the text is refused, G1 to G5, with the place in bytes; `Memory` where memory is wanting.
pub fn read(alloc: Global, text: &[u8]) -> Result<Grammar, ReadFault>
    ensures { MatchResult result (ReadsWithin text.now) (λ fault. (fault ≡ ReadFault.Memory) ⊎ Refused text.now fault) }
{
    reads_exactly();
    refused_exactly();
    answered(alloc, text)
}

/// What the tokens of a text are: a grammar within the limits, one that passes a limit, or none.
#[derive(Drop)]
pub enum Outcome {
    Grammar(List<Rule>),
    Over(Over),
    Stuck(usize),
}

#[tactic(auto, using(crate::proofs::Same::read_by_rows))]
fn answered(alloc: Global, text: &[u8]) -> Result<Grammar, ReadFault>
    ensures { MatchResult result (λ g. read_of text.now ≡ Ok g) (λ fault. (fault ≡ ReadFault.Memory) ⊎ (read_of text.now ≡ Err fault)) }
{
    let found = tokens(alloc, text)?;
    let outcome = outcome_of(alloc, found.as_slice())?;
    told(text, found.as_slice(), outcome)
}

fn outcome_of(alloc: Global, found: &[Token]) -> Result<Outcome, AllocError>
    ensures { IfOk result (λ outcome. (text : List ℕ) → told text found.now outcome ≡ answer text found.now) }
{
    match scan(alloc, found)? {
        ScanEnd::Rows(rows) => of_rows(alloc, rows.as_slice()),
        ScanEnd::Stuck(n) => Ok(Outcome::Stuck(n)),
    }
}

/// The grammar that the rows make, or the first limit that they pass.
fn of_rows<'a>(alloc: Global, rows: &[Row<'a>]) -> Result<Outcome, AllocError>
    ensures { IfOk result (λ outcome. (text : List ℕ) (ts : List Tokened) → told text ts outcome ≡ rows_answer text ts (rows_of rows.now)) }
{
    match first_over(alloc, rows)? {
        Some(over) => Ok(Outcome::Over(over)),
        None => Ok(Outcome::Grammar(built(alloc, rows)?)),
    }
}

/// The answer for a text.
fn told(text: &[u8], found: &[Token], outcome: Outcome) -> Result<Grammar, ReadFault>
    requires { length text.now ≤ 2 ^ 20 }
    ensures { MatchResult result (λ g. told text.now found.now outcome ≡ Ok g) (λ fault. told text.now found.now outcome ≡ Err fault) }
{
    match outcome {
        Outcome::Grammar(rules) => Ok(Grammar { rules }),
        Outcome::Over(over) => Err(ReadFault::Limit {
            which: over.which,
            at: place_at(text, found, over.at),
        }),
        Outcome::Stuck(n) => Err(ReadFault::Syntax {
            at: place_at(text, found, n),
        }),
    }
}

/// The first byte of the token of a number, or the end of the text.
fn place_at(text: &[u8], found: &[Token], n: usize) -> u32
    requires { length text.now ≤ 2 ^ 20 }
    ensures { result ≡ place_of text.now found.now n }
{
    if n < found.len() {
        found[n].span.from
    } else {
        text.len() as u32
    }
}
