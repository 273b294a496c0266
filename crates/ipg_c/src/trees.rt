//! Trees of many inputs, as rows.
ghost use Rattle.std.specs.Prelude.{◌≡◌, IfOk, MatchOption};
ghost use Rattle.ipg_c_trees.specs.Given.{IsAccepted, IsRefused, text_of};
ghost use Rattle.ipg_c_trees.specs.Comes.{AllCome};
ghost use Rattle.ipg_c.specs.Handed.{words_of};
ghost use Rattle.ipg_c.specs.Rowed.{IsBatch, IsNames, Named, Rowed};

use crate::showing::show;
use crate::words::Word;
use ipg_app_text::status::Status;
use ipg_c_trees::{Answer, Format, format_of, names};
use ipg_tree_rows::TreeRow;
use std::alloc::{AllocError, Global};

/// What inputs come to: an answer for each, and all rows.
#[derive(Drop)]
struct Batch {
    answers: Vec<Answer>,
    rows: Vec<TreeRow>,
}

fn answered(alloc: Global, format: &Format, inputs: &[Word<'_>]) -> Result<Batch, AllocError>
    ensures { IfOk result (λ batch. AllCome format.now (words_of inputs.now) batch.answers.items batch.rows.items) }
{
    let mut answers = Vec::with_capacity(alloc, inputs.len())?;
    let mut rows = Vec::new(alloc);
    for input in inputs {
        let answer = format.answer(alloc, input.bytes, &mut rows)?;
        answers.push(answer)?;
    }
    Ok(Batch { answers, rows })
}

/// What inputs come to by a grammar; None where that is refused.
fn batch_by(alloc: Global, grammar: &[u8], inputs: &[Word<'_>]) -> Result<Option<Batch>, AllocError>
    ensures { IfOk result (λ made. MatchOption made (IsRefused (text_of grammar.now))
        (λ batch. IsBatch grammar.now (words_of inputs.now) batch.answers.items batch.rows.items)) }
{
    match format_of(alloc, grammar)? {
        Some(format) => Ok(Some(answered(alloc, &format, inputs)?)),
        None => Ok(None),
    }
}

/// Parses inputs by one grammar, which is given by its text or by the name of a built-in one (`@elf`, `@pe`, `@gif`, `@pcap`) and checked once.
/// `answers` has the answer of each input, and `rows` the rows of all their trees one behind another, both as far as they go; `length` tells
/// how many rows there are. Where it is more than `rows` holds, call again with more. Each parse has a heap of 512 MiB, with a memo.
/// Answers 0; 2 where the grammar is refused, 7 for want of memory. Then nothing is told and `length` is 0.
#[unsafe(no_mangle)]
pub extern "C" fn ipg_trees(
    alloc: Global,
    grammar: &[u8],
    inputs: &[Word<'_>],
    answers: &mut [Answer],
    rows: &mut [TreeRow],
    length: &mut u64,
) -> u8
    ensures { Rowed grammar.now (words_of inputs.now) answers.old answers.new rows.old rows.new length.new result }
{
    *length = 0;
    match batch_by(alloc, grammar, inputs) {
        Ok(Some(batch)) => {
            show(batch.answers.as_slice(), answers);
            show(batch.rows.as_slice(), rows);
            *length = batch.rows.len() as u64;
            Status::Done.code()
        }
        Ok(None) => Status::Refused.code(),
        Err(_) => Status::Memory.code(),
    }
}

fn names_by(alloc: Global, grammar: &[u8]) -> Result<Option<Vec<u8>>, AllocError>
    ensures { IfOk result (λ made. MatchOption made (IsRefused (text_of grammar.now)) (λ text. IsNames grammar.now text.items)) }
{
    match format_of(alloc, grammar)? {
        Some(format) => Ok(Some(names(alloc, &format)?)),
        None => Ok(None),
    }
}

/// The names of a grammar, which is given as for `ipg_trees`: a line for each rule, an empty line, and a line for each attribute, each by its
/// number. The text goes to `room` as far as it fits, and `length` tells how many bytes it has.
/// Answers 0; 2 where the grammar is refused, 7 for want of memory. Then nothing is told and `length` is 0.
#[unsafe(no_mangle)]
pub extern "C" fn ipg_names(alloc: Global, grammar: &[u8], room: &mut [u8], length: &mut u64) -> u8
    ensures { Named grammar.now room.old room.new length.new result }
{
    *length = 0;
    match names_by(alloc, grammar) {
        Ok(Some(text)) => {
            show(text.as_slice(), room);
            *length = text.len() as u64;
            Status::Done.code()
        }
        Ok(None) => Status::Refused.code(),
        Err(_) => Status::Memory.code(),
    }
}
