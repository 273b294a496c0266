//! Reads a path.
ghost use Rattle.std.specs.Prelude.{◌≡◌, ◌++◌, [], ◌∷◌, Some, None, IfOk, IsOkAnd, MatchResult, if◌then◌else◌};
ghost use Rattle.ipg_query_path.specs.Paths.{IsPath, FitsPath, path_text};
ghost use Rattle.ipg_query_path.specs.Reader.{start, at_hand, step, ended};
ghost use Rattle.ipg_query_path.specs.Reading.{seen};
ghost use Rattle.ipg_query_path.specs.declared.path.Query.{Query as Asked};
ghost use Rattle.ipg_reader.specs.declared.fault.Fault.TheVariants.{Memory};
ghost use Rattle.ipg_reader.specs.Faults.{IsFault};
ghost use Rattle.std.specs.Prelude.{ℕ, List};

use crate::path::{Name, Query, Step};
use crate::pos::{PathTurn, Pos, turn_at};
use ipg_num::List;
use ipg_reader::Fault;
use std::alloc::{AllocError, Global};
use std::mem;

/// The steps read so far, the name at hand, and the place within the path.
#[derive(Drop)]
struct Reader {
    alloc: Global,
    steps: Vec<Step>,
    name: Vec<u8>,
    at: Pos,
}

impl Reader {
    fn new(alloc: Global) -> Reader
        ensures { seen result ≡ start }
    {
        Reader {
            alloc,
            steps: Vec::new(alloc),
            name: Vec::new(alloc),
            at: Pos::Step,
        }
    }

    /// Hands out the name at hand, and begins another.
    fn take_name(&mut self) -> Name
        ensures name { result ≡ (seen self.old).name }
        ensures rest { seen self.new ≡ record (seen self.old) { name = [] } }
    {
        let name = mem::replace(&mut self.name, Vec::new(self.alloc));
        List::from_vec(name)
    }

    /// The step at hand.
    fn hand_over(&mut self) -> Step
        ensures step { result ≡ at_hand (seen self.old) }
        ensures rest { seen self.new ≡ record (seen self.old) { name = [] } }
    {
        let name = self.take_name();
        match self.at {
            Pos::Name => Step::Named(name),
            Pos::Closed(number) => Step::Nth(name, number),
            Pos::Star => Step::Children,
            _ => Step::All,
        }
    }

    /// Puts the step at hand behind the others.
    fn close(&mut self) -> Result<(), AllocError>
        ensures { IfOk result (λ _. seen self.new ≡ record (seen self.old) { steps = (seen self.old).steps ++ at_hand (seen self.old) ∷ []; name = [] }) }
    {
        let step = self.hand_over();
        self.steps.push(step)?;
        Ok(())
    }

    /// Takes a byte, if a path goes on with it.
    fn take(&mut self, b: u8) -> Result<bool, AllocError>
        ensures { IfOk result (λ on. step (seen self.old) b ≡ (if on then Some (seen self.new) else None)) }
    {
        match turn_at(self.at, b) {
            PathTurn::Stuck => Ok(false),
            PathTurn::To(at) => {
                self.at = at;
                Ok(true)
            }
            PathTurn::Add(at) => {
                self.name.push(b)?;
                self.at = at;
                Ok(true)
            }
            PathTurn::End(at) => {
                self.close()?;
                self.at = at;
                Ok(true)
            }
        }
    }

    /// The path, where it may end here.
    fn finish(mut self) -> Result<Option<Query>, AllocError>
        ensures { IfOk result (λ query. query ≡ ended (seen self)) }
    {
        match self.at {
            Pos::Field => {
                let field = self.take_name();
                Ok(Some(self.whole(Some(field))))
            }
            Pos::Name | Pos::Closed(_) | Pos::Star | Pos::Stars => {
                self.close()?;
                Ok(Some(self.whole(None)))
            }
            _ => Ok(None),
        }
    }

    fn whole(self, field: Option<Name>) -> Query
        ensures { result ≡ record { steps = (seen self).steps; field = field } }
    {
        Query {
            steps: List::from_vec(self.steps),
            field,
        }
    }
}

/// The path that a text is.
///
/// # Errors
/// `At` has the first byte that no path goes on with, or the text's length where it ends too early.
pub fn read(alloc: Global, text: &[u8]) -> Result<Query, Fault>
    ensures is { MatchResult result (λ query. IsPath query text.now) (λ fault. IsFault FitsPath path_text text.now fault) }
    ensures back { (query : Asked) → IsPath query text.now → MatchResult result (λ found. found ≡ query) (λ fault. fault ≡ Memory) }
{
    let mut reader = Reader::new(alloc);
    let mut next = 0;
    while next < text.len() {
        if !reader.take(text[next])? {
            return Err(Fault::At(next as u64));
        }
        next += 1;
    }
    match reader.finish()? {
        Some(query) => Ok(query),
        None => Err(Fault::At(next as u64)),
    }
}
