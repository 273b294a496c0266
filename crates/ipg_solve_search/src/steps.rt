use crate::gone::Gone;
use crate::packed::{StepReader, put_number, put_signed};
use ipg_cert::{Refutation, Step};
use ipg_num::List;
use std::alloc::{AllocError, Global};

/// A place among the steps.
#[derive(Clone, Copy)]
pub struct StepPlace {
    byte: usize,
}

/// The steps so far, in prefix order. They are packed, since a refutation may have millions of them: each is
/// its kind and its numbers.
#[derive(Drop)]
pub struct Steps {
    alloc: Global,
    bytes: Vec<u8>,
}

const COMBINE: u64 = 0;

const SPLIT: u64 = 1;

const EITHER: u64 = 2;

impl Steps {
    pub fn new(alloc: Global) -> Steps {
        Steps {
            alloc,
            bytes: Vec::new(alloc),
        }
    }

    pub fn here(&self) -> StepPlace {
        StepPlace {
            byte: self.bytes.len(),
        }
    }

    pub fn push(&mut self, step: &Step) -> Result<(), AllocError> {
        match step {
            Step::Combine(entries) => {
                put_number(&mut self.bytes, COMBINE)?;
                put_number(&mut self.bytes, entries.len() as u64)?;
                for entry in entries.as_slice() {
                    put_number(&mut self.bytes, entry.0)?;
                    put_number(&mut self.bytes, entry.1)?;
                }
                Ok(())
            }
            Step::Split { var, at } => {
                put_number(&mut self.bytes, SPLIT)?;
                put_number(&mut self.bytes, *var)?;
                put_signed(&mut self.bytes, *at)
            }
            Step::Either { fact, parts } => {
                put_number(&mut self.bytes, EITHER)?;
                put_number(&mut self.bytes, *fact)?;
                put_number(&mut self.bytes, *parts)
            }
        }
    }

    /// The facts that the steps from the one place to the other name.
    pub fn named(&self, from: StepPlace, to: StepPlace) -> Result<Vec<u64>, AllocError> {
        let mut named = Vec::new(self.alloc);
        let mut reader = StepReader {
            bytes: &self.bytes,
            at: from.byte,
        };
        for _ in from.byte..to.byte {
            if to.byte <= reader.at {
                break;
            }
            match reader.step(self.alloc)? {
                Some(Step::Combine(entries)) => {
                    for entry in entries.as_slice() {
                        named.push(entry.1)?;
                    }
                }
                Some(Step::Either { fact, .. }) => named.push(fact)?,
                Some(Step::Split { .. }) => {}
                None => break,
            }
        }
        Ok(named)
    }

    /// Takes out the steps from the one place to the other, and the facts that are gone, if the steps behind
    /// name none of them.
    pub fn cut_out(
        &mut self,
        from: StepPlace,
        to: StepPlace,
        gone: Gone,
    ) -> Result<(), AllocError> {
        let Some(behind) = self.bytes.get(to.byte..) else {
            return Ok(());
        };
        let mut moved = Steps::new(self.alloc);
        let mut reader = StepReader {
            bytes: behind,
            at: 0,
        };
        for _ in 0..behind.len() {
            let Some(step) = reader.step(self.alloc)? else {
                break;
            };
            match gone.step_without(self.alloc, &step)? {
                Some(step) => moved.push(&step)?,
                None => return Ok(()),
            }
        }
        self.bytes.truncate(from.byte);
        self.bytes.extend_from_slice(&moved.bytes)?;
        Ok(())
    }

    pub fn into_refutation(self) -> Result<Refutation, AllocError> {
        let mut steps = List::new(self.alloc);
        let mut reader = StepReader {
            bytes: &self.bytes,
            at: 0,
        };
        for _ in 0..self.bytes.len() {
            match reader.step(self.alloc)? {
                Some(step) => steps.push(step)?,
                None => break,
            }
        }
        Ok(Refutation { steps })
    }
}

impl<'b> StepReader<'b> {
    fn step(&mut self, alloc: Global) -> Result<Option<Step>, AllocError> {
        match self.number() {
            Some(COMBINE) => self.combine(alloc),
            Some(SPLIT) => Ok(self.split()),
            Some(EITHER) => Ok(self.either()),
            _ => Ok(None),
        }
    }

    fn combine(&mut self, alloc: Global) -> Result<Option<Step>, AllocError> {
        let mut entries = List::new(alloc);
        for _ in 0..self.number().unwrap_or(0) {
            let (Some(weight), Some(fact)) = (self.number(), self.number()) else {
                return Ok(None);
            };
            entries.push((weight, fact))?;
        }
        Ok(Some(Step::Combine(entries)))
    }

    fn split(&mut self) -> Option<Step> {
        let var = self.number()?;
        let at = self.signed()?;
        Some(Step::Split { var, at })
    }

    fn either(&mut self) -> Option<Step> {
        let fact = self.number()?;
        let parts = self.number()?;
        Some(Step::Either { fact, parts })
    }
}
