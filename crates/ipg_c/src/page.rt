//! Where an answer is written.
ghost use Rattle.std.specs.Prelude.{◌≡◌, [], Some};

use ipg_outside::{Sink, SinkFault};
use std::alloc::Global;

/// All that was written. A write fails for want of memory alone.
#[derive(Drop)]
pub struct Page {
    pub text: Vec<u8>,
    pub faults: u64,
}

impl Page {
    /// Nothing is written yet.
    pub fn new(alloc: Global) -> Page
        ensures text { result.text.items ≡ [] }
        ensures faults { result.faults ≡ 0 }
    {
        Page {
            text: Vec::new(alloc),
            faults: 0,
        }
    }
}

impl Sink for Page {
    ghost use Rattle.ipg_c.specs.Handed.{output_of};

    ghost output = { λ page. Some (output_of page.text.items) };

    ghost faults = { λ page. page.faults };

    fn write(&mut self, piece: &[u8]) -> Result<(), SinkFault> {
        match self.text.extend_from_slice(piece) {
            Ok(()) => Ok(()),
            Err(_) => {
                self.faults = self.faults.saturating_add(1);
                Err(SinkFault::Failed)
            }
        }
    }

    fn flush(&mut self) -> Result<(), SinkFault> {
        Ok(())
    }
}
