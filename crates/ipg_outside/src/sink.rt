//! What is written.
ghost use Rattle.std.specs.Prelude.{◌≡◌, ℕ, ◌≤◌, [], Option, OnOk, OnErr};
ghost use Rattle.ipg_outside.specs.Faults.{Rose};
ghost use Rattle.ipg_outside.specs.Sink.{Output, Takes, HandsOn, Breaks, Tells};

/// Why a piece was not written.
#[derive(Clone, Copy, Debug, Drop, PartialEq, Eq)]
pub enum SinkFault {
    Failed,
}

/// Takes bytes, and hands them on at the latest when it is flushed. After a fault nothing is held.
pub trait Sink {
    /// The bytes that went out and those that are held, where they are told.
    ghost output: { Self → Option Output };

    /// How many calls have failed. It never falls.
    ghost faults: { Self → ℕ };

    /// Takes a piece.
    fn write(&mut self, piece: &[u8]) -> Result<(), SinkFault>
        ensures taken { OnOk result (Tells (output self.old) (output self.new) (Takes piece.now)) }
        ensures broken { OnErr result (Tells (output self.old) (output self.new) (Breaks piece.now)) }
        ensures failed { OnErr result (Rose (faults self.old) (faults self.new)) }
        ensures counts { faults self.old ≤ faults self.new };

    /// Hands on what is held.
    fn flush(&mut self) -> Result<(), SinkFault>
        ensures handed_on { OnOk result (Tells (output self.old) (output self.new) HandsOn) }
        ensures broken { OnErr result (Tells (output self.old) (output self.new) (Breaks [])) }
        ensures failed { OnErr result (Rose (faults self.old) (faults self.new)) }
        ensures counts { faults self.old ≤ faults self.new };
}
