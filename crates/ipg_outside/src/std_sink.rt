//! Standard output, or any other writer of std.
ghost use Rattle.std.specs.Prelude.{◌≡◌, ℕ, ◌≤◌, [], Option, OnOk, OnErr};
ghost use Rattle.std.specs.Io.KnownBytes.{Appends};
ghost use Rattle.ipg_outside.specs.Faults.{Rose};
ghost use Rattle.ipg_outside.specs.Gathered.{gathered};
ghost use Rattle.ipg_outside.specs.Sink.{AppendsPart, Tells, Takes, HandsOn, Breaks};

use crate::sink::{Sink, SinkFault};
use crate::waiting::Waiting;
use std::io;

/// Gathers pieces and hands them to a writer in large ones. It tells what the writer tells.
#[derive(Drop)]
pub struct StdSink<W: io::Write + Drop> {
    out: W,
    held: Waiting,
    faults: u64,
}

impl<W: io::Write + Drop> StdSink<W> {
    /// A sink over a writer. It holds nothing, and no writing has failed yet.
    pub fn new(out: W) -> StdSink<W>
        ensures out { result.out ≡ out }
        ensures held { result.held ≡ [] }
        ensures faults { result.faults ≡ 0 }
    {
        StdSink {
            out,
            held: Waiting::new(),
            faults: 0,
        }
    }

    fn count(&mut self, answer: Result<(), SinkFault>) -> Result<(), SinkFault>
        ensures same { result ≡ answer }
        ensures kept { (self.new.out ≡ self.old.out) × (self.new.held ≡ self.old.held) }
        ensures failed { OnErr result (Rose self.old.faults self.new.faults) }
        ensures counts { self.old.faults ≤ self.new.faults }
    {
        if answer.is_err() {
            self.faults = self.faults.saturating_add(1);
        }
        answer
    }

    fn hand_on(&mut self) -> Result<(), SinkFault>
        ensures handed_on { OnOk result (Tells (gathered W.contents self.old) (gathered W.contents self.new) HandsOn) }
        ensures broken { OnErr result (Tells (gathered W.contents self.old) (gathered W.contents self.new) (Breaks [])) }
        ensures none_held { self.new.held ≡ [] }
        ensures failed { OnErr result (Rose self.old.faults self.new.faults) }
        ensures counts { self.old.faults ≤ self.new.faults }
    {
        let answer = write_whole(&mut self.out, self.held.as_slice());
        self.held.clear();
        self.count(answer)
    }

    /// Hands on what is held, then a piece for which there is no room beside it.
    #[cold]
    #[inline(never)]
    fn write_past(&mut self, piece: &[u8]) -> Result<(), SinkFault>
        ensures taken { OnOk result (Tells (gathered W.contents self.old) (gathered W.contents self.new) (Takes piece.now)) }
        ensures broken { OnErr result (Tells (gathered W.contents self.old) (gathered W.contents self.new) (Breaks piece.now)) }
        ensures failed { OnErr result (Rose self.old.faults self.new.faults) }
        ensures counts { self.old.faults ≤ self.new.faults }
    {
        self.hand_on()?;
        let answer = write_whole(&mut self.out, piece);
        self.count(answer)
    }
}

impl<W: io::Write + Drop> Sink for StdSink<W> {
    ghost output = { λ sink. gathered W.contents sink };

    ghost faults = { λ sink. sink.faults };

    #[inline]
    fn write(&mut self, piece: &[u8]) -> Result<(), SinkFault> {
        match self.held.add(piece) {
            Ok(()) => Ok(()),
            Err(_) => self.write_past(piece),
        }
    }

    fn flush(&mut self) -> Result<(), SinkFault> {
        self.hand_on()?;
        let answer = match self.out.flush() {
            Ok(()) => Ok(()),
            Err(_) => Err(SinkFault::Failed),
        };
        self.count(answer)
    }
}

/// Writes a piece to its end. Each turn takes a byte.
fn write_whole<W: io::Write>(out: &mut W, piece: &[u8]) -> Result<(), SinkFault>
    ensures whole { OnOk result (Appends (W.contents out.old) (W.contents out.new) piece.now) }
    ensures part { OnErr result (AppendsPart (W.contents out.old) (W.contents out.new) piece.now) }
{
    let mut rest = piece;
    while !rest.is_empty() {
        match out.write(rest) {
            Ok(0) => return Err(SinkFault::Failed),
            Ok(count) => rest = rest.split_at(count).1,
            Err(_) => return Err(SinkFault::Failed),
        }
    }
    Ok(())
}
