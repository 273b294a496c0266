//! Writes what is said.
ghost use Rattle.std.specs.Prelude.{ℕ, List, Option};
ghost use Rattle.ipg_outside.specs.Sink.{Output};
ghost use Rattle.ipg_tree.specs.Puts.{Whole};
ghost use Rattle.ipg_app_tree.specs.Out.{GoesOut};
ghost use Rattle.ipg_app_text.specs.Lines.{said_of};

use ipg_app_text::said::Settled;
use ipg_app_text::status::Status;
use ipg_outside::Sink;

/// Writes a settled text.
pub fn say<S: Sink>(settled: &Settled, out: &mut S) -> Status
    ensures { GoesOut (said_of settled.now) (S.output out.old) (S.faults out.old) (S.output out.new) (S.faults out.new) result }
{
    tell(settled.status, &settled.text, out)
}

/// Hands on the whole of a text.
pub fn finish<S: Sink>(status: Status, out: &mut S) -> Status
    ensures { (before : Option Output) (counted : ℕ) (text : List ℕ) → Whole text before counted (S.output out.old) (S.faults out.old)
        → GoesOut (record { status = status; text = text }) before counted (S.output out.new) (S.faults out.new) result }
{
    match out.flush() {
        Ok(()) => status,
        Err(_) => Status::WriteFault,
    }
}

/// Writes a text, and hands it on.
pub fn tell<S: Sink>(status: Status, text: &[u8], out: &mut S) -> Status
    ensures { GoesOut (record { status = status; text = text.now }) (S.output out.old) (S.faults out.old) (S.output out.new) (S.faults out.new) result }
{
    match out.write(text) {
        Ok(()) => finish(status, out),
        Err(_) => Status::WriteFault,
    }
}
