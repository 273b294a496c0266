//! How a run ends.
ghost use Rattle.std.specs.Prelude.{◌≡◌};
ghost use Rattle.ipg_app_text.specs.Code.{code_of};

#[derive(Clone, Copy, Debug, Drop, PartialEq, Eq)]
pub enum Status {
    Done,
    NoParse,
    Refused,
    Range,
    Usage,
    ReadFault,
    WriteFault,
    Memory,
    TooLarge,
    BadProof,
}

impl Status {
    /// The exit code of the program.
    pub fn code(&self) -> u8
        ensures { result ≡ code_of self.now }
    {
        match self {
            Status::Done => 0,
            Status::NoParse => 1,
            Status::Refused => 2,
            Status::Range => 3,
            Status::Usage => 4,
            Status::ReadFault => 5,
            Status::WriteFault => 6,
            Status::Memory => 7,
            Status::TooLarge => 8,
            Status::BadProof => 9,
        }
    }
}
