//! The status with which the program ends.
ghost use Rattle.std.specs.Prelude.{◌≡◌};
ghost use Rattle.der_program_base.specs.Status.{code_of, rank_of, worse_of};

/// What a run over one or more messages came to.
#[derive(Clone, Copy, Debug)]
pub enum Status {
    /// All was read, and where something was compared, all agreed.
    Fine,
    /// Nothing was refused, and nothing could be compared.
    NothingCompared,
    /// Something was refused or differs.
    Refused,
    /// Wrong use, a file that can't be read, an output that can't be written, or a failed allocation.
    Trouble,
}

impl Status {
    /// Returns the status as a number: 0 for `Fine`, 1 for `Refused`, 2 for `Trouble` and 3 for `NothingCompared`.
    pub fn code(self) -> u8
        ensures { result ≡ code_of self }
    {
        match self {
            Status::Fine => 0,
            Status::Refused => 1,
            Status::Trouble => 2,
            Status::NothingCompared => 3,
        }
    }

    /// Returns the worse of two statuses: `Trouble`, else `Refused`, else `NothingCompared`, else `Fine`.
    pub fn worse(self, other: Status) -> Status
        ensures { result ≡ worse_of self other }
    {
        if self.rank() < other.rank() {
            other
        } else {
            self
        }
    }

    // A worse status has a greater rank.
    fn rank(self) -> u8
        ensures { result ≡ rank_of self }
    {
        match self {
            Status::Fine => 0,
            Status::NothingCompared => 1,
            Status::Refused => 2,
            Status::Trouble => 3,
        }
    }
}
