//! How the command ends.

ghost use Rattle.std.specs.Prelude.{◌≡◌};
ghost use Rattle.rl_main.specs.Status.{code_of};

/// How the command ends.
#[derive(Clone, Copy, Debug, PartialEq, Eq)]
pub enum Status {
    /// `main` ended in this number, 0 to 63, or in 0 where it has no result.
    Value(u8),
    /// The words do not have the form that the command asks for.
    Usage,
    /// A module has a fault; the line on `err` says where.
    ModuleFault,
    /// A read failed.
    FileFault,
    /// The input file is not what the job asks for.
    InputFault,
    /// An exception was not caught.
    Uncaught,
    /// No alternative of `main` served.
    Failed,
    /// `main` ended in a number outside 0 to 63.
    ValueRange,
    /// A put failed.
    SinkFault,
    OutOfMemory,
    /// The budget was used up.
    Budget,
}

impl Status {
    /// The exit status of the process.
    pub fn code(&self) -> u8
        ensures { result ≡ code_of self.now }
    {
        match self {
            Status::Value(number) => *number,
            Status::Usage => 64,
            Status::ModuleFault => 65,
            Status::FileFault => 66,
            Status::InputFault => 67,
            Status::Uncaught => 69,
            Status::Failed => 70,
            Status::ValueRange => 71,
            Status::SinkFault => 73,
            Status::OutOfMemory => 74,
            Status::Budget => 75,
        }
    }
}
