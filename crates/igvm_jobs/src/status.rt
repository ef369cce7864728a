//! How a run of the program ends.
ghost use Rattle.std.specs.Prelude.{◌≡◌};
ghost use Rattle.igvm_jobs.specs.ExitCodes.{code_of};

/// The status of a run, from 0 on in this order.
#[derive(Clone, Copy, Debug, PartialEq, Eq)]
pub enum Status {
    /// The job was done and its text put.
    Done,
    /// The image breaks a rule of the reader.
    File,
    /// The words mean no job.
    Usage,
    /// The image does not fit the host that is described.
    NotFit,
    /// A file, an output or a launch machine failed.
    Outside,
    /// Want of memory.
    Memory,
    /// The image has no such platform, or its kind has no digest.
    Platform,
    /// A JSON text is not read, or one of its rules fails.
    Json,
    /// A file or a built image is larger than its limit.
    Limit,
}

impl Status {
    /// The process's exit status.
    pub fn code(self) -> u8
        ensures { result ≡ code_of self }
    {
        match self {
            Status::Done => 0,
            Status::File => 1,
            Status::Usage => 2,
            Status::NotFit => 3,
            Status::Outside => 4,
            Status::Memory => 5,
            Status::Platform => 6,
            Status::Json => 7,
            Status::Limit => 8,
        }
    }
}
