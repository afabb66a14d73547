ghost use Rattle.std.specs.Prelude.{◌≡◌};
ghost use Rattle.lf_base.specs.Status.{number_of, text_of};

/// How a run of the program ends.
#[derive(Clone, Copy, Debug, PartialEq, Eq)]
pub enum Status {
    Ok,
    /// The input's count of faults rose.
    ReadFault,
    /// The words are no command.
    WordsRefused,
    /// The input is not what its format says.
    InputRefused,
    /// The output's count of faults rose.
    WriteFault,
    /// A disk's count of faults rose.
    DiskFault,
    NoMemory,
    /// A count of faults of a link, an acceptor or a dialer rose.
    NetworkFault,
    /// The spawner's count of faults rose.
    NoThread,
    /// The input is longer than allowed.
    Limit,
    /// A program that was run has ended with this number.
    Program(u8),
    /// A program could not be started.
    NotStarted,
    /// The lock that stops other nodes' writes was refused.
    LockRefused,
}

impl Status {
    /// The number that the process ends with.
    pub fn number(self) -> u8
        ensures { result ≡ number_of self }
    {
        match self {
            Status::Ok => 0,
            Status::ReadFault => 1,
            Status::WordsRefused => 2,
            Status::InputRefused => 3,
            Status::WriteFault => 4,
            Status::DiskFault => 5,
            Status::NoMemory => 6,
            Status::NetworkFault => 7,
            Status::NoThread => 8,
            Status::Limit => 9,
            Status::Program(number) => number,
            Status::NotStarted => 10,
            Status::LockRefused => 11,
        }
    }

    /// What standard error says after `litefs: `: nothing after Ok, nor of a program that was run. After
    /// `input refused: ` the fault's name follows.
    pub fn text(self) -> &'static str
        ensures { result.now ≡ text_of self }
    {
        match self {
            Status::Ok | Status::Program(_) => "",
            Status::ReadFault => "cannot read",
            Status::WordsRefused => "words refused",
            Status::InputRefused => "input refused: ",
            Status::WriteFault => "cannot write",
            Status::DiskFault => "disk failed",
            Status::NoMemory => "out of memory",
            Status::NetworkFault => "network failed",
            Status::NoThread => "cannot start a thread",
            Status::Limit => "limit reached",
            Status::NotStarted => "cannot start the program",
            Status::LockRefused => "halt refused",
        }
    }
}
