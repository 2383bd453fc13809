ghost use Rattle.std.specs.Prelude.{◌≡◌};
ghost use Rattle.tb_base.specs.Statuses.{number_of};

/// How a run of the program ended.
#[derive(Clone, Copy, Debug, PartialEq, Eq)]
pub enum Status {
    Done,
    Usage,
    Schema,
    Perturbation,
    Microdata,
    Script,
    ReadFault,
    WriteFault,
    Memory,
    NetFault,
    Journal,
    DiskFault,
    Units,
}

impl Status {
    /// The number with which the program ends.
    pub fn number(&self) -> u8
        ensures { result ≡ number_of self.now }
    {
        match self {
            Status::Done => 0,
            Status::Usage => 2,
            Status::Schema => 3,
            Status::Perturbation => 4,
            Status::Microdata => 5,
            Status::Script => 6,
            Status::ReadFault => 7,
            Status::WriteFault => 8,
            Status::Memory => 9,
            Status::NetFault => 10,
            Status::Journal => 11,
            Status::DiskFault => 12,
            Status::Units => 13,
        }
    }
}
