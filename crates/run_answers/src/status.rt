//! How a run ends.
ghost use Rattle.std.specs.Prelude.{◌≡◌};
ghost use Rattle.run_answers.specs.Statuses.{code_of};

/// How a run ends.
#[derive(Clone, Copy)]
pub enum Status {
    /// The plan that was written is cheapest.
    Good,
    /// The search ended open.
    Open,
    /// The words are bad.
    Words,
    /// The instance text was refused, or there are too many bytes.
    Refused,
    /// The source failed.
    ReadFault,
    /// The sink failed.
    WriteFault,
    /// Memory was wanting.
    NoMemory,
    /// The dossier was refused or rejected.
    BadDossier,
    /// A ship fits no chamber.
    Unfit,
    /// The plan text was refused, or the plan is illegal.
    PlanRefused,
}

impl Status {
    /// The number that the program ends with: 0 to 8 in the order of the statuses, and 10 for a refused
    /// plan.
    pub fn code(&self) -> u8
        ensures { result ≡ code_of self.now }
    {
        match self {
            Status::Good => 0,
            Status::Open => 1,
            Status::Words => 2,
            Status::Refused => 3,
            Status::ReadFault => 4,
            Status::WriteFault => 5,
            Status::NoMemory => 6,
            Status::BadDossier => 7,
            Status::Unfit => 8,
            Status::PlanRefused => 10,
        }
    }
}
