//! How a run of the program ends.
ghost use Rattle.std.specs.Prelude.{◌≡◌};
ghost use Rattle.flow_cli.specs.Status.{number_of, status_by};

use delay_report::Outcome;

/// The answer of a run. The program ends with its number.
#[derive(Clone, Copy, Debug, PartialEq, Eq)]
pub enum Status {
    /// The plan is optimal, or the command's work is done.
    Done = 0,
    /// No plan keeps every rule.
    Infeasible = 1,
    /// There is a gap between the plan and the bound, or no plan was found.
    OpenGap = 2,
    /// The scenario's text is refused.
    BadScenario = 3,
    /// The certificate is refused.
    BadCertificate = 4,
    /// The words aren't those of a command.
    Usage = 5,
    /// A text could not be read.
    ReadFault = 6,
    /// A text could not be written.
    WriteFault = 7,
    /// There was no memory for the work.
    OutOfMemory = 8,
    /// A text is above its limit.
    TooLong = 9,
    /// The plan breaks a rule.
    Broken = 10,
    /// The plan's text is refused.
    BadPlan = 11,
}

impl Status {
    /// The status of a day that was planned, by the outcome of its claim.
    pub fn of_outcome(outcome: Outcome) -> Self
        ensures { result ≡ status_by outcome }
    {
        match outcome {
            Outcome::Optimal => Status::Done,
            Outcome::Infeasible => Status::Infeasible,
            Outcome::Open => Status::OpenGap,
        }
    }

    /// The number that the program ends with.
    pub fn number(self) -> u8
        ensures { result ≡ number_of self }
    {
        self as u8
    }
}
