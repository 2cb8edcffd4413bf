ghost use Rattle.std.specs.Prelude.{◌≡◌};
ghost use Rattle.convoy_commands.specs.Ends.{end_by, worse};

use convoy_checker::Refusal;
use convoy_scenario::Part;

/// How a command ended that gave an answer. The answer was written, whatever the end.
#[derive(Clone, Copy)]
pub enum Done {
    /// The answer is what was asked for: of a search, or of each of several, the greatest latency; or each deadline is
    /// kept.
    Fine,
    /// A search did not end within its limits, or traffic does not attain a ceiling: the answer is what was found so
    /// far. Where there is a deadline, it is not known whether it is kept.
    Open,
    /// A deadline is not kept.
    Beyond,
    /// A row of a table, or a block of a batch, has a fault in place of an answer.
    Faulty,
    /// The text is not that of a valid certificate, for this cause.
    Refused(Refusal),
    /// The text is not that of a valid certificate of a plan.
    PlanRefused,
    /// The text is not that of a valid certificate of a workflow.
    WorkflowRefused,
    /// The text is not that of a valid certificate of finishes.
    FinishRefused,
    /// The certificate is valid, but its scenario differs from the one that is wanted, first in this part.
    Differs(Part),
    /// The trace is no run of the scenario: something in it departs from that.
    Departs,
    /// The certificate was not checked, since that takes more steps than may be taken.
    NotChecked,
}

impl Done {
    /// How several searches ended, by whether one is beyond its deadline, whether one has a fault, and whether one is
    /// open: the first of these comes first.
    pub fn by(any_beyond: bool, any_fault: bool, any_open: bool) -> Done
        ensures { result ≡ end_by any_beyond any_fault any_open }
    {
        if any_beyond {
            Done::Beyond
        } else if any_fault {
            Done::Faulty
        } else if any_open {
            Done::Open
        } else {
            Done::Fine
        }
    }

    /// The worse end of two searches: one beyond its deadline, or else a fault, or else an open end, or else the
    /// other's end.
    pub fn worse(self, other: Done) -> Done
        ensures { result ≡ worse self other }
    {
        match (self, other) {
            (Done::Beyond, _) | (Done::Faulty | Done::Open, Done::Beyond) => Done::Beyond,
            (Done::Faulty, _) | (Done::Open, Done::Faulty) => Done::Faulty,
            (Done::Open, _) => Done::Open,
            (_, other) => other,
        }
    }
}
