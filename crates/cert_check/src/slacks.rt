ghost use Rattle.std.specs.Prelude.{◌<◌, ◌↔◌, IsTrue, Some, length};
ghost use Rattle.cert_check.specs.Vocabulary.{AreOneSlack, HasSlackRoom, IsFromZero, HasSlacks, Meets, Spares, ScheduleMisses, SlackDiffers, Judges};

use crate::item::item_at;
use crate::judge::Judge;
use crate::verdict::{Reason, Stop};
use cts_base::Fraction;
use cts_model::Slack;

impl Judge<'_> {
    /// Whether the paths that end at each register meet the period, by the slacks that there are.
    pub(crate) fn judge_schedule(&self, slacks: &[Slack]) -> Result<(), Stop>
        requires { HasSlacks self.now slacks.now }
        ensures { Judges (length self.now.problem.now.circuit.registers) (Meets self.now)
            ScheduleMisses result }
    {
        for register in 0..slacks.len() {
            if !has_room(*item_at(slacks, register)) {
                return Err(Stop::At(Reason::ScheduleMisses(register as u32)));
            }
        }
        Ok(())
    }

    /// Whether the printed slacks of each register are those that there are.
    pub(crate) fn judge_slacks(&self, slacks: &[Slack]) -> Result<(), Stop>
        requires { HasSlacks self.now slacks.now }
        ensures { Judges (length self.now.problem.now.circuit.registers) (Spares self.now)
            SlackDiffers result }
    {
        for register in 0..slacks.len() {
            let printed = item_at(self.report.slacks.as_slice(), register);
            if !are_one_slack(*printed, *item_at(slacks, register)) {
                return Err(Stop::At(Reason::SlackDiffers(register as u32)));
            }
        }
        Ok(())
    }
}

// Whether neither slack of a register is below 0.
fn has_room(slack: Slack) -> bool
    ensures { IsTrue result ↔ HasSlackRoom slack }
{
    is_from_zero(slack.setup) && is_from_zero(slack.hold)
}

// Whether a slack, if there is one, isn't below 0.
fn is_from_zero(slack: Option<Fraction>) -> bool
    ensures { IsTrue result ↔ IsFromZero slack }
{
    match slack {
        Some(slack) => slack.num() >= 0,
        None => true,
    }
}

// Whether both slacks of a register are the same as others.
fn are_one_slack(slack: Slack, other: Slack) -> bool
    ensures { IsTrue result ↔ (AreOneSlack slack.setup other.setup
        × AreOneSlack slack.hold other.hold) }
{
    is_one_slack(slack.setup, other.setup) && is_one_slack(slack.hold, other.hold)
}

// Whether two slacks are the same, or there is neither.
fn is_one_slack(slack: Option<Fraction>, other: Option<Fraction>) -> bool
    ensures { IsTrue result ↔ AreOneSlack slack other }
{
    match (slack, other) {
        (Some(slack), Some(other)) => slack.num() == other.num() && slack.den() == other.den(),
        (None, None) => true,
        _ => false,
    }
}
