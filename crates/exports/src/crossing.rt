ghost use Rattle.exports.specs.Crossing.{cell_of, fields_of, outcome_of, rule_of};
ghost use Rattle.exports.specs.Lives.{refused_by, told_of};
ghost use Rattle.std.specs.Prelude.{◌≡◌, Err};

use crate::fields::{Fields, Outcome, Told};
use history::Answer;
use refusal::Refusal;
use runner::Stopped;
use schedule::Look;

impl From<Look> for Fields {
    ghost from_gives = { λ look fields. fields ≡ fields_of look };

    fn from(look: Look) -> Fields {
        Fields {
            local_time: look.local_time,
            last_second: look.last_second,
            row: look.row,
            plan: look.plan,
            event_plan: look.event_plan,
            event: look.event,
            days_back: look.days_back,
            tariff: look.tariff,
        }
    }
}

// The rule and the cell of a refusal; of others than 8 they are 0.
fn fault_of(why: Refusal) -> (u8, u32)
    ensures rule { result.0 ≡ rule_of why }
    ensures cell { result.1 ≡ cell_of why }
{
    match why {
        Refusal::Inconsistent { rule, cell } => (rule.number(), cell),
        _ => (0, 0),
    }
}

impl From<Refusal> for Outcome {
    ghost from_gives = { λ why outcome. outcome ≡ refused_by why };

    fn from(why: Refusal) -> Outcome {
        let (rule, cell) = fault_of(why);
        Outcome {
            place: 0,
            cell,
            refusal: why.number(),
            rule,
        }
    }
}

impl From<Stopped> for Outcome {
    ghost from_gives = { λ stopped outcome. outcome ≡ outcome_of (Err stopped) };

    fn from(stopped: Stopped) -> Outcome {
        Outcome {
            place: stopped.place,
            ..Outcome::from(stopped.why)
        }
    }
}

impl From<Result<(), Stopped>> for Outcome {
    ghost from_gives = { λ r outcome. outcome ≡ outcome_of r };

    fn from(r: Result<(), Stopped>) -> Outcome {
        match r {
            Ok(()) => Outcome::default(),
            Err(stopped) => Outcome::from(stopped),
        }
    }
}

impl From<Answer> for Told {
    ghost from_gives = { λ answer told. told ≡ told_of answer };

    fn from(answer: Answer) -> Told {
        match answer {
            Answer::Done => Told::default(),
            Answer::Cell(value) => Told {
                value,
                ..Told::default()
            },
            Answer::Seen(look) => Told {
                look: Fields::from(look),
                ..Told::default()
            },
            Answer::Refused(why) => Told {
                outcome: Outcome::from(why),
                ..Told::default()
            },
            Answer::Stopped(stopped) => Told {
                outcome: Outcome::from(stopped),
                ..Told::default()
            },
        }
    }
}
