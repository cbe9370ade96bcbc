ghost use Rattle.schedule.specs.EventInForce.{event_of};
ghost use Rattle.std.specs.Prelude.{◌≡◌};

use tables::{Event, Tariff};

// An event in force: its plan, its number, how many days back it started, and its tariff.
#[derive(Clone, Copy, Drop, Default)]
pub struct EventInForce {
    pub plan: u8,
    pub number: u8,
    pub days_back: u8,
    pub tariff: Tariff,
}

impl EventInForce {
    // An event of a plan that started so many days back.
    pub(crate) fn of(event: Event, plan: u8, days_back: u8) -> EventInForce
        ensures { result ≡ event_of plan days_back event }
    {
        EventInForce {
            plan,
            number: event.number,
            days_back,
            tariff: event.tariff,
        }
    }
}
