ghost use Rattle.std.specs.Prelude.{◌≡◌, ◌≤◌};
ghost use Rattle.schedule.specs.Days.{Reaches};
ghost use Rattle.schedule.specs.EventInForce.{opening_of};
ghost use Rattle.tables.specs.Filled.{timetable_in};
ghost use Rattle.schedule.specs.Openings.{closing_within, opening_within};

use crate::latest::latest;
use crate::row_in_force::row_on;
use crate::shown::EventInForce;
use tables::Tables;

// What a day opens with: the closing event of the day before, while days are left.
#[cycle(closing_opening)]
fn opening(tables: &Tables, day: i32, left: u8) -> Option<EventInForce>
    requires calendar { Reaches day left }
    requires seven { left ≤ 7 }
    ensures { result ≡ opening_within (timetable_in tables.now) day left }
{
    let fewer = left.checked_sub(1)?;
    closing(tables, day - 1, fewer)
}

// What a day closes with: its latest event, or what it opened with.
#[cycle(closing_opening)]
fn closing(tables: &Tables, day: i32, left: u8) -> Option<EventInForce>
    requires calendar { Reaches day left }
    requires seven { left ≤ 7 }
    ensures { result ≡ closing_within (timetable_in tables.now) day left }
{
    let plan = row_on(tables, day).plan;
    // No `or_else`: calls that lead back to this function go through no closure.
    match latest(tables.events_of(plan)) {
        Some(event) => Some(EventInForce::of(event, plan, 7 - left)),
        None => opening(tables, day, left),
    }
}

// The opening event of a day, from seven days back at most.
pub(crate) fn opening_event(tables: &Tables, day: i32) -> Option<EventInForce>
    requires { Reaches day 7 }
    ensures { result ≡ opening_of (timetable_in tables.now) day }
{
    opening(tables, day, 7)
}
