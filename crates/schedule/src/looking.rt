ghost use Rattle.schedule.specs.Days.{Reaches};
ghost use Rattle.schedule.specs.EventInForce.{event_in_force};
ghost use Rattle.tables.specs.Filled.{timetable_in};
ghost use Rattle.schedule.specs.Looks.{look_of};
ghost use Rattle.schedule.specs.Moments.{LookFrom};
ghost use Rattle.schedule.specs.Plans.{plan_on};
ghost use Rattle.std.specs.Prelude.{◌≡◌};

use crate::answer::Look;
use crate::boundary::last_second;
use crate::latest::latest_started;
use crate::local_clock::LocalClock;
use crate::moment::Moment;
use crate::opening::opening_event;
use crate::row_in_force::row_on;
use crate::shown::EventInForce;
use summer::SummerRule;
use tables::Tables;

// The latest of today's events that have started, or the day's opening event.
fn event_in_force(tables: &Tables, day: i32, plan: u8, time: u32) -> Option<EventInForce>
    requires week { Reaches day 7 }
    requires today { plan ≡ plan_on (timetable_in tables.now) day }
    ensures { result ≡ event_in_force (timetable_in tables.now) day time }
{
    latest_started(tables.events_of(plan), time)
        .map(|event| EventInForce::of(event, plan, 0))
        .or_else(|| opening_event(tables, day))
}

// Where no event is in force, it shows as zeros.
fn look_at(tables: &Tables, second: u32, moment: Moment, change: Option<u32>) -> Look
    ensures { LookFrom (timetable_in tables.now) second moment change result }
{
    let row = row_on(tables, moment.day);
    let event = event_in_force(tables, moment.day, row.plan, moment.time).unwrap_or_default();
    Look {
        local_time: moment.local_time,
        row: row.number,
        plan: row.plan,
        event_plan: event.plan,
        event: event.number,
        days_back: event.days_back,
        tariff: event.tariff,
        last_second: last_second(second, moment.time, tables.events_of(row.plan), change),
    }
}

// The look at any second, under any rule, over tables that were made once.
pub fn look<R: SummerRule>(tables: &Tables, rule: &R, second: u32) -> Look
    ensures answer { result ≡ look_of (timetable_in tables.now) (R.SummerRule.in_force rule.now) second }
{
    let clock = LocalClock { tables, rule };
    let moment = clock.moment(second);
    let change = clock.next_change(second);
    look_at(tables, second, moment, change)
}
