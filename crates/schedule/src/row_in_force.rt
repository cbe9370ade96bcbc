ghost use Rattle.calendar.specs.Dates.{InDays};
ghost use Rattle.schedule.specs.Plans.{plan_on};
ghost use Rattle.schedule.specs.RowInForce.{best_row, fits, row_number, row_on};
ghost use Rattle.std.specs.Prelude.{◌≡◌};
ghost use Rattle.tables.specs.Filled.{timetable_in};

use crate::choice::best_of;
use crate::day::Day;
use tables::{Row, Tables, has_bit};

fn fits_day(row: &Row, day: Day) -> bool
    ensures { result ≡ fits day.month day.weekday day.date row.now }
{
    has_bit(row.months, day.month)
        && has_bit(row.weekdays, day.weekday)
        && has_bit(row.dates, day.date)
}

// Of the rows that fit the day the one with the fewest months, then dates, then weekdays, then the lowest number.
fn best_row(rows: &[Row], day: Day) -> Option<Row>
    ensures { result ≡ best_row day.month day.weekday day.date rows.now }
{
    best_of(rows, |row| fits_day(row, day), |row| row.counts)
}

// The row in force on a day of the calendar; with no fitting row, its number and its plan are 0.
#[tactic(auto, unfolding(crate::specs::Plans::plan_on))]
pub(crate) fn row_on(tables: &Tables, day: i32) -> Row
    requires { InDays day }
    ensures number { result.number ≡ row_number (row_on (timetable_in tables.now).rows day) }
    ensures plan { result.plan ≡ plan_on (timetable_in tables.now) day }
{
    best_row(tables.rows(), Day::of(day)).unwrap_or_default()
}
