ghost use Rattle.calendar.specs.Dates.{InDays};
ghost use Rattle.localtime.specs.Weekdays.{weekday_of};
ghost use Rattle.schedule.specs.Days.{date_of, month_of};
ghost use Rattle.std.specs.Prelude.{◌≡◌};

use calendar::date_of;
use localtime::weekday;

// What a row goes by: the month of a day, its weekday, 1 for Sunday, and its date.
#[derive(Clone, Copy, Drop)]
pub(crate) struct Day {
    pub(crate) month: u8,
    pub(crate) weekday: u8,
    pub(crate) date: u8,
}

impl Day {
    // What the calendar says of a day number.
    pub(crate) fn of(number: i32) -> Day
        requires { InDays number }
        ensures month { result.month ≡ month_of number }
        ensures weekday { result.weekday ≡ weekday_of number }
        ensures date { result.date ≡ date_of number }
    {
        match date_of(number) {
            Ok((_, month, date)) => Day {
                month,
                weekday: weekday(number),
                date,
            },
            Err(_) => unreachable(),
        }
    }
}
