ghost use Rattle.std.specs.Prelude.{◌+◌, ◌<◌, pos, negsuc, ◌≤ℤ◌, ◌<ℤ◌};
ghost use Rattle.calendar.specs.Dates.{DateOf, DayOf, SameDate, SameDay};
ghost use Rattle.calendar.specs.Months.{month_first_of};

use crate::months::{first, month_firsts};
use refusal::Refusal;

// The place of the month that a day lies in: the last that does not begin later. Seldom called, it is kept out of the way.
#[inline(never)]
fn searched(day: i32) -> usize
    requires from { negsuc 30 ≤ℤ day }
    requires to { day <ℤ pos 49732 }
    ensures within { result < 1635 }
    ensures begun { month_first_of result ≤ℤ day }
    ensures open { day <ℤ month_first_of (result + 1) }
{
    month_firsts().partition_point(|first| *first <= day) - 1
}

// The same, mostly without a search: 146,097 days are 4,800 months, which tells the place of 98 days in a hundred.
fn place_of(day: i32) -> usize
    requires from { negsuc 30 ≤ℤ day }
    requires to { day <ℤ pos 49732 }
    ensures within { result < 1635 }
    ensures begun { month_first_of result ≤ℤ day }
    ensures open { day <ℤ month_first_of (result + 1) }
{
    let near = ((day + 31) as usize * 4800 / 146_097).min(1634);
    if first(near) <= day && day < first(near + 1) {
        near
    } else {
        searched(day)
    }
}

// The year, month and day of a day number from -31 to 49,731.
pub fn date_of(day: i32) -> Result<(u16, u8, u8), Refusal>
    ensures { DateOf day result }
{
    if day < -31 || day > 49731 {
        return Err(Refusal::NoDate);
    }
    let place = place_of(day);
    let year = (1969 + (place + 11) / 12) as u16;
    let month = ((place + 11) % 12 + 1) as u8;
    let date = (day - first(place) + 1) as u8;
    Ok((year, month, date))
}

// The day number of a year, month and day, where the calendar has it.
pub fn day_of(date: (u16, u8, u8)) -> Result<i32, Refusal>
    ensures { DayOf date.0 date.1 date.2 result }
{
    let (year, month, day) = date;
    if month < 1 || month > 12 {
        return Err(Refusal::NoDate);
    }
    let months = year as usize * 12 + month as usize;
    if months < 23640 || months >= 25275 {
        return Err(Refusal::NoDate);
    }
    let begin = first(months - 23640);
    let end = first(months - 23640 + 1);
    if day < 1 || day as i32 > end - begin {
        return Err(Refusal::NoDate);
    }
    Ok(begin + (day as i32 - 1))
}

// To the date and back: the same day.
pub fn day_through_date(day: i32) -> Result<i32, Refusal>
    ensures { SameDay day result }
{
    day_of(date_of(day)?)
}

// To the day and back: the same date.
pub fn date_through_day(date: (u16, u8, u8)) -> Result<(u16, u8, u8), Refusal>
    ensures { SameDate date.0 date.1 date.2 result }
{
    date_of(day_of(date)?)
}
