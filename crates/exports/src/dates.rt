ghost use Rattle.calendar.specs.Dates.{InDays, IsDate};
ghost use Rattle.std.specs.Prelude.{◌≡◌, ℤ};

use crate::fields::Date;
use calendar::{date_of, day_of};

// What stands for no day: C has no Option.
const NO_DAY: i32 = -1000;

// The date of a day, or the number of the refusal.
#[unsafe(no_mangle)]
pub extern "C" fn jezgwilon_date_of(day: i32) -> Date
    ensures answer { InDays day → (result.refusal ≡ 0) × IsDate day result.year result.month result.day }
    ensures refused { (InDays day → ⊥) → result.refusal ≡ 11 }
{
    match date_of(day) {
        Ok((year, month, day)) => Date {
            year,
            month,
            day,
            refusal: 0,
        },
        Err(why) => Date {
            year: 0,
            month: 0,
            day: 0,
            refusal: why.number(),
        },
    }
}

// The day of a date, or -1000.
#[unsafe(no_mangle)]
pub extern "C" fn jezgwilon_day_of(year: u16, month: u8, day: u8) -> i32
    ensures answer { InDays result → IsDate result year month day }
    ensures refused { (InDays result → ⊥) → (n : ℤ) → InDays n → IsDate n year month day → ⊥ }
{
    match day_of((year, month, day)) {
        Ok(day) => day,
        Err(_) => NO_DAY,
    }
}
