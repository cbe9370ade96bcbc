ghost use Rattle.std.specs.Prelude.{◌≡◌, ◌<◌};
ghost use Rattle.summer.specs.Sundays.{first_day, first_sunday, last_sunday};

use calendar::month_first;

// The day number of a month's first, January 1970 being month 0.
fn first_day(month: usize) -> u32
    requires { month < 1635 }
    ensures value { result ≡ first_day month }
    ensures small { result < 2147483648 }
{
    match month_first(month + 1) {
        Some(day) => day as u32,
        None => unreachable(),
    }
}

// The last Sunday of a month.
pub(crate) fn last_sunday(month: usize) -> u32
    requires { month < 1634 }
    ensures { result ≡ last_sunday month }
{
    let end = first_day(month + 1);
    end - 1 - (end + 3) % 7
}

// The first Sunday of a month; a week after it is the second.
pub(crate) fn first_sunday(month: usize) -> u32
    requires { month < 1635 }
    ensures { result ≡ first_sunday month }
{
    let begin = first_day(month);
    begin + (6 - (begin + 3) % 7)
}
