ghost use Rattle.localtime.specs.Weekdays.{WeekdaysTurn, weekday_of};
ghost use Rattle.std.specs.Prelude.{◌≡◌};

// The weekday of a day number, 1 for Sunday to 7 for Saturday.
#[tactic(auto, using(crate::proofs::Weeks::turns), unfolding(crate::specs::Weekdays::weekday_of))]
pub fn weekday(day: i32) -> u8
    ensures answer { result ≡ weekday_of day }
    ensures turns { WeekdaysTurn }
{
    // day 0 is a Thursday, four days after a Sunday
    (i64::from(day) + 4).rem_euclid(7) as u8 + 1
}
