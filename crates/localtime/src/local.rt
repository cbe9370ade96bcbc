ghost use Rattle.localtime.specs.Local.{Falls, day_of, local_time_of, time_of};
ghost use Rattle.std.specs.Prelude.{◌≡◌};

// The second plus the offset, and an hour more in summer. It may be negative and is never wrapped.
#[tactic(auto, unfolding(crate::specs::Local::local_time_of))]
pub fn local_time(second: u32, offset: i32, summer: bool) -> i64
    ensures { result ≡ local_time_of second offset summer }
{
    let standard = i64::from(second) + i64::from(offset);
    if summer { standard + 3600 } else { standard }
}

// The day on which a local time falls.
#[tactic(auto, using(crate::proofs::Floors::falls), unfolding(crate::specs::Local::day_of, crate::specs::Local::time_of))]
pub fn day_number(local: i64) -> i64
    ensures answer { result ≡ day_of local }
    ensures falls { Falls local (day_of local) (time_of local) }
{
    local.div_euclid(86400)
}

// The second of that day.
#[tactic(auto, using(crate::proofs::Floors::falls), unfolding(crate::specs::Local::time_of))]
pub fn time_of_day(local: i64) -> u32
    ensures answer { result ≡ time_of local }
    ensures falls { Falls local (day_of local) (time_of local) }
{
    local.rem_euclid(86400) as u32
}
