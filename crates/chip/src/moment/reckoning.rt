ghost use Rattle.std.specs.Prelude.{◌≡◌, ◌-◌, pos, Some};
ghost use Rattle.calendar.specs.Dates.{IsDate};
ghost use Rattle.chip.specs.Chip.{Reckoned, chip_meaning, second_at};
ghost use Rattle.chip.specs.Moment.{Within, chip_first, chip_last, days_to};
ghost use Rattle.clock.specs.Time.{passed};

use crate::moment::{FIRST, LAST, Moment};
use calendar::{date_of, day_of};
use refusal::Refusal;

// The date and time at a second of 2000 to 2099.
impl TryFrom<u32> for Moment {
    type Error = Refusal;

    ghost try_from_gives = { Reckoned };

    fn try_from(second: u32) -> Result<Moment, Refusal> {
        if second < FIRST || second > LAST {
            return Err(Refusal::TimeNotTaken);
        }
        let Ok((year, month, day)) = date_of((second / 86_400) as i32) else {
            unreachable()
        };
        Ok(Moment {
            year,
            month,
            day,
            hour: (second / 3_600 % 24) as u8,
            minute: (second / 60 % 60) as u8,
            second: (second % 60) as u8,
        })
    }
}

impl Moment {
    // The days from 1970 to this date.
    fn days(&self) -> u32
        ensures answer { result ≡ days_to self.now.year self.now.month self.now.day }
        ensures dated { IsDate (pos result) self.now.year self.now.month self.now.day }
        ensures within { Within 10957 result 47481 }
    {
        match day_of((self.year, self.month, self.day)) {
            Ok(days) => days as u32,
            Err(_) => unreachable(),
        }
    }

    // The second at this date and time.
    pub fn second(&self) -> u32
        ensures answer { result ≡ second_at self.now }
        ensures within { Within chip_first result chip_last }
    {
        let hours = self.days() * 24 + self.hour as u32;
        let minutes = hours * 60 + self.minute as u32;
        minutes * 60 + self.second as u32
    }

    // The date and time n seconds later, or none past 2099.
    pub fn later(&self, n: u32) -> Option<Moment>
        ensures answer { chip_meaning result ≡ passed (Some (second_at self.now), chip_last - second_at self.now) n }
    {
        Moment::try_from(self.second().checked_add(n)?).ok()
    }
}
