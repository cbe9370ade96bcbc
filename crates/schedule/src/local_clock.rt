ghost use Rattle.localtime.specs.Local.{day_of};
ghost use Rattle.schedule.specs.Boundaries.{local_at};
ghost use Rattle.schedule.specs.Candidates.{next_change};
ghost use Rattle.schedule.specs.Clocks.{IsLocalDay, IsLocalTime, setting_by};
ghost use Rattle.schedule.specs.Moments.{IsMoment};
ghost use Rattle.std.specs.Prelude.{◌≡◌, ◌&&◌};

use crate::moment::Moment;
use localtime::{day_number, local_time, time_of_day};
use summer::SummerRule;
use tables::Tables;

// The tables and the rule that local time goes by.
#[derive(Drop)]
pub(crate) struct LocalClock<'a, R> {
    pub(crate) tables: &'a Tables,
    pub(crate) rule: &'a R,
}

fn day_at(local_time: i64) -> i32
    requires { IsLocalTime local_time }
    ensures answer { result ≡ day_of local_time }
    ensures near { IsLocalDay result }
{
    day_number(local_time) as i32
}

impl<R: SummerRule> LocalClock<'_, R> {
    fn in_summer(&self, second: u32) -> bool
        ensures { let z = setting_by R.SummerRule.in_force self.now in result ≡ (z.summer && z.in_force second) }
    {
        self.tables.summer && self.rule.in_force(self.tables.offset, second)
    }

    // The rule's next change, where summer time is on.
    #[tactic(auto, unfolding(crate::specs::Candidates::next_change))]
    pub(crate) fn next_change(&self, second: u32) -> Option<u32>
        ensures { result ≡ next_change (setting_by R.SummerRule.in_force self.now) second }
    {
        if self.tables.summer {
            self.rule.next_change(self.tables.offset, second)
        } else {
            None
        }
    }

    // Local time: the calendar has every day that it can reach.
    fn local_at(&self, second: u32) -> i64
        ensures answer { result ≡ local_at (setting_by R.SummerRule.in_force self.now) second }
        ensures reach { IsLocalTime result }
    {
        local_time(second, self.tables.offset, self.in_summer(second))
    }

    #[tactic(auto, unfolding(crate::specs::Boundaries::day_at, crate::specs::Boundaries::time_at))]
    pub(crate) fn moment(&self, second: u32) -> Moment
        ensures { IsMoment (setting_by R.SummerRule.in_force self.now) second result }
    {
        let local_time = self.local_at(second);
        Moment {
            local_time,
            day: day_at(local_time),
            time: time_of_day(local_time),
        }
    }
}
