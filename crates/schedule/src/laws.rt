ghost use Rattle.std.specs.Prelude.{◌≡◌, ◌-◌, ◌≤◌};
ghost use Rattle.tables.specs.Filled.{timetable_in};
ghost use Rattle.schedule.specs.Laws.{Laws};
ghost use Rattle.schedule.specs.Looks.{SameRule, look_at, look_of, onward};

use crate::answer::Look;
use crate::looking::look;
use summer::SummerRule;
use tables::Tables;

// The looks at two seconds: from the first up to its look's last, all but local time repeats, and that is later by exactly the seconds between.
pub fn look_twice<R: SummerRule>(tables: &Tables, rule: &R, second: u32, later: u32) -> (Look, Look)
    ensures first { result.0 ≡ look_of (timetable_in tables.now) (R.SummerRule.in_force rule.now) second }
    ensures then { result.1 ≡ look_of (timetable_in tables.now) (R.SummerRule.in_force rule.now) later }
    ensures steady { second ≤ later → later ≤ result.0.last_second → result.1 ≡ onward (later - second) result.0 }
{
    looks_at(tables, rule, second, later)
}

// The same, with its proof: so an edit of the public call is refused for what it says, and not for its proof.
fn looks_at<R: SummerRule>(tables: &Tables, rule: &R, second: u32, later: u32) -> (Look, Look)
    ensures first { result.0 ≡ look_of (timetable_in tables.now) (R.SummerRule.in_force rule.now) second }
    ensures then { result.1 ≡ look_of (timetable_in tables.now) (R.SummerRule.in_force rule.now) later }
    ensures steady { second ≤ later → later ≤ result.0.last_second → result.1 ≡ onward (later - second) result.0 }
{
    (look(tables, rule, second), look(tables, rule, later))
}

// The looks of the same cells under two rules: where these mean the same, the looks are equal.
#[tactic(auto, using(crate::proofs::Both::of_cells, crate::proofs::Both::seen_alike))]
pub fn look_by_both<R: SummerRule, Q: SummerRule>(
    cells: &[u32],
    rule: &R,
    other: &Q,
    second: u32,
) -> (Look, Look)
    ensures first { result.0 ≡ look_at cells.now (R.SummerRule.in_force rule.now) second }
    ensures then { result.1 ≡ look_at cells.now (Q.SummerRule.in_force other.now) second }
    ensures same { SameRule (R.SummerRule.in_force rule.now) (Q.SummerRule.in_force other.now) → result.0 ≡ result.1 }
{
    let tables = Tables::new(cells);
    (look(&tables, rule, second), look(&tables, other, second))
}

// The last second up to which the look at a second stays, with what holds of all looks.
#[tactic(auto, using(crate::proofs::Both::laws))]
pub fn last_second_of<R: SummerRule>(tables: &Tables, rule: &R, second: u32) -> u32
    ensures answer { result ≡ (look_of (timetable_in tables.now) (R.SummerRule.in_force rule.now) second).last_second }
    ensures laws { Laws }
{
    look(tables, rule, second).last_second
}
