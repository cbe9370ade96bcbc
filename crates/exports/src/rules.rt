ghost use Rattle.exports.specs.Crossing.{in_force_by, rule_at, second_or};
ghost use Rattle.exports.specs.Zones.{zoned_by};
ghost use Rattle.keeper.specs.Least.{changes, least_later};
ghost use Rattle.std.specs.Prelude.{◌≡◌};

use crate::law::Law;
use summer::{America, Europe, NoSummer, SummerRule};

// Whatever law was chosen.
impl SummerRule for Law {
    ghost in_force = { in_force_by };

    ghost zoned = { zoned_by };

    fn in_force(&self, offset: i32, second: u32) -> bool {
        match self {
            Law::Europe => Europe.in_force(offset, second),
            Law::America => America.in_force(offset, second),
            Law::NoSummer => NoSummer.in_force(offset, second),
        }
    }

    fn next_change(&self, offset: i32, second: u32) -> Option<u32> {
        match self {
            Law::Europe => Europe.next_change(offset, second),
            Law::America => America.next_change(offset, second),
            Law::NoSummer => NoSummer.next_change(offset, second),
        }
    }
}

impl From<u8> for Law {
    ghost from_gives = { λ number law. in_force_by law ≡ rule_at number };

    fn from(number: u8) -> Law {
        match number {
            1 => Law::Europe,
            2 => Law::America,
            _ => Law::NoSummer,
        }
    }
}

// Whether summer time is in force by the rule of a number: 1 is Europe's, 2 is America's, every other is none.
#[unsafe(no_mangle)]
pub extern "C" fn jezgwilon_in_force(rule: u8, offset: i32, second: u32) -> bool
    ensures answer { result ≡ rule_at rule offset second }
{
    Law::from(rule).in_force(offset, second)
}

// The rule's next change, or -1 if there is none: C has no Option.
#[unsafe(no_mangle)]
pub extern "C" fn jezgwilon_next_change(rule: u8, offset: i32, second: u32) -> i64
    ensures answer { result ≡ second_or (least_later (changes (rule_at rule offset)) second 4294967295) }
{
    match Law::from(rule).next_change(offset, second) {
        Some(change) => i64::from(change),
        None => -1,
    }
}
