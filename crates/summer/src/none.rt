ghost use Rattle.std.specs.Prelude.{false};
ghost use Rattle.std.proofs.Common.{rules};

use crate::rule::SummerRule;

// Never.
#[derive(Clone, Copy)]
pub struct NoSummer;

impl SummerRule for NoSummer {
    ghost in_force = { λ r o s. false };

    ghost zoned = { Prim.search rules };

    fn in_force(&self, offset: i32, second: u32) -> bool {
        false
    }

    fn next_change(&self, offset: i32, second: u32) -> Option<u32> {
        None
    }
}
