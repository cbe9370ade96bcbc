ghost use Rattle.std.specs.Prelude.{◌≡◌, ℕ, Bool, ℤ};
ghost use Rattle.keeper.specs.Least.{changes, least_later};
ghost use Rattle.summer.specs.Zone.{zone};

// A rule means, for each offset and each second, summer time in force or not.
pub trait SummerRule {
    ghost in_force: { Self → ℤ → ℕ → Bool };

    // Whether summer time is in force at an offset and a second.
    fn in_force(&self, offset: i32, second: u32) -> bool
        ensures { result ≡ in_force self.now offset second };

    // The smallest later second whose answer differs from that of the second before it, or that there is none.
    fn next_change(&self, offset: i32, second: u32) -> Option<u32>
        ensures { result ≡ least_later (changes (in_force self.now offset)) second 4294967295 };

    // An offset beyond twelve hours counts as 0.
    ghost zoned: { (r : Self) (o : ℤ) (s : ℕ) → in_force r o s ≡ in_force r (zone o) s };
}
