ghost use Rattle.keeper.specs.Best.{first_best};
ghost use Rattle.schedule.specs.Choices.{Returns};
ghost use Rattle.std.specs.Ordering.{is_lt};
ghost use Rattle.std.specs.Prelude.{◌≡◌, Bool, filter};

use keeper::{Keeper, Rank};

// Of the things that pass a test the one that ranks least; of equals the first.
// As `keeper`'s, which takes any order; here the order is total.
pub(crate) fn best_of<X, K, P, R>(things: &[X], passes: P, rank: R) -> Option<X>
where
    X: Copy + Drop,
    K: Rank + Drop,
    P: Fn(&X) -> bool,
    R: Fn(&X) -> K,
    requires passes { P.IsAlwaysCallable passes }
    requires rank { R.IsAlwaysCallable rank }
    ensures answer { (test : X → Bool) (key : X → K) → Returns P.Fn passes test → Returns R.Fn rank key → result ≡ first_best (λ x y. is_lt (K.cmp (key x) (key y))) (filter test things.now) }
{
    // By a rule of the project a keeper holds the best, where std has `min_by_key`.
    let mut keeper = Keeper::new();
    for thing in things {
        if passes(thing) {
            keeper.offer(rank(thing), *thing);
        }
    }
    keeper.best_place()
}
