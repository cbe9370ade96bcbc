ghost use Rattle.keeper.specs.Best.{IsFirstBest, first_best, keep_one};
ghost use Rattle.keeper.specs.Offers.{place_of, ranked};
ghost use Rattle.std.specs.Prelude.{◌≡◌, List, [], ◌∷◌, ◌++◌};

use crate::offer::Offer;

// The least rank that was offered, with its place: of equals the first offered stays.
#[derive(Drop)]
pub struct Keeper<K, P> {
    best: Option<Offer<K, P>>,
}

impl<K: Ord + Drop, P: Drop> Keeper<K, P> {
    // Before any offer there is no best one.
    pub fn new() -> Self
        ensures answer { result.best ≡ first_best (ranked K.cmp) [] }
    {
        Keeper { best: None }
    }

    // Keeps an offer that is less than what is kept.
    fn keep(&mut self, rank: K, place: P)
        ensures after { self.new.best ≡ keep_one (ranked K.cmp) self.old.best (record { rank = rank; place = place }) }
    {
        if self.best.as_ref().is_none_or(|best| rank < best.rank) {
            self.best = Some(Offer { rank, place });
        }
    }

    // If the first best of some offers was kept, now it is that of these and one more.
    #[tactic(auto, using(crate::proofs::Ranked::kept))]
    pub fn offer(&mut self, rank: K, place: P)
        ensures after { (xs : List (Offer K P)) → self.old.best ≡ first_best (ranked K.cmp) xs → self.new.best ≡ first_best (ranked K.cmp) (xs ++ (record { rank = rank; place = place } ∷ [])) }
    {
        self.keep(rank, place);
    }

    // The best of what was offered: no offer beats it, and it beats each offer before it.
    #[tactic(auto, using(crate::proofs::Ranked::means))]
    pub fn best(self) -> Option<Offer<K, P>>
        ensures answer { result ≡ self.best }
        ensures means { (xs : List (Offer K P)) → self.best ≡ first_best (ranked K.cmp) xs → IsFirstBest (ranked K.cmp) xs result }
    {
        let Keeper { best } = self;
        best
    }

    // The place that the best came from.
    pub fn best_place(self) -> Option<P>
        ensures answer { result ≡ place_of self.best }
    {
        self.best.map(|best| best.place)
    }
}
