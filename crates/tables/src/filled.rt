ghost use Rattle.std.specs.Prelude.{◌≡◌, ◌+◌, ◌<◌, [], ◌∷◌, ◌++◌};
ghost use Rattle.tables.specs.Filled.{things_in};

use crate::list::Listed;

impl<T: Copy + Default, const N: usize> Listed<T, N> {
    // No things yet.
    pub(crate) fn new() -> Listed<T, N>
        ensures answer { things_in result ≡ [] }
        ensures empty { result.count ≡ 0 }
    {
        Listed {
            places: [T::default(); N],
            count: 0,
        }
    }

    // One more thing, behind the others.
    pub(crate) fn push(&mut self, thing: T)
        requires { self.old.count < N }
        ensures after { things_in self.new ≡ things_in self.old ++ (thing ∷ []) }
        ensures count { self.new.count ≡ self.old.count + 1 }
    {
        self.places[self.count] = thing;
        self.count += 1;
    }

    pub(crate) fn as_slice(&self) -> &[T]
        ensures answer { result.now ≡ things_in self.now }
    {
        &self.places[..self.count]
    }
}
