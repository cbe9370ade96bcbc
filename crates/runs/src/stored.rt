ghost use Rattle.runs.specs.Stored.{first_run};
ghost use Rattle.std.specs.Prelude.{◌≡◌, length, Some, None};
ghost use Rattle.std.specs.Iterator.{at_most};

// The runs in turn, up to the first that is not all there.
#[derive(Drop)]
pub struct Runs<'a> {
    rest: &'a [u8],
}

impl<'a> Runs<'a> {
    pub fn new(bytes: &'a [u8]) -> Runs<'a>
        ensures { result.rest.now ≡ bytes.now }
    {
        Runs { rest: bytes }
    }
}

impl<'a> Iterator for Runs<'a> {
    type Item = &'a [u8];

    ghost next_gives = { λ before run after. elim run [ Some r ↦ first_run before.rest.now ≡ Some (r.now, after.rest.now) | None ↦ (first_run before.rest.now ≡ None) × (after.rest.now ≡ before.rest.now) ] };

    ghost remaining = { λ runs. at_most (length runs.rest.now) };

    fn next(&mut self) -> Option<&'a [u8]> {
        let [a, b, c, d, rest @ ..] = self.rest else {
            return None;
        };
        let size = u32::from_be_bytes([*a, *b, *c, *d]) as usize;
        let (run, after) = rest.split_at_checked(size)?;
        self.rest = after;
        Some(run)
    }
}
