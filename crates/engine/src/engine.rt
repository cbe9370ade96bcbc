ghost use Rattle.engine.specs.Engines.{drafted};
ghost use Rattle.std.specs.Prelude.{◌≡◌, None};
ghost use Rattle.store.specs.Cells.{get_answer};

use clock::Clock;
use edit::Edit;
use refusal::Refusal;
use store::Store;
use summer::SummerRule;

// Owns a clock, a store and a rule, and the edit that stands open, if any.
#[derive(Drop)]
pub struct Engine<C, S, R> {
    pub(crate) clock: C,
    pub(crate) store: S,
    pub(crate) rule: R,
    pub(crate) edit: Option<Edit>,
}

impl<C: Clock, S: Store, R: SummerRule> Engine<C, S, R> {
    // An engine over these, with no edit open.
    pub fn new(clock: C, store: S, rule: R) -> Engine<C, S, R>
        ensures clock { result.clock ≡ clock }
        ensures store { result.store ≡ store }
        ensures rule { result.rule ≡ rule }
        ensures edit { drafted result.edit ≡ None }
    {
        Engine {
            clock,
            store,
            rule,
            edit: None,
        }
    }

    // Hands its parts back; an open edit is gone.
    pub fn into_parts(self) -> (C, S, R)
        ensures clock { result.0 ≡ self.clock }
        ensures store { result.1 ≡ self.store }
        ensures rule { result.2 ≡ self.rule }
    {
        let Engine {
            clock,
            store,
            rule,
            edit: _,
        } = self;
        (clock, store, rule)
    }

    // What a cell holds.
    pub fn get(&self, c: u32) -> Result<u32, Refusal>
        ensures { result ≡ get_answer (S.cells self.now.store) c }
    {
        self.store.get(c)
    }
}
