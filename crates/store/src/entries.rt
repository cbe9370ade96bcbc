ghost use Rattle.store.specs.Entries.{InRange, overwritten, puts_answer, puts_cells};
ghost use Rattle.std.specs.Prelude.{◌≡◌};

use crate::entry::Entry;
use crate::store::Store;
use refusal::Refusal;

// Puts each entry in turn, and answers the first refusal, if any. A refused entry changes nothing, and the next one is put.
pub fn put_each<S: Store>(store: &mut S, entries: &[Entry]) -> Result<(), Refusal>
    ensures answer { result ≡ puts_answer (S.cells store.old) (S.memory store.old).width entries.now }
    ensures after { S.cells store.new ≡ puts_cells (S.cells store.old) (S.memory store.old).width entries.now }
    ensures range { InRange entries.now → S.cells store.new ≡ overwritten (S.cells store.old) entries.now }
    ensures same { S.memory store.new ≡ S.memory store.old }
{
    let mut outcome = Ok(());
    for entry in entries {
        let answer = store.put(entry.cell, entry.value);
        outcome = outcome.and(answer);
    }
    outcome
}
