ghost use Rattle.history.specs.Book.{kept};
ghost use Rattle.engine.specs.Book.{unedited};
ghost use Rattle.engine.specs.Engines.{state_of};
ghost use Rattle.store.specs.Words.{word_cells, word_rest};
ghost use Rattle.std.specs.Prelude.{◌≡◌, ◌++◌};

use clock::{InstantClock, SettableClock};
use engine::Engine;
use history::{Call, perform};
use layers::Unset;
use store::{Store, WordStore};
use summer::{NoSummer, SummerRule};

// Works out the cells that a history leaves, in the words that hold the cells of its making.
pub fn cells_after(words: &mut [u32], calls: &[Call])
    ensures memory { words.new ≡ (kept (unedited (word_cells words.old)) calls.now).cells ++ word_rest words.old }
{
    let _words = kept_in(words, calls);
}

// The memory is handed back, for its lender to know what it holds: let go in the same function, it is unknown afterwards.
fn kept_in<'a>(words: &'a mut [u32], calls: &[Call]) -> &'a mut [u32]
    ensures memory { result.now ≡ (kept (unedited (word_cells words.old)) calls.now).cells ++ word_rest words.old }
    ensures home { result.ghost_name ≡ words.entry.ghost_name }
{
    let clock = Unset::new(InstantClock::new(0));
    let mut book = Engine::new(clock, WordStore::new(words), NoSummer);
    enter_each(&mut book, calls);
    let (_, store, _) = book.into_parts();
    store.into_memory()
}

// Enters each call. What it answers is let go: a book is not fed answers.
fn enter_each<C: SettableClock, S: Store, R: SummerRule>(book: &mut Engine<C, S, R>, calls: &[Call])
    ensures book { state_of S.cells book.new ≡ kept (state_of S.cells book.old) calls.now }
    ensures memory { S.memory book.new.store ≡ S.memory book.old.store }
{
    for call in calls {
        let _ = perform(book, *call);
    }
}
