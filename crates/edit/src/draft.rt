ghost use Rattle.std.specs.Prelude.{◌≡◌, true, false, [], ◌==◌, position};
ghost use Rattle.checks.specs.Rules.{first_fault};
ghost use Rattle.checks.specs.Words.{reading};
ghost use Rattle.edit.specs.Drafts.{note_answer, note_draft, overwritten};
ghost use Rattle.edit.specs.Edits.{draft_of};

use crate::edit::{Edit, MOST};
use crate::tables::copied;
use checks::{Fault, first_fault};
use layout::in_range;
use refusal::Refusal;
use store::{Entry, Store, put_each};

impl Edit {
    // An edit without values, unmarked.
    pub fn new() -> Edit
        ensures { draft_of result ≡ record { entries = []; marked = false } }
    {
        Edit {
            table: [Entry { cell: 0, value: 0 }; 64],
            count: 0,
            checked: false,
        }
    }

    fn entries(&self) -> &[Entry]
        ensures { result.now ≡ (draft_of self.now).entries }
    {
        &self.table[..self.count]
    }

    // Where the cell stands, if it is recorded.
    fn find(&self, c: u32) -> Option<usize>
        ensures { result ≡ position (λ e. e.cell == c) (draft_of self.now).entries }
    {
        self.entries().iter().position(|e| e.cell == c)
    }

    // Records a value for a cell, over an older one, and takes the mark away.
    pub fn put(&mut self, c: u32, v: u32) -> Result<(), Refusal>
        ensures answer { result ≡ note_answer (draft_of self.old) c v }
        ensures after { draft_of self.new ≡ note_draft (draft_of self.old) c v }
    {
        if !in_range(c, v) {
            return Err(Refusal::BadValue);
        }
        let place = self.find(c).unwrap_or(self.count);
        if place >= MOST {
            return Err(Refusal::EditFull);
        }
        self.table[place] = Entry { cell: c, value: v };
        self.count = self.count.max(place + 1);
        self.checked = false;
        Ok(())
    }

    // Marks the edit as checked.
    pub fn mark(&mut self)
        ensures { draft_of self.new ≡ record { entries = (draft_of self.old).entries; marked = true } }
    {
        self.checked = true;
    }

    // Whether it is marked.
    pub fn marked(&self) -> bool
        ensures { result ≡ (draft_of self.now).marked }
    {
        self.checked
    }

    // The first fault of the tables as they would stand after the commit.
    pub fn fault_in<S: Store>(&self, store: &S) -> Option<Fault>
        ensures { result ≡ first_fault (reading (overwritten (S.cells store.now) (draft_of self.now).entries)) }
    {
        let mut t = copied(store);
        let size = store.size();
        for e in self.entries() {
            if e.cell < size {
                t[e.cell as usize] = e.value;
            }
        }
        first_fault(&t)
    }

    // Writes each entry into the store, and nothing else.
    pub fn write_into<S: Store>(&self, store: &mut S)
        ensures after { S.cells store.new ≡ overwritten (S.cells store.old) (draft_of self.now).entries }
        ensures same { S.memory store.new ≡ S.memory store.old }
    {
        // none is refused, since each fits
        let _ = put_each(store, self.entries());
    }
}
