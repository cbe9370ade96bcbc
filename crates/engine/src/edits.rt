ghost use Rattle.engine.specs.Book.{answer, step};
ghost use Rattle.engine.specs.Engines.{OnlyCells, OnlyEdit, opened, state_of};
ghost use Rattle.orders.specs.declared.command.Command.TheVariants.{Open, Put, Check, Commit, Discard};
ghost use Rattle.std.specs.Prelude.{◌≡◌};

use crate::engine::Engine;
use crate::ticket::Ticket;
use clock::Clock;
use edit::Edit;
use refusal::Refusal;
use store::Store;
use summer::SummerRule;

impl<C: Clock, S: Store, R: SummerRule> Engine<C, S, R> {
    // Opens an edit, and hands out a ticket for it.
    pub fn open(&mut self) -> Result<Ticket, Refusal>
        ensures answer { opened result ≡ answer (state_of S.cells self.old) Open }
        ensures after { state_of S.cells self.new ≡ step (state_of S.cells self.old) Open }
        ensures same { OnlyEdit self.old self.new }
    {
        if self.edit.is_some() {
            return Err(Refusal::EditOpen);
        }
        self.edit = Some(Edit::new());
        Ok(Ticket::new())
    }

    // Records a value for a cell in the open edit.
    pub fn put(&mut self, _ticket: &Ticket, c: u32, v: u32) -> Result<(), Refusal>
        ensures answer { result ≡ answer (state_of S.cells self.old) (Put c v) }
        ensures after { state_of S.cells self.new ≡ step (state_of S.cells self.old) (Put c v) }
        ensures same { OnlyEdit self.old self.new }
    {
        let edit = self.edit.as_mut().ok_or(Refusal::NoEdit)?;
        if c >= self.store.size() {
            return Err(Refusal::NoCell);
        }
        edit.put(c, v)
    }

    // Examines the tables as they would stand after the commit, and marks a good edit.
    pub fn check(&mut self) -> Result<(), Refusal>
        ensures answer { result ≡ answer (state_of S.cells self.old) Check }
        ensures after { state_of S.cells self.new ≡ step (state_of S.cells self.old) Check }
        ensures same { OnlyEdit self.old self.new }
    {
        let edit = self.edit.as_mut().ok_or(Refusal::NoEdit)?;
        if let Some(fault) = edit.fault_in(&self.store) {
            return Err(fault.into());
        }
        edit.mark();
        Ok(())
    }

    // Writes a checked edit into the store and closes it; an unchecked one is discarded.
    pub fn commit(&mut self, ticket: Ticket) -> Result<(), Refusal>
        ensures answer { result ≡ answer (state_of S.cells self.old) Commit }
        ensures after { state_of S.cells self.new ≡ step (state_of S.cells self.old) Commit }
        ensures same { OnlyCells S.memory self.old self.new }
    {
        ticket.spend();
        let edit = self.edit.take().ok_or(Refusal::NoEdit)?;
        if !edit.marked() {
            return Err(Refusal::NotChecked);
        }
        edit.write_into(&mut self.store);
        Ok(())
    }

    // Closes the edit unwritten.
    pub fn discard(&mut self, ticket: Ticket) -> Result<(), Refusal>
        ensures answer { result ≡ answer (state_of S.cells self.old) Discard }
        ensures after { state_of S.cells self.new ≡ step (state_of S.cells self.old) Discard }
        ensures same { OnlyEdit self.old self.new }
    {
        ticket.spend();
        self.clear()
    }

    // Closes an open edit without a ticket, as one does that a shift left open: a call of its own, though it answers like Discard.
    pub fn clear(&mut self) -> Result<(), Refusal>
        ensures answer { result ≡ answer (state_of S.cells self.old) Discard }
        ensures after { state_of S.cells self.new ≡ step (state_of S.cells self.old) Discard }
        ensures same { OnlyEdit self.old self.new }
    {
        self.edit.take().ok_or(Refusal::NoEdit)?;
        Ok(())
    }
}
