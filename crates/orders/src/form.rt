ghost use Rattle.orders.specs.Form.{fault_of, form};
ghost use Rattle.orders.specs.Written.{FaultOnly, Means, WrittenReads};
ghost use Rattle.std.specs.Prelude.{◌≡◌};

use crate::command::next_command;

// The place of the first fault in an order's form, or none: then the bytes are Open, some Puts and Checks, and Commit or Discard.
#[tactic(auto, using(crate::proofs::Meaning::form_means, crate::proofs::Back::written_reads))]
pub fn fault(order: &[u8]) -> Option<usize>
    ensures answer { result ≡ fault_of (form order.now) }
    ensures means { Means order.now (form order.now) }
    ensures back { WrittenReads }
    ensures only { FaultOnly }
{
    let mut rest = order;
    while let Some((command, next)) = next_command(rest) {
        let place = order.len() - rest.len();
        if !command.stands(place, next.len()) {
            return Some(place);
        }
        if command.closes() {
            return None;
        }
        rest = next;
    }
    Some(order.len() - rest.len())
}
