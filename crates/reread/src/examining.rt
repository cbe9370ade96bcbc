ghost use Rattle.reread.specs.Found.{Found};
ghost use Rattle.std.specs.Prelude.{IfOk};

use crate::booked::{booked_cells, booked_time};
use crate::parties::looks;
use history::{Answer, Call};
use refusal::Refusal;
use schedule::Look;
use std::alloc::{AllocError, Global};

// What is found: the answer to each call, and the looks of the meter and of the archive's reader.
#[derive(Drop)]
pub struct Findings {
    pub answers: Vec<Answer>,
    pub meter: Result<Look, Refusal>,
    pub reader: Result<Look, Refusal>,
}

// A meter lives a life on the image that is lent to it; a reader is made by the book of that life alone; both are looked at.
pub fn examine(heap: Global, image: &mut [u8], calls: &[Call]) -> Result<Findings, AllocError>
    ensures { IfOk result (λ f. Found image.old calls.now f.answers.items f.meter f.reader) }
{
    let mut cells = booked_cells(heap, image, calls)?;
    let time = booked_time(calls);
    let mut answers = vec![in heap; Answer::Done; calls.len()]?;
    let (meter, reader) = looks(
        image,
        calls,
        answers.as_mut_slice(),
        cells.as_mut_slice(),
        time,
    );
    Ok(Findings {
        answers,
        meter,
        reader,
    })
}
