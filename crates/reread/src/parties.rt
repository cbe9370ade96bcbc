ghost use Rattle.std.specs.Prelude.{◌≡◌, min, length, take};
ghost use Rattle.history.specs.Book.{answers as answersTo};
ghost use Rattle.engine.specs.Book.{unedited};
ghost use Rattle.engine.specs.Looks.{look_answer};
ghost use Rattle.image.specs.Image.{image_cells};
ghost use Rattle.reread.specs.Found.{cells_after, meter_kind, time_after, unset};
ghost use Rattle.store.specs.Words.{word_cells};
ghost use Rattle.summer.specs.Laws.{europe};

use archive::{Parts, confirm};
use clock::{CounterClock, InstantClock};
use history::{Answer, Call};
use image::ImageStore;
use layers::Vouching;
use refusal::Refusal;
use schedule::Look;
use store::WordStore;
use summer::Europe;

// The meter lives its life, a reader is made over these cells at this time, and both are looked at.
pub(crate) fn looks(
    image: &mut [u8],
    calls: &[Call],
    answers: &mut [Answer],
    cells: &mut [u32],
    time: Option<u32>,
) -> (Result<Look, Refusal>, Result<Look, Refusal>)
    ensures answers { take (min (length calls.now) (length answers.old)) answers.new ≡ answersTo meter_kind europe unset (unedited (image_cells image.old)) (take (min (length calls.now) (length answers.old)) calls.now) }
    ensures meter { result.0 ≡ look_answer europe (cells_after image.old (take (min (length calls.now) (length answers.old)) calls.now)) (time_after (take (min (length calls.now) (length answers.old)) calls.now)) }
    ensures reader { result.1 ≡ look_answer europe (word_cells cells.old) time }
{
    let meter = Parts {
        clock: Vouching::new(CounterClock::new()),
        store: ImageStore::new(image),
        rule: Europe,
    };
    let reader = Parts {
        clock: InstantClock::from(time),
        store: WordStore::new(cells),
        rule: Europe,
    };
    let outcome = confirm(meter, calls, answers, reader);
    (outcome.shown, outcome.read)
}
