ghost use Rattle.engine.specs.Book.{unedited};
ghost use Rattle.runner.specs.Run.{ran, ran_answer};
ghost use Rattle.image.specs.Image.{image_cells, image_of, image_rest};
ghost use Rattle.std.specs.Prelude.{◌≡◌, ◌++◌};

use crate::running::run;
use crate::stopped::Stopped;
use clock::InstantClock;
use engine::Engine;
use image::ImageStore;
use summer::NoSummer;

// Runs a work order on an image: its lender knows afterwards every byte of it.
pub fn run_on_image(image: &mut [u8], order: &[u8]) -> Result<(), Stopped>
    ensures answer { result ≡ ran_answer (unedited (image_cells image.old)) order.now }
    ensures memory { image.new ≡ image_of (ran (unedited (image_cells image.old)) order.now).cells ++ image_rest image.old }
{
    let (answer, _image) = image_after(image, order);
    answer
}

// The memory is handed back, for its lender to know what it holds: let go in the same function, it is unknown afterwards.
fn image_after<'a>(image: &'a mut [u8], order: &[u8]) -> (Result<(), Stopped>, &'a mut [u8])
    ensures answer { result.0 ≡ ran_answer (unedited (image_cells image.old)) order.now }
    ensures memory { result.1.now ≡ image_of (ran (unedited (image_cells image.old)) order.now).cells ++ image_rest image.old }
    ensures home { result.1.ghost_name ≡ image.entry.ghost_name }
{
    let mut engine = Engine::new(InstantClock::new(0), ImageStore::new(image), NoSummer);
    let answer = run(&mut engine, order);
    let (_, store, _) = engine.into_parts();
    (answer, store.into_memory())
}
