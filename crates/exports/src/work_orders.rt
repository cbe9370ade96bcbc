ghost use Rattle.runner.specs.Run.{ran, ran_answer};
ghost use Rattle.exports.specs.Crossing.{outcome_of, unopened};
ghost use Rattle.image.specs.Image.{image_cells, image_of, image_rest};
ghost use Rattle.std.specs.Prelude.{◌≡◌, ◌++◌};

use crate::fields::Outcome;
use runner::run_on_image;

// Runs a work order on an image, whole or cut short, with no edit open before.
#[unsafe(no_mangle)]
pub extern "C" fn jezgwilon_run(image: &mut [u8], order: &[u8]) -> Outcome
    ensures answer { result ≡ outcome_of (ran_answer (unopened (image_cells image.old)) order.now) }
    ensures memory { image.new ≡ image_of (ran (unopened (image_cells image.old)) order.now).cells ++ image_rest image.old }
{
    Outcome::from(run_on_image(image, order))
}
