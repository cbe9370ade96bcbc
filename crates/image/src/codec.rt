ghost use Rattle.std.specs.Prelude.{◌≡◌, ℕ, ◌++◌, IfOk};
ghost use Rattle.image.specs.Image.{Faithful, image_cells, image_of, image_rest};
ghost use Rattle.store.specs.Words.{word_cells};

use crate::image::Image;
use layout::width;
use std::alloc::{AllocError, Global};
use store::cells_in;
use store::total::TotalFormat;

// The cells of an image; encoded again, before the bytes past them, they are the image.
pub fn decode(heap: Global, image: &[u8]) -> Result<Vec<u32>, AllocError>
    ensures answer { IfOk result (λ v. v.items ≡ image_cells image.now) }
    ensures trip { image_of (image_cells image.now) ++ image_rest image.now ≡ image.now }
{
    let mut cells = Vec::new(heap);
    // a loop, since over `map_while(..).collect(heap)` the goal `returns-clause-answer` stayed open
    for c in 0..Image::count(image) {
        cells.push(Image::read(image, c).unwrap_or(0))?;
    }
    Ok(cells)
}

// The image of some cells, at most as many as an image has; decoded again, it is the cells.
#[tactic(auto, unfolding(crate::specs::Image::encode_from))]
pub fn encode(heap: Global, cells: &[u32]) -> Result<Vec<u8>, AllocError>
    ensures answer { IfOk result (λ v. v.items ≡ image_of (word_cells cells.now)) }
    ensures trip { Faithful (word_cells cells.now) }
{
    let mut image = Vec::new(heap);
    for (c, cell) in cells_in(cells).iter().enumerate() {
        image.extend_from_slice(&cell.to_be_bytes()[4 - width(c as u32)..])?;
    }
    Ok(image)
}
