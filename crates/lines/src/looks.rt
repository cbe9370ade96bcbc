ghost use Rattle.tables.specs.Cells.{cell_at, timetable};
ghost use Rattle.tables.specs.Filled.{timetable_in};
ghost use Rattle.schedule.specs.Looks.{look_of};
ghost use Rattle.image.specs.Image.{image_cells};
ghost use Rattle.summer.specs.Laws.{europe};
ghost use Rattle.std.specs.Prelude.{◌≡◌};

use engine::tables_of;
use image::ImageStore;
use schedule::{Look, look};
use summer::Europe;
use tables::Tables;

// The tables of an image, decoded once for all its seconds.
pub(crate) fn tables_in(image: &mut [u8]) -> Tables
    ensures { timetable_in result ≡ timetable (cell_at (image_cells image.old)) }
{
    let store = ImageStore::new(image);
    tables_of(&store)
}

// The look at a second under the European law.
pub(crate) fn look_at(tables: &Tables, second: u32) -> Look
    ensures { result ≡ look_of (timetable_in tables.now) europe second }
{
    look(tables, &Europe, second)
}
