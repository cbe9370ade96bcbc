ghost use Rattle.std.specs.Prelude.{◌≡◌, min, map, length, take, drop};
ghost use Rattle.exports.specs.Crossing.{fields_of, rule_at};
ghost use Rattle.tables.specs.Cells.{cell_at, timetable};
ghost use Rattle.tables.specs.Filled.{timetable_in};
ghost use Rattle.schedule.specs.Looks.{look_at, look_of};
ghost use Rattle.image.specs.Image.{image_cells};

use crate::fields::Fields;
use crate::law::Law;
use engine::tables_of;
use image::ImageStore;
use schedule::look;
use tables::Tables;

// The tables of an image, and its memory back, as it was.
fn opened<'a>(image: &'a mut [u8]) -> (Tables, &'a mut [u8])
    ensures answer { timetable_in result.0 ≡ timetable (cell_at (image_cells image.old)) }
    ensures same { result.1.now ≡ image.old }
    ensures home { result.1.ghost_name ≡ image.entry.ghost_name }
{
    let store = ImageStore::new(image);
    (tables_of(&store), store.into_memory())
}

// The look under the law of a number: 1 is Europe's, 2 is America's, every other is none.
fn seen(tables: &Tables, rule: u8, second: u32) -> Fields
    ensures { result ≡ fields_of (look_of (timetable_in tables.now) (rule_at rule) second) }
{
    Fields::from(look(tables, &Law::from(rule), second))
}

// The look at a second of an image, whole or cut short.
#[unsafe(no_mangle)]
pub extern "C" fn jezgwilon_look(image: &mut [u8], rule: u8, second: u32) -> Fields
    ensures answer { result ≡ fields_of (look_at (image_cells image.old) (rule_at rule) second) }
    ensures same { image.new ≡ image.old }
{
    let (tables, _image) = opened(image);
    seen(&tables, rule, second)
}

// The looks at the seconds in turn, as far as there are places for them.
fn seen_each(tables: &Tables, rule: u8, seconds: &[u32], looks: &mut [Fields]) -> usize
    ensures answer { result ≡ min (length seconds.now) (length looks.old) }
    ensures after { take result looks.new ≡ map (λ s. fields_of (look_of (timetable_in tables.now) (rule_at rule) s)) (take result seconds.now) }
    ensures same { drop result looks.new ≡ drop result looks.old }
{
    let n = seconds.len().min(looks.len());
    let asked = &seconds[..n];
    // By its place: of what a zip with iter_mut writes, a proof knows nothing.
    for (place, second) in asked.iter().enumerate() {
        looks[place] = seen(tables, rule, *second);
    }
    n
}

// The looks at many seconds of an image that is opened once, as far as there are places for them; answers how many.
#[unsafe(no_mangle)]
pub extern "C" fn jezgwilon_looks(
    image: &mut [u8],
    rule: u8,
    seconds: &[u32],
    looks: &mut [Fields],
) -> usize
    ensures answer { result ≡ min (length seconds.now) (length looks.old) }
    ensures after { take result looks.new ≡ map (λ s. fields_of (look_at (image_cells image.old) (rule_at rule) s)) (take result seconds.now) }
    ensures same { drop result looks.new ≡ drop result looks.old }
    ensures memory { image.new ≡ image.old }
{
    let (tables, _image) = opened(image);
    seen_each(&tables, rule, seconds, looks)
}
