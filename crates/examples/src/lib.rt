// The worked examples as one list: what is shown on one small table, from the definitions that every look is proved by.
#![tactic(auto)]

ghost use Rattle.examples.specs.Examples.{Examples};
ghost use Rattle.examples.specs.Table.{cells, worked};
ghost use Rattle.schedule.specs.Looks.{look_at};
ghost use Rattle.summer.specs.Laws.{europe};
ghost use Rattle.std.specs.Prelude.{◌≡◌};

use schedule::{Look, look};
use summer::Europe;
use tables::Tables;

// An hour east of Greenwich with summer time; plan 1 on every day, plan 2 at Christmas. Cells that are not here are 0.
const CELLS: [u32; 169] = [
    46800, 1, 8190, 254, 4294967294, 1, 4096, 254, 33554432, 2, 0, 0, 0, 0, 0, 0, 0, 0, 0, 0, 0, 0,
    0, 0, 0, 0, 0, 0, 0, 0, 0, 0, 0, 0, 0, 0, 0, 0, 0, 0, 0, 0, 0, 0, 0, 0, 0, 0, 0, 0, 0, 0, 0, 0,
    0, 0, 0, 0, 0, 0, 0, 0, 0, 0, 0, 0, 0, 0, 0, 0, 0, 0, 0, 0, 0, 0, 0, 0, 0, 0, 0, 0, 0, 0, 0, 0,
    0, 0, 0, 0, 0, 0, 0, 0, 0, 0, 0, 0, 0, 0, 0, 0, 0, 0, 0, 0, 0, 0, 0, 0, 0, 0, 0, 0, 0, 0, 0, 0,
    0, 0, 0, 0, 0, 0, 0, 0, 0, 0, 0, 0, 6, 0, 1, 22, 0, 2, 0, 0, 0, 0, 0, 0, 0, 0, 0, 0, 0, 0, 0,
    0, 0, 0, 0, 0, 0, 0, 0, 0, 0, 0, 0, 0, 0, 0, 0, 0, 0, 0, 3,
];

fn look_at(second: u32) -> Look
    ensures answer { result ≡ look_at cells europe second }
    ensures examples { Examples }
{
    look(&Tables::new(&CELLS), &Europe, second)
}

// The looks at both ends of a summer, and at Christmas with the seconds beside it.
pub fn worked_looks() -> [Look; 7]
    ensures answer { result ≡ worked }
    ensures examples { Examples }
{
    [
        look_at(1711846799),
        look_at(1711846800),
        look_at(1729990799),
        look_at(1729990800),
        look_at(1735081199),
        look_at(1735081200),
        look_at(1735167600),
    ]
}
