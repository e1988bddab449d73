// A board as arrays: for each combination the row that it shows to A, the row that it shows to B, and its faults. Filled once
// per job; a step test is then a look-up. The definitions stand in specs/Grid. Leans on `wires`, `cubes` and `faults`.
#![tactic(auto)]

ghost use Rattle.std.specs.Prelude.{◌≡◌, ◌≤◌, length};
ghost use Rattle.grid.specs.Grid.{Sound, grid};
ghost use Rattle.grid.specs.Filled.{Doubles, Doubled, Asks, Rows, Faulted};

use cubes::table::WORDS;

// The sizes of a board: its wires, the wires that each cell sees, the rows of each cell, and the combinations.
#[derive(Clone, Copy)]
pub struct Shape {
    pub wires: u32,
    pub sees_a: u32,
    pub sees_b: u32,
    pub rows_a: usize,
    pub rows_b: usize,
    pub combinations: usize,
}

// A board's sizes, and its arrays, lent, with a place for each combination, which are those of the sizes' wires.
#[derive(Clone, Copy)]
pub struct Grid<'a> {
    pub shape: Shape,
    pub row_a: &'a [u8],
    pub row_b: &'a [u8],
    pub faults: &'a [u8],
    pub ghost sound: { Sound (grid shape row_a.now row_b.now faults.now) },
}

// Doubles the filled front of `rows`: the `size` entries after the first `size` are these with `step` added.
fn double(rows: &mut [u8], size: usize, step: u8)
    requires { Doubles rows.old size step }
    ensures { Doubled rows.old rows.new size step }
{
    for i in 0..size {
        rows[size + i] = rows[i] + step;
    }
}

// Fills the row that each combination shows to a cell that sees the wires of `seen`: wire by wire from the lowest, each
// doubling what is there; a seen wire adds its weight. The weight fits a byte at each wire that adds it, and is 256 after the
// eighth of these.
pub fn fill_rows(wires: u32, seen: u32, rows: &mut [u8])
    requires { Asks wires seen rows.old }
    ensures { Rows wires seen rows.old rows.new }
{
    rows[0] = 0;
    let mut size: usize = 1;
    let mut weight: u32 = 1;
    for p in 0..wires {
        if (seen >> p) % 2 == 1 {
            double(rows, size, weight as u8);
            weight *= 2;
        } else {
            double(rows, size, 0);
        }
        size *= 2;
    }
}

// Takes the faults of each combination out of a table's words: four digits each.
pub fn unpack(words: &[u64; WORDS], faults: &mut [u8])
    requires { length faults.old ≤ 16384 }
    ensures { Faulted (length faults.old) words.now faults.old faults.new }
{
    for (a, fault) in faults.iter_mut().enumerate() {
        *fault = ((words[a / 16] >> (4 * (a % 16))) % 16) as u8;
    }
}
