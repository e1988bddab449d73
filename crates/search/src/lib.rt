// The search for the first fitting pair on a board that stands in its arrays (document 01, demand 2). Row by row, a spread from
// the 0 claim, and where that fails one from the 1 claim; where both fail the two ways back are a walk. What each function asks
// and leaves stands in specs/Settle; the argument in `theory`. Leans on `grid` and `attempt`.
#![tactic(auto)]

ghost use Rattle.grid.specs.Held.{held};
ghost use Rattle.scan.specs.Kept.{kept, SameArrays};
ghost use Rattle.search.specs.Settle.{Settles, Settled, Searches, Searched};

use attempt::attempt;
use grid::Grid;
use scan::{CLAIMS, Store};
use wires::Claim;

// What the state holds for a row that is not settled; for a settled one it holds the row's bit. Numbers and no enum, since the bits
// go to the answer sheet as they stand, in one piece.
pub const UNSETTLED: u8 = 2;

// The work on one row. Answers `None` where it is settled, from its 0 claim or, where that spread fails, from its 1 claim; where
// both fail, the length of the walk that stands in `walk`.
fn settle(
    grid: &Grid,
    row: usize,
    store: &mut Store,
    state: &mut [u8],
    walk: &mut [u8],
) -> Option<usize>
    requires { Settles (held grid.now) (kept store.old) row state.old walk.old }
    ensures settled { Settled (held grid.now) row walk.old (kept store.new) state.new walk.new result }
    ensures same { SameArrays store.old store.new }
{
    if state[row] != UNSETTLED {
        return None;
    }
    let zero = (2 * row) as u16;
    let one = zero + 1;
    let middle = attempt(grid, Claim(zero), store, state, walk, 0)?;
    attempt(grid, Claim(one), store, state, walk, middle)
}

// The work on all rows, in order, up to the first whose spreads both fail. Answers `None` where the state is the first pair, or
// the length of the walk that stands in `walk`.
pub fn search(grid: &Grid, state: &mut [u8], walk: &mut [u8]) -> Option<usize>
    requires { Searches (held grid.now) state.old walk.old }
    ensures { Searched (held grid.now) walk.old state.new walk.new result }
{
    let mut reached = [0u8; CLAIMS];
    let mut queue = [0u16; CLAIMS];
    let mut from = [0u16; CLAIMS];
    let mut by = [0u16; CLAIMS];
    let mut store = Store {
        reached: &mut reached,
        queue: &mut queue,
        from: &mut from,
        by: &mut by,
        tail: 0,
    };
    for row in 0..grid.shape.rows_a + grid.shape.rows_b {
        if let Some(end) = settle(grid, row, &mut store, state, walk) {
            return Some(end);
        }
    }
    None
}
