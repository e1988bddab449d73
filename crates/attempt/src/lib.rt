// One spread from a claim of the next row (document 01, demand 2): a good one settles all rows that it reached, of any other the way
// back is half of a walk. What it asks and leaves stands in specs/Attempt; the argument in `theory`. Leans on `grid` and `spread`.
#![tactic(auto)]

ghost use Rattle.std.specs.Prelude.{◌≡◌, ◌*◌, ◌≤◌, length};
ghost use Rattle.grid.specs.Held.{held};
ghost use Rattle.scan.specs.Kept.{kept, SameArrays};
ghost use Rattle.spread.specs.Walk.{Backs, Written};
ghost use Rattle.attempt.specs.Merge.{settled, MergedBy};
ghost use Rattle.attempt.specs.Attempt.{Attempts, Attempted};

use answer::page::Page;
use grid::Grid;
use scan::Store;
use spread::{opposite, spread, write_back};
use wires::Claim;

// What a row holds, from the marks of its two claims and from what it held.
fn settled_by(zero: u8, one: u8, old: u8) -> u8
    ensures { result ≡ settled zero one old }
{
    if zero == 1 {
        0
    } else if one == 1 {
        1
    } else {
        old
    }
}

// Settles the rows of the marked claims.
fn merge(store: &Store, state: &mut [u8])
    requires { 2 * length state.old ≤ length (kept store.now).reached }
    ensures { MergedBy (kept store.now).reached state.old state.new }
{
    let reached: &[u8] = store.reached;
    for (r, held) in state.iter_mut().enumerate() {
        *held = settled_by(reached[2 * r], reached[2 * r + 1], *held);
    }
}

// The way back over a store's arrays.
fn way_back(store: &Store, start: Claim, target: Claim, page: &mut Page)
    requires { Backs (kept store.now).queue (kept store.now).from (kept store.now).by store.now.tail start.0 target.0 page.old.at page.old.bytes.now }
    ensures { Written (kept store.now).from (kept store.now).by store.now.tail start.0 target.0 page.old page.new }
{
    write_back(
        store.tail,
        store.queue,
        store.from,
        store.by,
        start,
        target,
        page,
    );
}

// Spreads from `start`. A good spread settles the rows that it reached, and the answer is `None`; else half of a walk, from
// `start` to its opposite, is written to `walk` from `at` on, and the answer is the place after it. The state and the scratch are two
// lent buffers that the solver reads apart, so a struct of them is no plainer.
pub fn attempt(
    grid: &Grid,
    start: Claim,
    store: &mut Store,
    state: &mut [u8],
    walk: &mut [u8],
    at: usize,
) -> Option<usize>
    requires { Attempts (held grid.now) (kept store.old) start.0 state.old walk.old at }
    ensures attempted { Attempted (held grid.now) start.0 state.old walk.old at (kept store.new) state.new walk.new result }
    ensures same { SameArrays store.old store.new }
{
    spread(grid, start, store);
    let target = opposite(start);
    let t = target.0 as usize;
    if store.reached[t] == 0 {
        merge(store, state);
        return None;
    }
    let mut page = Page { bytes: walk, at };
    way_back(store, start, target, &mut page);
    Some(page.at)
}
