// Breadth-first spread over the claims of a board, and the way back from a reached claim.
//
// The board stands in a `Grid`, and what the spread has reached in a `Store`. The definitions stand in specs/Spread and specs/Walk;
// the laws that callers cite in proofs/Meaning. What the store holds, and the scan of one claim, stand in `scan`.
// Leans on `wires`, `answer`, `grid` and `scan`.
#![tactic(auto)]

ghost use Rattle.std.specs.Prelude.{◌≡◌, ◌≤◌, ◌++◌, length, drop, replicate};
ghost use Rattle.board.specs.Board.{opposite as opp};
ghost use Rattle.grid.specs.Held.{held};
ghost use Rattle.scan.specs.Kept.{kept, SameArrays};
ghost use Rattle.spread.specs.Spread.{Starts, Spread};
ghost use Rattle.spread.specs.Walk.{Backs, Written};

use answer::page::Page;
use grid::Grid;
use scan::Store;
use wires::{Claim, Combination};

// Sets the first n marks to 0. The part is cut here and not by the caller: once a part of what a field lends was lent, the check no
// longer knows what it is.
fn clear(reached: &mut [u8], n: usize)
    requires { n ≤ length reached.old }
    ensures { reached.new ≡ replicate n 0 ++ drop n reached.old }
{
    reached[..n].fill(0);
}

// Marks and queues every claim to which steps lead from `start`, nearest first, with the parent of each. The queue grows while it
// is read, so the loop counts by hand.
pub fn spread(grid: &Grid, start: Claim, store: &mut Store)
    requires { Starts (held grid.now) (kept store.old) start.0 }
    ensures spread { Spread (held grid.now) start.0 (kept store.new) store.new.tail }
    ensures same { SameArrays store.old store.new }
{
    let n = 2 * (grid.shape.rows_a + grid.shape.rows_b);
    clear(store.reached, n);
    let m = start.0;
    let c = m as usize;
    store.reached[c] = 1;
    store.queue[0] = m;
    store.tail = 1;
    let mut head = 0;
    while head < store.tail {
        let l = store.queue[head];
        store.looks(grid, Claim(l));
        head += 1;
    }
}

// The claim that says the other value of the same row.
pub fn opposite(c: Claim) -> Claim
    ensures { result.0 ≡ opp c.0 }
{
    let n = c.0;
    if n % 2 == 0 {
        Claim(n + 1)
    } else {
        Claim(n - 1)
    }
}

// Follows the parents from `target` back to `start`, and writes an entry of a walk for each: the opposite of the claim, and
// the combination by which it was reached. The parents lead the way, so no range counts it. It takes the arrays of a store apart,
// for any number of claims; of the queue and its first `r` entries only the promise speaks.
pub fn write_back(
    r: usize,
    queue: &[u16],
    from: &[u16],
    by: &[u16],
    start: Claim,
    target: Claim,
    page: &mut Page,
)
    requires { Backs queue.now from.now by.now r start.0 target.0 page.old.at page.old.bytes.now }
    ensures { Written from.now by.now r start.0 target.0 page.old page.new }
{
    let s = start.0;
    let mut c = target.0;
    while c != s {
        let k = c as usize;
        page.write_entry(opposite(Claim(c)), Combination(by[k]));
        c = from[k];
    }
}
