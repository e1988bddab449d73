// The scan of one reached claim: the claims to which its steps lead are marked and queued.
//
// The board stands in a `Grid`, and what the spread has reached in a `Store`. The definitions stand in specs/Steps, specs/Reach and
// specs/Kept.
// Leans on `wires` and `grid`.
#![tactic(auto)]

ghost use Rattle.std.specs.Prelude.{◌≡◌, ◌<◌, false};
ghost use Rattle.grid.specs.Grid.{bit};
ghost use Rattle.grid.specs.Held.{held};
ghost use Rattle.scan.specs.Steps.{side_of, aim, other_rows};
ghost use Rattle.scan.specs.Reach.{Offered, Offers, Known, Looks, Looked, Asks, Swept};
ghost use Rattle.scan.specs.Kept.{kept, SameArrays};

use grid::{Grid, Shape};
use wires::{Claim, Combination, next_part, row_placed};

// Places for the most claims.
pub const CLAIMS: usize = 1024;

// The claims that a spread has reached, in arrays that are lent, with a place for each claim: a mark for each claim, the parent
// claim and the combination by which each was reached, and a queue of the marked claims, which ends before `tail`. A mark is 0
// or 1, a number and not a `bool`, since `some_new` computes masks from marks.
#[derive(Drop)]
pub struct Store<'a> {
    pub reached: &'a mut [u8],
    pub queue: &'a mut [u16],
    pub from: &'a mut [u16],
    pub by: &'a mut [u16],
    pub tail: usize,
}

fn bit_of(f: u8, k: usize) -> u8
    requires { k < 8 }
    ensures { result ≡ bit f k }
{
    (f >> k) % 2
}

// How a claim looks at the board: the wires that its cell sees and its row there; the first row of the other cell, and the
// places of the fault bits by which steps lead to a 0 claim and to a 1 claim there.
#[derive(Clone, Copy)]
struct Side {
    seen: u32,
    row: u32,
    first: usize,
    low: usize,
    high: usize,
}

fn side_of(shape: Shape, claim: Claim) -> Side
    ensures { result ≡ side_of shape claim.0 }
{
    let n = claim.0;
    let l = n as usize;
    let row = l / 2;
    let value = l % 2;
    if row < shape.rows_a {
        return Side {
            seen: shape.sees_a,
            row: row as u32,
            first: shape.rows_a,
            low: 2 * value + 1,
            high: 2 * value,
        };
    }
    Side {
        seen: shape.sees_b,
        row: (row - shape.rows_a) as u32,
        first: 0,
        low: 2 + value,
        high: value,
    }
}

// Is one of two bits of f set whose claim is not marked? A mark is 0 or 1, and one less than it is a mask of all bits or of none.
fn some_new(f: u8, low: usize, high: usize, base: u8, next: u8) -> bool
    requires { (low < 8) × (high < 8) }
    ensures { result ≡ false → Known (bit f low) base × Known (bit f high) next }
{
    let to_base = (1u8 << low) & std::num::wrapping_sub_u8(base, 1);
    let to_next = (1u8 << high) & std::num::wrapping_sub_u8(next, 1);
    f & (to_base | to_next) != 0
}

// The rows of the other cell.
fn other_rows<'a>(grid: &Grid<'a>, own: Side) -> &'a [u8]
    ensures { result.now ≡ other_rows (held grid.now) own }
{
    if own.first == grid.shape.rows_a {
        grid.row_b
    } else {
        grid.row_a
    }
}

impl Store<'_> {
    // Marks and queues `child`, with its parent, where bit k of f is set and the claim is not marked yet.
    fn offer(&mut self, f: u8, k: usize, child: Claim, parent: Claim, combination: Combination)
        requires { Offers (kept self.old) self.old.tail child.0 k }
        ensures offered { Offered (kept self.old) self.old.tail (bit f k) child.0 parent.0 combination.0 (kept self.new) self.new.tail }
        ensures same { SameArrays self.old self.new }
    {
        if bit_of(f, k) != 1 {
            return;
        }
        let m = child.0;
        let c = m as usize;
        if self.reached[c] != 0 {
            return;
        }
        self.reached[c] = 1;
        let tail = self.tail;
        self.queue[tail] = m;
        let l = parent.0;
        self.from[c] = l;
        let a = combination.0;
        self.by[c] = a;
        self.tail = tail + 1;
    }

    // One look: the claims of the other cell's row to which a step by this combination leads are marked and queued. Mostly there is
    // nothing new, and then nothing is written.
    fn look(
        &mut self,
        faults: &[u8],
        other: &[u8],
        own: Side,
        claim: Claim,
        combination: Combination,
    )
        requires { Looks (aim faults.now other.now own) (kept self.old) self.old.tail claim.0 combination.0 }
        ensures looked { Looked (aim faults.now other.now own) (kept self.old) self.old.tail claim.0 combination.0 (kept self.new) self.new.tail }
        ensures same { SameArrays self.old self.new }
    {
        let n = combination.0;
        let a = n as usize;
        let f = faults[a];
        let base = 2 * (own.first + (other[a] as usize));
        let next = base + 1;
        if some_new(f, own.low, own.high, self.reached[base], self.reached[next]) {
            self.offer(f, own.low, Claim(base as u16), claim, combination);
            self.offer(f, own.high, Claim(next as u16), claim, combination);
        }
    }

    // Every look of one marked claim: the combinations that show its row, in rising order. The lowest has 0 at each wire that the
    // claim's cell does not see, and the next comes by the next part of these wires, so no range counts them.
    pub fn looks(&mut self, grid: &Grid, claim: Claim)
        requires { Asks (held grid.now) (kept self.old) self.old.tail claim.0 }
        ensures swept { Swept (held grid.now) (kept self.old) self.old.tail claim.0 (kept self.new) self.new.tail }
        ensures same { SameArrays self.old self.new }
    {
        let own = side_of(grid.shape, claim);
        let other = other_rows(grid, own);
        let unseen = (grid.shape.combinations - 1) as u32 - own.seen;
        let lowest = row_placed(own.seen, own.row);
        let mut part: u32 = 0;
        loop {
            let a = lowest + part;
            self.look(grid.faults, other, own, claim, Combination(a as u16));
            part = next_part(part, unseen);
            if part == 0 {
                return;
            }
        }
    }
}
