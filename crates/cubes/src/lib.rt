// Setting the places of a cube in a table of words of 64. The place of a combination of a board's wires with two values of its
// cells is a number: cell B's value is its lowest digit, then comes cell A's, then the wires'. A cube is the places that have
// given values at given digits, and so is a pattern within each word, a choice of the 4 words of each block, and a choice of
// blocks. The definitions stand in specs/Cubes. Leans on the definitions and laws of `wires`.
#![tactic(auto)]

ghost use Rattle.std.specs.Prelude.{◌≡◌, ℕ, ◌+◌, ◌-◌, ◌*◌, ◌^◌, ◌<◌, ◌≤◌, length};
ghost use Rattle.wires.specs.Wires.{wire};
ghost use Rattle.cubes.specs.Cubes.{Evens, Arranged, Part, Fits, Added, Ored, Cube, Filled};

use table::{Table, WORDS};

pub mod table;

// The digits 0, 2, 4, .. of `x`, close together.
pub fn evens(x: u32) -> u32
    ensures { Evens x result }
{
    let a = x & 0x55555555;
    let b = (a | (a >> 1)) & 0x33333333;
    let c = (b | (b >> 2)) & 0x0f0f0f0f;
    let d = (c | (c >> 4)) & 0x00ff00ff;
    (d | (d >> 8)) & 0x0000ffff
}

// A set of variables, wires first, then cell A, then cell B, with cell B and cell A below the wires.
pub fn arranged(n: u32, e: u32) -> u32
    requires n_bound { n ≤ 14 }
    requires e_bound { e < 2 ^ 16 }
    ensures { Arranged n e result }
{
    let wires = (e & ((1 << n) - 1)) << 2;
    let cell_a = ((e >> n) % 2) << 1;
    let cell_b = (e >> (n + 1)) % 2;
    wires | cell_a | cell_b
}

// The numbers below 64 whose digits of `fixed` are those of `up`. First 0 alone, then with each digit that is
// free also what there is so far with that digit set; and `up` is added to each.
#[tactic(auto, using(std::proofs::lemmas::Nat::and_le_r))]
pub fn pattern_of(fixed: u32, up: u32) -> u64
    requires fixed_bound { fixed < 64 }
    requires part { Part up fixed }
    ensures { (b : ℕ) → b < 64 → Fits result b fixed up }
{
    let free = 63 - fixed;
    let one: u64 = 1 | (1 << (free & 1));
    let two = one | (one << (free & 2));
    let three = two | (two << (free & 4));
    let four = three | (three << (free & 8));
    let five = four | (four << (free & 16));
    let six = five | (five << (free & 32));
    six << up
}

// The pattern where the digit `j` of `rows` is 1, or nothing.
pub fn chosen(pattern: u64, rows: u64, j: usize) -> u64
    requires { j < 64 }
    ensures { result ≡ pattern * wire rows j }
{
    if (rows >> j) % 2 == 1 { pattern } else { 0 }
}

// Adds `pattern` to those of the 4 words from `w` on whose digit of `rows` is 1.
pub fn or_block(words: &mut [u64; WORDS], w: usize, pattern: u64, rows: u64)
    requires { w + 4 ≤ 1024 }
    ensures { Added w pattern rows 4 words.old words.new }
{
    for j in 0..4 {
        words[w + j] |= chosen(pattern, rows, j);
    }
}

// Does so with each block of 4 words whose distance from the block `base` is a part of `free`, from the last down:
// the next part of `free` below `sub` is `(sub - 1) & free`, so no range counts them.
#[tactic(auto, using(crate::proofs::Parts::part_le))]
pub fn or_blocks(words: &mut [u64; WORDS], base: u32, free: u32, pattern: u64, rows: u64)
    requires { base + free < 256 }
    ensures { Ored base free pattern rows 0 words.old words.new }
{
    let mut sub = free;
    loop {
        or_block(words, 4 * ((base + sub) as usize), pattern, rows);
        if sub == 0 {
            return;
        }
        sub = (sub - 1) & free;
    }
}

// The last block of 4 words that a board of `n` wires uses.
pub fn last_block(n: u32) -> u32
    requires { n ≤ 14 }
    ensures { result ≡ 2 ^ (n - 6) - 1 }
{
    ((1 << n) - 1) / 64
}

// Sets the digit of each place whose digits of `fixed` are those of `up`.
pub fn fill_cube(table: &mut Table, fixed: u32, up: u32)
    requires { Cube table.old.wires fixed up }
    ensures { Filled fixed up table.old table.new }
{
    let pattern = pattern_of(fixed % 64, up % 64);
    let rows = pattern_of(fixed / 64 % 4, up / 64 % 4);
    let free = last_block(table.wires) - fixed / 256;
    or_blocks(&mut table.words, up / 256, free, pattern, rows);
}
