// The faults of a board: for each combination of its wires and each pair of values of its cells, whether some rule is broken
// there. One digit for each, in a table of words of 64. The places where a rule is broken are those that have given digits where
// the rule has terms, and so are a cube, or none; those that an excuse excuses likewise. The definitions stand in specs/Table.
// Leans on `cubes`, which sets the places of a cube, and on the definitions and laws of `wires`.
#![tactic(auto)]

ghost use Rattle.std.specs.Prelude.{◌≡◌, ◌↔◌, true, ℕ, ◌*◌, ◌-◌, ◌^◌, ◌<◌, ◌≤◌, length, slice_index};
ghost use Rattle.faults.specs.Table.{bit, Faults, Marked, Cleared, Turned, Waived, Struck};

use cubes::table::{Table, WORDS};
use cubes::{arranged, evens, fill_cube, last_block};

// Sets the digit of each place where the rule is broken.
pub fn fill_rule(table: &mut Table, rule: u32)
    ensures { Marked rule table.old table.new }
{
    let down = arranged(table.wires, evens(rule));
    let up = arranged(table.wires, evens(rule / 2));
    if down & up == 0 {
        fill_cube(table, down | up, up);
    }
}

// How many words the board uses.
fn words_used(table: &Table) -> usize
    ensures value { result ≡ 4 * 2 ^ (table.now.wires - 6) }
    ensures most { result ≤ 1024 }
{
    4 * (last_block(table.wires) as usize) + 4
}

// Sets each of the first `end` words to 0. The part is cut here and not by the caller: once a part of a `Table`'s words was lent,
// the check no longer knows what they are.
pub fn clear(words: &mut [u64], end: usize)
    requires { end ≤ length words.old }
    ensures { Cleared end words.old words.new }
{
    words[..end].fill(0);
}

// The table of the faults of its board under the rules.
pub fn fill_faults(table: &mut Table, rules: &[u32])
    ensures { Faults table.old.wires rules.now table.new }
{
    let end = words_used(table);
    clear(&mut table.words, end);
    for rule in rules {
        fill_rule(table, *rule);
    }
}

// Sets the digit of each place whose combination the excuse excuses: those where every plain term's wire is 1 and every
// negated term's is 0. It shares `fill_cube` with `fill_rule`; which digits are set is what each of them says.
pub fn fill_excuse(table: &mut Table, excuse: u32)
    requires { excuse < 2 ^ (2 * table.old.wires) }
    ensures { Waived excuse table.old table.new }
{
    let ones = arranged(table.wires, evens(excuse));
    let zeros = arranged(table.wires, evens(excuse / 2));
    if zeros & ones == 0 {
        fill_cube(table, zeros | ones, ones);
    }
}

// Turns each digit of the first `end` words to the other one. The part is cut here for the same reason as in `clear`.
pub fn turn(words: &mut [u64], end: usize)
    requires { end ≤ length words.old }
    ensures { Turned end words.old words.new }
{
    for word in words[..end].iter_mut() {
        *word = !*word;
    }
}

// Clears the digits of the combinations that the excuses excuse: the table is turned, filled at those places, and turned back.
pub fn strike(table: &mut Table, excuses: &[u32])
    requires { (i : ℕ) → i < length excuses.now → slice_index excuses.now i < 2 ^ (2 * table.old.wires) }
    ensures { Struck excuses.now table.old table.new }
{
    if excuses.is_empty() {
        return;
    }
    let end = words_used(table);
    turn(&mut table.words, end);
    for excuse in excuses {
        fill_excuse(table, *excuse);
    }
    turn(&mut table.words, end);
}

// Whether some rule is broken where the wires have the combination `a`, cell A has `x` and cell B has `y`.
pub fn fault(words: &[u64; WORDS], a: u32, x: u32, y: u32) -> bool
    requires a_bound { a < 2 ^ 14 }
    requires x_bound { x < 2 }
    requires y_bound { y < 2 }
    ensures { (result ≡ true) ↔ (bit words.now a x y ≡ 1) }
{
    let w = (a / 16) as usize;
    (words[w] >> (4 * (a % 16) + 2 * x + y)) % 2 == 1
}
