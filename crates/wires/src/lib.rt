// The numbers below everything: wires seen as masks, the row that a combination shows, and the terms of rules as masks.
// Document 01, "Numbers used". The definitions stand in specs/Wires and specs/Terms; the laws that callers cite in
// proofs/Rows, proofs/Parts and proofs/Terms. Leans on nothing.
#![tactic(auto)]

ghost use Rattle.std.specs.Prelude.{◌≡◌, ℕ, ◌+◌, ◌-◌, ◌%◌, ◌^◌, ◌<◌, ◌≤◌, true, ◌↔◌, bit_and, count_ones};
ghost use Rattle.wires.specs.Wires.{shown, placed};
ghost use Rattle.wires.specs.Terms.{Setting, Truths, Meets, FirstBroken, containsb, some_within};

// Claim 2r says that row r holds 0, claim 2r + 1 that it holds 1; rows of A come first, then rows of B.
#[derive(Clone, Copy)]
pub struct Claim(pub u16);

// A combination of the wires' values. Claim and combination are kept apart in every signature that has both.
#[derive(Clone, Copy)]
pub struct Combination(pub u16);

// How many rows a cell has that sees the wires of `seen`: two to their number.
pub fn row_count(seen: u32) -> usize
    ensures { result ≡ 2 ^ count_ones seen }
{
    1usize << u32::count_ones(seen)
}

// The row that the combination `a` shows to a cell that sees the wires of `seen`: the next wire is the
// lowest that is left, and its value goes to the next digit of the row. A `for` over the count of the seen wires was tried: it
// is slower where few are seen, by a twentieth and more, since they have to be counted first.
pub fn row_shown(seen: u32, a: u32) -> u32
    ensures row { (n : ℕ) → seen < 2 ^ n → result ≡ shown n seen a }
    ensures below { result < 2 ^ count_ones seen }
{
    let mut left = seen;
    let mut row = 0;
    let mut at: u32 = 0;
    while left != 0 {
        let p = u32::trailing_zeros(left);
        row |= ((a >> p) & 1) << at;
        at += 1;
        left &= left - 1;
    }
    row
}

// The lowest combination that shows the row `row` to a cell that sees the wires of `seen`: the row's digits go to the seen wires,
// the lowest first, and every other wire has 0. The mask counts down, and no index. The same loop as in `row_shown`.
pub fn row_placed(seen: u32, row: u32) -> u32
    ensures { (n : ℕ) → seen < 2 ^ n → result ≡ placed n seen row }
{
    let mut left = seen;
    let mut rest = row;
    let mut a = 0;
    while left != 0 {
        let p = u32::trailing_zeros(left);
        a |= (rest % 2) << p;
        rest /= 2;
        left &= left - 1;
    }
    a
}

// The next of the parts of the set `unseen`, in rising order, after `part`; after the last comes 0 again. Of a number that is no
// part of the set it is what the wrapping subtraction and the mask leave.
pub fn next_part(part: u32, unseen: u32) -> u32
    ensures next { (n k : ℕ) → n ≤ 32 → unseen < 2 ^ n → part ≡ placed n unseen k → result ≡ placed n unseen (k + 1) }
    ensures left { result ≡ bit_and ((part + 2 ^ 32 - unseen) % 2 ^ 32) unseen }
{
    std::num::wrapping_sub_u32(part, unseen) & unseen
}

// The set of the true terms where the wires have the combination `a`, cell A has `x` and cell B has `y`. A variable has two terms,
// and so two digits: the plain one, true where the value is 1, is 1 of the two, and the negated one, true where it is 0, is 2.
pub fn truths(n: u32, a: u32, x: u32, y: u32) -> u32
    requires { Setting n a x y }
    ensures { Truths n a x y result }
{
    let values = a | (x << n) | (y << (n + 1));
    let mut set = 0;
    for v in 0..n + 2 {
        set |= (2 - (values >> v) % 2) << (2 * v);
    }
    set
}

// Whether some term of the rule is among the true ones.
pub fn rule_holds(rule: u32, truths: u32) -> bool
    ensures { (result ≡ true) ↔ Meets rule truths }
{
    rule & truths != 0
}

// The first of the rules with no term among the true ones, or `None` where each has one.
pub fn first_broken(rules: &[u32], truths: u32) -> Option<usize>
    ensures { FirstBroken rules.now truths result }
{
    rules.iter().position(|rule| !rule_holds(*rule, truths))
}

// Does the set `r` contain all of the set `s`?
pub fn contains(r: u32, s: u32) -> bool
    ensures { result ≡ containsb r s }
{
    s & r == s
}

// Does the set `r` contain all of one of the sets?
pub fn some_within(sets: &[u32], r: u32) -> bool
    ensures { result ≡ some_within sets.now r }
{
    sets.iter().any(|set| contains(r, *set))
}
