ghost use Rattle.std.specs.Prelude.{◌≤◌};

// Words for the most wires: 2 ^ 14 combinations of 4 digits each.
pub const WORDS: usize = 1024;

// The table of a board of `wires` wires: a digit for each place, 64 digits to a word.
#[derive(Drop)]
pub struct Table {
    pub wires: u32,
    pub words: [u64; WORDS],
    ghost few: { wires ≤ 14 },
}
