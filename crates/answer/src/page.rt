// A lent buffer as a page that is written from the front on. What is written stands where the page went on; the rest of the buffer
// stays. What the methods ask and leave stands in specs/Page.
#![tactic(auto)]

ghost use Rattle.std.specs.Prelude.{◌≡◌, [], ◌∷◌, ◌+◌, ◌<◌, ◌≤◌, length};
ghost use Rattle.std.proofs.lemmas.List.Edits.{sets};
ghost use Rattle.answer.specs.Page.{Room, Wrote};
ghost use Rattle.answer.specs.Written.{two, table, four};

use wires::{Claim, Combination};

// A lent buffer and the place where the writing goes on.
#[derive(Drop)]
pub struct Page<'a> {
    pub bytes: &'a mut [u8],
    pub at: usize,
}

// Stores `text` from `at` on, byte by byte: with `copy_from_slice` an archive for C would need `memmove` from outside.
fn store(bytes: &mut [u8], at: usize, text: &[u8])
    requires { at + length text.now ≤ length bytes.old }
    ensures { bytes.new ≡ sets bytes.old at text.now }
{
    for i in 0..text.len() {
        bytes[at + i] = text[i];
    }
}

impl Page<'_> {
    // Writes bytes.
    pub fn write(&mut self, text: &[u8])
        requires { Room self.old text.now }
        ensures { Wrote self.old text.now self.new }
    {
        store(self.bytes, self.at, text);
        self.at += text.len();
    }

    // Writes a byte.
    pub fn write_byte(&mut self, b: u8)
        requires { Room self.old (b ∷ []) }
        ensures { Wrote self.old (b ∷ []) self.new }
    {
        self.bytes[self.at] = b;
        self.at += 1;
    }

    // Writes a number of two bytes, low byte first.
    pub fn write_two(&mut self, v: u16)
        requires { Room self.old (two v) }
        ensures { Wrote self.old (two v) self.new }
    {
        self.write(&v.to_le_bytes());
    }

    // Writes a table: its count, then its rows.
    pub fn write_table(&mut self, rows: &[u8])
        requires room { Room self.old (table rows.now) }
        requires few { length rows.now < 65536 }
        ensures { Wrote self.old (table rows.now) self.new }
    {
        self.write_two(rows.len() as u16);
        self.write(rows);
    }

    // Writes an entry of a walk.
    pub fn write_entry(&mut self, claim: Claim, combination: Combination)
        requires { Room self.old (four (record { says = claim.0; by = combination.0 })) }
        ensures { Wrote self.old (four (record { says = claim.0; by = combination.0 })) self.new }
    {
        self.write_two(claim.0);
        self.write_two(combination.0);
    }
}
