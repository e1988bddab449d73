// The answer sheet: read left to right for a board's sizes, and written on a page, a lent buffer (document 01, "Answer sheet").
// Tables and walks stay in the sheet; reading tells which of the two it is. The definitions stand in specs/AnswerSheet
// and specs/Written. Leans on the steps of `steps`.
#![tactic(auto)]

ghost use Rattle.std.specs.Prelude.{◌≡◌, ◌≤◌};
ghost use Rattle.steps.specs.Found.{as_read};
ghost use Rattle.answer.specs.AnswerSheet.{exactly, kind_count, walk_count, bit, below, read_answer};
ghost use Rattle.answer.specs.AnswerFound.{bits_pass, entries_pass, tables_pass, walk_pass, as_answer};

use steps::{Read, Refusal, read_byte, read_end, read_word};

pub mod page;

// The most entries of a walk, and the length of the longest sheet.
pub const WALK_LIMIT: u32 = 2046;

pub const LONGEST: usize = 8190;

// What an accepted sheet holds: tables, or a walk of so many entries.
#[derive(Clone, Copy)]
pub enum AnswerKind {
    Tables,
    Walk(u32),
}

// A two-byte count that has to be `count`. This and the next two differ in their test alone; a test handed over as a closure would
// make the contract longer than the function.
pub fn read_exactly(sheet: &[u8], at: usize, count: u32) -> Read
    ensures { result ≡ as_read (exactly count sheet.now at) }
{
    let (n, next) = read_word(sheet, at)?;
    if n == count {
        Ok((n, next))
    } else {
        Err(Refusal::OtherKind(at))
    }
}

// The first count, which settles the kind: the rows of A, or 0.
pub fn read_kind(sheet: &[u8], at: usize, rows_a: u32) -> Read
    ensures { result ≡ as_read (kind_count rows_a sheet.now at) }
{
    let (n, next) = read_word(sheet, at)?;
    if n == rows_a || n == 0 {
        Ok((n, next))
    } else {
        Err(Refusal::OtherKind(at))
    }
}

// The count of a walk's entries, 1 to 2,046.
pub fn read_walk_count(sheet: &[u8], at: usize) -> Read
    ensures { result ≡ as_read (walk_count sheet.now at) }
{
    let (n, next) = read_word(sheet, at)?;
    if 1 <= n && n <= WALK_LIMIT {
        Ok((n, next))
    } else {
        Err(Refusal::OtherKind(at))
    }
}

// A table entry, 0 or 1.
pub fn read_bit(sheet: &[u8], at: usize) -> Read
    ensures { result ≡ as_read (bit sheet.now at) }
{
    let (b, next) = read_byte(sheet, at)?;
    if b <= 1 {
        Ok((b, next))
    } else {
        Err(Refusal::NotABit(at))
    }
}

// The rows of a table, of which nothing is kept.
pub fn read_bits(sheet: &[u8], at: usize, rows: u32) -> Read
    ensures { result ≡ as_read (bits_pass rows sheet.now at) }
{
    let mut place = at;
    for _ in 0..rows {
        let (_, next) = read_bit(sheet, place)?;
        place = next;
    }
    Ok((rows, place))
}

// A two-byte number below `limit`: a claim, or a combination.
pub fn read_below(sheet: &[u8], at: usize, limit: u32) -> Read
    ensures { result ≡ as_read (below limit sheet.now at) }
{
    let (v, next) = read_word(sheet, at)?;
    if v < limit {
        Ok((v, next))
    } else {
        Err(Refusal::OutOfRange(at))
    }
}

// The entries of a walk, of which nothing is kept: each a claim and then a combination.
pub fn read_entries(sheet: &[u8], at: usize, count: u32, claims: u32, combinations: u32) -> Read
    ensures { result ≡ as_read (entries_pass count claims combinations sheet.now at) }
{
    let mut place = at;
    for _ in 0..count {
        let (_, middle) = read_below(sheet, place, claims)?;
        let (_, next) = read_below(sheet, middle, combinations)?;
        place = next;
    }
    Ok((count, place))
}

// What follows the first count in a sheet of tables.
pub fn read_tables(sheet: &[u8], at: usize, rows_a: u32, rows_b: u32) -> Read
    ensures { result ≡ as_read (tables_pass rows_a rows_b sheet.now at) }
{
    let (_, at_b) = read_bits(sheet, at, rows_a)?;
    let (_, from_b) = read_exactly(sheet, at_b, rows_b)?;
    let (_, at_walk) = read_bits(sheet, from_b, rows_b)?;
    let (_, last) = read_exactly(sheet, at_walk, 0)?;
    read_end(sheet, last)
}

// What follows the first count in a sheet of a walk. Answers the number of entries.
pub fn read_walk(sheet: &[u8], at: usize, claims: u32, combinations: u32) -> Read
    ensures { result ≡ as_read (walk_pass claims combinations sheet.now at) }
{
    let (_, at_walk) = read_exactly(sheet, at, 0)?;
    let (count, first) = read_walk_count(sheet, at_walk)?;
    let (_, last) = read_entries(sheet, first, count, claims, combinations)?;
    let (_, next) = read_end(sheet, last)?;
    Ok((count, next))
}

// The whole sheet, for a board of these sizes.
pub fn read_answer(
    sheet: &[u8],
    rows_a: u32,
    rows_b: u32,
    combinations: u32,
) -> Result<AnswerKind, Refusal>
    requires { (rows_a ≤ 256) × (rows_b ≤ 256) }
    ensures { result ≡ as_answer (read_answer rows_a rows_b combinations sheet.now) }
{
    let (n, next) = read_kind(sheet, 0, rows_a)?;
    if n == 0 {
        let (count, _) = read_walk(sheet, next, 2 * (rows_a + rows_b), combinations)?;
        Ok(AnswerKind::Walk(count))
    } else {
        read_tables(sheet, next, rows_a, rows_b)?;
        Ok(AnswerKind::Tables)
    }
}
