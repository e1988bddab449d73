// The job sheet, section by section (document 01, "Job sheet"; document 02, request 2). The pins stay in the sheet; the
// rules, and after them the excuses, go to an array that is scratch of the caller's. Sections are functions on the sheet
// and a place; read_job chains them with a Reader, which holds both. The definition, read_job, stands in specs/JobSheet.
// Leans on the steps of `steps`.
#![tactic(auto)]

ghost use Rattle.std.specs.Prelude.{◌≡◌, ◌+◌, ◌≤◌, length};
ghost use Rattle.std.proofs.lemmas.List.Edits.{sets};
ghost use Rattle.steps.specs.Bytes.{count, word_count, end};
ghost use Rattle.steps.specs.Found.{as_read};
ghost use Rattle.sheet.specs.JobSheet.{mask, counted_mask, terms_of, read_job, wire_limit, rule_limit, excuse_limit, read_outcome};
ghost use Rattle.sheet.specs.JobFound.{pins_pass, rules_pass, excuses_pass, terms_pass, as_job, kept, kept_excuses, kept_terms, kept_masks};

use steps::{
    Outcome, Read, Refusal, read_count, read_end, read_entry, read_word_count, refused_job,
    succeeded,
};

// The form of a job sheet, which the caller names. Form two has a fifth section, the excuses.
#[derive(Clone, Copy)]
pub enum Form {
    One,
    Two,
}

// A job in numbers: the pins stay in the sheet, from pins_at on, and the rules and excuses go to an array beside it.
#[derive(Clone, Copy)]
pub struct JobHead {
    pub wires: u32,
    pub sees_a: u32,
    pub sees_b: u32,
    pub rules: u32,
    pub excuses: u32,
    pub pins_at: usize,
}

// The most wires, the most wires that a cell sees, the most rules, the most excuses, and what pin numbers are below.
pub const WIRE_LIMIT: u32 = 12;

pub const SEEN_LIMIT: u32 = 8;

pub const RULE_LIMIT: u32 = 256;

const EXCUSE_LIMIT: u32 = 64;

const PIN_LIMIT: u32 = 256;

// The length of an array with room for the most rules and the most excuses.
pub const MASKS: usize = 320;

// The pins, of which nothing is kept. An entry is one byte, so the next place waits for no answer. What was found is read from the
// sheet: in a step's answer it shares its place with the kind of a refusal, and each entry would wait for the choice between them.
pub fn check_pins(sheet: &[u8], at: usize, count: u32) -> Read
    ensures { result ≡ as_read (pins_pass count sheet.now at) }
{
    let mut place = at;
    let mut least: u32 = 0;
    for _ in 0..count {
        read_entry(sheet, place, PIN_LIMIT, least)?;
        least = sheet[place] as u32 + 1;
        place += 1;
    }
    Ok((count, place))
}

// A set of `count` entries below `limit`, one bit each, read as the pins are.
pub fn read_set(sheet: &[u8], at: usize, count: u32, limit: u32) -> Read
    requires { limit ≤ 32 }
    ensures { result ≡ as_read (mask count limit sheet.now at) }
{
    let mut bits: u32 = 0;
    let mut place = at;
    let mut least: u32 = 0;
    for _ in 0..count {
        read_entry(sheet, place, limit, least)?;
        let e = sheet[place] as u32;
        bits |= 1 << e;
        least = e + 1;
        place += 1;
    }
    Ok((bits, place))
}

// A set after its count, which is one byte, read as the pins are.
pub fn read_counted_set(sheet: &[u8], at: usize, most: u32, limit: u32) -> Read
    requires { limit ≤ 32 }
    ensures { result ≡ as_read (counted_mask most limit sheet.now at) }
{
    read_count(sheet, at, most)?;
    read_set(sheet, at + 1, sheet[at] as u32, limit)
}

// Rules, or excuses, as many as there are places for in `masks`: each is stored as it is read.
pub fn read_rules(sheet: &[u8], at: usize, terms: u32, masks: &mut [u32]) -> Read
    requires { (length masks.old ≤ rule_limit + excuse_limit) × (terms ≤ 32) }
    ensures value { result ≡ as_read (rules_pass (length masks.old) terms sheet.now at) }
    ensures masks_after { masks.new ≡ sets masks.old 0 (kept (length masks.old) terms sheet.now at) }
{
    let mut place = at;
    for mask in masks.iter_mut() {
        let (bits, next) = read_counted_set(sheet, place, terms, terms)?;
        *mask = bits;
        place = next;
    }
    Ok((masks.len() as u32, place))
}

// How many terms a job with so many wires has.
pub fn term_limit(wires: u32) -> u32
    requires { wires ≤ wire_limit }
    ensures { result ≡ terms_of wires }
{
    2 * wires + 4
}

// The excuses, stored in `masks`: how many there are. An excuse has terms of wires alone, all but the last four.
pub fn read_excuses(form: Form, sheet: &[u8], at: usize, wires: u32, masks: &mut [u32]) -> Read
    requires { (wires ≤ wire_limit) × (excuse_limit ≤ length masks.old) }
    ensures value { result ≡ as_read (excuses_pass form wires sheet.now at) }
    ensures masks_after { masks.new ≡ sets masks.old 0 (kept_excuses form wires sheet.now at) }
{
    match form {
        Form::One => Ok((0, at)),
        Form::Two => {
            let (count, next) = read_word_count(sheet, at, EXCUSE_LIMIT)?;
            let end = count as usize;
            read_rules(sheet, next, term_limit(wires) - 4, &mut masks[..end])
        }
    }
}

// The rules and, in form two, the excuses after them: how many excuses there are.
pub fn read_terms(
    form: Form,
    sheet: &[u8],
    at: usize,
    wires: u32,
    count: u32,
    masks: &mut [u32; MASKS],
) -> Read
    requires { (wires ≤ wire_limit) × (count ≤ rule_limit) }
    ensures value { result ≡ as_read (terms_pass form wires count sheet.now at) }
    ensures masks_after { masks.new ≡ sets masks.old 0 (kept_terms form wires count sheet.now at) }
{
    let end = count as usize;
    let (_, next) = read_rules(sheet, at, term_limit(wires), &mut masks[..end])?;
    read_excuses(form, sheet, next, wires, &mut masks[end..])
}

// While reading, the sheet and the place reached travel together. Each method calls the function on the sheet and the place; a
// step answers the place after it, and `moved` takes the Reader there.
#[derive(Clone, Copy)]
struct Reader<'a> {
    sheet: &'a [u8],
    place: usize,
}

impl<'a> Reader<'a> {
    // A sheet at its first byte.
    fn opened(sheet: &'a [u8]) -> Reader<'a>
        ensures { (result.sheet ≡ sheet.entry) × (result.place ≡ 0) }
    {
        Reader { sheet, place: 0 }
    }

    // The same sheet, at the place reached.
    fn moved(self, place: usize) -> Reader<'a>
        ensures { (result.sheet ≡ self.entry.sheet) × (result.place ≡ place) }
    {
        Reader {
            sheet: self.sheet,
            place,
        }
    }

    // A count of one byte, at most `most`.
    fn take_count(self, most: u32) -> Read
        ensures { result ≡ as_read (count most self.entry.sheet.now self.entry.place) }
    {
        read_count(self.sheet, self.place, most)
    }

    // A count of two bytes, at most `most`.
    fn take_word_count(self, most: u32) -> Read
        ensures { result ≡ as_read (word_count most self.entry.sheet.now self.entry.place) }
    {
        read_word_count(self.sheet, self.place, most)
    }

    // A set after its count.
    fn take_set(self, most: u32, limit: u32) -> Read
        requires { limit ≤ 32 }
        ensures { result ≡ as_read (counted_mask most limit self.entry.sheet.now self.entry.place) }
    {
        read_counted_set(self.sheet, self.place, most, limit)
    }

    // Nothing follows.
    fn at_end(self) -> Read
        ensures { result ≡ as_read (end self.entry.sheet.now self.entry.place) }
    {
        read_end(self.sheet, self.place)
    }
}

// The whole sheet, step by step. The rules and then the excuses go to the front of `masks`.
pub fn read_job(form: Form, sheet: &[u8], masks: &mut [u32; MASKS]) -> Result<JobHead, Refusal>
    ensures value { result ≡ as_job (read_job form sheet.now) }
    ensures masks_after { masks.new ≡ sets masks.old 0 (kept_masks form sheet.now) }
{
    let reader = Reader::opened(sheet);
    let (wires, pins_at) = reader.take_count(WIRE_LIMIT)?;
    let (_, at_a) = check_pins(sheet, pins_at, wires)?;
    let (sees_a, at_b) = reader.moved(at_a).take_set(SEEN_LIMIT, wires)?;
    let (sees_b, at_count) = reader.moved(at_b).take_set(SEEN_LIMIT, wires)?;
    let (rules, at_rules) = reader.moved(at_count).take_word_count(RULE_LIMIT)?;
    let (excuses, last) = read_terms(form, sheet, at_rules, wires, rules, masks)?;
    reader.moved(last).at_end()?;
    Ok(JobHead {
        wires,
        sees_a,
        sees_b,
        rules,
        excuses,
        pins_at,
    })
}

// The reader: the outcome of a job sheet, for either form and every string of bytes. The rules and excuses go to scratch of
// its own.
pub fn read_sheet(form: Form, sheet: &[u8]) -> Outcome
    ensures { result ≡ read_outcome form sheet.now }
{
    let mut masks = [0u32; MASKS];
    match read_job(form, sheet, &mut masks) {
        Ok(_) => succeeded(0, 0),
        Err(w) => refused_job(1, w),
    }
}
