// What reading a sheet is made of: the steps at a place of a sheet (a byte, two bytes, a count, an entry, the end), why a
// sheet is refused, and outcomes (document 01, "Outcome numbers"). Each step answers an enum: the number found with
// the next place, or the refusal, which its caller hands up. The definitions stand in specs/Bytes and specs/Outcome.
// Leans on nothing.
#![tactic(auto)]

ghost use Rattle.std.specs.Prelude.{◌≡◌};
ghost use Rattle.steps.specs.Outcome.{code_of, answer_code_of, place_of, success, refusal_naming, refusal, rule_broken, refused_job, refused_answer};
ghost use Rattle.steps.specs.Bytes.{byte, word, count, word_count, entry, end};
ghost use Rattle.steps.specs.Found.{as_read, within_of};

// Why a sheet is refused, with the place. The first five are a job's, codes 1 to 5 in this order; an answer is refused by
// its end, bytes left over, and the last three.
#[derive(Clone, Copy)]
pub enum Refusal {
    Ends(usize),
    TooMany(usize),
    NotRising(usize),
    TooHigh(usize),
    LeftOver(usize),
    OtherKind(usize),
    NotABit(usize),
    OutOfRange(usize),
}

impl Refusal {
    // Document 01's number of a refusal of a job sheet.
    pub fn code(self) -> u8
        ensures { result ≡ code_of self }
    {
        match self {
            Refusal::Ends(_) => 1,
            Refusal::TooMany(_) => 2,
            Refusal::NotRising(_) => 3,
            Refusal::TooHigh(_) => 4,
            Refusal::LeftOver(_) => 5,
            Refusal::OtherKind(_) => 8,
            Refusal::NotABit(_) => 9,
            Refusal::OutOfRange(_) => 11,
        }
    }

    // And of an answer sheet, where one number stands for its end and for bytes left over.
    pub fn answer_code(self) -> u8
        ensures { result ≡ answer_code_of self }
    {
        match self {
            Refusal::Ends(_) | Refusal::LeftOver(_) => 7,
            _ => self.code(),
        }
    }

    // Its place.
    pub fn place(self) -> usize
        ensures { result ≡ place_of self }
    {
        match self {
            Refusal::Ends(at)
            | Refusal::TooMany(at)
            | Refusal::NotRising(at)
            | Refusal::TooHigh(at)
            | Refusal::LeftOver(at)
            | Refusal::OtherKind(at)
            | Refusal::NotABit(at)
            | Refusal::OutOfRange(at) => at,
        }
    }
}

// An outcome is five numbers. Successes have sheet and place 0; refusals write 0 bytes; only code 10 names a rule. The code and
// the sheet are numbers and no enums, since document 01 and C have these numbers.
#[derive(Clone, Copy)]
pub struct Outcome {
    pub code: u8,
    pub sheet: u8,
    pub place: usize,
    pub written: usize,
    pub rule: usize,
}

pub fn succeeded(code: u8, written: usize) -> Outcome
    ensures { result ≡ success code written }
{
    Outcome {
        code,
        sheet: 0,
        place: 0,
        written,
        rule: 0,
    }
}

// A refusal with the rule that it names, or with 0.
fn refused_naming(code: u8, sheet: u8, place: usize, rule: usize) -> Outcome
    ensures { result ≡ refusal_naming code sheet place rule }
{
    Outcome {
        code,
        sheet,
        place,
        written: 0,
        rule,
    }
}

pub fn refused(code: u8, sheet: u8, place: usize) -> Outcome
    ensures { result ≡ refusal code sheet place }
{
    refused_naming(code, sheet, place, 0)
}

// The outcome of tables that break a rule: the combination, and the rule's number from 0.
pub fn rule_broken(place: usize, rule: usize) -> Outcome
    ensures { result ≡ rule_broken place rule }
{
    refused_naming(10, 2, place, rule)
}

// The outcome of a job sheet that was refused.
pub fn refused_job(sheet: u8, w: Refusal) -> Outcome
    ensures { result ≡ refused_job sheet w }
{
    refused(w.code(), sheet, w.place())
}

// The outcome of an answer sheet that was refused.
pub fn refused_answer(w: Refusal) -> Outcome
    ensures { result ≡ refused_answer w }
{
    refused(w.answer_code(), 2, w.place())
}

// What a reading step finds: a number with the next place, or the refusal. A step takes the sheet and a place, since document 01
// wants this core under the Reader of `sheet`, which holds both.
pub type Read = Result<(u32, usize), Refusal>;

// A byte.
pub fn read_byte(sheet: &[u8], at: usize) -> Read
    ensures { result ≡ as_read (byte sheet.now at) }
{
    let Some(byte) = sheet.get(at) else {
        return Err(Refusal::Ends(sheet.len()));
    };
    Ok((*byte as u32, at + 1))
}

// Two bytes, low byte first.
pub fn read_word(sheet: &[u8], at: usize) -> Read
    ensures { result ≡ as_read (word sheet.now at) }
{
    let (low, middle) = read_byte(sheet, at)?;
    let (high, next) = read_byte(sheet, middle)?;
    Ok((low + 256 * high, next))
}

// A count that was read from the place `first` on: at most `most`, or refused there.
fn within(counted: Read, first: usize, most: u32) -> Read
    ensures { result ≡ within_of most first counted }
{
    let (n, next) = counted?;
    if n <= most {
        Ok((n, next))
    } else {
        Err(Refusal::TooMany(first))
    }
}

// A count of one byte, at most `most`.
pub fn read_count(sheet: &[u8], at: usize, most: u32) -> Read
    ensures { result ≡ as_read (count most sheet.now at) }
{
    within(read_byte(sheet, at), at, most)
}

// A count of two bytes, at most `most`, judged once both are there. What it shares with `read_count` is `within`.
pub fn read_word_count(sheet: &[u8], at: usize, most: u32) -> Read
    ensures { result ≡ as_read (word_count most sheet.now at) }
{
    within(read_word(sheet, at), at, most)
}

// An entry below `limit`, and no lower than `least`.
pub fn read_entry(sheet: &[u8], at: usize, limit: u32, least: u32) -> Read
    ensures { result ≡ as_read (entry limit least sheet.now at) }
{
    let (e, next) = read_byte(sheet, at)?;
    if limit <= e {
        Err(Refusal::TooHigh(at))
    } else if e < least {
        Err(Refusal::NotRising(at))
    } else {
        Ok((e, next))
    }
}

// Nothing follows.
pub fn read_end(sheet: &[u8], at: usize) -> Read
    ensures { result ≡ as_read (end sheet.now at) }
{
    if at < sheet.len() {
        Err(Refusal::LeftOver(at))
    } else {
        Ok((0, at))
    }
}
