// The writer: a job sheet from a description, to a lent buffer (document 02, request 1). A description is the pins, the
// two sets of seen wires and the rules, each set a mask. It is judged first, in section order; only where nothing is
// amiss is anything written. The sheet, job_sheet, stands in specs/JobWritten, the outcome in specs/Writing. Leans on
// `sheet` for the limits.
#![tactic(auto)]

ghost use Rattle.std.specs.Prelude.{◌≡◌, ◌+◌, ◌≤◌, ◌<◌, length, OnOk};
ghost use Rattle.sheet.specs.Job.{Job};
ghost use Rattle.sheet.specs.JobSheet.{wire_limit, rule_limit};
ghost use Rattle.answer.specs.Page.{Room, Wrote};
ghost use Rattle.writer.specs.JobWritten.{members, counted, rules_bytes, job_sheet, described};
ghost use Rattle.writer.specs.Writing.{within, judge_pins, judge_seen, judge_rule, judge_rules, judge_room, judge, refusal_of, write_outcome, write_exit};

use answer::page::Page;
use sheet::{RULE_LIMIT, SEEN_LIMIT, WIRE_LIMIT, term_limit};
use std::marker::Model;
use steps::{Outcome, refused, succeeded};

// The sections of a sheet, numbered from 1.
#[derive(Clone, Copy)]
pub enum Section {
    Pins = 1,
    SeesA = 2,
    SeesB = 3,
    Rules = 4,
}

// What is amiss with a description: a count is above its limit, a pin is not above the one before, an entry is not below
// its limit, each with its place, or the buffer has no room for the sheet.
#[derive(Clone, Copy)]
pub enum Amiss {
    TooMany(Section, usize),
    NotRising(usize),
    TooHigh(Section, usize),
    NoRoom,
}

// The outcome that tells what is amiss, with document 01's number.
impl From<Amiss> for Outcome {
    ghost from_gives = { λ amiss told. told ≡ refusal_of amiss };

    fn from(amiss: Amiss) -> Outcome {
        match amiss {
            Amiss::TooMany(section, place) => refused(2, section as u8, place),
            Amiss::NotRising(place) => refused(3, Section::Pins as u8, place),
            Amiss::TooHigh(section, place) => refused(4, section as u8, place),
            Amiss::NoRoom => refused(6, 0, 0),
        }
    }
}

// A count against its limit.
fn within(n: usize, most: usize, section: Section, place: usize) -> Result<(), Amiss>
    ensures value { result ≡ within most section place n }
    ensures few { OnOk result (n ≤ most) }
{
    if n <= most {
        Ok(())
    } else {
        Err(Amiss::TooMany(section, place))
    }
}

// The pins rise, and are not too many.
#[tactic(auto, using(crate::proofs::Judging::pin_steps), unfolding(crate::specs::Writing::judge_pins))]
fn judge_pins(pins: &[u8]) -> Result<(), Amiss>
    ensures value { result ≡ judge_pins pins.now }
    ensures few { OnOk result (length pins.now ≤ wire_limit) }
{
    within(pins.len(), WIRE_LIMIT as usize, Section::Pins, 0)?;
    let mut least: u32 = 0;
    for (i, pin) in pins.iter().enumerate() {
        let pin = u32::from(*pin);
        if pin < least {
            return Err(Amiss::NotRising(i));
        }
        least = pin + 1;
    }
    Ok(())
}

// How many entries a set has.
fn size(set: u32) -> usize
    ensures value { result ≡ length (members set) }
    ensures few { result ≤ 32 }
{
    set.count_ones() as usize
}

// The wires that a cell sees. Those not below `wires` come last.
#[tactic(auto, using(crate::proofs::Judging::fewer), unfolding(crate::specs::Writing::judge_set))]
fn judge_seen(seen: u32, wires: u32, section: Section) -> Result<(), Amiss>
    requires { wires < 32 }
    ensures { result ≡ judge_seen wires section seen }
{
    let many = size(seen);
    within(many, SEEN_LIMIT as usize, section, 0)?;
    let high = seen >> wires;
    if high != 0 {
        Err(Amiss::TooHigh(section, many - size(high)))
    } else {
        Ok(())
    }
}

// The terms of a rule.
#[tactic(auto, unfolding(crate::specs::Writing::judge_set))]
fn judge_rule(rule: u32, terms: u32, number: usize) -> Result<(), Amiss>
    requires { terms < 32 }
    ensures { result ≡ judge_rule terms number rule }
{
    within(size(rule), terms as usize, Section::Rules, number)?;
    if rule >> terms != 0 {
        Err(Amiss::TooHigh(Section::Rules, number))
    } else {
        Ok(())
    }
}

// The rules, one by one.
#[tactic(auto, using(crate::proofs::Judging::rule_steps), unfolding(crate::specs::Writing::judge_rules))]
fn judge_rules(rules: &[u32], terms: u32) -> Result<(), Amiss>
    requires { terms < 32 }
    ensures value { result ≡ judge_rules terms rules.now }
    ensures few { OnOk result (length rules.now ≤ rule_limit) }
{
    within(rules.len(), RULE_LIMIT as usize, Section::Rules, 0)?;
    for (number, rule) in rules.iter().enumerate() {
        judge_rule(*rule, terms, number)?;
    }
    Ok(())
}

// How many bytes the rules take.
fn rules_length(rules: &[u32]) -> usize
    requires { length rules.now ≤ rule_limit }
    ensures { result ≡ length (rules_bytes rules.now) }
{
    rules.iter().map(|rule| 1 + size(*rule)).sum()
}

// There is room for so many bytes.
fn judge_room(room: usize, long: usize) -> Result<(), Amiss>
    ensures { result ≡ judge_room room long }
{
    if long <= room {
        Ok(())
    } else {
        Err(Amiss::NoRoom)
    }
}

// Writes the pins: their count, then each.
fn write_pins(page: &mut Page, pins: &[u8])
    requires room { Room page.old (counted pins.now) }
    requires few { length pins.now ≤ wire_limit }
    ensures { Wrote page.old (counted pins.now) page.new }
{
    page.write_byte(pins.len() as u8);
    page.write(pins);
}

// Writes the entries of a set, the lowest that is left each time: the mask itself counts down, and no index.
fn write_members(page: &mut Page, set: u32)
    requires { Room page.old (members set) }
    ensures { Wrote page.old (members set) page.new }
{
    let mut left = set;
    while left != 0 {
        page.write_byte(left.trailing_zeros() as u8);
        left &= left - 1;
    }
}

// Writes a set: its count, then its entries.
fn write_set(page: &mut Page, set: u32)
    requires { Room page.old (counted (members set)) }
    ensures { Wrote page.old (counted (members set)) page.new }
{
    page.write_byte(size(set) as u8);
    write_members(page, set);
}

// Writes the rules.
fn write_rules(page: &mut Page, rules: &[u32])
    requires { Room page.old (rules_bytes rules.now) }
    ensures { Wrote page.old (rules_bytes rules.now) page.new }
{
    for rule in rules {
        write_set(page, *rule);
    }
}

// A description of a job: the pins, the two sets of seen wires and the rules, each set a mask. A clause sees the job.
#[derive(Drop)]
struct Description<'a> {
    pins: &'a [u8],
    sees_a: u32,
    sees_b: u32,
    rules: &'a [u32],
}

impl<'a> Model for Description<'a> {
    ghost Value = { Job };

    ghost view = { λ d. described d.pins.now d.sees_a d.sees_b d.rules.now };
}

impl Description<'_> {
    // How many bytes the sheet takes.
    fn sheet_length(&self) -> usize
        requires { (length self.now.pins ≤ wire_limit) × (length self.now.rules ≤ rule_limit) }
        ensures { result ≡ length (job_sheet self.now) }
    {
        5 + self.pins.len() + size(self.sees_a) + size(self.sees_b) + rules_length(self.rules)
    }

    // The whole description, section by section, and then the room for its sheet.
    #[tactic(auto, unfolding(crate::specs::Writing::judge))]
    fn judge(&self, room: usize) -> Result<(), Amiss>
        ensures { result ≡ judge self.now room }
    {
        judge_pins(self.pins)?;
        let wires = self.pins.len() as u32;
        judge_seen(self.sees_a, wires, Section::SeesA)?;
        judge_seen(self.sees_b, wires, Section::SeesB)?;
        judge_rules(self.rules, term_limit(wires))?;
        judge_room(room, self.sheet_length())
    }

    // Writes the sheet.
    fn write_sheet(&self, page: &mut Page)
        requires limits { (length self.now.pins ≤ wire_limit) × (length self.now.rules ≤ rule_limit) }
        requires room { Room page.old (job_sheet self.now) }
        ensures { Wrote page.old (job_sheet self.now) page.new }
    {
        write_pins(page, self.pins);
        write_set(page, self.sees_a);
        write_set(page, self.sees_b);
        page.write_two(self.rules.len() as u16);
        write_rules(page, self.rules);
    }
}

// The writer: for every description and every lent buffer. Its parameters are those that C hands over.
#[tactic(auto, unfolding(crate::specs::Writing::write_outcome, crate::specs::Writing::write_exit))]
pub fn write_job(pins: &[u8], sees_a: u32, sees_b: u32, rules: &[u32], sheet: &mut [u8]) -> Outcome
    ensures value { result ≡ write_outcome (described pins.now sees_a sees_b rules.now) (length sheet.old) }
    ensures sheet_after { sheet.new ≡ write_exit (described pins.now sees_a sees_b rules.now) sheet.old }
{
    let description = Description {
        pins,
        sees_a,
        sees_b,
        rules,
    };
    match description.judge(sheet.len()) {
        Ok(()) => {
            let mut page = Page {
                bytes: sheet,
                at: 0,
            };
            description.write_sheet(&mut page);
            succeeded(0, page.at)
        }
        Err(amiss) => Outcome::from(amiss),
    }
}
