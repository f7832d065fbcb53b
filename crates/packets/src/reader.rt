// The packet reader: `reading` of specs/Packets.antt. The lengths are tested first; then each rule and each step is decoded into a row
// of its own and asked, and the table and the proof text are written on the way, as much as fits. Lent outputs without a place, the
// questions alone are asked.
ghost use Rattle.std.specs.Prelude.{◌≡◌, true, ◌+◌, ◌-◌, ◌*◌, ◌<◌, ◌≤◌, pos, length, take, drop};
ghost use Rattle.std.proofs.Math.Option.{some};
ghost use Rattle.std.proofs.lemmas.List.Edits.{sets};
ghost use Rattle.words.specs.Limits.{longest, most_numbers};
ghost use Rattle.text.specs.Classes.{byte_classes};
ghost use Rattle.packets.specs.Bytes.{value, numbers_from};
ghost use Rattle.packets.specs.Packets.{fills, lengths_fit, with_kind, rules_in, steps_in, refused, parts_read, if_held, reading, ReadLeaves};
ghost use Rattle.packets.specs.Parts.{RuleTold, RowTold, TableTold, step_size, if_passes, step_at, StepTold, TextTold, Given, Zeros};

use crate::{HEADER, PacketReading, Version, numbers, versions};
use aspif::tables;
use text::{Class, Letter};

// The words before a rule's heads that version 1 has: a kind and two counts.
const FRONT: usize = 3;

// The words of the longest rule, and the place before them.
const ROW: usize = 1 + tables::LONGEST_RULE;

// How many bytes of text the steps come to, with their largest variable.
#[derive(Drop)]
pub struct Part {
    pub count: usize,
    pub top: usize,
}

// How many rules the words of a packet come to, and how many words of the table; their largest atom, and whether none has a
// weight body.
#[derive(Drop)]
pub struct RulesPart {
    pub rules: usize,
    pub words: usize,
    pub top: usize,
    pub plain: bool,
}

// How many words of the packet a rule takes, 0 where none stands there, and how many of the table; its largest atom, and whether it has
// no weight body.
#[derive(Drop)]
pub struct RuleRead {
    pub size: usize,
    pub words: usize,
    pub top: usize,
    pub plain: bool,
}

// The count that stands in 4 bytes.
pub fn count_at(packet: &[u8], at: usize) -> usize
    requires { at + 4 ≤ length packet.now }
    ensures { (result ≡ value (take 4 (drop at packet.now))) × (result < 4294967296) }
{
    let end = at + 4;
    numbers::value_of(&packet[at..end], false)
}

// How many bytes the step at the front takes; 0 where they are not there.
fn step_size(bytes: &[u8]) -> usize
    ensures { (result ≡ step_size bytes.now) × (result ≤ length bytes.now) }
{
    if bytes.len() < 2 {
        return 0;
    }
    let size = 2 + 2 * words::wide_byte(bytes[1]);
    if bytes.len() < size {
        return 0;
    }
    size
}

// Just so many steps make up the bytes.
fn are_steps(bytes: &[u8], count: usize) -> bool
    ensures { result ≡ fills count bytes.now }
{
    let mut at = 0;
    for _ in 0..count {
        let size = step_size(&bytes[at..]);
        if size == 0 {
            return false;
        }
        at += size;
    }
    at == bytes.len()
}

// Question 52, of the lengths.
pub fn lengths_fit(packet: &[u8]) -> bool
    ensures { result ≡ lengths_fit packet.now }
{
    if packet.len() < HEADER {
        return false;
    }
    let middle = HEADER + 4 * count_at(packet, 5);
    if packet.len() < middle {
        return false;
    }
    are_steps(&packet[middle..], count_at(packet, 9))
}

// A packet's words stand in the row from its second place on, and become the table's: the body kind 0 comes after the head count.
fn put_kind(row: &mut [i32])
    requires { 3 ≤ length row.old }
    ensures { row.new ≡ with_kind (drop 1 row.old) }
{
    row[0] = row[1];
    row[1] = row[2];
    row[2] = 0;
}

// Words go to the table from `at` on, as many as fit.
fn put_at(table: &mut [i32], at: usize, row: &[i32])
    ensures { table.new ≡ sets table.old at row.now }
{
    if at <= table.len() {
        words::put_words(&mut table[at..], row);
    }
}

// Where no rule stands.
fn no_rule() -> RuleRead
    ensures { result.size ≡ 0 }
{
    RuleRead {
        size: 0,
        words: 0,
        top: 0,
        plain: true,
    }
}

// The rule at the front of a row that has its words as the table has them: they go to the table from `at` on, and how many the packet
// has is told.
fn take_rule(version: Version, row: &[i32], table: &mut [i32], at: usize) -> RuleRead
    ensures { RowTold version row.now table.old table.new at result }
{
    if tables::is_sound(row) {
        let words = tables::rule_size(row);
        put_at(table, at, &row[..words]);
        return RuleRead {
            size: words - versions::fewer_in(version),
            words,
            top: tables::rule_top(row),
            plain: !tables::is_weighted(row),
        };
    }
    no_rule()
}

// The rule whose words fill the row but for one place.
fn decode_rule(
    version: Version,
    row: &mut [i32],
    bytes: &[u8],
    table: &mut [i32],
    at: usize,
) -> RuleRead
    requires { (3 ≤ length row.old) × (4 * (length row.old - 1) ≤ length bytes.now) }
    ensures { RuleTold version (numbers_from 4 (length row.old - 1) bytes.now) table.old
        table.new at result }
{
    numbers::read_numbers(&mut row[1..], bytes, 4);
    match version {
        Version::One => {
            put_kind(row);
            take_rule(Version::One, row, table, at)
        }
        Version::Two => take_rule(Version::Two, &row[1..], table, at),
    }
}

// The rule at the front of so many words: it goes to the table from `at` on, and how many of the words it takes is told.
pub fn read_rule(
    version: Version,
    bytes: &[u8],
    count: usize,
    table: &mut [i32],
    at: usize,
) -> RuleRead
    requires { 4 * count ≤ length bytes.now }
    ensures { RuleTold version (numbers_from 4 count bytes.now) table.old table.new at result }
{
    let mut row = [0; ROW];
    if count < FRONT {
        return no_rule();
    }
    if count < ROW {
        let end = count + 1;
        return decode_rule(version, &mut row[..end], bytes, table, at);
    }
    decode_rule(version, &mut row, bytes, table, at)
}

// The rules that the words fall into go to the table, as many words as fit.
pub fn read_rules(
    version: Version,
    bytes: &[u8],
    count: usize,
    table: &mut [i32],
) -> Option<RulesPart>
    requires { 4 * count ≤ length bytes.now }
    ensures { TableTold (rules_in version (numbers_from 4 count bytes.now)) table.old
        table.new result }
{
    let mut rules = 0;
    let mut words = 0;
    let mut top = 0;
    let mut plain = true;
    let mut i = 0;
    while i < count {
        if words::MOST_RULES <= rules {
            return None;
        }
        let from = 4 * i;
        let read = read_rule(version, &bytes[from..], count - i, table, words);
        if read.size == 0 {
            return None;
        }
        i += read.size;
        words += read.words;
        top = words::larger(top, read.top);
        plain = plain & read.plain;
        rules += 1;
    }
    Some(RulesPart {
        rules,
        words,
        top,
        plain,
    })
}

// The step whose numbers the row is filled with: its line is written, and its position after it told where it passes.
fn decode_step(
    letter: Letter,
    row: &mut [i32],
    bytes: &[u8],
    proof: &mut [u8],
    at: usize,
) -> Option<Part>
    requires { (length row.old ≤ most_numbers) × ((2 * length row.old ≤ length bytes.now) × (at ≤ longest)) }
    ensures { StepTold (if_passes (some letter) (numbers_from 2 (length row.old) bytes.now))
        proof.old proof.new at result }
{
    numbers::read_numbers(row, bytes, 2);
    let end = drupe::writing::write_step(letter, row, proof, at);
    if words::contains(row, 0) {
        return None;
    }
    let top = words::largest_variable(row);
    if drupe::is_good(letter, row) {
        return Some(Part { count: end, top });
    }
    None
}

// The step of a letter with so many numbers.
fn step_with(
    letter: Letter,
    count: usize,
    bytes: &[u8],
    proof: &mut [u8],
    at: usize,
) -> Option<Part>
    requires { (2 * count ≤ length bytes.now) × (at ≤ longest) }
    ensures { StepTold (if_passes (some letter) (numbers_from 2 count bytes.now)) proof.old
        proof.new at result }
{
    if words::MOST_NUMBERS < count {
        return None;
    }
    let mut row = [0; words::MOST_NUMBERS];
    decode_step(letter, &mut row[..count], bytes, proof, at)
}

// The step at the front.
fn read_step(bytes: &[u8], proof: &mut [u8], at: usize, classes: &[u8; 256]) -> Option<Part>
    requires bytes_nonzero { (0 < step_size bytes.now) × (at ≤ longest) }
    requires classes_value { classes.now ≡ byte_classes }
    ensures { StepTold (step_at bytes.now) proof.old proof.new at result }
{
    let count = words::wide_byte(bytes[1]);
    let Class::Step(letter) = text::class_of(classes, bytes[0]) else {
        return None;
    };
    step_with(letter, count, &bytes[2..], proof, at)
}

// The text of so many steps.
pub fn read_steps(bytes: &[u8], count: usize, proof: &mut [u8], classes: &[u8; 256]) -> Option<Part>
    requires bytes_value { fills count bytes.now ≡ true }
    requires classes_value { classes.now ≡ byte_classes }
    ensures { TextTold (steps_in count bytes.now) proof.old proof.new result }
{
    let mut i = 0;
    let mut end = 0;
    let mut top = 0;
    for _ in 0..count {
        let rest = &bytes[i..];
        i += step_size(rest);
        let step = read_step(rest, proof, end, classes)?;
        if words::LONGEST < step.count {
            return None;
        }
        end = step.count;
        top = words::larger(top, step.top);
    }
    Some(Part { count: end, top })
}

// Nothing of a packet that is refused stays in the outputs.
fn refuse(number: u8, table: &mut [i32], proof: &mut [u8]) -> PacketReading
    ensures { ReadLeaves (refused number) table.old table.new proof.old
        proof.new result }
{
    words::zero_all(table);
    words::zero_all(proof);
    PacketReading::Refused(number)
}

// What both parts come to, where the version has room for their largest variable and the outputs hold them: so many words of the table and
// bytes of the text, which stand there already.
fn give(
    version: Version,
    size: usize,
    rules: usize,
    bytes: usize,
    top: usize,
    table: &mut [i32],
    proof: &mut [u8],
) -> PacketReading
    ensures { Given version size rules bytes top table.old table.new proof.old
        proof.new result }
{
    if versions::limit_of(version) < top {
        return refuse(53, table, proof);
    }
    if table.len() < size {
        return refuse(52, table, proof);
    }
    if proof.len() < bytes {
        return refuse(52, table, proof);
    }
    PacketReading::Read { rules, bytes }
}

// Both parts of a packet whose lengths fit.
fn read_parts(
    version: Version,
    words: &[u8],
    count: usize,
    bytes: &[u8],
    steps: usize,
    table: &mut [i32],
    proof: &mut [u8],
) -> PacketReading
    requires count_in_bounds { (4 * count ≤ length words.now) × (fills steps bytes.now ≡ true) }
    requires zeros { Zeros (pos 0) table.old × Zeros 0 proof.old }
    ensures { ReadLeaves (if_held (length table.old) (length proof.old)
        (parts_read version count words.now steps bytes.now)) table.old table.new
        proof.old proof.new result }
{
    let classes = text::classes::CLASSES;
    let Some(text) = read_steps(bytes, steps, proof, &classes) else {
        return refuse(53, table, proof);
    };
    let Some(rules) = read_rules(version, words, count, table) else {
        return refuse(53, table, proof);
    };
    let top = words::larger(rules.top, text.top);
    give(
        version,
        rules.words,
        rules.rules,
        text.count,
        top,
        table,
        proof,
    )
}

// A packet of the version, into outputs of zeros.
pub fn read_as(
    version: Version,
    packet: &[u8],
    table: &mut [i32],
    proof: &mut [u8],
) -> PacketReading
    requires { Zeros (pos 0) table.old × Zeros 0 proof.old }
    ensures { ReadLeaves (reading version packet.now (length table.old)
        (length proof.old)) table.old table.new proof.old proof.new result }
{
    if !versions::is_marked(version, packet) {
        return PacketReading::Refused(51);
    }
    if !lengths_fit(packet) {
        return PacketReading::Refused(52);
    }
    let count = count_at(packet, 5);
    let middle = HEADER + 4 * count;
    let steps = count_at(packet, 9);
    read_parts(
        version,
        &packet[HEADER..middle],
        count,
        &packet[middle..],
        steps,
        table,
        proof,
    )
}
