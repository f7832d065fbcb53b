// The packet writer: `writing` of specs/Packets.antt. The rules and the steps are put where the header ends, and the header last,
// with the counts that are known then. What stands past the output's end is not stored, and is counted all the same, so that 53 is
// known before 52 is. The bounds on positions only keep sums from wrapping.
ghost use Rattle.std.specs.Prelude.{◌≡◌, true, [], ◌∷◌, ◌++◌, map, ◌+◌, ◌*◌, ◌<◌, ◌≤◌, pos, length, replicate};
ghost use Rattle.text.specs.Writing.{Put, farthest};
ghost use Rattle.words.specs.Limits.{longest, most_rules, most_numbers};
ghost use Rattle.words.specs.Lists.{all};
ghost use Rattle.aspif.specs.Rules.{is_plain, kind_word};
ghost use Rattle.aspif.specs.Tables.{rule_at, sound_at, rules_at, sound_rules, sound_table};
ghost use Rattle.drupe.specs.Texts.{steps_of};
ghost use Rattle.packets.specs.Bytes.{little, flip_if, signed_bytes, bytes_of};
ghost use Rattle.packets.specs.Packets.{mark, packet_rule, packet_words, has_words, step_bytes, writing, WritingLeaves};
ghost use Rattle.packets.specs.declared.Version.TheVariants.{One};
ghost use Rattle.packets.specs.Writes.{rule_room, step_room, last_rule_end, StepsPutAs, writing_told};

use crate::{HEADER, PacketWriting, Version, numbers, versions};
use aspif::{Kind, tables};
use drupe::reader;
use text::{Letter, writing};
use words::MOST_NUMBERS;

// The steps that were put, their largest variable, the position after them, and whether they are all that the text has.
#[derive(Drop)]
struct StepsPut {
    good: bool,
    steps: usize,
    top: usize,
    end: usize,
}

// The k low bytes of a number, lowest first, each taken from 255 where the number that they stand for is negative.
fn put_little(buffer: &mut [u8], at: usize, negative: bool, number: usize, k: usize) -> usize
    requires { at + k ≤ farthest }
    ensures { Put (map (flip_if negative) (little k number)) buffer.old buffer.new at result }
{
    let mut left = number;
    for i in 0..k {
        let byte = (left % 256) as u8;
        writing::put(buffer, at + i, numbers::flip_if(negative, byte));
        left = left / 256;
    }
    at + k
}

// The k bytes of a signed word.
fn put_signed(buffer: &mut [u8], at: usize, word: i32, k: usize) -> usize
    requires { at + k ≤ farthest }
    ensures { Put (signed_bytes k word) buffer.old buffer.new at result }
{
    let size = words::variable_of(word);
    if word < 0 {
        return put_little(buffer, at, true, size - 1, k);
    }
    put_little(buffer, at, false, size, k)
}

// Words one after another, k bytes for each.
fn put_all(buffer: &mut [u8], at: usize, row: &[i32], k: usize) -> usize
    requires { (k ≤ 4) × (at + 4 * length row.now ≤ farthest) }
    ensures put { Put (bytes_of k row.now) buffer.old buffer.new at result }
    ensures value { result ≡ at + k * length row.now }
{
    let mut end = at;
    for word in row {
        end = put_signed(buffer, end, *word, k);
    }
    end
}

// A count, in 4 bytes.
fn put_count(buffer: &mut [u8], at: usize, count: usize) -> usize
    requires { at + 4 ≤ farthest }
    ensures put { Put (little 4 count) buffer.old buffer.new at result }
    ensures value { result ≡ at + 4 }
{
    put_little(buffer, at, false, count, 4)
}

// The word of a head kind.
fn kind_number(kind: Kind) -> usize
    ensures { kind_word kind ≡ pos result }
{
    match kind {
        Kind::Normal => 0,
        Kind::Choice => 1,
    }
}

// The words before a rule's heads.
fn put_counts(buffer: &mut [u8], at: usize, kind: Kind, heads: usize, body: usize) -> usize
    requires { at + 12 ≤ farthest }
    ensures put { Put (bytes_of 4 (kind_word kind ∷ pos heads ∷ pos body ∷ [])) buffer.old
        buffer.new at result }
    ensures value { result ≡ at + 12 }
{
    let first = put_count(buffer, at, kind_number(kind));
    let second = put_count(buffer, first, heads);
    put_count(buffer, second, body)
}

// The rule at the front of some words of the table, which has no weight body, with the words of version 1.
fn put_old_rule(buffer: &mut [u8], at: usize, rule: &[i32]) -> usize
    requires { (sound_at rule.now ≡ true) × ((is_plain (rule_at rule.now) ≡ true) × (at + rule_room ≤ farthest)) }
    ensures put { Put (bytes_of 4 (packet_rule One (rule_at rule.now))) buffer.old buffer.new at result }
    ensures upper_bound { result ≤ at + rule_room }
{
    let heads = tables::heads_of(rule);
    let body = tables::body_of(rule);
    let kind = tables::kind_of(rule);
    let from = put_counts(buffer, at, kind, heads.len(), body.len());
    let middle = put_all(buffer, from, heads, 4);
    put_all(buffer, middle, body, 4)
}

// The rule at the front of some words of the table, which has words in the version.
pub fn put_rule(version: Version, buffer: &mut [u8], at: usize, rule: &[i32]) -> usize
    requires { (sound_at rule.now ≡ true) × ((has_words version (rule_at rule.now) ≡ true) × (at + rule_room ≤ farthest)) }
    ensures put { Put (bytes_of 4 (packet_rule version (rule_at rule.now))) buffer.old buffer.new at result }
    ensures upper_bound { result ≤ at + rule_room }
{
    match version {
        Version::One => put_old_rule(buffer, at, rule),
        Version::Two => {
            let size = tables::rule_size(rule);
            put_all(buffer, at, &rule[..size], 4)
        }
    }
}

// The rules of a table, one after another.
fn put_rules(version: Version, buffer: &mut [u8], at: usize, table: &[i32], rules: usize) -> usize
    requires table_value { (sound_rules rules table.now ≡ true) × (all (has_words version) (rules_at rules table.now) ≡ true) }
    requires rules_le_most_rules { (rules ≤ most_rules) × (at ≤ 13) }
    ensures put { Put (bytes_of 4 (packet_words version (rules_at rules table.now))) buffer.old
        buffer.new at result }
    ensures upper_bound { result ≤ last_rule_end }
{
    let mut end = at;
    for rule in tables::rules_in(table, rules) {
        end = put_rule(version, buffer, end, rule.words);
    }
    end
}

// The step's letter, count and numbers.
fn put_step(buffer: &mut [u8], at: usize, letter: Letter, numbers: &[i32]) -> usize
    requires { (length numbers.now ≤ most_numbers) × (at + step_room ≤ farthest) }
    ensures put { Put (step_bytes (record { letter = letter; numbers = numbers.now })) buffer.old
        buffer.new at result }
    ensures upper_bound { result ≤ at + step_room }
{
    writing::put(buffer, at, writing::byte_of(letter));
    writing::put(buffer, at + 1, numbers.len() as u8);
    put_all(buffer, at + 2, numbers, 2)
}

// The steps of a proof text that is not too long, up to the first line that is refused.
fn put_lines(buffer: &mut [u8], at: usize, text: &[u8]) -> StepsPut
    requires { (length text.now ≤ longest) × (at ≤ last_rule_end) }
    ensures { StepsPutAs (steps_of text.now) buffer.old buffer.new at result }
{
    let classes = text::classes::CLASSES;
    let mut numbers = [0; MOST_NUMBERS];
    let mut sorted = [0; MOST_NUMBERS];
    let mut position = 0;
    let mut steps = 0;
    let mut top = 0;
    let mut end = at;
    'lines: loop {
        let read = match reader::step_at(text, position, &classes, &mut numbers, &mut sorted) {
            Err(_) => {
                return StepsPut {
                    good: false,
                    steps,
                    top,
                    end,
                };
            }
            Ok(read) => read,
        };
        let Some(line) = read else {
            return StepsPut {
                good: true,
                steps,
                top,
                end,
            };
        };
        end = put_step(buffer, end, line.letter, &numbers[..line.count]);
        top = words::larger(top, words::largest_variable(&numbers[..line.count]));
        position = line.next;
        steps += 1;
    }
}

// The steps of a proof text, up to the first line that is refused; none where the text is too long.
fn put_steps(buffer: &mut [u8], at: usize, text: &[u8]) -> StepsPut
    requires { at ≤ last_rule_end }
    ensures { StepsPutAs (steps_of text.now) buffer.old buffer.new at result }
{
    if words::LONGEST < text.len() {
        return StepsPut {
            good: false,
            steps: 0,
            top: 0,
            end: at,
        };
    }
    put_lines(buffer, at, text)
}

// The mark with the version, and both counts.
pub fn put_header(version: Version, packet: &mut [u8], words: usize, steps: usize)
    ensures { Put (mark version ++ (little 4 words ++ little 4 steps)) packet.old packet.new 0 13 }
{
    versions::put_mark(version, packet);
    let second = put_count(packet, 5, words);
    put_count(packet, second, steps);
}

// The questions that are left of a packet of so many bytes, in their order: 21 to 25 of the text, then the output's length.
fn answer_of(good: bool, size: usize, fits: bool) -> PacketWriting
    ensures { result ≡ writing_told good size fits }
{
    if good {
        if fits {
            return PacketWriting::Written(size);
        }
        return PacketWriting::Refused(52);
    }
    PacketWriting::Refused(53)
}

// The packet of a table that passed question 41 and whose rules have words in the version, to an output of zeros.
fn write_pair(
    version: Version,
    table: &[i32],
    rules: usize,
    proof: &[u8],
    packet: &mut [u8],
) -> PacketWriting
    requires rules_value { (sound_table table.now rules ≡ true) × (all (has_words version) (rules_at rules table.now) ≡ true) }
    requires packet_value { packet.old ≡ replicate (length packet.old) 0 }
    ensures { WritingLeaves (writing version table.now rules proof.now (length packet.old))
        packet.old packet.new result }
{
    let middle = put_rules(version, packet, HEADER, table, rules);
    let put = put_steps(packet, middle, proof);
    let top = words::larger(tables::largest_atom(table, rules), put.top);
    let good = put.good & (top <= versions::limit_of(version));
    let answer = answer_of(good, put.end, put.end <= packet.len());
    match answer {
        PacketWriting::Written(_) => {
            put_header(version, packet, (middle - HEADER) / 4, put.steps);
            answer
        }
        PacketWriting::Refused(_) => {
            words::zero_all(packet);
            answer
        }
    }
}

// The packet of the version, to an output of zeros.
pub fn write_as(
    version: Version,
    table: &[i32],
    rules: usize,
    proof: &[u8],
    packet: &mut [u8],
) -> PacketWriting
    requires { packet.old ≡ replicate (length packet.old) 0 }
    ensures { WritingLeaves (writing version table.now rules proof.now (length packet.old))
        packet.old packet.new result }
{
    if !tables::is_readable(table, rules) {
        return PacketWriting::Refused(53);
    }
    if !versions::all_have_words(version, table, rules) {
        return PacketWriting::Refused(53);
    }
    write_pair(version, table, rules, proof, packet)
}
