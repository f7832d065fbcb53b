// A packet moved to the other version: the services `packet_up` and `packet_down`; what they mean is `up` and `down` of the packets crate.
// Every rule and every step is asked first. Then the packet made is written rule by rule, from a row that holds one, and the steps' bytes,
// which both versions have alike, are copied.
#![tactic(auto)]

ghost use Rattle.std.specs.Prelude.{◌≡◌, true, ◌+◌, ◌*◌, ◌≤◌, length};
ghost use Rattle.text.specs.Writing.{farthest};
ghost use Rattle.packets.specs.Bytes.{numbers_from};
ghost use Rattle.packets.specs.Packets.{fills, rule_passes, has_words, rule_in, parts_read, pair_in, MovedUp, MovedDown};
ghost use Rattle.packets.specs.Parts.{Zeros};
ghost use Rattle.packets.specs.Writes.{rule_room, last_rule_end};
ghost use Rattle.moves.specs.Moves.{Holds, PairTold, RuleMovedAs, Movable, RulesMoved, PairWritten, Moved};

use aspif::tables::LONGEST_RULE;
use packets::{HEADER, PacketWriting, Version, reader, versions, writer};
use text::writing;

// How many words the rules of a pair take in the version that it moves to, and whether that version can hold it.
#[derive(Drop)]
struct Measured {
    words: usize,
    fits: bool,
}

// How many words a rule took, and the position after the bytes that it has now.
#[derive(Drop)]
struct RuleMoved {
    size: usize,
    end: usize,
}

// The version can hold a pair with that largest variable, and with no weight body or one.
fn can_hold(version: Version, top: usize, plain: bool) -> bool
    ensures { Holds version top plain result }
{
    let small = top <= versions::limit_of(version);
    match version {
        Version::One => plain & small,
        Version::Two => small,
    }
}

// Both parts of a packet whose lengths fit, asked and measured; nothing of them is kept. `None` where they are refused.
fn measure(
    from: Version,
    to: Version,
    words: &[u8],
    count: usize,
    bytes: &[u8],
    steps: usize,
) -> Option<Measured>
    requires { (4 * count ≤ length words.now) × (fills steps bytes.now ≡ true) }
    ensures { PairTold to (parts_read from count words.now steps bytes.now) result }
{
    let classes = text::classes::CLASSES;
    let mut table = [0; 1];
    let mut proof = [0; 1];
    let text = reader::read_steps(bytes, steps, &mut proof, &classes)?;
    let rules = reader::read_rules(from, words, count, &mut table)?;
    let top = words::larger(rules.top, text.top);
    if versions::limit_of(from) < top {
        return None;
    }
    Some(Measured {
        words: rules.words - versions::fewer_in(to) * rules.rules,
        fits: can_hold(to, top, rules.plain),
    })
}

// The rule at the front of so many words goes to the output from `at` on, with the words of the other version.
fn move_rule(
    from: Version,
    to: Version,
    bytes: &[u8],
    count: usize,
    output: &mut [u8],
    at: usize,
) -> RuleMoved
    requires room { (4 * count ≤ length bytes.now) × (at + rule_room ≤ farthest) }
    requires sound { rule_passes from (numbers_from 4 count bytes.now) ≡ true }
    requires words { has_words to (rule_in from (numbers_from 4 count bytes.now)) ≡ true }
    ensures { RuleMovedAs from to (numbers_from 4 count bytes.now) output.old output.new at result }
{
    let mut row = [0; LONGEST_RULE];
    let read = reader::read_rule(from, bytes, count, &mut row, 0);
    let end = writer::put_rule(to, output, at, &row);
    RuleMoved {
        size: read.size,
        end,
    }
}

// The rules that the words fall into go to the output after its header, and the position after them is told.
fn move_rules(from: Version, to: Version, bytes: &[u8], count: usize, output: &mut [u8]) -> usize
    requires { (4 * count ≤ length bytes.now) × Movable from to (numbers_from 4 count bytes.now) }
    ensures { RulesMoved from to (numbers_from 4 count bytes.now) output.old output.new result }
{
    let mut i = 0;
    let mut end = HEADER;
    while i < count {
        let at = 4 * i;
        let moved = move_rule(from, to, &bytes[at..], count - i, output, end);
        i += moved.size;
        end = moved.end;
    }
    end
}

// The packet made: the header with so many words and steps, the rules, the steps.
fn write_pair(
    from: Version,
    to: Version,
    words: &[u8],
    count: usize,
    bytes: &[u8],
    steps: usize,
    used: usize,
    output: &mut [u8],
)
    requires count_in_bounds { (4 * count ≤ length words.now) × Movable from to (numbers_from 4 count words.now) }
    requires bytes_bound { last_rule_end + length bytes.now ≤ farthest }
    ensures { PairWritten from to (numbers_from 4 count words.now) bytes.now steps used output.old
        output.new }
{
    writer::put_header(to, output, used, steps);
    let end = move_rules(from, to, words, count, output);
    writing::put_bytes(output, end, bytes);
}

// Both parts of a packet whose lengths fit, to an output of zeros.
fn move_parts(
    from: Version,
    to: Version,
    words: &[u8],
    count: usize,
    bytes: &[u8],
    steps: usize,
    output: &mut [u8],
) -> PacketWriting
    requires count_in_bounds { (4 * count ≤ length words.now) × (fills steps bytes.now ≡ true) }
    requires zeros { Zeros 0 output.old }
    ensures { Moved to (parts_read from count words.now steps bytes.now) output.old
        output.new result }
{
    let Some(measured) = measure(from, to, words, count, bytes, steps) else {
        return PacketWriting::Refused(53);
    };
    let Measured { words: used, fits } = measured;
    if !fits {
        return PacketWriting::Refused(61);
    }
    let size = HEADER + 4 * used + bytes.len();
    if output.len() < size {
        return PacketWriting::Refused(52);
    }
    write_pair(from, to, words, count, bytes, steps, used, output);
    PacketWriting::Written(size)
}

// A packet of one version becomes the packet of another that holds the same pair.
fn move_packet(from: Version, to: Version, packet: &[u8], output: &mut [u8]) -> PacketWriting
    ensures { Moved to (pair_in from packet.now) output.old output.new result }
{
    words::zero_all(output);
    if !versions::is_marked(from, packet) {
        return PacketWriting::Refused(51);
    }
    if !reader::lengths_fit(packet) {
        return PacketWriting::Refused(52);
    }
    let count = reader::count_at(packet, 5);
    let middle = HEADER + 4 * count;
    let steps = reader::count_at(packet, 9);
    move_parts(
        from,
        to,
        &packet[HEADER..middle],
        count,
        &packet[middle..],
        steps,
        output,
    )
}

// A packet of version 1 becomes one of version 2. A refusal leaves every byte of the output 0.
pub fn packet_up(packet: &[u8], output: &mut [u8]) -> PacketWriting
    ensures { MovedUp packet.now output.old output.new result }
{
    move_packet(Version::One, Version::Two, packet, output)
}

// A packet of version 2 becomes one of version 1, where that can hold it. A refusal leaves every byte of the output 0.
pub fn packet_down(packet: &[u8], output: &mut [u8]) -> PacketWriting
    ensures { MovedDown packet.now output.old output.new result }
{
    move_packet(Version::Two, Version::One, packet, output)
}
