// Case packets: a program's table and a proof in one sequence of bytes, in two versions. The services are `write_packet` and
// `read_packet`; what they mean is specs/Packets.antt.
#![tactic(auto)]

pub mod numbers;
pub mod reader;
pub mod versions;
pub mod writer;

ghost use Rattle.packets.specs.Packets.{ReadPacket, WrittenPacket};

// The header's bytes: the mark with the version, and two counts.
pub const HEADER: usize = 13;

// The versions of packets. The first has no words for weight bodies.
#[derive(Clone, Copy)]
pub enum Version {
    One,
    Two,
}

// How many bytes the packet has, or the number of the question that is answered no.
#[derive(Drop)]
pub enum PacketWriting {
    Written(usize),
    Refused(u8),
}

// The rule count and the bytes of the proof text, or the number of the question that is answered no.
#[derive(Drop)]
pub enum PacketReading {
    Read { rules: usize, bytes: usize },
    Refused(u8),
}

// The packet of the version told, 1 or 2, of a table with so many rules and a proof text. A refusal leaves every byte of the output 0.
pub fn write_packet(
    version: u64,
    table: &[i32],
    rules: usize,
    proof: &[u8],
    packet: &mut [u8],
) -> PacketWriting
    ensures { WrittenPacket version table.now rules proof.now packet.old
        packet.new result }
{
    words::zero_all(packet);
    match version {
        1 => writer::write_as(Version::One, table, rules, proof, packet),
        2 => writer::write_as(Version::Two, table, rules, proof, packet),
        _ => PacketWriting::Refused(51),
    }
}

// Reads a packet of the version told, 1 or 2, into the table and the proof text, with 0 after them; both are 0 throughout where it is
// refused.
pub fn read_packet(
    version: u64,
    packet: &[u8],
    table: &mut [i32],
    proof: &mut [u8],
) -> PacketReading
    ensures { ReadPacket version packet.now table.old table.new proof.old
        proof.new result }
{
    words::zero_all(table);
    words::zero_all(proof);
    match version {
        1 => reader::read_as(Version::One, packet, table, proof),
        2 => reader::read_as(Version::Two, packet, table, proof),
        _ => PacketReading::Refused(51),
    }
}
