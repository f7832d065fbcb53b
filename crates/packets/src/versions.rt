// What differs by the version of a packet: its mark, its largest variable, the rules that it has words for, and how many words fewer than
// in the table a rule has.
ghost use Rattle.std.specs.Prelude.{◌≡◌, true};
ghost use Rattle.words.specs.Lists.{all};
ghost use Rattle.text.specs.Strings.{starts_with};
ghost use Rattle.text.specs.Writing.{Put};
ghost use Rattle.aspif.specs.Tables.{rules_at, sound_rules};
ghost use Rattle.packets.specs.Packets.{mark, limit, has_words, fewer};

use crate::Version;
use aspif::tables;
use text::writing;

// The mark with version 1.
const MARK_1: [u8; 5] = *b"RVP\x01\x00";

// The mark with version 2.
const MARK_2: [u8; 5] = *b"RVP\x02\x00";

// Question 51, of the mark with the version.
pub fn is_marked(version: Version, packet: &[u8]) -> bool
    ensures { result ≡ starts_with (mark version) packet.now }
{
    match version {
        Version::One => text::starts_with(packet, &MARK_1),
        Version::Two => text::starts_with(packet, &MARK_2),
    }
}

// The mark with the version, at the front.
pub fn put_mark(version: Version, packet: &mut [u8])
    ensures { Put (mark version) packet.old packet.new 0 5 }
{
    match version {
        Version::One => {
            writing::put_bytes(packet, 0, &MARK_1);
        }
        Version::Two => {
            writing::put_bytes(packet, 0, &MARK_2);
        }
    }
}

// The largest variable.
pub fn limit_of(version: Version) -> usize
    ensures { result ≡ limit version }
{
    match version {
        Version::One => 4095,
        Version::Two => words::LARGEST,
    }
}

// How many words fewer than in the table a rule has.
pub fn fewer_in(version: Version) -> usize
    ensures { result ≡ fewer version }
{
    match version {
        Version::One => 1,
        Version::Two => 0,
    }
}

// Every rule of the table has words in a packet.
pub fn all_have_words(version: Version, table: &[i32], rules: usize) -> bool
    requires { sound_rules rules table.now ≡ true }
    ensures { result ≡ all (has_words version) (rules_at rules table.now) }
{
    match version {
        Version::One => tables::all_plain(table, rules),
        Version::Two => true,
    }
}
