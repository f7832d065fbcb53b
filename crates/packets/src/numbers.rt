// Numbers as bytes, lowest first: specs/Bytes.antt.
ghost use Rattle.std.specs.Prelude.{◌≡◌, map, ◌<◌, ◌≤◌, ◌*◌, length};
ghost use Rattle.packets.specs.Bytes.{value, flip_if, signed_value, numbers_from};

// A byte, taken from 255 where the number is negative.
pub fn flip_if(negative: bool, byte: u8) -> u8
    ensures { result ≡ flip_if negative byte }
{
    if negative {
        return 255 - byte;
    }
    byte
}

// The number that the bytes make, each taken from 255 where it is negative.
pub fn value_of(bytes: &[u8], negative: bool) -> usize
    requires { length bytes.now ≤ 4 }
    ensures { (result ≡ value (map (flip_if negative) bytes.now)) × (result < 4294967296) }
{
    let mut n = 0;
    for i in (0..bytes.len()).rev() {
        n = n * 256 + words::wide_byte(flip_if(negative, bytes[i]));
    }
    n
}

// The signed number that the bytes make.
pub fn signed_of(bytes: &[u8]) -> i32
    requires { (0 < length bytes.now) × (length bytes.now ≤ 4) }
    ensures { result ≡ signed_value bytes.now }
{
    let last = bytes.len() - 1;
    let negative = 128 <= bytes[last];
    let n = value_of(bytes, negative) as i64;
    if negative {
        return (-1 - n) as i32;
    }
    n as i32
}

// The numbers of k bytes each that the bytes begin with, as many as the row has.
pub fn read_numbers(row: &mut [i32], bytes: &[u8], k: usize)
    requires { ((0 < k) × (k ≤ 4)) × (k * length row.old ≤ length bytes.now) }
    ensures { row.new ≡ numbers_from k (length row.old) bytes.now }
{
    for i in 0..row.len() {
        let at = k * i;
        let end = at + k;
        row[i] = signed_of(&bytes[at..end]);
    }
}
