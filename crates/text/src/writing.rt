// Bytes and numbers written to a lent buffer: specs/Decimals.antt and specs/Writing.antt. What stands past the buffer's end is not
// stored, and is counted all the same, so that a caller learns how long a buffer it needs. The bounds on positions only keep sums
// from wrapping.
ghost use Rattle.std.specs.Prelude.{◌≡◌, [], ◌∷◌, ◌+◌, ◌<◌, ◌≤◌, length, set};
ghost use Rattle.text.specs.Bytes.{byte_of};
ghost use Rattle.text.specs.Decimals.{digit_byte, decimal, number_bytes};
ghost use Rattle.text.specs.Writing.{Put, farthest, sign_bytes};

use crate::Letter;

// A byte past the end is not written.
pub fn put(buffer: &mut [u8], at: usize, byte: u8)
    ensures { buffer.new ≡ set buffer.old at byte }
{
    if at < buffer.len() {
        buffer[at] = byte;
    }
}

// The bytes from `at` on, and the position after them.
pub fn put_bytes(buffer: &mut [u8], at: usize, bytes: &[u8]) -> usize
    requires { at + length bytes.now ≤ farthest }
    ensures { Put bytes.now buffer.old buffer.new at result }
{
    for i in 0..bytes.len() {
        put(buffer, at + i, bytes[i]);
    }
    at + bytes.len()
}

// One digit.
fn put_digit(buffer: &mut [u8], at: usize, d: usize) -> usize
    requires room { at ≤ farthest + 20 }
    requires digit { d < 10 }
    ensures { Put (digit_byte d ∷ []) buffer.old buffer.new at result }
{
    put(buffer, at, b'0' + d as u8);
    at + 1
}

// The decimal digits of a number.
pub fn put_digits(buffer: &mut [u8], at: usize, n: usize) -> usize
    requires { at ≤ farthest }
    ensures { Put (decimal n) buffer.old buffer.new at result }
{
    if n < 10 {
        return put_digit(buffer, at, n);
    }
    let last = put_digits(buffer, at, n / 10);
    put_digit(buffer, last, n % 10)
}

// The minus of a negative number.
fn put_sign(buffer: &mut [u8], at: usize, number: i32) -> usize
    requires { at + 1 ≤ farthest }
    ensures { Put (sign_bytes number) buffer.old buffer.new at result }
{
    if number < 0 {
        return put_bytes(buffer, at, b"-");
    }
    at
}

// A space and a number.
pub fn put_number(buffer: &mut [u8], at: usize, number: i32) -> usize
    requires { at + 2 ≤ farthest }
    ensures written { Put (32 ∷ number_bytes number) buffer.old buffer.new at result }
    ensures within { result ≤ at + 22 }
{
    let sign = put_bytes(buffer, at, b" ");
    let from = put_sign(buffer, sign, number);
    put_digits(buffer, from, words::variable_of(number))
}

// The byte of a letter.
pub fn byte_of(letter: Letter) -> u8
    ensures { result ≡ byte_of letter }
{
    match letter {
        Letter::Addition => b'a',
        Letter::Body => b'b',
        Letter::Completion => b'c',
        Letter::Deletion => b'd',
        Letter::Extension => b'e',
        Letter::Loop => b'l',
        Letter::Support => b's',
    }
}
