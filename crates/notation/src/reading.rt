// How a case is read: parts of a text, numbers and lists of them, bytes in hexadecimal, and parts that are repeated. No function asks for
// anything; what does not fit is left out.
ghost use Rattle.std.specs.Prelude.{◌≡◌, ◌≤◌, length};
ghost use Rattle.notation.specs.Counts.{Counts};

// How many bytes stand before the first `mark`, or before the end.
pub fn before(text: &[u8], mark: u8) -> usize
    ensures { Counts result text.now }
{
    for i in 0..text.len() {
        if text[i] == mark {
            return i;
        }
    }
    text.len()
}

// The bytes before the first `mark`, or all of them.
pub fn head(text: &[u8], mark: u8) -> &[u8] {
    let n = before(text, mark);
    &text[..n]
}

// The bytes behind the first `mark`, or none.
pub fn tail(text: &[u8], mark: u8) -> &[u8] {
    let n = before(text, mark);
    if n < text.len() {
        let from = n + 1;
        return &text[from..];
    }
    &text[n..]
}

// The first byte, 0 where there is none.
pub fn first_of(text: &[u8]) -> u8 {
    if 0 < text.len() { text[0] } else { 0 }
}

// A length that is asked for, or all there is.
pub fn most_words(n: u64, words: &[i32]) -> usize
    ensures { Counts result words.now }
{
    let n = n as usize;
    if n <= words.len() { n } else { words.len() }
}

pub fn most_bytes(n: u64, bytes: &[u8]) -> usize
    ensures { Counts result bytes.now }
{
    let n = n as usize;
    if n <= bytes.len() { n } else { bytes.len() }
}

// A hexadecimal digit's value; 16 for another byte.
fn digit_of(byte: u8) -> u8 {
    match byte {
        b'0'..=b'9' => byte - b'0',
        b'a'..=b'f' => byte - b'a' + 10,
        _ => 16,
    }
}

// The number with one digit more; another byte changes nothing.
fn with_digit(v: u64, byte: u8) -> u64 {
    let digit = digit_of(byte);
    if digit < 10 {
        return v % 10000 * 10 + digit as u64;
    }
    v
}

// The number whose digits stand in the text.
fn number_of(text: &[u8]) -> u64 {
    let mut v = 0;
    for byte in text {
        v = with_digit(v, *byte);
    }
    v
}

// What a minus adds to a number in a row of them.
const MINUS: u64 = 100000;

// The number with its sign.
fn entry_of(text: &[u8]) -> u64 {
    let size = number_of(text) % MINUS;
    if before(text, b'-') < text.len() {
        return MINUS + size;
    }
    size
}

// One number more, where there is room.
fn push_number(row: &mut [u64], n: usize, number: u64) -> usize
    ensures length { length row.new ≡ length row.old }
    ensures within { result ≤ length row.old }
{
    if n < row.len() {
        row[n] = number;
        return n + 1;
    }
    row.len()
}

// The numbers that have a space before them; how many there are.
pub fn numbers_of(row: &mut [u64], text: &[u8]) -> usize
    ensures { Counts result row.new }
{
    let mut n = 0;
    let mut at = before(text, b' ') + 1;
    while at < text.len() {
        let end = at + before(&text[at..], b' ');
        n = push_number(row, n, entry_of(&text[at..end]));
        at = end + 1;
    }
    n
}

fn signed(negative: bool, size: u16) -> i32 {
    if negative {
        return 0 - (size as i32);
    }
    size as i32
}

// A row's numbers as words.
pub fn words_of(row: &mut [i32], numbers: &[u64]) -> usize
    ensures { Counts result row.new }
{
    let count = numbers.len().min(row.len());
    for i in 0..count {
        let number = numbers[i];
        row[i] = signed(MINUS <= number, (number % MINUS % 65536) as u16);
    }
    count
}

// A cost: of the negative ones those that cases have, of which the last is the least there is.
fn cost_of(number: u64) -> i16 {
    match number {
        0..=32767 => number as i16,
        100001 => -1,
        100002 => -2,
        100003 => -3,
        _ => -32768,
    }
}

// A row's numbers as costs.
pub fn costs_of(row: &mut [i16], numbers: &[u64]) -> usize
    ensures { Counts result row.new }
{
    let count = numbers.len().min(row.len());
    for i in 0..count {
        row[i] = cost_of(numbers[i]);
    }
    count
}

// A row's numbers as atoms.
fn atoms_of(row: &mut [u16], numbers: &[u64]) -> usize
    ensures { Counts result row.new }
{
    let count = numbers.len().min(row.len());
    for i in 0..count {
        row[i] = (numbers[i] % 65536) as u16;
    }
    count
}

// The atoms, or a tree's numbers, that have a space before them.
pub fn set_of(row: &mut [u16], text: &[u8]) -> usize
    ensures { Counts result row.new }
{
    let mut numbers = [0u64; 40];
    let n = numbers_of(&mut numbers, text);
    atoms_of(row, &numbers[..n])
}

// One digit more after n of them, where it is one and there is room.
fn push_digit(out: &mut [u8], n: usize, digit: u8) -> usize {
    let at = n / 2;
    if digit < 16 {
        if at < out.len() {
            out[at] = out[at] % 16 * 16 + digit;
            return n + 1;
        }
    }
    n
}

// The bytes that stand in the text in hexadecimal, with whatever between them; how many they are.
pub fn decode(out: &mut [u8], text: &[u8]) -> usize
    ensures { Counts result out.new }
{
    let mut n = 0;
    for byte in text {
        n = push_digit(out, n, digit_of(*byte));
    }
    most_bytes((n / 2) as u64, out)
}

// One byte more, where there is room.
fn push(out: &mut [u8], n: usize, byte: u8) -> usize {
    if n < out.len() {
        out[n] = byte;
        return n + 1;
    }
    n
}

// The part at n, where there is room.
pub fn push_all(out: &mut [u8], n: usize, part: &[u8]) -> usize {
    let mut m = n;
    for byte in part {
        m = push(out, m, *byte);
    }
    m
}

// The part so many times.
fn repeat(out: &mut [u8], n: usize, part: &[u8], times: u64) -> usize {
    let mut m = n;
    for _ in 0..times {
        m = push_all(out, m, part);
    }
    m
}

// A part to be taken once and, after `{`, a number and a newline, one to be repeated.
fn push_piece(out: &mut [u8], n: usize, piece: &[u8]) -> usize {
    let m = push_all(out, n, head(piece, b'{'));
    let rest = tail(piece, b'{');
    let times = number_of(head(rest, b'\n'));
    repeat(out, m, tail(rest, b'\n'), times)
}

// The text with its parts repeated.
pub fn expand(out: &mut [u8], text: &[u8]) -> usize
    ensures { Counts result out.new }
{
    let mut n = 0;
    let mut at = 0;
    while at < text.len() {
        let end = at + before(&text[at..], b'}');
        n = push_piece(out, n, &text[at..end]);
        at = end + 1;
    }
    most_bytes(n as u64, out)
}

// Whether every word is 0.
pub fn is_clear(words: &[u32]) -> bool {
    words.iter().all(|word| *word == 0)
}

// The same of cells.
pub fn most_cells(n: u64, words: &[u32]) -> usize
    ensures { Counts result words.now }
{
    let n = n as usize;
    if n <= words.len() { n } else { words.len() }
}
