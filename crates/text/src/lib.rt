// Bytes to lines and numbers, for the program reader and the proof-line reader alike: document 01, 'Program text'.
// The claim of `read_line` is `LineScanned` in specs/Scanned.antt. Module `writing` goes the other way.
#![tactic(auto)]

pub mod classes;
pub mod writing;

ghost use Rattle.std.specs.Prelude.{◌≡◌, Bool, List, ℕ, ◌<◌, ◌≤◌, ℤ, length, set};
ghost use Rattle.text.specs.Bytes.{class_of};
ghost use Rattle.text.specs.Classes.{byte_classes, class_at};
ghost use Rattle.text.specs.Strings.{starts_with};
ghost use Rattle.text.specs.Scanned.{LineScanned};
ghost use Rattle.text.specs.declared.Seen.{Seen};
ghost use Rattle.text.specs.Scan.{State, Word, end_of, more_of, seeing, value_of, class_from, scan_from, after_digits, after_sign, after_number, NumberBounds};

// The proof's seven letters, by the names of source document 000.
#[derive(Clone, Copy)]
pub enum Letter {
    Addition,
    Body,
    Completion,
    Deletion,
    Extension,
    Loop,
    Support,
}

#[derive(Drop)]
pub enum Class {
    Newline,
    Space,
    Minus,
    Digit(u8),
    Step(Letter),
    Other,
}

// The numbers of the line that a text begins with. `next` is the number of bytes that it takes, its newline included;
// `outside` tells that some number's size is above the largest variable, `closed` that the last number is 0 and no other is.
#[derive(Drop)]
pub struct LineNumbers {
    pub count: usize,
    pub next: usize,
    pub outside: bool,
    pub closed: bool,
}

// The digits from a position on: the size of the number that they end, and the position after them.
#[derive(Drop)]
struct Digits {
    size: u16,
    next: usize,
}

// A number with a space behind it, or with a newline where it is the line's last; `next` is the position after that byte.
#[derive(Drop)]
struct Number {
    negative: bool,
    size: u16,
    last: bool,
    next: usize,
}

// Of the numbers so far: some size was above the largest variable, some number was 0.
#[derive(Drop)]
struct Seen {
    outside: bool,
    nought: bool,
}

// One past the largest variable. It stands for every larger size, so that no size wraps.
const CAP: u16 = words::ENTRIES as u16;

// The class of a number in the table. The digits come first: most bytes are digits.
fn class_at(number: u8) -> Class
    ensures { result ≡ class_at number }
{
    if number <= 9 {
        return Class::Digit(number);
    }
    match number {
        10 => Class::Newline,
        11 => Class::Space,
        12 => Class::Minus,
        13 => Class::Step(Letter::Addition),
        14 => Class::Step(Letter::Body),
        15 => Class::Step(Letter::Completion),
        16 => Class::Step(Letter::Deletion),
        17 => Class::Step(Letter::Extension),
        18 => Class::Step(Letter::Loop),
        19 => Class::Step(Letter::Support),
        _ => Class::Other,
    }
}

// The class of a byte, by the table.
pub fn class_of(classes: &[u8; 256], b: u8) -> Class
    requires { classes.now ≡ byte_classes }
    ensures { result ≡ class_of b }
{
    class_at(classes[usize::from(b)])
}

// One more digit, up to the cap.
fn more(m: u16, d: u8) -> u16
    ensures { result ≡ more_of m d }
{
    let v = u32::from(m) * 10 + u32::from(d);
    v.min(u32::from(CAP)) as u16
}

// The class of the byte at a position; the text's end counts as a byte of no number.
fn class_from(text: &[u8], at: usize, classes: &[u8; 256]) -> Class
    requires { classes.now ≡ byte_classes }
    ensures { result ≡ class_from text.now at }
{
    match text.get(at) {
        Some(b) => class_of(classes, *b),
        None => Class::Other,
    }
}

// The digits from a position on, after those that make m.
fn more_digits(text: &[u8], from: usize, m: u16, classes: &[u8; 256]) -> Digits
    requires { classes.now ≡ byte_classes }
    ensures scanned { (neg : Bool) (n : ℕ) (seen : Seen) (row : List ℤ)
        → scan_from text.now (State.Digits neg m) n seen row from
        ≡ after_digits text.now neg result.size n seen row result.next }
    ensures after { from ≤ result.next }
{
    let mut size = m;
    for i in from..text.len() {
        match class_of(classes, text[i]) {
            Class::Digit(d) => size = more(size, d),
            _ => return Digits { size, next: i },
        }
    }
    Digits {
        size,
        next: from.max(text.len()),
    }
}

// The end of a number, all of whose digits are read.
fn ended(text: &[u8], at: usize, negative: bool, size: u16, classes: &[u8; 256]) -> Option<Number>
    requires { classes.now ≡ byte_classes }
    ensures scanned { (n : ℕ) (seen : Seen) (row : List ℤ)
        → after_digits text.now negative size n seen row at ≡ after_number text.now result n seen row }
    ensures within { NumberBounds at (length text.now) result }
{
    let last = match class_from(text, at, classes) {
        Class::Space => false,
        Class::Newline => true,
        _ => return None,
    };
    Some(Number {
        negative,
        size,
        last,
        next: at + 1,
    })
}

// A number from its first digit on; `negative`: after a minus.
fn unsigned_at(text: &[u8], at: usize, negative: bool, classes: &[u8; 256]) -> Option<Number>
    requires { classes.now ≡ byte_classes }
    ensures scanned { (n : ℕ) (seen : Seen) (row : List ℤ)
        → after_sign text.now negative n seen row at ≡ after_number text.now result n seen row }
    ensures within { NumberBounds at (length text.now) result }
{
    let Class::Digit(d) = class_from(text, at, classes) else {
        return None;
    };
    if negative & (d == 0) {
        return None;
    }
    if d == 0 {
        return ended(text, at + 1, false, 0, classes);
    }
    let digits = more_digits(text, at + 1, more(0, d), classes);
    ended(text, digits.next, negative, digits.size, classes)
}

// A number with what ends it.
fn number_at(text: &[u8], at: usize, classes: &[u8; 256]) -> Option<Number>
    requires { classes.now ≡ byte_classes }
    ensures scanned { (n : ℕ) (seen : Seen) (row : List ℤ)
        → scan_from text.now Word n seen row at ≡ after_number text.now result n seen row }
    ensures within { NumberBounds at (length text.now) result }
{
    match class_from(text, at, classes) {
        Class::Minus => unsigned_at(text, at + 1, true, classes),
        _ => unsigned_at(text, at, false, classes),
    }
}

fn value(negative: bool, size: u16) -> i32
    ensures { result ≡ value_of negative size }
{
    let positive = i32::from(size);
    if negative { -positive } else { positive }
}

impl Seen {
    // With one number more, of size m.
    fn with(self, m: u16) -> Seen
        ensures { result ≡ seeing self m }
    {
        Seen {
            outside: self.outside | (m >= CAP),
            nought: self.nought | (m == 0),
        }
    }

    // The line that ends with a number of size m.
    fn end(self, m: u16, count: usize, next: usize) -> LineNumbers
        ensures { result ≡ end_of self m count next }
    {
        LineNumbers {
            count,
            next,
            outside: self.outside | (m >= CAP),
            closed: !self.nought & (m == 0),
        }
    }
}

// A store past the end changes nothing.
fn store(row: &mut [i32], n: usize, negative: bool, size: u16)
    ensures { row.new ≡ set row.old n (value_of negative size) }
{
    words::put_word(row, n, value(negative, size));
}

// The numbers of the line that the text begins with, into the row, as many as fit; `None` where it begins with no line of
// numbers.
pub fn read_line(text: &[u8], row: &mut [i32], classes: &[u8; 256]) -> Option<LineNumbers>
    requires { classes.now ≡ byte_classes }
    ensures { LineScanned text.now row.old row.new result }
{
    if let Class::Newline = class_from(text, 0, classes) {
        return Some(LineNumbers {
            count: 0,
            next: 1,
            outside: false,
            closed: false,
        });
    }
    let mut count: usize = 0;
    let mut seen = Seen {
        outside: false,
        nought: false,
    };
    let mut i: usize = 0;
    loop {
        let number = number_at(text, i, classes)?;
        store(row, count, number.negative, number.size);
        count += 1;
        if number.last {
            return Some(seen.end(number.size, count, number.next));
        }
        seen = seen.with(number.size);
        i = number.next;
    }
}

// The text begins with these bytes.
pub fn starts_with(text: &[u8], front: &[u8]) -> bool
    ensures { result ≡ starts_with front.now text.now }
{
    text.starts_with(front)
}
