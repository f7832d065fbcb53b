// The proof-line reader: document 01, 'The proof's seven letters' and questions 21 to 25.
// The claim of `read_line` is `ProofLineRead` in specs/Lines.antt, that of `read_into` is `ReadInto` in specs/Rows.antt.
#![tactic(auto)]

pub mod reader;
pub mod writing;

ghost use Rattle.std.specs.Prelude.{◌≡◌, false, ◌+◌, ◌<◌, ◌≤◌, pos, length, replicate};
ghost use Rattle.words.specs.Limits.{largest_size, most_numbers};
ghost use Rattle.text.specs.Bytes.{class_of};
ghost use Rattle.text.specs.Classes.{byte_classes};
ghost use Rattle.text.specs.Line.{any_outside, line_of};
ghost use Rattle.words.specs.Literals.{ascending};
ghost use Rattle.drupe.specs.Lines.{ProofLineRead, after_letter, all_passed, is_space, line_answer, line_asked, line_from, line_refusal, of_numbers, place_of, signed, signs_of};
ghost use Rattle.drupe.specs.Rows.{LineInto, ReadInto};

use text::{Class, Letter, LineNumbers};
use words::MOST_NUMBERS;

// What is wrong with a proof, by the first question that a line or a step fails. `u8::from` gives the question's number.
#[derive(Clone, Copy, PartialEq, Eq)]
pub enum ProofFault {
    TooLong,
    Malformed,
    OutOfRange,
    WrongSigns,
    RepeatedVariable,
    UnknownVariable,
    KnownName,
    NoUnnamedBody,
    NoCompletion,
    NoSupport,
    NoAtoms,
    UnnamedBody,
    NoConflict,
    StoreFull,
    NoLoop,
}

impl From<ProofFault> for u8 {
    ghost use Rattle.drupe.specs.Numbers.{number_of};

    ghost from_gives = { λ fault number. number ≡ number_of fault };

    fn from(fault: ProofFault) -> u8 {
        match fault {
            ProofFault::TooLong => 21,
            ProofFault::Malformed => 22,
            ProofFault::OutOfRange => 23,
            ProofFault::WrongSigns => 24,
            ProofFault::RepeatedVariable => 25,
            ProofFault::UnknownVariable => 26,
            ProofFault::KnownName => 27,
            ProofFault::NoUnnamedBody => 28,
            ProofFault::NoCompletion => 29,
            ProofFault::NoSupport => 30,
            ProofFault::NoAtoms => 31,
            ProofFault::UnnamedBody => 32,
            ProofFault::NoConflict => 33,
            ProofFault::StoreFull => 34,
            ProofFault::NoLoop => 56,
        }
    }
}

// A line of a proof: its letter, how many numbers it has and the position after its newline.
#[derive(Clone, Copy)]
pub struct ProofLine {
    pub letter: Letter,
    pub count: usize,
    pub next: usize,
}

// What stands at a position: a line; nothing at the end; or what is wrong with the line.
pub type LineAnswer = Result<Option<ProofLine>, ProofFault>;

// The numbers stand beside the answer, with zeros after them; all are 0 unless a line is answered.
#[derive(Drop)]
pub struct LineReading {
    pub answer: LineAnswer,
    pub numbers: [i32; MOST_NUMBERS],
}

// What a letter asks of its numbers: whether a first one must be there, whether it must be positive, and whether the later
// ones must be.
#[derive(Clone, Copy)]
struct Signs {
    needed: bool,
    first: bool,
    later: bool,
}

// Any sign, and none is needed.
const SIGNED: Signs = Signs {
    needed: false,
    first: false,
    later: false,
};

// A first number, positive, and later ones of any sign.
const NAMED: Signs = Signs {
    needed: true,
    first: true,
    later: false,
};

// A first number, and all positive.
const POSITIVE: Signs = Signs {
    needed: true,
    first: true,
    later: true,
};

// By letter: a, b, c, d, e, l, s. A constant table by letter is what the format's document asks for (docs/DECISIONS.md).
const SIGNS: [Signs; 7] = [SIGNED, NAMED, POSITIVE, SIGNED, NAMED, POSITIVE, POSITIVE];

// The place of a letter in the table.
fn place_of(letter: Letter) -> usize
    ensures { result ≡ place_of letter }
{
    match letter {
        Letter::Addition => 0,
        Letter::Body => 1,
        Letter::Completion => 2,
        Letter::Deletion => 3,
        Letter::Extension => 4,
        Letter::Loop => 5,
        Letter::Support => 6,
    }
}

fn signs_of(letter: Letter) -> Signs
    ensures { result ≡ signs_of letter }
{
    let place = place_of(letter);
    SIGNS[place]
}

// Question 24.
fn is_signed(letter: Letter, numbers: &[i32]) -> bool
    ensures { result ≡ signed (signs_of letter) numbers.now }
{
    let signs = signs_of(letter);
    let Some((first, later)) = numbers.split_first() else {
        return !signs.needed;
    };
    (!signs.first | words::is_positive(*first)) & (!signs.later | words::all_positive(later))
}

// Questions 23 to 25. The numbers are left in another order.
pub fn is_good(letter: Letter, numbers: &mut [i32]) -> bool
    ensures { result ≡ all_passed (line_refusal letter numbers.old) }
{
    if MOST_NUMBERS < numbers.len() {
        return false;
    }
    if words::LARGEST < words::largest_variable(numbers) {
        return false;
    }
    if !is_signed(letter, numbers) {
        return false;
    }
    words::sort_distinct(numbers)
}

// An answer that has no numbers.
fn unread(answer: LineAnswer) -> LineReading
    ensures { (result.answer ≡ answer) × (result.numbers ≡ replicate most_numbers (pos 0)) }
{
    LineReading {
        answer,
        numbers: [0; MOST_NUMBERS],
    }
}

// Questions 24 and 25 of numbers that passed 23, and the numbers ascending in a row of as many words.
fn ask(letter: Letter, numbers: &[i32], sorted: &mut [i32], next: usize) -> LineAnswer
    requires sizes { (any_outside numbers.now ≡ false) × (length numbers.now ≤ most_numbers) }
    requires room { length sorted.old ≡ length numbers.now }
    ensures answer { result ≡ line_answer (line_asked letter numbers.now next) }
    ensures sorted { sorted.new ≡ ascending numbers.now }
{
    words::copy(sorted, numbers);
    let distinct = words::sort_distinct(sorted);
    if !is_signed(letter, numbers) {
        return Err(ProofFault::WrongSigns);
    }
    if !distinct {
        return Err(ProofFault::RepeatedVariable);
    }
    Ok(Some(ProofLine {
        letter,
        count: numbers.len(),
        next,
    }))
}

// The numbers of a line, which begin at position `from`: the text is what is left there.
fn read_numbers(
    letter: Letter,
    text: &[u8],
    from: usize,
    classes: &[u8; 256],
    numbers: &mut [i32],
    sorted: &mut [i32],
) -> LineAnswer
    requires text_bound { from + length text.now ≤ largest_size }
    requires classes_value { classes.now ≡ byte_classes }
    requires rows { (length numbers.old ≡ most_numbers) × (length sorted.old ≡ most_numbers) }
    ensures { LineInto (of_numbers letter from (line_of text.now)) numbers.old numbers.new
        sorted.new result }
{
    let Some(line) = text::read_line(text, numbers, classes) else {
        return Err(ProofFault::Malformed);
    };
    let LineNumbers {
        count,
        next,
        outside,
        closed,
    } = line;
    if !closed {
        return Err(ProofFault::Malformed);
    }
    if outside {
        return Err(ProofFault::OutOfRange);
    }
    let before = count - 1;
    if MOST_NUMBERS < before {
        return Err(ProofFault::OutOfRange);
    }
    ask(
        letter,
        &numbers[..before],
        &mut sorted[..before],
        from + next,
    )
}

fn is_space(b: u8, classes: &[u8; 256]) -> bool
    requires { classes.now ≡ byte_classes }
    ensures { result ≡ is_space (class_of b) }
{
    matches!(text::class_of(classes, b), Class::Space)
}

// The space after the letter, and what follows it.
fn read_space(
    letter: Letter,
    text: &[u8],
    from: usize,
    classes: &[u8; 256],
    numbers: &mut [i32],
    sorted: &mut [i32],
) -> LineAnswer
    requires text_bound { from + length text.now ≤ largest_size }
    requires classes_value { classes.now ≡ byte_classes }
    requires rows { (length numbers.old ≡ most_numbers) × (length sorted.old ≡ most_numbers) }
    ensures { LineInto (after_letter letter from text.now) numbers.old numbers.new
        sorted.new result }
{
    if text.len() == 0 {
        return Err(ProofFault::Malformed);
    }
    if !is_space(text[0], classes) {
        return Err(ProofFault::Malformed);
    }
    read_numbers(letter, &text[1..], from + 1, classes, numbers, sorted)
}

// The line that begins at position `from`: the text is what is left there.
fn read_letter(
    text: &[u8],
    from: usize,
    classes: &[u8; 256],
    numbers: &mut [i32],
    sorted: &mut [i32],
) -> LineAnswer
    requires text_bound { from + length text.now ≤ largest_size }
    requires classes_value { classes.now ≡ byte_classes }
    requires rows { (length numbers.old ≡ most_numbers) × (length sorted.old ≡ most_numbers) }
    ensures { LineInto (line_from from text.now) numbers.old numbers.new
        sorted.new result }
{
    if text.len() == 0 {
        return Err(ProofFault::Malformed);
    }
    let Class::Step(letter) = text::class_of(classes, text[0]) else {
        return Err(ProofFault::Malformed);
    };
    read_space(letter, &text[1..], from + 1, classes, numbers, sorted)
}

// The line of the text that begins at the position, its numbers at the front of one row, and ascending at the front of the
// other. Question 21 is not put: whoever calls it puts it, with a limit of its own. The rows need not be cleared, and whoever
// reads line after line makes the table of classes once. Only the reader calls it.
fn read_into(
    text: &[u8],
    position: usize,
    classes: &[u8; 256],
    numbers: &mut [i32],
    sorted: &mut [i32],
) -> LineAnswer
    requires classes_value { classes.now ≡ byte_classes }
    requires rows { (length numbers.old ≡ most_numbers) × (length sorted.old ≡ most_numbers) }
    ensures { ReadInto text.now position numbers.old numbers.new sorted.new result }
{
    if position == text.len() {
        return Ok(None);
    }
    if text.len() < position {
        return Err(ProofFault::Malformed);
    }
    read_letter(&text[position..], position, classes, numbers, sorted)
}

// The line of the text that begins at the position.
pub fn read_line(text: &[u8], position: usize) -> LineReading
    ensures { ProofLineRead text.now position result }
{
    if words::LONGEST < text.len() {
        return unread(Err(ProofFault::TooLong));
    }
    let classes = text::classes::CLASSES;
    let mut numbers = [0; MOST_NUMBERS];
    let mut sorted = [0; MOST_NUMBERS];
    let answer = reader::step_at(text, position, &classes, &mut numbers, &mut sorted);
    match answer {
        Ok(Some(_)) => LineReading { answer, numbers },
        Ok(None) | Err(_) => unread(answer),
    }
}
