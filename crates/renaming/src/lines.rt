// The lines of a half under new names.
ghost use Rattle.std.specs.Prelude.{◌≡◌, false, cond, not, ◌&&◌, List, [], ◌∷◌, ◌++◌, map, ℕ, ◌≤◌, eqb, ℤ, length, get_or};
ghost use Rattle.words.specs.Limits.{largest, longest, most_numbers};
ghost use Rattle.words.specs.Literals.{variable};
ghost use Rattle.text.specs.Classes.{byte_classes};
ghost use Rattle.text.specs.Line.{any_outside};
ghost use Rattle.text.specs.declared.Letter.TheVariants.{Addition, Extension};
ghost use Rattle.aspif.specs.Rules.{Rule};
ghost use Rattle.drupe.specs.Lines.{line_at};
ghost use Rattle.drupe.specs.Texts.{Step};
ghost use Rattle.merging.specs.Merge.{addition, half, one, renamed};
ghost use Rattle.renaming.specs.Standing.{HalfOf, is_a, is_b, names_added, name_after, is_gone, standing, Turned};
ghost use Rattle.renaming.specs.Writing.{Writes};

use drupe::{reader, writing};
use text::Letter;
use words::{LONGEST, MOST_NUMBERS};

// The position after a line that was read, the name of the added constraint's body so far, and the position after what
// was written.
#[derive(Drop)]
pub struct HalfLine {
    pub next: usize,
    pub name: usize,
    pub end: usize,
}

// A variable's new name; 0 past the array's end.
fn name_of(new: &[u16], v: usize) -> u16
    ensures { result ≡ get_or new.now v 0 }
{
    match new.get(v) {
        Some(name) => *name,
        None => 0,
    }
}

// A literal under new names.
fn rename_word(new: &[u16], word: i32) -> i32
    ensures { result ≡ renamed (λ v. get_or new.now v 0) word }
{
    let name = i32::from(name_of(new, words::variable_of(word)));
    if word < 0 {
        return 0 - name;
    }
    name
}

// The numbers of a line under new names.
pub fn rename(new: &[u16], numbers: &mut [i32])
    ensures { numbers.new ≡ map (renamed (λ v. get_or new.now v 0)) numbers.old }
{
    for n in numbers {
        *n = rename_word(new, *n);
    }
}

// A line, from a position on: the position after it; none where it or the text is over its limit. So too below.
pub fn write_line(letter: Letter, numbers: &[i32], output: &mut [u8], at: usize) -> Option<usize>
    requires at { at ≤ longest }
    requires numbers { any_outside numbers.now ≡ false }
    ensures { Writes (one letter numbers.now) output.old output.new at result }
{
    if MOST_NUMBERS < numbers.len() {
        return None;
    }
    let end = writing::write_step(letter, numbers, output, at);
    if LONGEST < end {
        return None;
    }
    Some(end)
}

// An `a` line with the literal x behind its numbers.
fn write_widened(numbers: &[i32], x: i32, output: &mut [u8], at: usize) -> Option<usize>
    requires at { at ≤ longest }
    requires numbers { any_outside numbers.now ≡ false }
    requires literal { variable x ≤ largest }
    ensures { Writes (one Addition (numbers.now ++ (x ∷ []))) output.old output.new at result }
{
    let count = numbers.len();
    if MOST_NUMBERS <= count {
        return None;
    }
    let mut row = [0; MOST_NUMBERS];
    words::copy(&mut row, numbers);
    row[count] = x;
    write_line(Letter::Addition, &row[..count + 1], output, at)
}

// An `a` line of the half with the literal x: skipped, as it stands, or widened.
fn write_addition(numbers: &[i32], x: i32, output: &mut [u8], at: usize) -> Option<usize>
    requires at { at ≤ longest }
    requires numbers { any_outside numbers.now ≡ false }
    requires literal { variable x ≤ largest }
    ensures { Writes (addition x numbers.now) output.old output.new at result }
{
    if words::contains(numbers, words::complement_of(x)) {
        return Some(at);
    }
    if words::contains(numbers, x) {
        return write_line(Letter::Addition, numbers, output, at);
    }
    write_widened(numbers, x, output, at)
}

// An `a` line.
fn is_addition(letter: Letter) -> bool
    ensures { result ≡ is_a letter }
{
    matches!(letter, Letter::Addition)
}

// A `b` line.
fn is_body(letter: Letter) -> bool
    ensures { result ≡ is_b letter }
{
    matches!(letter, Letter::Body)
}

// A `b` line of the body of the constraint that demands x.
fn names_added(letter: Letter, numbers: &[i32], x: i32) -> bool
    requires literal { variable x ≤ largest }
    ensures { result ≡ names_added x letter numbers.now }
{
    let line = [words::word_at(numbers, 0), words::complement_of(x)];
    is_body(letter) & words::is_same_list(numbers, &line)
}

// The name of that body after a line.
fn name_after(letter: Letter, numbers: &[i32], x: i32, name: usize) -> usize
    requires literal { variable x ≤ largest }
    ensures { result ≡ name_after x name letter numbers.now }
{
    if names_added(letter, numbers, x) {
        return words::variable_of(words::word_at(numbers, 0));
    }
    name
}

// The `c` line that only the added constraint allows, whose body has the name given.
fn is_alone(numbers: &[i32], first: usize, has_constraint: bool, name: usize) -> bool
    ensures { result ≡ (eqb (length numbers.now) 1 && (eqb first name && not has_constraint)) }
{
    (numbers.len() == 1) & ((first == name) & !has_constraint)
}

// A line that goes.
fn is_gone(
    letter: Letter,
    numbers: &[i32],
    shared: &[u8],
    has_constraint: bool,
    name: usize,
) -> bool
    ensures { result ≡ is_gone shared.now has_constraint name letter numbers.now }
{
    let first = words::variable_of(words::word_at(numbers, 0));
    match letter {
        Letter::Addition => false,
        Letter::Body => marks::is_marked(shared, first),
        Letter::Completion => is_alone(numbers, first, has_constraint, name),
        Letter::Deletion => true,
        Letter::Extension => false,
        Letter::Loop => false,
        Letter::Support => false,
    }
}

// A definition of a body that the program lacks is an `e` line.
fn letter_of(letter: Letter, lacking: bool) -> Letter
    ensures { result ≡ cond lacking Extension letter }
{
    if lacking {
        return Letter::Extension;
    }
    letter
}

// What stands of a line, from a position on.
fn write_standing(
    letter: Letter,
    numbers: &mut [i32],
    x: i32,
    new: &[u16],
    shared: &[u8],
    has_body: bool,
    has_constraint: bool,
    name: usize,
    output: &mut [u8],
    at: usize,
) -> Option<usize>
    requires at { at ≤ longest }
    requires literal { variable x ≤ largest }
    requires new { (v : ℕ) → get_or new.now v 0 ≤ largest }
    ensures { Writes (standing x (λ v. get_or new.now v 0) shared.now has_body has_constraint name letter
        numbers.old) output.old output.new at result }
{
    if is_gone(letter, numbers, shared, has_constraint, name) {
        return Some(at);
    }
    let lacking = names_added(letter, numbers, x) & !has_body;
    rename(new, numbers);
    if is_addition(letter) {
        return write_addition(numbers, x, output, at);
    }
    write_line(letter_of(letter, lacking), numbers, output, at)
}

// The line at a position of the text, read into the two rows, and what stands of it; none of it at the text's end.
fn write_at(
    text: &[u8],
    position: usize,
    classes: &[u8; 256],
    numbers: &mut [i32],
    sorted: &mut [i32],
    x: i32,
    new: &[u16],
    shared: &[u8],
    has_body: bool,
    has_constraint: bool,
    name: usize,
    output: &mut [u8],
    at: usize,
) -> Option<Option<HalfLine>>
    requires at { at ≤ longest }
    requires literal { variable x ≤ largest }
    requires new { (v : ℕ) → get_or new.now v 0 ≤ largest }
    requires classes { classes.now ≡ byte_classes }
    requires rows { (length numbers.old ≡ most_numbers) × (length sorted.old ≡ most_numbers) }
    ensures { Turned x (λ v. get_or new.now v 0) shared.now has_body has_constraint name
        output.old output.new at (line_at text.now position) result }
{
    let read = match reader::step_at(text, position, classes, numbers, sorted) {
        Err(_) => return Some(None),
        Ok(read) => read,
    };
    let Some(line) = read else {
        return Some(None);
    };
    let named = name_after(line.letter, &numbers[..line.count], x, name);
    let end = write_standing(
        line.letter,
        &mut numbers[..line.count],
        x,
        new,
        shared,
        has_body,
        has_constraint,
        name,
        output,
        at,
    )?;
    Some(Some(HalfLine {
        next: line.next,
        name: named,
        end,
    }))
}

// The lines of the half whose literal is x, under new names, from a position on.
pub fn write_half(
    text: &[u8],
    x: i32,
    new: &[u16],
    shared: &[u8],
    has_body: bool,
    has_constraint: bool,
    output: &mut [u8],
    at: usize,
) -> Option<usize>
    requires at { at ≤ longest }
    requires literal { (1 ≤ variable x) × (variable x ≤ largest) }
    requires new { (v : ℕ) → get_or new.now v 0 ≤ largest }
    ensures { (N : ℕ) (P : List Rule) (bodies : List (List ℤ)) (ts : List Step)
        → HalfOf text.now x shared.now has_body has_constraint N P bodies ts
        → Writes (half P x (λ v. get_or new.now v 0) bodies [] ts) output.old output.new at result }
{
    let classes = text::classes::CLASSES;
    let mut numbers = [0; MOST_NUMBERS];
    let mut sorted = [0; MOST_NUMBERS];
    let mut position = 0;
    let mut name = 0;
    let mut end = at;
    while let Some(line) = write_at(
        text,
        position,
        &classes,
        &mut numbers,
        &mut sorted,
        x,
        new,
        shared,
        has_body,
        has_constraint,
        name,
        output,
        end,
    )? {
        position = line.next;
        name = line.name;
        end = line.end;
    }
    Some(end)
}
