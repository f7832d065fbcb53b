// Line after line of a program text. Questions 2 to 4 and 11.
ghost use Rattle.std.specs.Prelude.{◌≡◌, ◌&&◌, [], suc, ◌≤◌, eqb, pos, length, drop, get_or};
ghost use Rattle.words.specs.Literals.{same};
ghost use Rattle.text.specs.Classes.{byte_classes};
ghost use Rattle.text.specs.Line.{line_of};
ghost use Rattle.aspif.specs.Reading.{turn_within, lines_within, header};
ghost use Rattle.aspif.specs.Turns.{TurnTaken, LinesRead};

use crate::rules::RuleAdded;
use crate::{ProgramFault, ProgramRefusal, rules};
use text::LineNumbers;
use words::MOST_LITERALS;

// The numbers of the longest rule line: three before the heads, three before the pairs of a weight body, and both parts.
const ROW: usize = 6 + MOST_LITERALS + 2 * MOST_LITERALS;

// The bytes of line 1, `asp 1 0 0` and its newline.
const HEADER: usize = 10;

// What the lines after the first make: the largest atom, the rules and the words that they take in the table.
#[derive(Clone, Copy)]
pub struct LinesTaken {
    pub atoms: usize,
    pub rules: usize,
    pub used: usize,
}

// The line is `0` alone.
fn is_last(row: &[i32], count: usize) -> bool
    ensures { result ≡ (eqb count 1 && same (get_or row.now 0 (pos 0)) (pos 0)) }
{
    if count == 1 {
        words::is_same(words::word_at(row, 0), 0)
    } else {
        false
    }
}

// Questions 3 to 11, 54 and 55 among them, of the line that the rest of the text begins with; a rule then stands at the front of the free words.
fn read_rule(
    rest: &[u8],
    free: &mut [i32],
    rules: usize,
    most: usize,
    classes: &[u8; 256],
) -> Result<Option<RuleAdded>, ProgramFault>
    requires { classes.now ≡ byte_classes }
    ensures { TurnTaken (turn_within most rules (length free.old) (length rest.now)
        (line_of rest.now)) free.old free.new result }
{
    let mut row = [0i32; ROW];
    let Some(line) = text::read_line(rest, &mut row, classes) else {
        return Err(ProgramFault::Malformed);
    };
    let LineNumbers {
        count,
        next,
        outside,
        ..
    } = line;
    if outside {
        return Err(ProgramFault::TooLarge);
    }
    if is_last(&row, count) {
        if next == rest.len() {
            return Ok(None);
        }
        return Err(ProgramFault::TextAfterEnd);
    }
    rules::take_rule(free, &mut row, count, next, rules, most)
}

// The lines after the first, up to the line `0` or the first that is refused.
pub fn read_lines(
    text: &[u8],
    table: &mut [i32],
    most: usize,
    classes: &[u8; 256],
) -> Result<LinesTaken, ProgramRefusal>
    requires header_in_bounds { length header ≤ length text.now }
    requires classes_value { classes.now ≡ byte_classes }
    ensures { LinesRead (lines_within most (length table.old) (suc (length text.now))
        (drop (length header) text.now) 2 []) table.old table.new result }
{
    let mut at = HEADER;
    let mut line = 2;
    let mut used = 0;
    let mut rules = 0;
    let mut atoms = 0;
    'lines: loop {
        let turn = match read_rule(&text[at..], &mut table[used..], rules, most, classes) {
            Err(fault) => return Err(ProgramRefusal { fault, line }),
            Ok(turn) => turn,
        };
        let Some(added) = turn else {
            return Ok(LinesTaken { atoms, rules, used });
        };
        at += added.next;
        line += 1;
        used += added.words;
        rules += 1;
        atoms = added.top.max(atoms);
    }
}
