// The reader of proof lines as a struct that holds the text and a position in it: document 01, 'Where each language form
// belongs'. The work is `read_into`'s. All that read proof lines do so by `next` or `step_at`.
ghost use Rattle.std.specs.Prelude.{◌≡◌, length};
ghost use Rattle.words.specs.Limits.{most_numbers};
ghost use Rattle.text.specs.Classes.{byte_classes};
ghost use Rattle.drupe.specs.Lines.{position_after};
ghost use Rattle.drupe.specs.Rows.{HandsInto, ReadInto};

use crate::{LineAnswer, read_into};

// Where the reader stands once the step is handed out: after a line's newline, else where it was.
fn position_after(answer: LineAnswer, at: usize) -> usize
    ensures { result ≡ position_after answer at }
{
    match answer {
        Ok(Some(line)) => line.next,
        Ok(None) | Err(_) => at,
    }
}

#[derive(Drop)]
pub struct ProofReader<'a> {
    pub text: &'a [u8],
    pub at: usize,
}

// At the text's first line.
pub fn start<'a>(text: &'a [u8]) -> ProofReader<'a>
    ensures start { (result.text ≡ text.entry) × (result.at ≡ 0) }
{
    ProofReader { text, at: 0 }
}

// The step at the position: its numbers at the front of one row, and ascending at the front of the other. The reader moves on
// past a line, and stays at the end or a refusal.
pub fn next<'s, 'a>(
    r: &'s mut ProofReader<'a>,
    classes: &[u8; 256],
    numbers: &mut [i32],
    sorted: &mut [i32],
) -> LineAnswer
    requires classes_value { classes.now ≡ byte_classes }
    requires rows { (length numbers.old ≡ most_numbers) × (length sorted.old ≡ most_numbers) }
    ensures { HandsInto r.old numbers.old numbers.new sorted.new result r.new }
{
    let at = r.at;
    let answer = read_into(r.text, at, classes, numbers, sorted);
    r.at = position_after(answer, at);
    answer
}

// The step at a position of a text: its callers need no reader.
pub fn step_at(
    text: &[u8],
    position: usize,
    classes: &[u8; 256],
    numbers: &mut [i32],
    sorted: &mut [i32],
) -> LineAnswer
    requires classes_value { classes.now ≡ byte_classes }
    requires rows { (length numbers.old ≡ most_numbers) × (length sorted.old ≡ most_numbers) }
    ensures { ReadInto text.now position numbers.old numbers.new sorted.new result }
{
    let mut reader = ProofReader { text, at: position };
    next(&mut reader, classes, numbers, sorted)
}
