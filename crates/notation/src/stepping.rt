// A proof step by step, as one `ProofReader` hands it out.
ghost use Rattle.std.specs.Prelude.{◌≡◌};
ghost use Rattle.text.specs.Classes.{byte_classes};

use crate::saying;
use drupe::{LineAnswer, reader};
use std::io;
use text::writing;
use words::MOST_NUMBERS;

// As the service writes a line: the letter's byte, how many numbers there are and the next position; 0 at the end; or the refusal. Then the row
// of numbers.
fn say_step<P: Print>(rt: &P, answer: LineAnswer, numbers: [i32; MOST_NUMBERS]) -> io::Result<()> {
    match answer {
        Ok(Some(line)) => {
            saying::say_code(rt, u32::from(writing::byte_of(line.letter)))?;
            saying::say_number(rt, line.count as u64)?;
            saying::say_number(rt, line.next as u64)?;
        }
        Ok(None) => saying::say_code(rt, 0)?,
        Err(fault) => saying::say_code(rt, u32::from(u8::from(fault)))?,
    }
    saying::say_table(rt, b", table", &numbers)?;
    saying::say(rt, b"\n")
}

// Each step of a proof as one `ProofReader` hands it out, with the end or the refusal, at which the reader stays.
fn hand_out<P: Print>(rt: &P, text: &[u8], classes: &[u8; 256]) -> io::Result<()>
    requires { classes.now ≡ byte_classes }
{
    let mut numbers = [0; MOST_NUMBERS];
    let mut sorted = [0; MOST_NUMBERS];
    let mut reader = reader::start(text);
    loop {
        let at = reader.at;
        let answer = reader::next(&mut reader, classes, &mut numbers, &mut sorted);
        say_step(rt, answer, numbers)?;
        if reader.at == at {
            return Ok(());
        }
    }
}

fn steps<P: Print>(rt: &P, text: &[u8]) -> io::Result<()> {
    let classes = text::classes::CLASSES;
    hand_out(rt, text, &classes)
}

// The steps on lines of their own, and the code of an answer that has no more.
pub fn read_steps<P: Print>(rt: &P, text: &[u8]) -> io::Result<u32> {
    saying::say(rt, b"\n")?;
    steps(rt, text)?;
    Ok(0)
}
