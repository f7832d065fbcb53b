// How an answer is written on standard output: numbers, words and bytes as runs of what is alike, and texts.
ghost use Rattle.std.specs.Prelude.{◌+◌, ◌≤◌, length};
ghost use Rattle.notation.specs.Counts.{Counts};

use crate::reading::{head, most_bytes};
use std::io;

const RUNS: usize = 72;

const TEXT: u64 = 600;

pub fn say<P: Print>(rt: &P, word: &[u8]) -> io::Result<()> {
    rt.write_all(word)
}

pub fn say_code<P: Print>(rt: &P, code: u32) -> io::Result<()> {
    rt.print(code)
}

// A number, with a space before it.
pub fn say_number<P: Print>(rt: &P, n: u64) -> io::Result<()> {
    print!(rt; " {n}")
}

// The numbers that are lent for more of the answer.
pub fn say_numbers<P: Print>(rt: &P, numbers: &[u64]) -> io::Result<()> {
    for number in numbers {
        say_number(rt, *number)?;
    }
    Ok(())
}

// A word, in hexadecimal if it is a byte's.
fn say_word<P: Print>(rt: &P, word: i32, is_byte: bool) -> io::Result<()> {
    let size = words::variable_of(word);
    if is_byte {
        return print!(rt; " {size:02x}");
    }
    if word < 0 {
        return print!(rt; " -{size}");
    }
    print!(rt; " {size}")
}

// How often what was written stands there, where that is more than once.
fn say_times<P: Print>(rt: &P, times: usize) -> io::Result<()> {
    if 1 < times {
        return print!(rt; "*{times}");
    }
    Ok(())
}

// How many words are not 0.
fn nonzero(words: &[i32]) -> usize {
    words.iter().filter(|word| **word != 0).count()
}

// How many words at the front are like the first, 1 where there is none.
fn run_of(words: &[i32]) -> usize
    ensures { (1 ≤ result) × (result ≤ length words.now + 1) }
{
    for i in 1..words.len() {
        if words[i] != words[0] {
            return i;
        }
    }
    words.len().max(1)
}

// The first runs of words that are alike.
fn say_runs<P: Print>(rt: &P, words: &[i32], are_bytes: bool, most: usize) -> io::Result<()> {
    let mut at = 0;
    for _ in 0..most {
        if words.len() <= at {
            break;
        }
        let times = run_of(&words[at..]);
        say_word(rt, words[at], are_bytes)?;
        say_times(rt, times)?;
        at += times;
    }
    Ok(())
}

fn say_row<P: Print>(
    rt: &P,
    name: &[u8],
    words: &[i32],
    are_bytes: bool,
    most: usize,
) -> io::Result<()> {
    if 0 < words.len() {
        say(rt, name)?;
        say_number(rt, nonzero(words) as u64)?;
        say(rt, b":")?;
        say_runs(rt, words, are_bytes, most)?;
    }
    Ok(())
}

// What a table or a store holds, if it has a length.
pub fn say_table<P: Print>(rt: &P, name: &[u8], words: &[i32]) -> io::Result<()> {
    say_row(rt, name, words, false, RUNS)
}

fn word_of(byte: u8) -> i32 {
    byte as i32
}

// Bytes as words.
fn widen(row: &mut [i32], bytes: &[u8]) -> usize
    ensures { Counts result row.new }
{
    let count = bytes.len().min(row.len());
    for i in 0..count {
        row[i] = word_of(bytes[i]);
    }
    count
}

fn runs_of(is_text: bool) -> usize {
    if is_text { 0 } else { RUNS }
}

// The bytes before the first 0, and no more than so many.
fn say_text<P: Print>(rt: &P, text: &[u8]) -> io::Result<()> {
    let whole = head(text, 0);
    let n = most_bytes(TEXT, whole);
    say(rt, &whole[..n])?;
    if n < whole.len() {
        say(rt, b"\n")?;
    }
    Ok(())
}

// What the output holds, if it has a length: a text stands on lines of its own.
pub fn say_output<P: Print>(rt: &P, is_text: bool, output: &[u8]) -> io::Result<()> {
    let mut space = [0i32; 66000];
    let n = widen(&mut space, output);
    say_row(rt, b", output", &space[..n], true, runs_of(is_text))?;
    say(rt, b"\n")?;
    if is_text {
        say_text(rt, output)?;
    }
    Ok(())
}
