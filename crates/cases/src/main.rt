// Worked cases of the fourteen services, and of a proof that one `ProofReader` reads. A case on standard input is
//   NAME: [WORD NUMBERS; LIST; LIST
//   TEXT|TEXT|TEXT]
// with a word for the service, up to five numbers, two lists of numbers and three texts; what is left out is 0 or empty. The numbers are the lengths of
// the table, of the store and of the output that are lent, another number and a version. After `[` a `{`, a number, a newline, a part and `}` stand
// for the part so many times. src/services.rt has the words, and what numbers, lists and texts are to each.
// Each case is written with its answer: the code and the four numbers that are lent for more, which are 7 before; then of each buffer that
// has a length how many words or bytes are not 0, and what they are. All are 7 before. Of words that are alike one is written, with how many
// they are, and no more than 72 such runs; a packet and marks are written likewise, in hexadecimal; a text stands on lines of its own, up to its
// first zero byte and to 600 bytes.
#![tactic(auto)]

mod services;

ghost use Rattle.std.specs.Prelude.{◌≤◌, IfOk, length};

use notation::reading::{before, head, tail};
use notation::{reading, saying};
use std::io;
use std::io::Read;

// What is answered with the lent buffers, and what is left in them.
fn answer<P: Print>(
    rt: &P,
    line: &[u8],
    number: u64,
    version: u64,
    texts: &[u8],
    table: &mut [i32],
    store: &mut [i32],
    output: &mut [u8],
) -> io::Result<()> {
    let mut numbers = [7u64; 4];
    let code = services::serve(
        rt,
        line,
        number,
        version,
        texts,
        table,
        store,
        output,
        &mut numbers,
    )?;
    saying::say_code(rt, code)?;
    saying::say_numbers(rt, &numbers)?;
    saying::say_table(rt, b", table", table)?;
    saying::say_table(rt, b", store", store)?;
    saying::say_output(rt, services::is_text(line), output)
}

// The case of a line and of texts, with the front of each of what is lent.
fn run_within<P: Print>(
    rt: &P,
    line: &[u8],
    texts: &[u8],
    table: &mut [i32],
    store: &mut [i32],
    output: &mut [u8],
) -> io::Result<()> {
    let mut numbers = [0u64; 5];
    reading::numbers_of(&mut numbers, head(line, b';'));
    let words = reading::most_words(numbers[0], table);
    let room = reading::most_words(numbers[1], store);
    let bytes = reading::most_bytes(numbers[2], output);
    answer(
        rt,
        line,
        numbers[3],
        numbers[4],
        texts,
        &mut table[..words],
        &mut store[..room],
        &mut output[..bytes],
    )
}

// The case of a line and of texts.
fn run<P: Print>(rt: &P, line: &[u8], texts: &[u8]) -> io::Result<()> {
    let mut table = [7i32; 16384];
    let mut store = [7i32; 40000];
    let mut output = [7u8; 66000];
    run_within(rt, line, texts, &mut table, &mut store, &mut output)
}

fn run_case<P: Print>(rt: &P, case: &[u8]) -> io::Result<()> {
    saying::say(rt, head(case, b'['))?;
    let mut space = [0u8; 90000];
    let n = reading::expand(&mut space, tail(case, b'['));
    let whole = &space[..n];
    run(rt, head(whole, b'\n'), tail(whole, b'\n'))
}

fn run_cases<P: Print>(rt: &P, text: &[u8]) -> io::Result<()> {
    let mut at = 0;
    while at < text.len() {
        let end = at + before(&text[at..], b']');
        run_case(rt, &text[at..end])?;
        at = end + 2;
    }
    Ok(())
}

// Reads until the buffer is full or the input ends; how many bytes.
fn read_full<F: Read>(input: &mut F, text: &mut [u8]) -> io::Result<usize>
    ensures { IfOk result (λ n. n ≤ length text.new) }
{
    let mut count = 0;
    for _ in 0..u64::MAX {
        if count == text.len() {
            break;
        }
        let got = input.read(&mut text[count..])?;
        if got == 0 {
            break;
        }
        count += got;
    }
    Ok(count)
}

fn main(rt: HostRuntime) -> io::Result<()> {
    let mut text = [0u8; 131072];
    let n = read_full(&mut rt.reader(), &mut text)?;
    run_cases(&rt, &text[..n])
}
