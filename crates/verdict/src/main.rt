// Reads `case.aspif` and `case.drupe` in the working directory and prints the verdict's one line: document 01, 'What `verdict`
// prints'. Which line that is, is decided in `checker`.
#![tactic(auto)]

ghost use Rattle.std.specs.Prelude.{◌≡◌, ◌≤◌, IfOk, length, take};

use std::fs::File;
use std::io;
use std::io::Read;
use std::rt::Files;

// The most bytes of a file that are kept: one more than a text may have, so that a longer file is refused.
const MOST: usize = 65536;

// How many bytes of a file count, where so many were read and one more read gave `more`. "A file that cannot be read counts as
// empty": so does one that grew after its end was read.
fn counted(count: usize, size: usize, more: usize) -> usize
    ensures { result ≤ count }
{
    if 0 < more {
        if count < size {
            return 0;
        }
    }
    count
}

// Reads until the buffer is full or the input ends; how many bytes.
fn read_full<F: Read>(file: &mut F, text: &mut [u8]) -> io::Result<usize>
    ensures { IfOk result (λ n. n ≤ length text.new) }
{
    let mut count = 0;
    for _ in 0..u64::MAX {
        if count == text.len() {
            break;
        }
        let got = file.read(&mut text[count..])?;
        if got == 0 {
            break;
        }
        count += got;
    }
    Ok(count)
}

// The front of the file, and how many bytes of it count.
fn read_front<R: Files>(rt: &R, path: &str, text: &mut [u8]) -> io::Result<usize>
    ensures { IfOk result (λ n. n ≤ length text.new) }
{
    let mut file = File::open(rt, path)?;
    let count = read_full(&mut file, text)?;
    let mut next = [0u8; 1];
    let more = file.read(&mut next)?;
    Ok(counted(count, text.len(), more))
}

// The front of the file, and how many bytes: none where it is missing, is a directory, or its reading breaks off.
fn read_file<R: Files>(rt: &R, path: &str, text: &mut [u8]) -> usize
    ensures { (result ≤ length text.new) × (result ≡ length (take result text.new)) }
{
    read_front(rt, path, text).unwrap_or(0)
}

fn main(rt: HostRuntime) -> io::Result<()> {
    let mut program = [0u8; MOST];
    let program_size = read_file(&rt, "case.aspif", &mut program);
    let mut proof = [0u8; MOST];
    let proof_size = read_file(&rt, "case.drupe", &mut proof);
    let mut line = [0u8; checker::report::LONGEST_LINE];
    let size = checker::report::check_line(
        &program[..program_size],
        &proof[..proof_size],
        &mut line,
    );
    rt.write_all(&line[..size])
}
