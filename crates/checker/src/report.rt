// The line that `verdict` prints, written to a lent buffer: specs/Report.antt. The bounds that private functions ask of positions
// keep sums from wrapping, and are wider than any line needs.
ghost use Rattle.std.specs.Prelude.{◌≡◌, [], ◌∷◌, ◌+◌, ◌≤◌, length};
ghost use Rattle.std.proofs.lemmas.List.Edits.{sets};
ghost use Rattle.text.specs.Decimals.{decimal};
ghost use Rattle.text.specs.Writing.{Put};
ghost use Rattle.checker.specs.Report.{numbered, counts_text, verdict_line, longest_line, printed};

use crate::{Counts, Verdict, check_texts};
use text::writing;

// The bytes of the longest line.
pub const LONGEST_LINE: usize = 97;

// "with a table and a store of 16,384 words".
const LENT: usize = 16384;

// A space and a number.
fn put_number(buffer: &mut [u8], at: usize, n: usize) -> usize
    requires { at ≤ 100 }
    ensures written { Put (32 ∷ decimal n) buffer.old buffer.new at result }
    ensures within { result ≤ at + 21 }
{
    let from = writing::put_bytes(buffer, at, b" ");
    writing::put_digits(buffer, from, n)
}

// Two numbers and the newline.
fn put_two(buffer: &mut [u8], at: usize, a: usize, b: usize) -> usize
    requires { at ≤ 20 }
    ensures written { Put (numbered (a ∷ b ∷ [])) buffer.old buffer.new at result }
    ensures within { result ≤ at + 43 }
{
    let second = put_number(buffer, at, a);
    let end = put_number(buffer, second, b);
    writing::put_bytes(buffer, end, b"\n")
}

// N, R, S, K and the newline.
fn put_counts(buffer: &mut [u8], at: usize, counts: Counts) -> usize
    requires { at ≤ 20 }
    ensures written { Put (counts_text counts) buffer.old buffer.new at result }
    ensures within { result ≤ at + 85 }
{
    let after_atoms = put_number(buffer, at, counts.atoms);
    let after_rules = put_number(buffer, after_atoms, counts.rules);
    let after_steps = put_number(buffer, after_rules, counts.steps);
    let end = put_number(buffer, after_steps, counts.nogoods);
    writing::put_bytes(buffer, end, b"\n")
}

// The verdict's line, its newline included, at the front of the buffer, as many bytes as fit; the answer is the line's length. A
// buffer of LONGEST_LINE bytes holds every line.
pub fn write_line(verdict: Verdict, buffer: &mut [u8]) -> usize
    ensures size { result ≡ length (verdict_line verdict) }
    ensures written { buffer.new ≡ sets buffer.old 0 (verdict_line verdict) }
    ensures within { result ≤ longest_line }
{
    match verdict {
        Verdict::Inconsistent(counts) => {
            let at = writing::put_bytes(buffer, 0, b"inconsistent");
            put_counts(buffer, at, counts)
        }
        Verdict::Open(counts) => {
            let at = writing::put_bytes(buffer, 0, b"open");
            put_counts(buffer, at, counts)
        }
        Verdict::RefusedProgram(refusal) => {
            let at = writing::put_bytes(buffer, 0, b"refused program");
            put_two(
                buffer,
                at,
                usize::from(u8::from(refusal.fault)),
                refusal.line,
            )
        }
        Verdict::RefusedProof(refusal) => {
            let at = writing::put_bytes(buffer, 0, b"refused proof");
            put_two(
                buffer,
                at,
                usize::from(u8::from(refusal.fault)),
                refusal.step,
            )
        }
    }
}

// The line that `verdict` prints of two texts, its newline included, at the front of the buffer, as many bytes as fit; the answer
// is the line's length.
pub fn check_line(program: &[u8], proof: &[u8], buffer: &mut [u8]) -> usize
    ensures size { result ≡ length (printed program.now proof.now) }
    ensures written { buffer.new
        ≡ sets buffer.old 0 (printed program.now proof.now) }
    ensures within { result ≤ longest_line }
{
    let mut table = [0i32; LENT];
    let mut store = [0i32; LENT];
    let verdict = check_texts(program, proof, &mut table, &mut store);
    write_line(verdict, buffer)
}
