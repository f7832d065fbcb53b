// A service's answer as a code and numbers: specs/Codes.antt. Each function puts the numbers into the lent buffer and
// returns the code.
ghost use Rattle.std.specs.Prelude.{◌≡◌, [], ◌∷◌, set};
ghost use Rattle.std.proofs.lemmas.List.Edits.{sets};
ghost use Rattle.aspif.specs.Numbers.{number_of};
ghost use Rattle.exports.specs.Codes.{Told, program_code, program_numbers, set_code, set_numbers, line_code, line_numbers, writing_code, writing_numbers, reading_code, reading_numbers, verdict_code, verdict_numbers, count_numbers, merge_code, merge_numbers, trim_code, trim_numbers, cheapest_code, cheapest_numbers, split_code, split_numbers};

use answer_set::{SetAnswer, SetFault};
use aspif::{ProgramCounts, ProgramRefusal, Refusal};
use cheapest::CheapestFault;
use checker::{Counts, Verdict};
use drupe::LineAnswer;
use long_sums::{SplitCounts, SplitFault};
use packets::{PacketReading, PacketWriting};
use splits::MergeFault;
use text::writing;
use trimming::TrimFault;

// The codes of the cases to which document 01 gives no number.
const READ: u32 = 0;

const WRITTEN: u32 = 0;

const YES: u32 = 0;

const CHEAPEST: u32 = 0;

const DIFFERS: u32 = 1;

const BROKEN: u32 = 2;

const END: u32 = 0;

const INCONSISTENT: u32 = 0;

const OPEN: u32 = 1;

const REFUSED_PROGRAM: u32 = 2;

const REFUSED_PROOF: u32 = 3;

// A store past the end changes nothing.
fn put(answer: &mut [u64], at: usize, n: usize)
    ensures { answer.new ≡ set answer.old at n }
{
    if at < answer.len() {
        answer[at] = n as u64;
    }
}

fn put_two(answer: &mut [u64], a: usize, b: usize)
    ensures { answer.new ≡ sets answer.old 0 (a ∷ b ∷ []) }
{
    put(answer, 0, a);
    put(answer, 1, b);
}

fn put_four(answer: &mut [u64], a: usize, b: usize, c: usize, d: usize)
    ensures { answer.new ≡ sets answer.old 0 (a ∷ b ∷ c ∷ d ∷ []) }
{
    put(answer, 0, a);
    put(answer, 1, b);
    put(answer, 2, c);
    put(answer, 3, d);
}

fn put_counts(answer: &mut [u64], counts: Counts)
    ensures { answer.new ≡ sets answer.old 0 (count_numbers counts) }
{
    put_four(
        answer,
        counts.atoms,
        counts.rules,
        counts.steps,
        counts.nogoods,
    );
}

// What the program reader refuses: its number is the code, and its line is put.
fn tell_refused(refusal: ProgramRefusal, answer: &mut [u64]) -> u32
    ensures { Told (number_of refusal.fault) (refusal.line ∷ 0 ∷ []) answer.old answer.new result }
{
    put_two(answer, refusal.line, 0);
    u32::from(u8::from(refusal.fault))
}

// The program reader's answer.
pub fn tell_program(reading: Result<ProgramCounts, ProgramRefusal>, answer: &mut [u64]) -> u32
    ensures { Told (program_code reading) (program_numbers reading) answer.old answer.new result }
{
    match reading {
        Ok(counts) => {
            put_two(answer, counts.atoms, counts.rules);
            READ
        }
        Err(refusal) => tell_refused(refusal, answer),
    }
}

// The set test's answer.
pub fn tell_set(tested: Result<SetAnswer, SetFault>, answer: &mut [u64]) -> u32
    ensures { Told (set_code tested) (set_numbers tested) answer.old answer.new result }
{
    match tested {
        Ok(SetAnswer::Yes) => YES,
        Ok(SetAnswer::Differs(atom)) => {
            put(answer, 0, usize::from(atom));
            DIFFERS
        }
        Ok(SetAnswer::Broken(rule)) => {
            put(answer, 0, rule);
            BROKEN
        }
        Err(fault) => u32::from(u8::from(fault)),
    }
}

// The proof-line reader's answer.
pub fn tell_line(line: LineAnswer, answer: &mut [u64]) -> u32
    ensures { Told (line_code line) (line_numbers line) answer.old answer.new result }
{
    match line {
        Ok(Some(read)) => {
            put_two(answer, read.count, read.next);
            u32::from(writing::byte_of(read.letter))
        }
        Ok(None) => END,
        Err(fault) => u32::from(u8::from(fault)),
    }
}

// The answer of the packet writer and of a move.
pub fn tell_writing(written: PacketWriting, answer: &mut [u64]) -> u32
    ensures { Told (writing_code written) (writing_numbers written) answer.old answer.new result }
{
    match written {
        PacketWriting::Written(bytes) => {
            put(answer, 0, bytes);
            WRITTEN
        }
        PacketWriting::Refused(number) => u32::from(number),
    }
}

// The packet reader's answer.
pub fn tell_reading(read: PacketReading, answer: &mut [u64]) -> u32
    ensures { Told (reading_code read) (reading_numbers read) answer.old answer.new result }
{
    match read {
        PacketReading::Read { rules, bytes } => {
            put_two(answer, rules, bytes);
            READ
        }
        PacketReading::Refused(number) => u32::from(number),
    }
}

// The whole check's answer.
pub fn tell_verdict(verdict: Verdict, answer: &mut [u64]) -> u32
    ensures { Told (verdict_code verdict) (verdict_numbers verdict) answer.old answer.new result }
{
    match verdict {
        Verdict::Inconsistent(counts) => {
            put_counts(answer, counts);
            INCONSISTENT
        }
        Verdict::Open(counts) => {
            put_counts(answer, counts);
            OPEN
        }
        Verdict::RefusedProgram(refusal) => {
            put_two(answer, usize::from(u8::from(refusal.fault)), refusal.line);
            REFUSED_PROGRAM
        }
        Verdict::RefusedProof(refusal) => {
            put_two(answer, usize::from(u8::from(refusal.fault)), refusal.step);
            REFUSED_PROOF
        }
    }
}

// The answer of the merge of two halves, and of a tree.
pub fn tell_merge(merged: Result<usize, Refusal<MergeFault>>, answer: &mut [u64]) -> u32
    ensures { Told (merge_code merged) (merge_numbers merged) answer.old answer.new result }
{
    match merged {
        Ok(bytes) => {
            put(answer, 0, bytes);
            WRITTEN
        }
        Err(Refusal::Program(refusal)) => tell_refused(refusal, answer),
        Err(Refusal::Service(fault)) => u32::from(u8::from(fault)),
    }
}

// The answer of the trimming of a proof.
pub fn tell_trim(trimmed: Result<usize, Refusal<TrimFault>>, answer: &mut [u64]) -> u32
    ensures { Told (trim_code trimmed) (trim_numbers trimmed) answer.old answer.new result }
{
    match trimmed {
        Ok(bytes) => {
            put(answer, 0, bytes);
            WRITTEN
        }
        Err(Refusal::Program(refusal)) => tell_refused(refusal, answer),
        Err(Refusal::Service(fault)) => u32::from(u8::from(fault)),
    }
}

// The answer of the cheapest answer set.
pub fn tell_cheapest(checked: Result<usize, Refusal<CheapestFault>>, answer: &mut [u64]) -> u32
    ensures { Told (cheapest_code checked) (cheapest_numbers checked) answer.old answer.new result }
{
    match checked {
        Ok(cost) => {
            put(answer, 0, cost);
            CHEAPEST
        }
        Err(Refusal::Program(refusal)) => tell_refused(refusal, answer),
        Err(Refusal::Service(fault)) => u32::from(u8::from(fault)),
    }
}

// The answer of the splitting of long sums.
pub fn tell_split(split: Result<SplitCounts, Refusal<SplitFault>>, answer: &mut [u64]) -> u32
    ensures { Told (split_code split) (split_numbers split) answer.old answer.new result }
{
    match split {
        Ok(counts) => {
            put_four(
                answer,
                counts.bytes,
                counts.atoms,
                counts.rules,
                counts.old_atoms,
            );
            WRITTEN
        }
        Err(Refusal::Program(refusal)) => tell_refused(refusal, answer),
        Err(Refusal::Service(fault)) => u32::from(u8::from(fault)),
    }
}
