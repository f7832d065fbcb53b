// The whole check over two texts: document 01, from 'The proof's seven letters' on. The public services are `check_texts`, and
// `check_long` for longer proofs; what they mean is specs/Check.antt. The line that says a verdict is written by `report`.
#![tactic(auto)]

pub mod judging;
pub mod report;

ghost use Rattle.checker.specs.Check.{CheckedTexts, CheckedLong};

use aspif::{ProgramCounts, ProgramRefusal};
use runs::ProofRefusal;

// N, R, S and K: the largest atom, the rules, the steps and the live nogoods after the last.
#[derive(Drop)]
pub struct Counts {
    pub atoms: usize,
    pub rules: usize,
    pub steps: usize,
    pub nogoods: usize,
}

// What the whole check says.
#[derive(Drop)]
pub enum Verdict {
    Inconsistent(Counts),
    Open(Counts),
    RefusedProgram(ProgramRefusal),
    RefusedProof(ProofRefusal),
}

// Checks a proof text against a program text. The table then holds the program's rules and the store the nogoods, each with the
// number of its step, which is negated where the nogood was deleted, with 0 after them; both are 0 throughout where anything is
// refused.
pub fn check_texts(program: &[u8], proof: &[u8], table: &mut [i32], store: &mut [i32]) -> Verdict
    ensures { CheckedTexts program.now proof.now table.old store.old
        table.new store.new result }
{
    words::zero_all(store);
    let read = aspif::read_program(program, table);
    match read {
        Err(refusal) => Verdict::RefusedProgram(refusal),
        Ok(ProgramCounts { atoms, rules }) => judging::check_proof(
            proof, table, atoms, rules, store,
        ),
    }
}

// The same for a proof text of up to 2,147,483,647 bytes. The memory is for the index beside the store: of any length, which decides time
// and no answer, and 0 throughout afterwards.
pub fn check_long(
    program: &[u8],
    proof: &[u8],
    table: &mut [i32],
    store: &mut [i32],
    memory: &mut [u32],
) -> Verdict
    ensures { CheckedLong program.now proof.now table.old store.old
        table.new store.new memory.old memory.new result }
{
    words::zero_all(store);
    words::zero_all(memory);
    let read = aspif::read_program(program, table);
    match read {
        Err(refusal) => Verdict::RefusedProgram(refusal),
        Ok(ProgramCounts { atoms, rules }) => {
            let verdict = judging::check_within(
                words::WIDEST,
                proof,
                table,
                atoms,
                rules,
                store,
                memory,
            );
            words::zero_all(memory);
            verdict
        }
    }
}
