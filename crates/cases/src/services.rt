// The services by the first letter of a case's word, with what the case's fourth number, its version, lists and texts are to each:
//   program   the text
//   line      the position; the text. The table is the row of numbers
//   read      the version; the packet in hexadecimal. The output is the proof
//   up, down  the packet in hexadecimal. The output is the packet of the other version
//   verdict   program | proof
//   memory    the words of memory, 60,000 at most; program | proof: the long check
//   halves    the atom; program | the first half's proof | the second's
//   trim      program | proof, which stands at the front of the output, with zeros after it
//   next      the proof, which one `ProofReader` reads step by step
//   answer    the rule count; the table's words; the set. The output is the marks
//   write     the rule count and the version; the table's words; the proof. The output is the packet
//   cheapest  the costs; the set; program | proof
//   splits    the lengths of the ends; the tree; program | the ends' texts, one right after the other
//   groups    the group size; the program whose long sums are split
use notation::reading::{head, tail};
use notation::{reading, stepping};
use std::io;

// The code of a word that is none of these, and of a long check that leaves a word in its memory.
const UNKNOWN: u32 = 99;

const LEFT: u32 = 98;

// The most words of memory.
const MEMORY: usize = 60000;

// Whether the output of the line's service is a text.
pub fn is_text(line: &[u8]) -> bool {
    match reading::first_of(line) {
        b'r' | b'h' | b't' | b's' | b'g' => true,
        _ => false,
    }
}

fn trim_proof(
    program: &[u8],
    proof: &[u8],
    table: &mut [i32],
    store: &mut [i32],
    output: &mut [u8],
    answer: &mut [u64],
) -> u32 {
    words::zero_all(output);
    reading::push_all(output, 0, proof);
    exports::aspdrupe_trim_proof(program, output, table, store, answer)
}

// The long check; the code, or that of a memory that is not 0 afterwards.
fn check_clear(
    program: &[u8],
    proof: &[u8],
    memory: &mut [u32],
    table: &mut [i32],
    store: &mut [i32],
    answer: &mut [u64],
) -> u32 {
    let code = exports::aspdrupe_check_long(program, proof, table, store, memory, answer);
    if reading::is_clear(memory) {
        return code;
    }
    LEFT
}

// The long check with so many words of the memory.
fn check_within(
    program: &[u8],
    proof: &[u8],
    words: u64,
    memory: &mut [u32],
    table: &mut [i32],
    store: &mut [i32],
    answer: &mut [u64],
) -> u32 {
    let n = reading::most_cells(words, memory);
    check_clear(program, proof, &mut memory[..n], table, store, answer)
}

// The long check with so many words of memory, which are 7 before.
fn check_long(
    program: &[u8],
    proof: &[u8],
    words: u64,
    table: &mut [i32],
    store: &mut [i32],
    answer: &mut [u64],
) -> u32 {
    let mut memory = [7u32; MEMORY];
    check_within(program, proof, words, &mut memory, table, store, answer)
}

// The services of a packet.
fn serve_packet(
    service: u8,
    version: u64,
    text: &[u8],
    table: &mut [i32],
    output: &mut [u8],
    answer: &mut [u64],
) -> u32 {
    let mut space = [0u8; 33000];
    let n = reading::decode(&mut space, text);
    let packet = &space[..n];
    match service {
        b'r' => exports::aspdrupe_read_packet(version, packet, table, output, answer),
        b'u' => exports::aspdrupe_packet_up(packet, output, answer),
        _ => exports::aspdrupe_packet_down(packet, output, answer),
    }
}

// The services of a program and of proofs.
fn serve_texts(
    service: u8,
    number: u64,
    texts: &[u8],
    table: &mut [i32],
    store: &mut [i32],
    output: &mut [u8],
    answer: &mut [u64],
) -> u32 {
    let program = head(texts, b'|');
    let proof = tail(texts, b'|');
    match service {
        b'm' => check_long(program, proof, number, table, store, answer),
        b'v' => exports::aspdrupe_check_texts(program, proof, table, store, answer),
        b't' => trim_proof(program, proof, table, store, output, answer),
        _ => {
            let first = head(proof, b'|');
            let second = tail(proof, b'|');
            exports::aspdrupe_merge_halves(
                program, number, first, second, table, store, output, answer,
            )
        }
    }
}

// The services of lists.
fn serve_rows(
    service: u8,
    number: u64,
    version: u64,
    words: &[i32],
    costs: &[i16],
    lengths: &[u64],
    set: &[u16],
    texts: &[u8],
    table: &mut [i32],
    store: &mut [i32],
    output: &mut [u8],
    answer: &mut [u64],
) -> u32 {
    let program = head(texts, b'|');
    let proof = tail(texts, b'|');
    match service {
        b'a' => exports::aspdrupe_test_set(words, number, set, output, answer),
        b'w' => exports::aspdrupe_write_packet(version, words, number, texts, output, answer),
        b'c' => {
            exports::aspdrupe_check_cheapest(program, set, costs, proof, table, store, answer)
        }
        b's' => exports::aspdrupe_merge_tree(
            program, set, proof, lengths, table, store, output, answer,
        ),
        _ => UNKNOWN,
    }
}

// The same with the lists of the line.
fn serve_lists(
    line: &[u8],
    number: u64,
    version: u64,
    texts: &[u8],
    table: &mut [i32],
    store: &mut [i32],
    output: &mut [u8],
    answer: &mut [u64],
) -> u32 {
    let mut lengths = [0u64; 4100];
    let mut words = [0i32; 4100];
    let mut costs = [0i16; 40];
    let mut set = [0u16; 40];
    let lists = tail(line, b';');
    let n = reading::numbers_of(&mut lengths, head(lists, b';'));
    let numbers = &lengths[..n];
    let w = reading::words_of(&mut words, numbers);
    let c = reading::costs_of(&mut costs, numbers);
    let s = reading::set_of(&mut set, tail(lists, b';'));
    serve_rows(
        reading::first_of(line),
        number,
        version,
        &words[..w],
        &costs[..c],
        numbers,
        &set[..s],
        texts,
        table,
        store,
        output,
        answer,
    )
}

// The service of the line's word. Those that read one text get it whole.
pub fn serve<P: Print>(
    rt: &P,
    line: &[u8],
    number: u64,
    version: u64,
    texts: &[u8],
    table: &mut [i32],
    store: &mut [i32],
    output: &mut [u8],
    answer: &mut [u64],
) -> io::Result<u32> {
    let service = reading::first_of(line);
    let code = match service {
        b'p' => exports::aspdrupe_read_program(texts, table, answer),
        b'l' => exports::aspdrupe_read_line(texts, number, table, answer),
        b'n' => stepping::read_steps(rt, texts)?,
        b'g' => exports::aspdrupe_split_sums(texts, number, table, output, answer),
        b'r' | b'u' | b'd' => serve_packet(service, version, texts, table, output, answer),
        b'v' | b'm' | b'h' | b't' => serve_texts(
            service, number, texts, table, store, output, answer,
        ),
        _ => serve_lists(line, number, version, texts, table, store, output, answer),
    };
    Ok(code)
}
