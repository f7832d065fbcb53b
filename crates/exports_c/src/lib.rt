// The fourteen services of the crate `exports` for C: each function calls the one of its name, with the same clauses.
// bindings/c/aspdrupe.h declares them.
#![tactic(auto)]

ghost use Rattle.packets.specs.Packets.{up, down};
ghost use Rattle.exports.specs.Services.{ProgramService, SetService, LineService, WriteService, ReadService, MoveService, CheckService, LongService, MergeService, TrimService, CheapestService, TreeService, SplitService};

// Reads a program text into the table.
#[unsafe(no_mangle)]
pub extern "C" fn aspdrupe_read_program(text: &[u8], table: &mut [i32], answer: &mut [u64]) -> u32
    ensures { ProgramService text.now table.old table.new answer.old
        answer.new result }
{
    exports::aspdrupe_read_program(text, table, answer)
}

// Tests a set against the program that the table holds.
#[unsafe(no_mangle)]
pub extern "C" fn aspdrupe_test_set(
    table: &[i32],
    rules: u64,
    set: &[u16],
    marks: &mut [u8],
    answer: &mut [u64],
) -> u32
    ensures { SetService table.now rules set.now marks.old marks.new
        answer.old answer.new result }
{
    exports::aspdrupe_test_set(table, rules, set, marks, answer)
}

// Reads the proof line that begins at the position.
#[unsafe(no_mangle)]
pub extern "C" fn aspdrupe_read_line(
    text: &[u8],
    position: u64,
    numbers: &mut [i32],
    answer: &mut [u64],
) -> u32
    ensures { LineService text.now position numbers.old numbers.new
        answer.old answer.new result }
{
    exports::aspdrupe_read_line(text, position, numbers, answer)
}

// Writes a packet of the version told from a table with its rule count and a proof text.
#[unsafe(no_mangle)]
pub extern "C" fn aspdrupe_write_packet(
    version: u64,
    table: &[i32],
    rules: u64,
    proof: &[u8],
    packet: &mut [u8],
    answer: &mut [u64],
) -> u32
    ensures { WriteService version table.now rules proof.now packet.old packet.new
        answer.old answer.new result }
{
    exports::aspdrupe_write_packet(version, table, rules, proof, packet, answer)
}

// Reads a packet of the version told into a table and a proof text.
#[unsafe(no_mangle)]
pub extern "C" fn aspdrupe_read_packet(
    version: u64,
    packet: &[u8],
    table: &mut [i32],
    proof: &mut [u8],
    answer: &mut [u64],
) -> u32
    ensures { ReadService version packet.now table.old table.new proof.old
        proof.new
        answer.old answer.new result }
{
    exports::aspdrupe_read_packet(version, packet, table, proof, answer)
}

// Moves a packet of version 1 to version 2.
#[unsafe(no_mangle)]
pub extern "C" fn aspdrupe_packet_up(packet: &[u8], output: &mut [u8], answer: &mut [u64]) -> u32
    ensures { MoveService up packet.now output.old output.new answer.old
        answer.new result }
{
    exports::aspdrupe_packet_up(packet, output, answer)
}

// Moves a packet of version 2 to version 1, where that can hold it.
#[unsafe(no_mangle)]
pub extern "C" fn aspdrupe_packet_down(packet: &[u8], output: &mut [u8], answer: &mut [u64]) -> u32
    ensures { MoveService down packet.now output.old output.new answer.old
        answer.new result }
{
    exports::aspdrupe_packet_down(packet, output, answer)
}

// Checks a proof text against a program text.
#[unsafe(no_mangle)]
pub extern "C" fn aspdrupe_check_texts(
    program: &[u8],
    proof: &[u8],
    table: &mut [i32],
    store: &mut [i32],
    answer: &mut [u64],
) -> u32
    ensures { CheckService program.now proof.now table.old store.old
        table.new store.new answer.old answer.new result }
{
    exports::aspdrupe_check_texts(program, proof, table, store, answer)
}

// Checks a proof text of any length up to 2,147,483,647 bytes against a program text. The memory decides time and no answer, and is 0
// throughout afterwards.
#[unsafe(no_mangle)]
pub extern "C" fn aspdrupe_check_long(
    program: &[u8],
    proof: &[u8],
    table: &mut [i32],
    store: &mut [i32],
    memory: &mut [u32],
    answer: &mut [u64],
) -> u32
    ensures { LongService program.now proof.now table.old store.old
        table.new store.new memory.old memory.new answer.old answer.new result }
{
    exports::aspdrupe_check_long(program, proof, table, store, memory, answer)
}

// Writes one proof text for a program from the proofs of its two halves.
#[unsafe(no_mangle)]
pub extern "C" fn aspdrupe_merge_halves(
    program: &[u8],
    atom: u64,
    first: &[u8],
    second: &[u8],
    table: &mut [i32],
    store: &mut [i32],
    output: &mut [u8],
    answer: &mut [u64],
) -> u32
    ensures { MergeService program.now atom first.now second.now table.old store.old
        table.new store.new output.old output.new answer.old answer.new result }
{
    exports::aspdrupe_merge_halves(program, atom, first, second, table, store, output, answer)
}

// Takes the steps out of a proof text that it does not need.
#[unsafe(no_mangle)]
pub extern "C" fn aspdrupe_trim_proof(
    program: &[u8],
    text: &mut [u8],
    table: &mut [i32],
    store: &mut [i32],
    answer: &mut [u64],
) -> u32
    ensures { TrimService program.now text.old text.new table.old store.old
        table.new store.new answer.old answer.new result }
{
    exports::aspdrupe_trim_proof(program, text, table, store, answer)
}

// Certifies that a set is a cheapest answer set.
#[unsafe(no_mangle)]
pub extern "C" fn aspdrupe_check_cheapest(
    program: &[u8],
    set: &[u16],
    costs: &[i16],
    proof: &[u8],
    table: &mut [i32],
    store: &mut [i32],
    answer: &mut [u64],
) -> u32
    ensures { CheapestService program.now set.now costs.now proof.now table.old
        store.old table.new store.new answer.old answer.new result }
{
    exports::aspdrupe_check_cheapest(program, set, costs, proof, table, store, answer)
}

// Writes one proof text for a program from the proofs at the ends of a tree of splits.
#[unsafe(no_mangle)]
pub extern "C" fn aspdrupe_merge_tree(
    program: &[u8],
    tree: &[u16],
    texts: &[u8],
    lengths: &[u64],
    table: &mut [i32],
    store: &mut [i32],
    output: &mut [u8],
    answer: &mut [u64],
) -> u32
    ensures { TreeService program.now tree.now texts.now lengths.now table.old
        store.old table.new store.new output.old output.new answer.old answer.new result }
{
    exports::aspdrupe_merge_tree(program, tree, texts, lengths, table, store, output, answer)
}

// Writes the text of a program with its long sums split into short ones.
#[unsafe(no_mangle)]
pub extern "C" fn aspdrupe_split_sums(
    program: &[u8],
    group: u64,
    table: &mut [i32],
    output: &mut [u8],
    answer: &mut [u64],
) -> u32
    ensures { SplitService program.now group table.old table.new output.old
        output.new answer.old answer.new result }
{
    exports::aspdrupe_split_sums(program, group, table, output, answer)
}
