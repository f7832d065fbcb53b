// The fourteen services for programs in C and Rust, on numbers and slices. An answer's case is the code that is
// returned, and its numbers are put at the front of the lent `answer`, as many as fit; what the codes and numbers are
// is specs/Codes.antt, and what each function returns and leaves is specs/Services.antt. The crate `exports_c` hands
// them out to C, each under its name and with its clauses.
#![tactic(auto)]

mod answers;

ghost use Rattle.packets.specs.Packets.{up, down};
ghost use Rattle.exports.specs.Services.{ProgramService, SetService, LineService, WriteService, ReadService, MoveService, CheckService, LongService, MergeService, TrimService, CheapestService, TreeService, SplitService};

// Reads a program text into the table.
pub fn aspdrupe_read_program(text: &[u8], table: &mut [i32], answer: &mut [u64]) -> u32
    ensures { ProgramService text.now table.old table.new answer.old
        answer.new result }
{
    let reading = aspif::read_program(text, table);
    answers::tell_program(reading, answer)
}

// Tests a set against the program that the table holds.
pub fn aspdrupe_test_set(
    table: &[i32],
    rules: u64,
    set: &[u16],
    marks: &mut [u8],
    answer: &mut [u64],
) -> u32
    ensures { SetService table.now rules set.now marks.old marks.new
        answer.old answer.new result }
{
    let tested = answer_set::test_set(table, rules as usize, set, marks);
    answers::tell_set(tested, answer)
}

// Reads the proof line that begins at the position.
pub fn aspdrupe_read_line(
    text: &[u8],
    position: u64,
    numbers: &mut [i32],
    answer: &mut [u64],
) -> u32
    ensures { LineService text.now position numbers.old numbers.new
        answer.old answer.new result }
{
    let reading = drupe::read_line(text, position as usize);
    let row = reading.numbers;
    words::put_words(numbers, &row);
    let line = reading.answer;
    answers::tell_line(line, answer)
}

// Writes a packet of the version told from a table with its rule count and a proof text.
pub fn aspdrupe_write_packet(
    version: u64,
    table: &[i32],
    rules: u64,
    proof: &[u8],
    packet: &mut [u8],
    answer: &mut [u64],
) -> u32
    ensures { WriteService version table.now rules proof.now packet.old packet.new
        answer.old answer.new result }
{
    let written = packets::write_packet(version, table, rules as usize, proof, packet);
    answers::tell_writing(written, answer)
}

// Reads a packet of the version told into a table and a proof text.
pub fn aspdrupe_read_packet(
    version: u64,
    packet: &[u8],
    table: &mut [i32],
    proof: &mut [u8],
    answer: &mut [u64],
) -> u32
    ensures { ReadService version packet.now table.old table.new proof.old
        proof.new
        answer.old answer.new result }
{
    let read = packets::read_packet(version, packet, table, proof);
    answers::tell_reading(read, answer)
}

// Moves a packet of version 1 to version 2.
pub fn aspdrupe_packet_up(packet: &[u8], output: &mut [u8], answer: &mut [u64]) -> u32
    ensures { MoveService up packet.now output.old output.new answer.old
        answer.new result }
{
    let moved = moves::packet_up(packet, output);
    answers::tell_writing(moved, answer)
}

// Moves a packet of version 2 to version 1, where that can hold it.
pub fn aspdrupe_packet_down(packet: &[u8], output: &mut [u8], answer: &mut [u64]) -> u32
    ensures { MoveService down packet.now output.old output.new answer.old
        answer.new result }
{
    let moved = moves::packet_down(packet, output);
    answers::tell_writing(moved, answer)
}

// Checks a proof text against a program text.
pub fn aspdrupe_check_texts(
    program: &[u8],
    proof: &[u8],
    table: &mut [i32],
    store: &mut [i32],
    answer: &mut [u64],
) -> u32
    ensures { CheckService program.now proof.now table.old store.old
        table.new store.new answer.old answer.new result }
{
    let verdict = checker::check_texts(program, proof, table, store);
    answers::tell_verdict(verdict, answer)
}

// Checks a proof text of any length up to 2,147,483,647 bytes against a program text. The memory decides time and no answer, and is 0
// throughout afterwards.
pub fn aspdrupe_check_long(
    program: &[u8],
    proof: &[u8],
    table: &mut [i32],
    store: &mut [i32],
    memory: &mut [u32],
    answer: &mut [u64],
) -> u32
    ensures { LongService program.now proof.now table.old store.old
        table.new store.new memory.old memory.new answer.old answer.new result }
{
    let verdict = checker::check_long(program, proof, table, store, memory);
    answers::tell_verdict(verdict, answer)
}

// Writes one proof text for a program from the proofs of its two halves.
pub fn aspdrupe_merge_halves(
    program: &[u8],
    atom: u64,
    first: &[u8],
    second: &[u8],
    table: &mut [i32],
    store: &mut [i32],
    output: &mut [u8],
    answer: &mut [u64],
) -> u32
    ensures { MergeService program.now atom first.now second.now table.old store.old
        table.new store.new output.old output.new answer.old answer.new result }
{
    let merged = splits::merge_halves(program, atom as usize, first, second, table, store, output);
    answers::tell_merge(merged, answer)
}

// Takes the steps out of a proof text that it does not need.
pub fn aspdrupe_trim_proof(
    program: &[u8],
    text: &mut [u8],
    table: &mut [i32],
    store: &mut [i32],
    answer: &mut [u64],
) -> u32
    ensures { TrimService program.now text.old text.new table.old store.old
        table.new store.new answer.old answer.new result }
{
    let trimmed = trimming::trim_proof(program, text, table, store);
    answers::tell_trim(trimmed, answer)
}

// Certifies that a set is a cheapest answer set.
pub fn aspdrupe_check_cheapest(
    program: &[u8],
    set: &[u16],
    costs: &[i16],
    proof: &[u8],
    table: &mut [i32],
    store: &mut [i32],
    answer: &mut [u64],
) -> u32
    ensures { CheapestService program.now set.now costs.now proof.now table.old
        store.old table.new store.new answer.old answer.new result }
{
    let checked = cheapest::check_cheapest(program, set, costs, proof, table, store);
    answers::tell_cheapest(checked, answer)
}

// Writes one proof text for a program from the proofs at the ends of a tree of splits.
pub fn aspdrupe_merge_tree(
    program: &[u8],
    tree: &[u16],
    texts: &[u8],
    lengths: &[u64],
    table: &mut [i32],
    store: &mut [i32],
    output: &mut [u8],
    answer: &mut [u64],
) -> u32
    ensures { TreeService program.now tree.now texts.now lengths.now table.old
        store.old table.new store.new output.old output.new answer.old answer.new result }
{
    let merged = trees::merge_tree(program, tree, texts, lengths, table, store, output);
    answers::tell_merge(merged, answer)
}

// Writes the text of a program with its long sums split into short ones.
pub fn aspdrupe_split_sums(
    program: &[u8],
    group: u64,
    table: &mut [i32],
    output: &mut [u8],
    answer: &mut [u64],
) -> u32
    ensures { SplitService program.now group table.old table.new output.old
        output.new answer.old answer.new result }
{
    let split = long_sums::split_sums(program, group as usize, table, output);
    answers::tell_split(split, answer)
}
