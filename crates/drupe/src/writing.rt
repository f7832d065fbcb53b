// A step's line written to a lent buffer: `step_text` of specs/Texts.antt. What stands past the buffer's end is not stored, and is
// counted all the same.
ghost use Rattle.std.specs.Prelude.{◌+◌, ◌*◌, ◌≤◌, length};
ghost use Rattle.text.specs.Decimals.{spaced};
ghost use Rattle.text.specs.Writing.{Put, farthest};
ghost use Rattle.words.specs.Limits.{most_numbers};
ghost use Rattle.drupe.specs.Texts.{step_text};

use text::{Letter, writing};

// The numbers, each after a space: 22 bytes at most.
fn put_numbers(output: &mut [u8], at: usize, numbers: &[i32]) -> usize
    requires room { at + 22 * most_numbers ≤ farthest }
    requires few { length numbers.now ≤ most_numbers }
    ensures written { Put (spaced numbers.now) output.old output.new at result }
    ensures within { result ≤ at + 22 * most_numbers }
{
    let mut end = at;
    for n in numbers {
        end = writing::put_number(output, end, *n);
    }
    end
}

// The line of a step, its newline included, from `at` on, as many bytes as fit, and the position after it.
pub fn write_step(letter: Letter, numbers: &[i32], output: &mut [u8], at: usize) -> usize
    requires room { at + (22 * most_numbers + 4) ≤ farthest }
    requires few { length numbers.now ≤ most_numbers }
    ensures written { Put (step_text (record { letter = letter; numbers = numbers.now })) output.old
        output.new at result }
    ensures within { result ≤ at + (22 * most_numbers + 4) }
{
    writing::put(output, at, writing::byte_of(letter));
    let end = put_numbers(output, at + 1, numbers);
    writing::put_bytes(output, end, b" 0\n")
}
