// Passes over a proof text: each line tried for removal, from the last to the first. A trial is the check of the
// whole text without it.
ghost use Rattle.std.specs.Prelude.{◌≡◌, List, [], ◌<◌, ◌≤◌, pos, length, take, replicate};
ghost use Rattle.words.specs.Limits.{longest, most_rules};
ghost use Rattle.text.specs.Bytes.{class_of};
ghost use Rattle.text.specs.Classes.{byte_classes};
ghost use Rattle.aspif.specs.Rules.{InputRule};
ghost use Rattle.drupe.specs.Texts.{Step, steps, steps_of};
ghost use Rattle.steps.specs.Held.{Program};
ghost use Rattle.trimming.specs.Trims.{pass};
ghost use Rattle.trimming.specs.Service.{accepted, trimmed_steps};
ghost use Rattle.trimming.specs.Passing.{Reads, is_newline, LastLine, without, tried_text};

use checker::judging;
use text::{Class, writing};
use words::LONGEST;

// Whether a byte ends a line.
fn is_newline(b: u8, classes: &[u8; 256]) -> bool
    requires { classes.now ≡ byte_classes }
    ensures { result ≡ is_newline (class_of b) }
{
    let class = text::class_of(classes, b);
    matches!(class, Class::Newline)
}

// Where the line that ends at `end` begins: after the newline before it, or at 0.
fn line_start(text: &[u8], end: usize, classes: &[u8; 256]) -> usize
    requires inside { (0 < end) × (end ≤ length text.now) }
    requires classes { classes.now ≡ byte_classes }
    ensures before { result < end }
    ensures line { LastLine text.now end result }
{
    for before in (0..end - 1).rev() {
        if is_newline(text[before], classes) {
            return before + 1;
        }
    }
    0
}

// The text's first `len` bytes without those from `start` to `end`, at the front of the buffer, and how many they are.
fn write_without(trial: &mut [u8], text: &[u8], start: usize, end: usize, len: usize) -> usize
    requires bounds { ((start ≤ end) × (end ≤ len)) × (len ≤ length text.now) }
    requires room { (length text.now ≤ longest) × (length trial.old ≡ longest) }
    ensures bounds { (start ≤ result) × (result ≤ len) }
    ensures written { take result trial.new ≡ without text.now start end len }
{
    let front = writing::put_bytes(trial, 0, &text[..start]);
    writing::put_bytes(trial, front, &text[end..len])
}

// Takes the bytes from `start` to `end` out where the text is accepted without them. How many bytes are left of
// `len`; the store is 0 throughout, before and after.
fn try_without(
    text: &mut [u8],
    start: usize,
    end: usize,
    len: usize,
    trial: &mut [u8],
    table: &[i32],
    rules: usize,
    atoms: usize,
    store: &mut [i32],
) -> usize
    requires bounds { ((start ≤ end) × (end ≤ len)) × (len ≤ length text.old) }
    requires room { (length text.old ≤ longest) × (length trial.old ≡ longest) }
    requires program { ((ws : List InputRule) × Program table.now rules atoms ws) × (rules ≤ most_rules) }
    requires empty { store.old ≡ replicate (length store.old) (pos 0) }
    ensures bounds { (start ≤ result) × (result ≤ len) }
    ensures empty { store.new ≡ replicate (length store.old) (pos 0) }
    ensures tried { (ws : List InputRule) → Program table.now rules atoms ws
        → take result text.new ≡ tried_text (length store.old) ws text.old start end len }
{
    let n = write_without(trial, text, start, end, len);
    if judging::is_accepted(&trial[..n], table, rules, atoms, store) {
        return writing::put_bytes(text, 0, &trial[..n]);
    }
    len
}

// One pass over the text's first `len` bytes; how many are left.
fn pass(
    text: &mut [u8],
    len: usize,
    trial: &mut [u8],
    table: &[i32],
    rules: usize,
    atoms: usize,
    store: &mut [i32],
    classes: &[u8; 256],
) -> usize
    requires room { (length text.old ≤ longest) × (length trial.old ≡ longest) }
    requires within { len ≤ length text.old }
    requires program { ((ws : List InputRule) × Program table.now rules atoms ws) × (rules ≤ most_rules) }
    requires empty { store.old ≡ replicate (length store.old) (pos 0) }
    requires classes { classes.now ≡ byte_classes }
    ensures within { result ≤ len }
    ensures empty { store.new ≡ replicate (length store.old) (pos 0) }
    ensures left { (ws : List InputRule) (ts : List Step) → Program table.now rules atoms ws
        → Reads text.old len ts
        → Reads text.new result (pass (accepted (length store.old) ws) [] ts) }
{
    let mut at = len;
    let mut left = len;
    while 0 < at {
        let start = line_start(text, at, classes);
        left = try_without(text, start, at, left, trial, table, rules, atoms, store);
        at = start;
    }
    left
}

// "passes repeat until one removes none": how many bytes are left of the text. A pass that takes a line away makes it
// shorter. Inlined it would have its arrays on the stack beside those of the check that comes after it.
#[inline(never)]
pub fn passes(
    text: &mut [u8],
    table: &[i32],
    rules: usize,
    atoms: usize,
    store: &mut [i32],
) -> usize
    requires short { length text.old ≤ longest }
    requires program { ((ws : List InputRule) × Program table.now rules atoms ws) × (rules ≤ most_rules) }
    requires empty { store.old ≡ replicate (length store.old) (pos 0) }
    ensures within { result ≤ length text.old }
    ensures empty { store.new ≡ replicate (length store.old) (pos 0) }
    ensures trimmed { (ws : List InputRule) (ts : List Step) → Program table.now rules atoms ws
        → steps_of text.old ≡ steps ts
        → Reads text.new result (trimmed_steps (length store.old) ws ts) }
{
    let classes = text::classes::CLASSES;
    let mut trial = [0u8; LONGEST];
    let mut len = text.len();
    loop {
        let left = pass(text, len, &mut trial, table, rules, atoms, store, &classes);
        if left == len {
            return left;
        }
        len = left;
    }
}
