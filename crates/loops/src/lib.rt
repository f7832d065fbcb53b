// Loops of a program, question 56: which literals of weight bodies stand in some plain body, found once for a program
// (`relevance`), and whether a set of atoms is a loop. What a loop is stands in derivation, specs/Loops.antt.
#![tactic(auto)]

mod edges;
pub mod relevance;
mod searches;

ghost use Rattle.std.specs.Prelude.{◌≡◌, true};
ghost use Rattle.aspif.specs.Rules.{expand};
ghost use Rattle.aspif.specs.Tables.{rules_at, sound_rules};
ghost use Rattle.derivation.specs.Loops.{is_loop};
ghost use Rattle.heads.specs.Heads.{Indexed};
ghost use Rattle.loops.specs.Relevance.{Relevant};
ghost use Rattle.loops.specs.Edges.{Members};

// Question 56: every atom of the set reaches every atom of it, itself included. The rules with a head in the set, found by the index,
// or else one pass over the table, give the edges inside the set, and two searches over these alone say what the first atom reaches
// and what reaches it.
pub fn is_loop(
    table: &[i32],
    rules: usize,
    lookup: &[u16],
    relevant: &[u8],
    numbers: &[i32],
) -> bool
    requires program { (sound_rules rules table.now ≡ true) × Relevant relevant.now (rules_at rules table.now) }
    requires index { Indexed lookup.now table.now rules }
    requires numbers { Members numbers.now }
    ensures { result ≡ is_loop (expand (rules_at rules table.now)) numbers.now }
{
    let places = edges::places_of(numbers);
    let edges = edges::edges_of(table, rules, lookup, relevant, numbers, &places);
    let ahead = searches::search(&edges, false, numbers.len());
    if searches::is_full(&ahead, numbers.len()) {
        let behind = searches::search(&edges, true, numbers.len());
        return searches::is_full(&behind, numbers.len());
    }
    false
}
