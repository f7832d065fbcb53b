// Cost lists as pairs of words, each literal with its cost behind it: question 62, and their literals ascending by atom.
ghost use Rattle.std.specs.Prelude.{◌≡◌, ◌*◌, ◌≤◌, length};
ghost use Rattle.words.specs.Lists.{all};
ghost use Rattle.words.specs.Literals.{variable, ascending};
ghost use Rattle.weights.specs.Weights.{literals, paired, most_weighted};
ghost use Rattle.derivation.specs.States.{is_atom};
ghost use Rattle.costs.specs.Costs.{good_costs};

use aspif::rules;
use checker::judging;

// Every literal is over an atom of the program.
fn all_atoms(literals: &[i32], atoms: usize) -> bool
    ensures { result ≡ all (λ x. is_atom atoms (variable x)) literals.now }
{
    literals
        .iter()
        .all(|x| judging::is_atom(atoms, words::variable_of(*x)))
}

// Question 62 of pairs that are at most 12, with costs in their range. Their literals are put beside them, and ascend by atom.
pub fn is_good(pairs: &[i32], row: &mut [i32], atoms: usize) -> bool
    requires { (length pairs.now ≡ 2 * length row.old) × (length row.old ≤ most_weighted) }
    ensures good { (result ≡ good_costs atoms (paired pairs.now))
        × (row.new ≡ ascending (literals (paired pairs.now))) }
{
    rules::copy_literals(pairs, row);
    let inside = all_atoms(row, atoms);
    let distinct = words::sort_distinct(row);
    inside & distinct
}
