// What a step comes to: how many words of the store are used then, or the question that is answered no.
ghost use Rattle.std.specs.Prelude.{◌≡◌};
ghost use Rattle.steps.specs.Held.{fitted};

use drupe::ProofFault;

// Question 34: what does not fit the store is refused.
pub fn fitted(added: Option<usize>) -> Result<usize, ProofFault>
    ensures { result ≡ fitted added }
{
    added.ok_or(ProofFault::StoreFull)
}
