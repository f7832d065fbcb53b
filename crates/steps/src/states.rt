// Where the check stands between two steps.
ghost use Rattle.steps.specs.Held.{Starts};

// The position in the proof text, the steps that are done, and the words of the store that are used. The store, the known variables and the
// names of bodies stand beside it and are lent: an array that is a field is copied before it is lent.
#[derive(Drop)]
pub struct CheckingState {
    pub at: usize,
    pub steps: usize,
    pub used: usize,
}

impl CheckingState {
    // The largest variable.
    pub const LARGEST: usize = words::LARGEST;

    // The most numbers of a line.
    pub const NUMBERS: usize = words::MOST_NUMBERS;

    // "It starts empty."
    pub fn start() -> CheckingState
        ensures start { Starts result }
    {
        CheckingState {
            at: 0,
            steps: 0,
            used: 0,
        }
    }
}
