// A call as the list gives it, and the running state that it is given. specs/Asked.antt has what is made of its numbers; what
// is read is open, since no contract says what a file holds.

ghost use Rattle.std.specs.Prelude.{◌≡◌, ◌≤◌};
ghost use Rattle.portion_list.specs.Asked as spec;

use lists::lent::BEFORE;
use lists::list::{double, read, word};
use std::io::Read;

// The set of parameters.
#[derive(Clone, Copy)]
pub struct Chosen {
    pub tolerance: f64,
    pub rounds: u64,
    pub limit: u64,
    pub weight: f64,
}

// How many doubles are lent.
#[derive(Clone, Copy)]
pub struct Lengths {
    pub state: u64,
    pub scratch: u64,
    pub poses: u64,
    pub frames: u64,
    pub errors: u64,
}

// Which of the two calls: `Begin` is 0 in the list, and `On` is 1.
#[derive(Clone, Copy)]
pub enum Step {
    Begin,
    On,
}

// A number that names no call.
#[derive(Clone, Copy)]
pub struct UnknownStep(pub u64);

impl TryFrom<u64> for Step {
    type Error = UnknownStep;

    ghost try_from_gives = { spec.Decodes };

    fn try_from(n: u64) -> Result<Step, UnknownStep> {
        match n {
            0 => Ok(Step::Begin),
            1 => Ok(Step::On),
            _ => Err(UnknownStep(n)),
        }
    }
}

// Which call, if the list names one; the drag, what it chooses, the portion, the counts of unknowns and of rows, what it is lent; how many doubles the
// list then gives for the state, 0 if the running state is the one that the call before left.
#[derive(Clone, Copy)]
pub struct Call {
    pub step: Option<Step>,
    pub drag: u64,
    pub chosen: Chosen,
    pub portion: u64,
    pub unknowns: u64,
    pub rows: u64,
    pub lengths: Lengths,
    pub given: u64,
}

// The rounds done, the run, and the state's memory, of which the list gave so many doubles.
#[derive(Clone, Copy)]
pub struct Running {
    pub done: u64,
    pub run: u64,
    pub given: u64,
    pub doubles: [f64; 256],
}

fn next_chosen(file: &mut impl Read) -> Chosen {
    Chosen {
        tolerance: double(file),
        rounds: word(file),
        limit: word(file),
        weight: double(file),
    }
}

fn next_lengths(file: &mut impl Read) -> Lengths {
    Lengths {
        state: word(file),
        scratch: word(file),
        poses: word(file),
        frames: word(file),
        errors: word(file),
    }
}

pub fn next_call(file: &mut impl Read) -> Call {
    Call {
        step: Step::try_from(word(file)).ok(),
        drag: word(file),
        chosen: next_chosen(file),
        portion: word(file),
        unknowns: word(file),
        rows: word(file),
        lengths: next_lengths(file),
        given: word(file),
    }
}

// n, or most if that is less.
pub fn at_most(n: u64, most: usize) -> usize
    ensures { (result ≡ spec.at_most n most) × (result ≤ most) }
{
    if n > most as u64 { most } else { n as usize }
}

// The running state that the list gives, or else the one that is left.
pub fn next_running(file: &mut impl Read, given: u64, left: Running) -> Running {
    if given == 0 {
        return left;
    }
    let done = word(file);
    let run = word(file);
    let mut doubles = [BEFORE; 256];
    read(file, &mut doubles[..at_most(given, 256)]);
    Running {
        done,
        run,
        given,
        doubles,
    }
}

#[tactic(auto, unfolding(crate::specs::Asked::lengths_fit))]
fn lengths_fit(l: Lengths, given: u64) -> bool
    ensures { result ≡ spec.lengths_fit l given }
{
    (1 <= given)
        & ((given <= 256)
            & ((l.state <= given)
                & ((l.scratch <= 4096)
                    & ((l.poses <= 256) & ((l.frames <= 256) & (l.errors <= 256))))))
}

#[tactic(auto, unfolding(crate::specs::Asked::counts_fit))]
fn counts_fit(c: Call, q: Chosen) -> bool
    ensures { result ≡ spec.counts_fit c q }
{
    c.step.is_some()
        & ((c.drag <= 0xFFFF)
            & ((q.rounds <= 0xFFFF_FFFF)
                & ((q.limit <= 0xFFFF_FFFF)
                    & ((c.portion <= 0xFFFF_FFFF)
                        & ((c.unknowns <= 0xFFFF_FFFF) & (c.rows <= 0xFFFF_FFFF))))))
}

// Whether each number of a call can be handed over as it stands, and what is lent is there to lend: of the running state, the doubles given, the rounds done and the run.
pub fn fits(c: Call, given: u64, done: u64, run: u64) -> bool
    ensures { result ≡ spec.fits c given done run }
{
    let counts = counts_fit(c, c.chosen);
    let lengths = lengths_fit(c.lengths, given);
    counts & (lengths & ((done <= 0xFFFF_FFFF) & (run <= 0xFF)))
}
