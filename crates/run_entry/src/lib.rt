// The automatic run: from a state it takes first offered steps until none is, one fails, or a limit is met.
#![tactic(auto)]

ghost use Rattle.std.specs.Prelude.{◌≡◌};
ghost use Rattle.run_entry.specs.Runs as runs;
ghost use Rattle.run_entry.specs.Entries as entries;

use base_outcome::Taken;
use base_values::Fault;
use step_all::{Offer, Verdict};

// How a run ends.
#[derive(Clone, Copy)]
pub enum Ending {
    Finished,
    Blocked,
    Open,
    Assert,
    Fault(Fault),
}

// How a run ended and how many steps it took, a failing one included; or the number of the refusal.
#[derive(Clone, Copy)]
pub enum Ran {
    Ended(Ending, u32),
    Refused(u8),
}

// The first offered step is taken; idle where none is offered.
pub fn turn(t: &[u32], s: &mut [i32]) -> Taken
    ensures { (result, s.new) ≡ runs.turn_in t.now s.old }
{
    let o = step_all::nth(t, s, 0);
    match o {
        Offer::Step(x) => step_all::advance(t, s, x),
        Offer::Beyond(_) => Taken::Idle,
    }
}

// How a run ends that goes no further in a state that stands so.
impl From<Verdict> for Ending {
    ghost from_gives = { λ v r. r ≡ runs.ending_of v };

    fn from(v: Verdict) -> Ending {
        match v {
            Verdict::Finished => Ending::Finished,
            Verdict::Blocked => Ending::Blocked,
            Verdict::Open => Ending::Open,
        }
    }
}

// The run from a state of the model on.
pub fn run_on(t: &[u32], s: &mut [i32], limit: u32) -> Ran
    ensures { (result, s.new) ≡ runs.shown (runs.run_in t.now limit s.old) }
{
    for n in 0..limit {
        let r = turn(t, s);
        match r {
            Taken::Done => {}
            Taken::Refuted => {
                return Ran::Ended(Ending::Assert, n + 1);
            }
            Taken::Faulted(f) => {
                return Ran::Ended(Ending::Fault(f), n + 1);
            }
            Taken::Idle => {
                return Ran::Ended(step_all::verdict_of(t, s).into(), n);
            }
        }
    }
    Ran::Ended(step_all::verdict_of(t, s).into(), limit)
}

// The automatic run from the lent state on, which it leaves as the run does.
pub fn run(tables: &[u32], state: &mut [i32], limit: u32) -> Ran
    ensures { (result, state.new) ≡ entries.ran_of tables.now state.old limit }
{
    let x = step_entry::refusal(tables, state);
    if x != 0 {
        return Ran::Refused(x);
    }
    run_on(read_genuine::written(tables), state, limit)
}
