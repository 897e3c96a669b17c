// The entries of the stepper.
#![tactic(auto)]

ghost use Rattle.std.specs.Prelude.{◌≡◌};
ghost use Rattle.step_entry.specs.Entries as entries;

use base_outcome::{Step, Taken};
use base_values::Fault;
use step_all::{Offer, Verdict};

// How a state stands, or the number of the refusal.
#[derive(Clone, Copy)]
pub enum Standing {
    Finished,
    Blocked,
    Open,
    Refused(u8),
}

// A step that is offered; or how many there are in all; or the number of the refusal.
#[derive(Clone, Copy)]
pub enum Listed {
    Step(Step),
    Only(u32),
    Refused(u8),
}

// A step that was taken, with the number of bytes that it printed; one that failed; or the number of the refusal.
#[derive(Clone, Copy)]
pub enum Stepped {
    Took(usize),
    Assert,
    Fault(Fault),
    Refused(u8),
}

// Refusals 7 and 8, or 0.
pub fn foreign(tables: &[u32], state: &[i32]) -> u8
    ensures { result ≡ entries.foreign_of tables.now state.now }
{
    if tables.len() < base_ceilings::TABLES_ROOM {
        return 7;
    }
    if state.len() < base_ceilings::STATE_ROOM {
        return 7;
    }
    if read_genuine::is_genuine(tables) {
        0
    } else {
        8
    }
}

// Refusals 7, 8 and 9, or 0.
pub fn refusal(tables: &[u32], state: &[i32]) -> u8
    ensures { result ≡ entries.refusal_of tables.now state.now }
{
    let x = foreign(tables, state);
    if x != 0 {
        return x;
    }
    if state_check::is_state(read_genuine::written(tables), state) {
        0
    } else {
        9
    }
}

// The initial state of a model, written whole; the answer is 0, or the number of the refusal.
pub fn start(tables: &[u32], state: &mut [i32]) -> u8
    ensures value { result ≡ entries.foreign_of tables.now state.old }
    ensures state_after { state.new ≡ entries.start_left tables.now state.old }
{
    let x = foreign(tables, state);
    if x != 0 {
        return x;
    }
    state_start::start(read_genuine::written(tables), state);
    0
}

impl From<Verdict> for Standing {
    ghost from_gives = { λ v r. r ≡ entries.standing_of v };

    fn from(v: Verdict) -> Standing {
        match v {
            Verdict::Finished => Standing::Finished,
            Verdict::Blocked => Standing::Blocked,
            Verdict::Open => Standing::Open,
        }
    }
}

// How a state stands.
pub fn verdict(tables: &[u32], state: &[i32]) -> Standing
    ensures { result ≡ entries.verdict_for tables.now state.now }
{
    let x = refusal(tables, state);
    if x != 0 {
        return Standing::Refused(x);
    }
    step_all::verdict_of(read_genuine::written(tables), state).into()
}

// The n-th step, from 0, of all that are offered, by process number, then text order; where there are no more than n, how many there are.
pub fn offered(tables: &[u32], state: &[i32], n: u32) -> Listed
    ensures { result ≡ entries.offered_of tables.now state.now n }
{
    let x = refusal(tables, state);
    if x != 0 {
        return Listed::Refused(x);
    }
    let o = step_all::nth(read_genuine::written(tables), state, n);
    match o {
        Offer::Step(x) => Listed::Step(x),
        Offer::Beyond(left) => Listed::Only(n - left),
    }
}

// A step that is offered.
fn move_on(w: &[u32], state: &mut [i32], x: Step, printed: &mut [u8]) -> Stepped
    ensures value { result ≡ (entries.took_at w.now state.old x printed.old).answer }
    ensures state_after { state.new ≡ (entries.took_at w.now state.old x printed.old).state }
    ensures printed_after { printed.new ≡ (entries.took_at w.now state.old x printed.old).printed }
{
    let n = step_prints::print_at(w, state, x.process, x.place, printed);
    let r = step_all::advance(w, state, x);
    match r {
        Taken::Done => Stepped::Took(n),
        Taken::Refuted => Stepped::Assert,
        Taken::Faulted(f) => Stepped::Fault(f),
        Taken::Idle => Stepped::Refused(11),
    }
}

// Takes the k-th step, from 1, that a process is offered.
pub fn step(tables: &[u32], state: &mut [i32], process: u32, k: u32, printed: &mut [u8]) -> Stepped
    ensures value { result ≡ (entries.outcome_of tables.now state.old process k printed.old).answer }
    ensures state_after { state.new ≡ (entries.outcome_of tables.now state.old process k printed.old).state }
    ensures printed_after { printed.new ≡ (entries.outcome_of tables.now state.old process k printed.old).printed }
{
    if printed.len() < base_ceilings::PRINT_ROOM {
        return Stepped::Refused(7);
    }
    let x = refusal(tables, state);
    if x != 0 {
        return Stepped::Refused(x);
    }
    let w = read_genuine::written(tables);
    let found = step_all::step_at(w, state, process, k);
    match found {
        Offer::Step(x) => move_on(w, state, x, printed),
        Offer::Beyond(_) => Stepped::Refused(11),
    }
}
