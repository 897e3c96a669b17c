// Trails replayed: each recorded step in its turn from the initial state on, and the claimed verdict against the one reached.
#![tactic(auto)]

ghost use Rattle.std.specs.Prelude.{◌≡◌};
ghost use Rattle.trail_form.specs.Forms.{form_of, answer_of};
ghost use Rattle.trail_form.specs.declared.Formed.TheVariants.{Well};
ghost use Rattle.trail_replay.specs.Replay as replay;
ghost use Rattle.trail_replay.specs.Entries as entries;

use base_outcome::Taken;
use step_all::{Offer, Verdict};
use trail_form::{Formed, Record};

// A trail that is accepted, with its verdict (assert 1, fault 2, finished 3, blocked 4, open 5); or the number and the line of the refusal.
#[derive(Clone, Copy)]
pub enum Replayed {
    Accepted(u8),
    Refused(u8, usize),
}

// The k-th offered step of a process is taken; idle where there is no such step.
fn take_recorded(t: &[u32], s: &mut [i32], process: u32, k: u32) -> Taken
    ensures { (result, s.new) ≡ replay.recorded_in t.now process k s.old }
{
    let o = step_all::step_at(t, s, process, k);
    match o {
        Offer::Step(x) => step_all::advance(t, s, x),
        Offer::Beyond(_) => Taken::Idle,
    }
}

// How a recorded step failed: by its assertion 1, by a fault 2; 0 where it did not, 3 where there is none.
fn failure_of(x: Taken) -> u8
    ensures { result ≡ replay.failure_of x }
{
    match x {
        Taken::Done => 0,
        Taken::Refuted => 1,
        Taken::Faulted(_) => 2,
        Taken::Idle => 3,
    }
}

// The number of a verdict in a trail.
fn number_of(v: Verdict) -> u8
    ensures { result ≡ replay.number_of v }
{
    match v {
        Verdict::Finished => 3,
        Verdict::Blocked => 4,
        Verdict::Open => 5,
    }
}

// The verdict that is reached in a state, behind a step that failed so, or 0.
fn reached(t: &[u32], s: &[i32], failed: u8) -> u8
    ensures { result ≡ replay.reached_of t.now failed s.now }
{
    if failed == 0 {
        number_of(step_all::verdict_of(t, s))
    } else {
        failed
    }
}

fn judge(claim: u8, reached: u8, line: usize) -> Replayed
    ensures { result ≡ replay.judged claim reached line }
{
    if claim == reached {
        Replayed::Accepted(claim)
    } else {
        Replayed::Refused(12, line)
    }
}

// The records of a trail that has its form, n steps and a claim, from a state on.
fn follow(t: &[u32], s: &mut [i32], trail: &[u8], n: usize, claim: u8) -> Replayed
    requires { answer_of (form_of trail.now) ≡ Well n claim }
    ensures { (result, s.new) ≡ replay.replay_in t.now (form_of trail.now) s.old }
{
    let mut failed: u8 = 0;
    let mut at: usize = 0;
    for i in 0..n {
        let here = trail_form::line_of(&trail[at..]);
        let m = here.length;
        let r = here.record;
        match r {
            Record::Step(process, k) => {
                if failed != 0 {
                    return Replayed::Refused(11, i + 1);
                }
                let x = failure_of(take_recorded(t, s, process, k));
                if x == 3 {
                    return Replayed::Refused(11, i + 1);
                }
                failed = x;
                at = at + m + 1;
            }
            Record::Claim(_) => {
                return Replayed::Refused(10, i + 1);
            }
            Record::Malformed => {
                return Replayed::Refused(10, i + 1);
            }
        }
    }
    judge(claim, reached(t, s, failed), n + 1)
}

// A trail from the initial state on, which the lent state becomes before the first step.
pub fn replay(tables: &[u32], trail: &[u8], state: &mut [i32]) -> Replayed
    ensures { (result, state.new) ≡ entries.replayed_of tables.now trail.now state.old }
{
    let x = step_entry::foreign(tables, state);
    if x == 7 {
        return Replayed::Refused(7, 0);
    }
    if base_ceilings::TRAIL_MOST < trail.len() {
        return Replayed::Refused(2, 0);
    }
    if x != 0 {
        return Replayed::Refused(8, 0);
    }
    let f = trail_form::form(trail);
    match f {
        Formed::Well(n, claim) => {
            let w = read_genuine::written(tables);
            state_start::start(w, state);
            follow(w, state, trail, n, claim)
        }
        Formed::Spoiled(y, line) => Replayed::Refused(y, line),
    }
}
