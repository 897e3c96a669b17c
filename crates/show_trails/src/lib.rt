// The command that shows the steps of a trail one by one, and what each did. Its last line is the replay's answer, and it returns the status of that.
#![tactic(auto)]

ghost use Rattle.std.specs.Prelude.{◌≡◌};
ghost use Rattle.spec_machine.specs.Machine as machine;
ghost use Rattle.step_all.specs.Moving.{machine_in};
ghost use Rattle.show_commands.specs.Statuses as statuses;

use base_bytes::part;
use base_outcome::{Step, Taken};
use show_answers::{Output, hand_on, seek};
use show_commands::answer_replay;
use show_statuses::Status;
use step_all::Offer;
use trail_form::{Formed, Record};

// The most bytes of a step with all that it did, and of what a process was offered in its stead, where a byte of a statement takes at most four.
const STEP_ROOM: usize = 5 * base_ceilings::NORMAL_MOST;

const INSTEAD_ROOM: usize = 5 * base_ceilings::NORMAL_MOST;

// How a trail goes on behind a record: with the next one, with one that follows a step which failed, or not at all.
#[derive(Drop)]
enum Next {
    Goes,
    Failed,
    Over,
}

// Takes a step that line i of a trail asks for, and shows it and what it did; the normal text has `whole` bytes.
fn tell_step(t: &[u32], s: &mut [i32], whole: usize, i: usize, x: Step, to: &mut Output) -> Taken
    ensures { (result, s.new) ≡ machine.advance (machine_in t.now) s.old x }
{
    let mut out = [0u8; STEP_ROOM];
    let told = show_steps::put_taken(t, s, whole, i, x, &mut out, 0);
    hand_on(&out, told.end, to);
    told.taken
}

// Shows a record that is not offered, and what its process was offered instead.
fn tell_refused(t: &[u32], s: &[i32], i: usize, process: u32, k: u32, to: &mut Output) {
    let mut out = [0u8; INSTEAD_ROOM];
    let a = show_steps::put_not_offered(i, process, k, &mut out, 0);
    let b = show_steps::put_instead(t, s, process, &mut out, a);
    hand_on(&out, b, to);
}

// Shows a record behind a step that failed.
fn tell_behind(i: usize, process: u32, k: u32, to: &mut Output) {
    let mut out = [0u8; 256];
    let a = show_steps::put_not_offered(i, process, k, &mut out, 0);
    let b = text_pens::put_all(
        b"  the step before failed, and nothing follows it\n",
        &mut out,
        a,
    );
    hand_on(&out, b, to);
}

// How a trail goes on behind a step so taken.
fn next_behind(r: Taken) -> Next {
    match r {
        Taken::Done => Next::Goes,
        Taken::Refuted => Next::Failed,
        Taken::Faulted(_) => Next::Failed,
        Taken::Idle => Next::Over,
    }
}

// Shows what line i of a trail asks for, and takes the step if it is offered.
fn tell_asked(
    t: &[u32],
    s: &mut [i32],
    whole: usize,
    i: usize,
    process: u32,
    k: u32,
    failed: bool,
    to: &mut Output,
) -> Next {
    if failed {
        tell_behind(i, process, k, to);
        return Next::Over;
    }
    match step_all::step_at(t, s, process, k) {
        Offer::Step(x) => next_behind(tell_step(t, s, whole, i, x, to)),
        Offer::Beyond(_) => {
            tell_refused(t, s, i, process, k, to);
            Next::Over
        }
    }
}

// Shows the record on line i of a trail.
fn tell_record(
    t: &[u32],
    s: &mut [i32],
    whole: usize,
    line: &[u8],
    i: usize,
    failed: bool,
    to: &mut Output,
) -> Next {
    match trail_form::record_of(line) {
        Record::Step(process, k) => tell_asked(t, s, whole, i, process, k, failed, to),
        Record::Claim(_) => Next::Over,
        Record::Malformed => Next::Over,
    }
}

// Shows the first n records of a trail, as far as it goes on.
fn tell_steps(t: &[u32], s: &mut [i32], trail: &[u8], n: usize, to: &mut Output) {
    let whole = show_statement::length_from(t, 0);
    let mut at: usize = 0;
    let mut failed = false;
    for i in 0..n {
        let e = seek(trail, at, b'\n');
        match tell_record(t, s, whole, part(trail, at, e), i + 1, failed, to) {
            Next::Goes => {}
            Next::Failed => {
                failed = true;
            }
            Next::Over => {
                return;
            }
        }
        at = base_bytes::least(e, base_ceilings::TRAIL_MOST) + 1;
    }
}

// `steps MODEL TRAIL`
pub fn steps(tables: &[u32], trail: &[u8], to: &mut Output) -> Status
    ensures { result ≡ statuses.replay_status tables.now trail.now }
{
    let mut s = [0i32; base_ceilings::STATE_ROOM];
    let r = trail_replay::replay(tables, trail, &mut s);
    match trail_form::form(trail) {
        Formed::Well(n, _) => {
            let t = read_genuine::written(tables);
            state_start::start(t, &mut s);
            tell_steps(
                t,
                &mut s,
                trail,
                base_bytes::least(n, base_ceilings::STEPS_MOST),
                to,
            );
        }
        Formed::Spoiled(_, _) => {}
    }
    answer_replay(r, to)
}
