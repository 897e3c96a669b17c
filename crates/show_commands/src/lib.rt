// Commands on the tables of an accepted model; the last line of each is its answer. Each returns the status of that answer (`show_statuses`).
#![tactic(auto)]

ghost use Rattle.std.specs.Prelude.{◌≡◌};
ghost use Rattle.base_pens.specs.Pen.{pen, puts};
ghost use Rattle.show_commands.specs.Statuses as statuses;
ghost use Rattle.show_commands.specs.Lines as lines;

use base_bytes::part;
use base_outcome::Step;
use run_entry::{Ending, Ran};
use show_answers::{Output, put, put_counted};
use show_statuses::{Answer, Status, status_of};
use step_all::{Offer, Verdict};
use text_pens::put_all;
use trail_replay::Replayed;

// The most bytes of an answer, and of a line with a statement, whose bytes take at most four each.
const ANSWER_ROOM: usize = 64;

const LINE_ROOM: usize = 4 * base_ceilings::NORMAL_MOST + 128;

// `start`: each offered step of a state; how many there are.
fn list_offers(t: &[u32], s: &[i32], to: &mut Output) -> usize {
    let mut out = [0u8; LINE_ROOM];
    for n in 0..show_steps::LISTED_MOST {
        let o = step_all::nth(t, s, n);
        match o {
            Offer::Step(x) => {
                let k = show_steps::put_offer(t, s, x, &mut out, 0);
                show_answers::hand_on(&out, k, to);
            }
            Offer::Beyond(_) => {
                return n as usize;
            }
        }
    }
    show_steps::LISTED_MOST as usize
}

// Writes the answer for a state in which n steps are offered.
fn put_verdict(v: Verdict, n: usize, out: &mut [u8], p: usize) -> usize
    ensures { pen out.new result ≡ puts (lines.verdict_text v n) (pen out.old p) }
{
    match v {
        Verdict::Finished => put_all(b"finished\n", out, p),
        Verdict::Blocked => put_all(b"blocked\n", out, p),
        Verdict::Open => put_counted(b"open", n, out, p),
    }
}

// Answers for a state in which n steps are offered.
fn answer_verdict(v: Verdict, n: usize, to: &mut Output) -> Status
    ensures { result ≡ statuses.verdict_status v }
{
    let mut line = [0u8; ANSWER_ROOM];
    let k = put_verdict(v, n, &mut line, 0);
    put(part(&line, 0, k), to);
    match v {
        Verdict::Finished => status_of(Answer::Finished),
        Verdict::Blocked => status_of(Answer::Blocked),
        Verdict::Open => status_of(Answer::Open),
    }
}

// `start MODEL`
pub fn start(tables: &[u32], to: &mut Output) -> Status
    ensures { result ≡ statuses.start_status tables.now }
{
    let t = read_genuine::written(tables);
    let mut s = [0i32; base_ceilings::STATE_ROOM];
    state_start::start(t, &mut s);
    let n = list_offers(t, &s, to);
    answer_verdict(step_all::verdict_of(t, &s), n, to)
}

// Writes the answer for a run of n steps.
fn put_ending(e: Ending, n: usize, out: &mut [u8], p: usize) -> usize
    ensures { pen out.new result ≡ puts (lines.ending_text e n) (pen out.old p) }
{
    match e {
        Ending::Finished => put_counted(b"finished", n, out, p),
        Ending::Blocked => put_counted(b"blocked", n, out, p),
        Ending::Open => put_counted(b"open", n, out, p),
        Ending::Assert => put_counted(b"assert", n, out, p),
        Ending::Fault(_) => put_counted(b"fault", n, out, p),
    }
}

fn ending_status(e: Ending) -> Status
    ensures { result ≡ statuses.ending_status e }
{
    match e {
        Ending::Finished => status_of(Answer::Finished),
        Ending::Blocked => status_of(Answer::Blocked),
        Ending::Open => status_of(Answer::Open),
        Ending::Assert => status_of(Answer::Assert),
        Ending::Fault(_) => status_of(Answer::Fault),
    }
}

// Writes the answer of a run.
fn put_ran(r: Ran, out: &mut [u8], p: usize) -> usize
    ensures { pen out.new result ≡ puts (lines.ran_text r) (pen out.old p) }
{
    match r {
        Ran::Ended(e, n) => put_ending(e, n as usize, out, p),
        Ran::Refused(_) => put_all(b"error: the run was refused\n", out, p),
    }
}

fn answer_run(r: Ran, to: &mut Output) -> Status
    ensures { result ≡ statuses.ran_status r }
{
    let mut line = [0u8; ANSWER_ROOM];
    let k = put_ran(r, &mut line, 0);
    put(part(&line, 0, k), to);
    match r {
        Ran::Ended(e, _) => ending_status(e),
        Ran::Refused(_) => status_of(Answer::Error),
    }
}

// Shows what keeps a `run` from starting, where a run ends blocked.
fn tell_waits(t: &[u32], s: &[i32], e: Ending, to: &mut Output) {
    match e {
        Ending::Blocked => {
            let mut out = [0u8; LINE_ROOM];
            let n = show_waits::put_waits(t, s, &mut out, 0);
            show_answers::hand_on(&out, n, to);
        }
        Ending::Finished => {}
        Ending::Open => {}
        Ending::Assert => {}
        Ending::Fault(_) => {}
    }
}

fn tell_stuck(t: &[u32], s: &[i32], r: Ran, to: &mut Output) {
    match r {
        Ran::Ended(e, _) => {
            tell_waits(t, s, e, to);
        }
        Ran::Refused(_) => {}
    }
}

// `run MODEL LIMIT`
pub fn run(tables: &[u32], limit: u32, to: &mut Output) -> Status
    ensures { result ≡ statuses.run_status tables.now limit }
{
    let t = read_genuine::written(tables);
    let mut s = [0i32; base_ceilings::STATE_ROOM];
    state_start::start(t, &mut s);
    let mut line = [b'\n'; 1];
    let r = show_run::run(t, &mut s, limit, &mut line, to);
    if line[0] != b'\n' {
        put(b"\n", to);
    }
    tell_stuck(t, &s, r, to);
    answer_run(r, to)
}

// Writes the answer of a replay.
fn put_replayed(r: Replayed, out: &mut [u8], p: usize) -> usize
    ensures { pen out.new result ≡ puts (lines.replayed_text r) (pen out.old p) }
{
    match r {
        Replayed::Accepted(v) => show_answers::put_accepted(v, out, p),
        Replayed::Refused(x, line) => show_answers::put_stopped(x, line, out, p),
    }
}

pub fn answer_replay(r: Replayed, to: &mut Output) -> Status
    ensures { result ≡ statuses.replayed_status r }
{
    let mut line = [0u8; ANSWER_ROOM];
    let k = put_replayed(r, &mut line, 0);
    put(part(&line, 0, k), to);
    match r {
        Replayed::Accepted(_) => status_of(Answer::Accepted),
        Replayed::Refused(_, _) => status_of(Answer::Refused),
    }
}

// `replay MODEL TRAIL`
pub fn replay(tables: &[u32], trail: &[u8], to: &mut Output) -> Status
    ensures { result ≡ statuses.replay_status tables.now trail.now }
{
    let mut s = [0i32; base_ceilings::STATE_ROOM];
    answer_replay(trail_replay::replay(tables, trail, &mut s), to)
}
