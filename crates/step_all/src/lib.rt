// The steps that are offered in a state, over all its processes; what a step does; and the verdict of a state.
#![tactic(auto)]

ghost use Rattle.std.specs.Prelude.{◌≡◌, ◌≤◌};
ghost use Rattle.step_all.specs.Moving.{machine_in};
ghost use Rattle.base_ceilings.specs.Ceilings.{processes_most};
ghost use Rattle.spec_machine.specs.Machine as machine;
ghost use Rattle.step_all.specs.Moving as moving;

use base_outcome::{Partner, Step, Taken};
use step_offers::Walk;

#[derive(Clone, Copy)]
pub enum Verdict {
    Finished,
    Blocked,
    Open,
}

// An offered step; or how many steps are left to pass.
#[derive(Clone, Copy)]
pub enum Offer {
    Step(Step),
    Beyond(u32),
}

// How many processes there are.
fn processes(s: &[i32]) -> u32
    ensures value { result ≡ moving.processes s.now }
    ensures upper_bound { result ≤ processes_most }
{
    base_bytes::least(
        base_ceilings::PROCESSES_MOST,
        state_layout::processes(s) as usize,
    ) as u32
}

// Does every process that stands at place q wait there, for a shared variable alone, whose value is 0?
fn is_shut(t: &[u32], s: &[i32], q: usize) -> bool
    ensures { moving.Waits t.now s.now q result }
{
    if table_layout::code(t, q) != base_codes::NAME {
        return false;
    }
    let m = table_layout::link(t, q);
    if m <= q {
        return false;
    }
    if table_layout::code(t, m) != base_codes::EXPRESS {
        return false;
    }
    if table_layout::code(t, m - 1) != base_codes::PLAIN {
        return false;
    }
    let d = table_layout::link(t, m - 1);
    let c = table_layout::code(t, d);
    if c == base_codes::MESSAGE {
        return false;
    }
    if c == base_codes::NAME {
        return false;
    }
    let l = table_layout::link(t, d) as u32;
    if l / 8 % 2 != 0 {
        return false;
    }
    state_layout::cell(s, step_eval::slot(l, 0, 0)) == 0
}

// Is any process offered a step?
fn is_any(t: &[u32], s: &[i32], late: bool) -> bool
    ensures { result ≡ machine.any_from (machine_in t.now) s.now late 0 (moving.processes s.now) }
{
    let n = processes(s);
    for p in 0..n {
        if step_offers::is_offered(t, s, p as u8, late) {
            return true;
        }
    }
    false
}

// Is `timeout` executable?
fn is_late(t: &[u32], s: &[i32]) -> bool
    ensures { result ≡ machine.late (machine_in t.now) s.now }
{
    if is_any(t, s, false) { false } else { true }
}

// The k-th step of process p, by what was found: no statement has a partner.
fn offer_of(p: u8, k: u32, w: Walk) -> Offer
    ensures { result ≡ moving.offer_of p k w }
{
    match w {
        Walk::Found(q) => Offer::Step(Step {
            process: p,
            number: k,
            place: q,
            partner: Partner::Nobody,
        }),
        Walk::Left(_) => Offer::Beyond(0),
    }
}

// The k-th step, from 1, that a process is offered. It is asked without `timeout` first: what it is offered then shows that `timeout` is not executable, and the others need not be asked.
pub fn step_at(t: &[u32], s: &[i32], process: u32, k: u32) -> Offer
    ensures { result ≡ moving.offer_as (machine.asked (machine_in t.now) process k (machine.offered (machine_in t.now) s.now)) }
{
    if processes(s) <= process {
        return Offer::Beyond(0);
    }
    if k == 0 {
        return Offer::Beyond(0);
    }
    let w = step_offers::offered(t, s, process as u8, false, k - 1);
    match w {
        Walk::Found(_) => offer_of(process as u8, k, w),
        Walk::Left(_) => {
            if is_any(t, s, false) {
                Offer::Beyond(0)
            } else {
                offer_of(
                    process as u8,
                    k,
                    step_offers::offered(t, s, process as u8, true, k - 1),
                )
            }
        }
    }
}

// The n-th step, from 0, of all processes, by process number, then text order, where `late` says whether `timeout` is executable. At a place where all wait, which is then shut, none is asked further.
fn nth_by(t: &[u32], s: &[i32], late: bool, n: u32) -> Offer
    ensures { result ≡ moving.nth_in n (machine.list_from (machine_in t.now) s.now late 0 (moving.processes s.now)) }
{
    let count = processes(s);
    let mut shut: Option<u32> = None;
    let mut left = n;
    for p in 0..count {
        let q = state_layout::place_of(s, p as u8);
        if shut == Some(q) {
            continue;
        }
        if is_shut(t, s, q as usize) {
            shut = Some(q);
            continue;
        }
        let w = step_offers::offered(t, s, p as u8, late, left);
        match w {
            Walk::Found(_) => {
                return offer_of(p as u8, left + 1, w);
            }
            Walk::Left(m) => {
                left = m;
            }
        }
    }
    Offer::Beyond(left)
}

// The n-th step, from 0, of all that are offered. `timeout` is looked for only where nothing else is offered.
pub fn nth(t: &[u32], s: &[i32], n: u32) -> Offer
    ensures { result ≡ moving.nth_in n (machine.offered (machine_in t.now) s.now) }
{
    let o = nth_by(t, s, false, n);
    match o {
        Offer::Step(x) => Offer::Step(x),
        Offer::Beyond(l) => {
            if l == n {
                nth_by(t, s, true, n)
            } else {
                Offer::Beyond(l)
            }
        }
    }
}

// A step is taken, and then comes what follows every step: nothing today.
pub fn advance(t: &[u32], s: &mut [i32], x: Step) -> Taken
    ensures { (result, s.new) ≡ machine.advance (machine_in t.now) s.old x }
{
    step_take::take(t, s, x.process, x.place)
}

// Has every process ended?
fn is_ended(t: &[u32], s: &[i32]) -> bool
    ensures { result ≡ machine.ended_from (machine_in t.now) s.now 0 (moving.processes s.now) }
{
    let n = processes(s);
    for p in 0..n {
        if table_layout::code(t, state_layout::place_of(s, p as u8) as usize)
            != base_codes::END_BODY
        {
            return false;
        }
    }
    true
}

pub fn verdict_of(t: &[u32], s: &[i32]) -> Verdict
    ensures { result ≡ moving.verdict_as (machine.verdict (machine_in t.now) s.now) }
{
    if is_ended(t, s) {
        return Verdict::Finished;
    }
    if is_any(t, s, is_late(t, s)) {
        Verdict::Open
    } else {
        Verdict::Blocked
    }
}
