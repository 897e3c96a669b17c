// The lines of steps, of what came of them, and of processes, written to lent bytes.
#![tactic(auto)]

ghost use Rattle.std.specs.Prelude.{◌≡◌, [], ◌∷◌, ◌++◌, ◌+◌, length};
ghost use Rattle.base_pens.specs.Pen.{pen, puts};
ghost use Rattle.base_kinds.specs.Kinds.{bytes};
ghost use Rattle.spec_text.specs.Formats.{digits_of};
ghost use Rattle.spec_account.specs.Steps.{printed_text, fault_text};
ghost use Rattle.show_statement.specs.Statements.{seen_in};
ghost use Rattle.spec_machine.specs.Machine as machine;
ghost use Rattle.step_all.specs.Moving.{machine_in, processes};
ghost use Rattle.show_steps.specs.Steps as steps;

use base_outcome::{Step, Taken};
use base_values::Fault;
use show_words::put_count;
use step_all::Offer;
use text_pens::{put, put_all};

// So many steps are listed, always more than there are.
pub const LISTED_MOST: u32 = base_ceilings::PROCESSES_MOST as u32
    * base_ceilings::ITEMS_MOST as u32;

// Writes a number behind which a tab stands.
fn put_field(n: usize, out: &mut [u8], p: usize) -> usize
    ensures { pen out.new result ≡ puts (digits_of n ++ 9 ∷ []) (pen out.old p) }
{
    let a = put_count(n, out, p);
    put(out, a, b'\t')
}

// Writes the statement at place q behind a tab, and ends the line.
fn put_last(t: &[u32], q: u32, out: &mut [u8], p: usize) -> usize
    ensures { pen out.new result ≡ puts (9 ∷ (seen_in t.now q ++ 10 ∷ [])) (pen out.old p) }
{
    let a = put(out, p, b'\t');
    let b = show_statement::put_seen(t, q as usize, out, a);
    put(out, b, b'\n')
}

// Writes the proctype of a process.
fn put_owner(t: &[u32], s: &[i32], process: u8, out: &mut [u8], p: usize) -> usize
    ensures { pen out.new result ≡ puts (steps.title_at t.now s.now process) (pen out.old p) }
{
    show_words::put_title(t, state_layout::unit_of(s, process) as usize, out, p)
}

// Writes an offered step: its process, its number, its proctype and its statement.
pub fn put_offer(t: &[u32], s: &[i32], x: Step, out: &mut [u8], p: usize) -> usize
    ensures { pen out.new result ≡ puts (steps.offer_in t.now s.now x) (pen out.old p) }
{
    let process = x.process;
    let number = x.number;
    let place = x.place;
    let a = put_field(process as usize, out, p);
    let b = put_field(number as usize, out, a);
    let c = put_owner(t, s, process, out, b);
    put_last(t, place, out, c)
}

// Writes what line i of a trail asks for: the k-th step of a process.
fn put_row(i: usize, process: u32, k: u32, out: &mut [u8], p: usize) -> usize
    ensures { pen out.new result ≡ puts (steps.row_in i process k) (pen out.old p) }
{
    let a = put_field(i, out, p);
    let b = put_field(process as usize, out, a);
    put_field(k as usize, out, b)
}

// Writes a step of a trail: what its line asks for, its proctype, where its statement stands in the normal text, which has `whole` bytes, and the statement.
pub fn put_step(
    t: &[u32],
    s: &[i32],
    whole: usize,
    i: usize,
    x: Step,
    out: &mut [u8],
    p: usize,
) -> usize
    ensures { pen out.new result ≡ puts (steps.step_in t.now s.now whole i x) (pen out.old p) }
{
    let process = x.process;
    let number = x.number;
    let place = x.place;
    let a = put_row(i, process as u32, number, out, p);
    let b = put_owner(t, s, process, out, a);
    let c = put(out, b, b'\t');
    let stands = base_bytes::minus(whole, show_statement::length_from(t, place as usize));
    let d = put_count(stands, out, c);
    put_last(t, place, out, d)
}

// Writes what a step printed, if anything.
fn put_printed(text: &[u8], out: &mut [u8], p: usize) -> usize
    ensures { pen out.new result ≡ puts (printed_text text.now) (pen out.old p) }
{
    if text.len() == 0 {
        return p;
    }
    let a = put_all(b"\tprinted ", out, p);
    let b = show_printed::put_escapes(text, out, a);
    put(out, b, b'\n')
}

// Writes why a step failed.
fn put_fault(f: Fault, out: &mut [u8], p: usize) -> usize
    ensures { pen out.new result ≡ puts (fault_text f) (pen out.old p) }
{
    match f {
        Fault::Divide => put_all(b"\tfault: a divisor is 0\n", out, p),
        Fault::Shift => put_all(b"\tfault: a shift is outside 0 to 31\n", out, p),
        Fault::Index => put_all(b"\tfault: an index is out of range\n", out, p),
        Fault::Channel => put_all(b"\tfault: the channel was never made\n", out, p),
        Fault::Fields => put_all(
            b"\tfault: the channel has another number of fields\n",
            out,
            p,
        ),
    }
}

// Writes what came of a step that led from one state to another.
pub fn put_outcome(
    t: &[u32],
    before: &[i32],
    after: &[i32],
    x: Step,
    printed: &[u8],
    r: Taken,
    out: &mut [u8],
    p: usize,
) -> usize
    ensures { pen out.new result ≡ puts (steps.outcome_in t.now before.now after.now x printed.now r) (pen out.old p) }
{
    match r {
        Taken::Done => {
            let a = show_deeds::put_deeds(t, before, after, x.process, x.place, out, p);
            put_printed(printed, out, a)
        }
        Taken::Refuted => put_all(b"\tassert: the assertion is 0\n", out, p),
        Taken::Faulted(f) => put_fault(f, out, p),
        Taken::Idle => p,
    }
}

// What came of a step that was taken and told, and where the pen stands then.
#[derive(Drop)]
pub struct Told {
    pub taken: Taken,
    pub end: usize,
}

// Keeps the numbers of a state.
fn keep(s: &[i32], kept: &mut [i32])
    ensures { kept.new ≡ steps.padded (length kept.old) s.now }
{
    for i in 0..kept.len() {
        state_layout::put(kept, i, state_layout::cell(s, i));
    }
}

// Takes a step that line i of a trail asks for, and writes it and what came of it.
pub fn put_taken(
    t: &[u32],
    s: &mut [i32],
    whole: usize,
    i: usize,
    x: Step,
    out: &mut [u8],
    p: usize,
) -> Told
    ensures s_after { (result.taken, s.new) ≡ machine.advance (machine_in t.now) s.old x }
    ensures end_after { pen out.new result.end ≡ puts (steps.taken_in t.now s.old s.new whole i x result.taken) (pen out.old p) }
{
    let a = put_step(t, s, whole, i, x, out, p);
    let mut before = [0i32; base_ceilings::STATE_ROOM];
    keep(s, &mut before);
    let mut printed = [0u8; base_ceilings::PRINT_ROOM];
    let n = step_prints::print_at(t, s, x.process, x.place, &mut printed);
    let taken = step_all::advance(t, s, x);
    let end = put_outcome(
        t,
        &before,
        s,
        x,
        base_bytes::part(&printed, 0, n),
        taken,
        out,
        a,
    );
    Told { taken, end }
}

// Writes a record that is not offered.
pub fn put_not_offered(i: usize, process: u32, k: u32, out: &mut [u8], p: usize) -> usize
    ensures { pen out.new result ≡ puts (steps.row_in i process k ++ bytes "not offered\n") (pen out.old p) }
{
    let a = put_row(i, process, k, out, p);
    put_all(b"not offered\n", out, a)
}

// Writes a step, if it is one of the process.
fn put_other(t: &[u32], process: u32, x: Step, out: &mut [u8], p: usize) -> usize
    ensures { pen out.new result ≡ puts (steps.other_in t.now process x) (pen out.old p) }
{
    if x.process as u32 != process {
        return p;
    }
    let number = x.number;
    let place = x.place;
    let a = put_all(b"    ", out, p);
    let b = put_count(number as usize, out, a);
    put_last(t, place, out, b)
}

// Writes the steps that a process is offered.
fn put_others(t: &[u32], s: &[i32], process: u32, out: &mut [u8], p: usize) -> usize
    ensures { pen out.new result ≡ puts (steps.others_in t.now process (steps.listed_in t.now s.now)) (pen out.old p) }
{
    let mut q = p;
    for n in 0..LISTED_MOST {
        let o = step_all::nth(t, s, n);
        match o {
            Offer::Step(x) => {
                q = put_other(t, process, x, out, q);
            }
            Offer::Beyond(_) => {
                return q;
            }
        }
    }
    q
}

// Is a step of the process among them?
fn is_any(t: &[u32], s: &[i32], process: u32) -> bool
    ensures { result ≡ steps.any_of process (steps.listed_in t.now s.now) }
{
    for n in 0..LISTED_MOST {
        let o = step_all::nth(t, s, n);
        match o {
            Offer::Step(x) => {
                if x.process as u32 == process {
                    return true;
                }
            }
            Offer::Beyond(_) => {
                return false;
            }
        }
    }
    false
}

// How many processes there are.
fn count(s: &[i32]) -> u32
    ensures { result ≡ processes s.now }
{
    base_bytes::least(
        state_layout::processes(s) as usize,
        base_ceilings::PROCESSES_MOST,
    ) as u32
}

// Writes that there is nothing, where there is not.
fn put_none(any: bool, out: &mut [u8], p: usize) -> usize
    ensures { pen out.new result ≡ puts (steps.none_by any) (pen out.old p) }
{
    if any {
        return p;
    }
    put_all(b"    nothing\n", out, p)
}

// Writes that there is no such process.
fn put_nobody(process: u32, out: &mut [u8], p: usize) -> usize
    ensures { pen out.new result ≡ puts (bytes "  there is no process " ++ (digits_of process ++ 10 ∷ [])) (pen out.old p) }
{
    let a = put_all(b"  there is no process ", out, p);
    let b = put_count(process as usize, out, a);
    put(out, b, b'\n')
}

// Writes what a process was offered.
pub fn put_instead(t: &[u32], s: &[i32], process: u32, out: &mut [u8], p: usize) -> usize
    ensures { pen out.new result ≡ puts (steps.instead_in t.now s.now process) (pen out.old p) }
{
    if count(s) <= process {
        return put_nobody(process, out, p);
    }
    let a = put_all(b"  process ", out, p);
    let b = put_count(process as usize, out, a);
    let c = put_all(b" was offered instead:\n", out, b);
    let d = put_others(t, s, process, out, c);
    put_none(is_any(t, s, process), out, d)
}

// Writes where a process stands, at place q.
fn put_standing(t: &[u32], q: u32, out: &mut [u8], p: usize) -> usize
    ensures { pen out.new result ≡ puts (steps.standing_in t.now q) (pen out.old p) }
{
    if table_layout::code(t, q as usize) == base_codes::END_BODY {
        return put_all(b" ended", out, p);
    }
    let a = put_all(b" at ", out, p);
    show_statement::put_seen(t, q as usize, out, a)
}

// Writes a process: its number, its proctype, where it stands, and its variables.
pub fn put_process(t: &[u32], s: &[i32], process: u8, out: &mut [u8], p: usize) -> usize
    ensures { pen out.new result ≡ puts (steps.process_in t.now s.now process) (pen out.old p) }
{
    let a = put_all(b"process ", out, p);
    let b = put_count(process as usize, out, a);
    let c = put(out, b, b' ');
    let d = put_owner(t, s, process, out, c);
    let e = put_standing(t, state_layout::place_of(s, process), out, d);
    let f = put(out, e, b'\n');
    show_state::put_locals(t, s, process, out, f)
}
