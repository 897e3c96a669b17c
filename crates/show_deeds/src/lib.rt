// What a step did, a line for each deed: what it stored, sent, received and started, read from the tables of the model and the numbers of the states before and after it.
#![tactic(auto)]

ghost use Rattle.std.specs.Prelude.{◌≡◌};
ghost use Rattle.base_pens.specs.Pen.{pen, puts};
ghost use Rattle.show_deeds.specs.Deeds as deeds;

use text_pens::{put, put_all};

// Writes the index n in brackets, if item r ends a reference that has one.
fn put_index(t: &[u32], r: usize, n: usize, out: &mut [u8], pos: usize) -> usize
    ensures { pen out.new result ≡ puts (deeds.index_in t.now r n) (pen out.old pos) }
{
    if table_layout::code(t, r) == base_codes::INDEX {
        let a = put(out, pos, b'[');
        let b = show_words::put_count(n, out, a);
        return put(out, b, b']');
    }
    pos
}

// Writes what was stored at place i of the state by the reference from `from` to before its mark m.
fn put_store(
    t: &[u32],
    after: &[i32],
    p: u8,
    from: usize,
    m: u32,
    i: usize,
    out: &mut [u8],
    pos: usize,
) -> usize
    ensures { pen out.new result ≡ puts (deeds.store_in t.now after.now p from m i) (pen out.old pos) }
{
    let e = step_eval::minus_one(m as usize);
    let k = base_bytes::minus(i, step_eval::slot(step_eval::variable(t, e), p, 0));
    let a = put_all(b"\tstored ", out, pos);
    let b = write_letters::put_name(t, from, out, a);
    let c = put_index(t, e, k, out, b);
    let d = put(out, c, b' ');
    let f = show_words::put_value(state_layout::cell(after, i), out, d);
    put(out, f, b'\n')
}

// Writes what was stored by the reference from `from` to before its mark m.
fn put_stored(
    t: &[u32],
    before: &[i32],
    after: &[i32],
    p: u8,
    from: usize,
    m: u32,
    out: &mut [u8],
    pos: usize,
) -> usize
    ensures { pen out.new result ≡ puts (deeds.stored_in t.now before.now after.now p from m) (pen out.old pos) }
{
    let x = step_eval::locate(t, before, p, from, m as usize);
    match x {
        Ok(i) => put_store(t, after, p, from, m, i, out, pos),
        Err(_) => pos,
    }
}

// Writes what was stored by the received argument from item a to before its mark m; one that is compared stores nothing.
fn put_target(
    t: &[u32],
    before: &[i32],
    after: &[i32],
    p: u8,
    a: usize,
    m: u32,
    out: &mut [u8],
    pos: usize,
) -> usize
    ensures { pen out.new result ≡ puts (deeds.target_in t.now before.now after.now p a m) (pen out.old pos) }
{
    if step_ready::is_compared(t, m as usize) {
        return pos;
    }
    put_stored(t, before, after, p, a, m, out, pos)
}

// Writes what was stored by at most n received arguments from item a on.
fn put_targets(
    t: &[u32],
    before: &[i32],
    after: &[i32],
    p: u8,
    n: usize,
    a: usize,
    out: &mut [u8],
    pos: usize,
) -> usize
    ensures { pen out.new result ≡ puts (deeds.targets_in t.now before.now after.now p n a) (pen out.old pos) }
{
    if n == 0 {
        return pos;
    }
    if table_layout::code(t, a) == base_codes::END {
        return pos;
    }
    let m = table_layout::link(t, a);
    let q = put_target(t, before, after, p, a, m as u32, out, pos);
    put_targets(t, before, after, p, n - 1, m + 1, out, q)
}

// Writes the number of channel c and its message k, both from 0.
fn put_passed(t: &[u32], s: &[i32], c: u32, k: u32, out: &mut [u8], pos: usize) -> usize
    ensures { pen out.new result ≡ puts (deeds.passed_in t.now s.now c k) (pen out.old pos) }
{
    let n = step_ready::fields(t, state_layout::declared_of(s, c));
    let a = show_words::put_count(c as usize + 1, out, pos);
    let b = show_words::put_message(s, c, k, n, out, a);
    put(out, b, b'\n')
}

// Writes the message that the send at place q with the mark m sent: the last of those that wait.
fn put_sent(
    t: &[u32],
    before: &[i32],
    after: &[i32],
    p: u8,
    q: usize,
    m: u32,
    out: &mut [u8],
    pos: usize,
) -> usize
    ensures { pen out.new result ≡ puts (deeds.sent_in t.now before.now after.now p q m) (pen out.old pos) }
{
    let x = step_ready::message(t, before, p, q, m);
    match x {
        Ok(c) => {
            let a = put_all(b"\tsent ", out, pos);
            put_passed(t, after, c, state_layout::waiting_of(before, c), out, a)
        }
        Err(_) => pos,
    }
}

// Writes the message that the receive at place q with the mark m took, the oldest that waited, and what its fields were stored in.
fn put_received(
    t: &[u32],
    before: &[i32],
    after: &[i32],
    p: u8,
    q: usize,
    m: u32,
    out: &mut [u8],
    pos: usize,
) -> usize
    ensures { pen out.new result ≡ puts (deeds.received_in t.now before.now after.now p q m) (pen out.old pos) }
{
    let x = step_ready::message(t, before, p, q, m);
    match x {
        Ok(c) => {
            let a = put_all(b"\treceived ", out, pos);
            let b = put_passed(t, before, c, 0, out, a);
            put_targets(
                t,
                before,
                after,
                p,
                base_ceilings::FIELDS_MOST,
                m as usize + 1,
                out,
                b,
            )
        }
        Err(_) => pos,
    }
}

// Writes the process that the run with the mark m started, if there was room for it; the name before the mark is that of its proctype.
fn put_started(t: &[u32], before: &[i32], m: usize, out: &mut [u8], pos: usize) -> usize
    ensures { pen out.new result ≡ puts (deeds.started_in t.now before.now m) (pen out.old pos) }
{
    if step_ready::has_room(t, before, table_layout::link(t, m) as u32) {
        let a = put_all(b"\tstarted ", out, pos);
        let b = show_words::put_count(state_layout::processes(before) as usize, out, a);
        let c = put(out, b, b' ');
        let d = write_letters::put_name(t, step_eval::minus_one(m), out, c);
        return put(out, d, b'\n');
    }
    pos
}

// Writes what an assignment stored; `v = run` may have started a process too.
fn put_assigned(
    t: &[u32],
    before: &[i32],
    after: &[i32],
    p: u8,
    q: usize,
    m: u32,
    out: &mut [u8],
    pos: usize,
) -> usize
    ensures { pen out.new result ≡ puts (deeds.assigned_in t.now before.now after.now p q m) (pen out.old pos) }
{
    let a = put_stored(t, before, after, p, q, m, out, pos);
    let e = table_layout::link(t, m as usize);
    if table_layout::code(t, e) == base_codes::SET_RUN {
        return put_started(t, before, e, out, a);
    }
    a
}

// Writes what the step of process p at place q did, which led from the one state to the other.
pub fn put_deeds(
    t: &[u32],
    before: &[i32],
    after: &[i32],
    p: u8,
    q: u32,
    out: &mut [u8],
    pos: usize,
) -> usize
    ensures { pen out.new result ≡ puts (deeds.deeds_in t.now before.now after.now p q) (pen out.old pos) }
{
    let m = step_ready::mark(t, q);
    match table_layout::code(t, m) {
        base_codes::TARGET => put_assigned(t, before, after, p, q as usize, m as u32, out, pos),
        base_codes::INCREMENT => put_stored(t, before, after, p, q as usize, m as u32, out, pos),
        base_codes::DECREMENT => put_stored(t, before, after, p, q as usize, m as u32, out, pos),
        base_codes::SEND => put_sent(t, before, after, p, q as usize, m as u32, out, pos),
        base_codes::RECEIVE => put_received(t, before, after, p, q as usize, m as u32, out, pos),
        base_codes::RUN => put_started(t, before, m, out, pos),
        _ => pos,
    }
}
