// Which statements are executable, in a state, for a process. No function that is lent asks anything of its caller.
#![tactic(auto)]

ghost use Rattle.std.specs.Prelude.{◌≡◌, ◌+◌, ◌<◌, ◌≤◌, eqb};
ghost use Rattle.base_ceilings.specs.Ceilings.{fields_most, items_most};
ghost use Rattle.base_codes.specs.Codes.{c_channel};
ghost use Rattle.base_bytes.specs.Choice.{pick};
ghost use Rattle.table_layout.specs.Access.{code_of};
ghost use Rattle.base_values.specs.Operators.{equal_by};
ghost use Rattle.step_ready.specs.declared.Found.TheVariants.{Nothing};
ghost use Rattle.step_ready.specs.Channels as channels;
ghost use Rattle.step_ready.specs.Executing as executing;

use base_values::Fault;

// The most fields of a message, processes and channels.
const FIELDS_MOST: u32 = base_ceilings::FIELDS_MOST as u32;

const PROCESSES_MOST: u32 = base_ceilings::PROCESSES_MOST as u32;

const CHANNELS_MOST: u32 = base_ceilings::CHANNELS_MOST as u32;

// One argument more than a message has.
const TOO_MANY: u32 = FIELDS_MOST + 1;

// The number of the message that a receive can take, or none, or the fault of its test.
#[derive(Clone, Copy)]
pub enum Found {
    Message(u32),
    Nothing,
    Spoilt(Fault),
}

// How many messages the channel that item d declares can hold.
pub fn capacity(t: &[u32], d: u32) -> usize
    ensures { result ≡ channels.capacity_of t.now d }
{
    table_layout::number(t, step_eval::minus_one(d as usize))
}

// How many fields they have.
pub fn fields(t: &[u32], d: u32) -> u32
    ensures value { result ≡ channels.fields_of t.now d }
    ensures upper_bound { result ≤ fields_most }
{
    if table_layout::code(t, d as usize + 2) == base_codes::FIELD {
        if table_layout::code(t, d as usize + 4) == base_codes::FIELD {
            if table_layout::code(t, d as usize + 6) == base_codes::FIELD {
                if table_layout::code(t, d as usize + 8) == base_codes::FIELD {
                    return 4;
                }
                return 3;
            }
            return 2;
        }
        return 1;
    }
    0
}

// How many arguments there are from item a on, as far as they are too many for a message.
pub fn arguments(t: &[u32], a: usize) -> u32
    ensures { result ≡ channels.arguments_of t.now a }
{
    let mut j = a;
    for n in 0..TOO_MANY {
        if table_layout::code(t, j) == base_codes::END {
            return n;
        }
        j = table_layout::link(t, j) + 1;
    }
    TOO_MANY
}

// Is the received argument with the mark m compared, not stored?
pub fn is_compared(t: &[u32], m: usize) -> bool
    ensures { result ≡ channels.compared_at t.now m }
{
    if table_layout::code(t, m) == base_codes::INTO {
        table_layout::code(t, table_layout::link(t, step_eval::minus_one(m))) == base_codes::MESSAGE
    } else {
        true
    }
}

fn equal(x: Result<i32, Fault>, w: i32) -> Result<i32, Fault>
    ensures { result ≡ equal_by x w }
{
    Ok((x? == w) as i32)
}

// The channel that the reference from `from` to before `to` means.
pub fn reached(t: &[u32], s: &[i32], p: u8, from: usize, to: usize) -> Result<u32, Fault>
    ensures { result ≡ channels.reached_of t.now s.now p from to }
{
    step_eval::channel(s, step_eval::load(s, step_eval::locate(t, s, p, from, to)))
}

// The channel, if it has n fields.
pub fn addressed(t: &[u32], s: &[i32], c: Result<u32, Fault>, n: u32) -> Result<u32, Fault>
    ensures { result ≡ channels.addressed_of t.now s.now c n }
{
    let k = c?;
    if fields(t, state_layout::declared_of(s, k)) == n {
        Ok(k)
    } else {
        Err(Fault::Fields)
    }
}

// Does an argument agree with field f of message w in channel c?
fn agrees(
    t: &[u32],
    s: &[i32],
    p: u8,
    c: u32,
    w: u32,
    a: usize,
    m: usize,
    f: u32,
) -> Result<i32, Fault>
    ensures { result ≡ channels.agrees_of t.now s.now p c w a m f }
{
    if is_compared(t, m) {
        equal(
            step_eval::eval(t, s, p, a, m),
            state_layout::field_of(s, c, w, f),
        )
    } else {
        Ok(1)
    }
}

// Do the arguments from a on agree with message w in channel c?
fn matches(t: &[u32], s: &[i32], p: u8, c: u32, w: u32, a: usize) -> Result<i32, Fault>
    ensures { result ≡ channels.matches_of t.now s.now p c w a }
{
    let mut j = a;
    for f in 0..FIELDS_MOST {
        if table_layout::code(t, j) == base_codes::END {
            return Ok(1);
        }
        let m = table_layout::link(t, j);
        let x = agrees(t, s, p, c, w, j, m, f);
        if !step_eval::holds(x) {
            return x;
        }
        j = m + 1;
    }
    Ok(1)
}

// What the test of message w says.
fn found_by(w: u32, x: Result<i32, Fault>) -> Found
    ensures { result ≡ channels.found_by w x Nothing }
{
    if step_eval::holds(x) {
        return Found::Message(w);
    }
    match x {
        Ok(_) => Found::Nothing,
        Err(f) => Found::Spoilt(f),
    }
}

fn finds(x: Found) -> bool
    ensures { result ≡ channels.finds x }
{
    match x {
        Found::Message(_) => true,
        Found::Nothing => false,
        Found::Spoilt(_) => true,
    }
}

// The first of n messages in channel c with which the arguments from a on agree.
pub fn find(t: &[u32], s: &[i32], p: u8, c: u32, a: usize, n: u32) -> Found
    ensures { result ≡ channels.found_from t.now s.now p n c 0 a }
{
    for w in 0..n {
        let x = found_by(w, matches(t, s, p, c, w, a));
        if finds(x) {
            return x;
        }
    }
    Found::Nothing
}

// How many messages a receive tries: the oldest alone, where there is one.
pub fn tried(s: &[i32], c: u32) -> u32
    ensures { result ≡ channels.tried_of s.now c }
{
    if state_layout::waiting_of(s, c) == 0 {
        return 0;
    }
    1
}

fn passes(x: Result<i32, Fault>) -> bool
    ensures { result ≡ executing.passes x }
{
    if step_eval::is_fault(x) {
        true
    } else {
        step_eval::holds(x)
    }
}

// Is an item at a place its own mark?
fn is_own_mark(c: u8) -> bool
    ensures { result ≡ executing.is_own_mark c }
{
    base_bytes::either(base_codes::is_alone(c), c == base_codes::END_BODY)
}

fn is_always(c: u8) -> bool
    ensures { result ≡ executing.is_always c }
{
    match c {
        base_codes::TEXT => true,
        base_codes::TARGET => true,
        base_codes::INCREMENT => true,
        base_codes::DECREMENT => true,
        base_codes::ASSERT => true,
        base_codes::SKIP => true,
        base_codes::GOTO => true,
        base_codes::BREAK => true,
        _ => false,
    }
}

// The mark of the statement at place q.
pub fn mark(t: &[u32], q: u32) -> usize
    ensures value { result ≡ executing.mark_of t.now q }
    ensures upper_bound { result < 4294967296 }
{
    if is_own_mark(table_layout::code(t, q as usize)) {
        q as usize
    } else {
        table_layout::link(t, q as usize)
    }
}

// 1 for an item that makes a channel.
fn makes(t: &[u32], j: usize) -> u32
    ensures value { result ≡ pick (eqb (code_of t.now j) c_channel) 1 0 }
    ensures upper_bound { result ≤ 1 }
{
    if table_layout::code(t, j) == base_codes::CHANNEL {
        1
    } else {
        0
    }
}

// How many channels a process of the unit that item u begins makes.
fn channels_in(t: &[u32], u: u32) -> u32
    ensures value { result ≡ executing.channels_in t.now u }
    ensures upper_bound { result ≤ items_most }
{
    let n = state_start::unit_length(t, u);
    let mut c: u32 = 0;
    for k in 0..n {
        c += makes(t, u as usize + k as usize);
    }
    c
}

// Do one more process of the unit that item u begins and its channels fit?
pub fn has_room(t: &[u32], s: &[i32], u: u32) -> bool
    ensures { result ≡ executing.fits_of t.now s.now u }
{
    if state_layout::processes(s) < PROCESSES_MOST {
        state_layout::channels(s) + channels_in(t, u) <= CHANNELS_MOST
    } else {
        false
    }
}

// Is the channel not full?
pub fn can_send(t: &[u32], s: &[i32], c: Result<u32, Fault>) -> bool
    ensures { result ≡ executing.sendable t.now s.now c }
{
    match c {
        Ok(k) => {
            (state_layout::waiting_of(s, k) as usize) < capacity(t, state_layout::declared_of(s, k))
        }
        Err(_) => true,
    }
}

// Is it not empty, and does a message that is tried agree with the arguments from item a on?
pub fn can_receive(t: &[u32], s: &[i32], p: u8, a: usize, c: Result<u32, Fault>) -> bool
    ensures { result ≡ executing.receivable t.now s.now p a c }
{
    match c {
        Ok(k) => finds(find(t, s, p, k, a, tried(s, k))),
        Err(_) => true,
    }
}

// The channel of the send or receive at place q with the mark m.
pub fn message(t: &[u32], s: &[i32], p: u8, q: usize, m: u32) -> Result<u32, Fault>
    ensures { result ≡ executing.message_of t.now s.now p q m }
{
    addressed(
        t,
        s,
        reached(t, s, p, q, m as usize),
        arguments(t, m as usize + 1),
    )
}

fn ready_by(t: &[u32], s: &[i32], p: u8, late: bool, q: usize, m: usize) -> bool
    requires { m < 4294967296 }
    ensures { result ≡ executing.ready_by t.now s.now p late q m }
{
    let c = table_layout::code(t, m);
    match c {
        base_codes::EXPRESS => passes(step_eval::eval(t, s, p, q, m)),
        base_codes::SEND => can_send(t, s, message(t, s, p, q, m as u32)),
        base_codes::RECEIVE => can_receive(t, s, p, m + 1, message(t, s, p, q, m as u32)),
        base_codes::TIMEOUT => late,
        base_codes::RUN => has_room(t, s, table_layout::link(t, m) as u32),
        _ => is_always(c),
    }
}

// Is the statement at place q executable? `late` says whether `timeout` is; `else`, `if` and `do` are judged elsewhere.
pub fn ready(t: &[u32], s: &[i32], p: u8, late: bool, q: u32) -> bool
    ensures { result ≡ executing.ready_of t.now s.now p late q }
{
    ready_by(t, s, p, late, q as usize, mark(t, q))
}
