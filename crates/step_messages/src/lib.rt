// Arguments worked out, and messages put into and taken out of channels. No function asks anything of its caller.
#![tactic(auto)]

ghost use Rattle.std.specs.Prelude.{◌≡◌, ◌+◌, ◌-◌, ◌<◌, ◌*◌, get_or, set, pos};
ghost use Rattle.base_ceilings.specs.Ceilings.{capacity_most, fields_most, numbers_most};
ghost use Rattle.state_layout.specs.Walks.{walk};
ghost use Rattle.base_values.specs.Types.{cast_of};
ghost use Rattle.state_layout.specs.Layout as layout;
ghost use Rattle.step_messages.specs.Messages as messages;

use base_values::Fault;

// The fields of a message.
const FIELDS_MOST: u32 = base_ceilings::FIELDS_MOST as u32;

// The last message of a full channel.
const LAST: u32 = base_ceilings::CAPACITY_MOST as u32 - 1;

// The type of field f of the channels that item d declares.
pub fn field_type(t: &[u32], d: u32, f: u32) -> u8
    ensures { result ≡ messages.field_type t.now d f }
{
    let c = table_layout::code(t, d as usize + 1 + 2 * f as usize);
    if c < 130 { 0 } else { c - 130 }
}

// The values of the arguments from item a on, into `values`.
pub fn gather(t: &[u32], s: &[i32], p: u8, a: usize, values: &mut [i32]) -> Result<usize, Fault>
    ensures value { result ≡ messages.gather_end t.now s.now p numbers_most a }
    ensures values_after { values.new ≡ messages.gather_list t.now s.now p numbers_most a 0 values.old }
{
    let mut j = a;
    for k in 0..base_ceilings::NUMBERS_MOST {
        if table_layout::code(t, j) == base_codes::END {
            return Ok(j);
        }
        let m = table_layout::link(t, j);
        let v = step_eval::eval(t, s, p, j, m)?;
        state_layout::put(values, k, v);
        j = m + 1;
    }
    Ok(j)
}

// Where the received argument from item a to before its mark m is stored.
fn aim_at(t: &[u32], s: &[i32], p: u8, a: usize, m: usize) -> Result<usize, Fault>
    ensures { result ≡ messages.aim_of t.now s.now p a m }
{
    if step_ready::is_compared(t, m) {
        Ok(0)
    } else {
        step_eval::locate(t, s, p, a, m)
    }
}

// A place noted at k, if k is there.
fn note(places: &mut [usize], k: usize, i: usize)
    ensures { places.new ≡ set places.old k i }
{
    if k < places.len() {
        places[k] = i;
    }
}

// Where each of the received arguments from item a on is stored, into `places`.
pub fn aim(t: &[u32], s: &[i32], p: u8, a: usize, places: &mut [usize]) -> Result<usize, Fault>
    ensures value { result ≡ messages.aim_end t.now s.now p fields_most a }
    ensures places_after { places.new ≡ messages.aim_list t.now s.now p fields_most a 0 places.old }
{
    let mut j = a;
    for k in 0..base_ceilings::FIELDS_MOST {
        if table_layout::code(t, j) == base_codes::END {
            return Ok(j);
        }
        let m = table_layout::link(t, j);
        let i = aim_at(t, s, p, j, m)?;
        note(places, k, i);
        j = m + 1;
    }
    Ok(j)
}

// The field f of message w of channel c, with a value cast to its type.
fn put_field(t: &[u32], s: &mut [i32], d: u32, c: u32, w: u32, f: u32, v: i32)
    ensures { s.new ≡ set s.old (layout.field_at c w f) (cast_of (messages.field_type t.now d f) v) }
{
    state_layout::put(
        s,
        state_layout::field_at(c, w, f),
        base_values::cast(field_type(t, d, f), v),
    );
}

// One more message in channel c, of the values, behind the w that it holds.
pub fn put(t: &[u32], s: &mut [i32], c: u32, w: u32, values: &[i32])
    ensures { s.new ≡ messages.put_in t.now c w values.now s.old }
{
    let d = state_layout::declared_of(s, c);
    let n = step_ready::fields(t, d);
    for f in 0..n {
        put_field(t, s, d, c, w, f, state_layout::cell(values, f as usize));
    }
    state_layout::put_count(s, state_layout::channel_at(c) + 1, w as usize + 1);
}

// The number at `from` goes to `to`.
fn copy_cell(s: &mut [i32], to: usize, from: usize)
    ensures { s.new ≡ set s.old to (layout.cell_of s.old from) }
{
    let v = state_layout::cell(s, from);
    state_layout::put(s, to, v);
}

// How many numbers stand behind message w of a full channel.
fn behind(w: u32) -> u32
    ensures { result ≡ fields_most * (capacity_most - 1 - w) }
{
    if w < LAST {
        FIELDS_MOST * (LAST - w)
    } else {
        0
    }
}

// The messages of channel c behind message w move up.
fn move_up(s: &mut [i32], c: u32, w: u32)
    ensures { s.new ≡ walk (λ i x. set x (layout.field_at c w i) (layout.cell_of x (layout.field_at c (w + 1) i))) 0 (fields_most * (capacity_most - 1 - w)) s.old }
{
    let n = behind(w);
    for i in 0..n {
        copy_cell(
            s,
            state_layout::field_at(c, w, i),
            state_layout::field_at(c, w + 1, i),
        );
    }
}

// The place of its last message is cleared.
fn clear_last(s: &mut [i32], c: u32)
    ensures { s.new ≡ walk (λ i x. set x (layout.field_at c (capacity_most - 1) i) (pos 0)) 0 fields_most s.old }
{
    for i in 0..FIELDS_MOST {
        state_layout::put(s, state_layout::field_at(c, LAST, i), 0);
    }
}

// Message w of channel c goes.
pub fn take(s: &mut [i32], c: u32, w: u32)
    ensures { s.new ≡ messages.taken_out c w s.old }
{
    let n = state_layout::waiting_of(s, c);
    move_up(s, c, w);
    clear_last(s, c);
    state_layout::put_count(
        s,
        state_layout::channel_at(c) + 1,
        step_eval::minus_one(n as usize),
    );
}

// The number at a place, 0 where there is none.
fn place_at(places: &[usize], k: usize) -> usize
    ensures { result ≡ get_or places.now k 0 }
{
    if k < places.len() { places[k] } else { 0 }
}

fn deliver_one(t: &[u32], s: &mut [i32], m: usize, k: usize, places: &[usize], values: &[i32])
    ensures { s.new ≡ messages.delivered_one t.now m k places.now values.now s.old }
{
    if !step_ready::is_compared(t, m) {
        let l = step_eval::variable(t, step_eval::minus_one(m));
        let v = base_values::cast(step_eval::type_of(l), state_layout::cell(values, k));
        state_layout::put(s, place_at(places, k), v);
    }
}

// The values go where the received arguments from item a on are stored.
pub fn deliver(t: &[u32], s: &mut [i32], a: usize, places: &[usize], values: &[i32])
    ensures { s.new ≡ messages.delivered t.now fields_most a 0 places.now values.now s.old }
{
    let mut j = a;
    for k in 0..base_ceilings::FIELDS_MOST {
        if table_layout::code(t, j) == base_codes::END {
            return;
        }
        let m = table_layout::link(t, j);
        deliver_one(t, s, m, k, places, values);
        j = m + 1;
    }
}
