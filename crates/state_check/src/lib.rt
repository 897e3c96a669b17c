// Are numbers a state of a model? Units, places and channels are looked up in the tables, values are held to their types; then what is in use is written on zeros and
// compared, so that nothing stands where nothing is in use. The public function asks nothing of its caller.
#![tactic(auto)]

ghost use Rattle.std.specs.Prelude.{◌≡◌, ◌<◌};
ghost use Rattle.state_types.specs.Fits as fits;
ghost use Rattle.state_check.specs.Standing as standing;

use base_bytes::{both, either};
use base_codes::within;

fn counts_from(s: &[i32], a: usize, b: usize, i: usize) -> bool
    requires { i < 1099511627776 }
    ensures { result ≡ fits.counts_from s.now a b i }
{
    both(
        state_types::counts_at(s, a, i),
        state_types::counts_at(s, b, i + 1),
    )
}

// The last item of the model.
fn items_last(t: &[u32]) -> usize
    ensures { result ≡ standing.items_last t.now }
{
    base_bytes::least(
        state_layout::KEPT_MOST,
        step_eval::minus_one(table_layout::items(t)),
    )
}

// Does a statement have its place at item q?
fn is_place(t: &[u32], q: u32) -> bool
    ensures { result ≡ standing.place_at t.now q }
{
    let c = table_layout::code(t, q as usize);
    if base_codes::is_alone(c) {
        return true;
    }
    if base_codes::is_part(c) {
        both(
            link_places::is_mark(table_layout::code(t, step_eval::minus_one(q as usize))),
            base_codes::is_lead(table_layout::code(t, table_layout::link(t, q as usize))),
        )
    } else {
        false
    }
}

// Does the place q belong to the unit that item u begins?
fn belongs(t: &[u32], u: u32, q: u32) -> bool
    ensures { result ≡ standing.belongs t.now u q }
{
    let e = table_layout::link(t, u as usize);
    either(
        q as usize == e,
        both(both(u < q, (q as usize) < e), is_place(t, q)),
    )
}

fn is_process(t: &[u32], s: &[i32], p: u8) -> bool
    ensures { result ≡ standing.is_process t.now s.now p }
{
    let u = state_layout::unit_of(s, p);
    both(
        within(
            base_codes::PROCTYPE,
            base_codes::INIT,
            table_layout::code(t, u as usize),
        ),
        both(
            belongs(t, u, state_layout::place_of(s, p)),
            state_types::locals_fit(t, s, p, u),
        ),
    )
}

fn process_sound(t: &[u32], s: &[i32], p: u8) -> bool
    ensures { result ≡ standing.process_sound t.now s.now p }
{
    let e = items_last(t);
    both(
        counts_from(s, e, e, state_layout::process_at(p)),
        is_process(t, s, p),
    )
}

fn processes_sound(t: &[u32], s: &[i32], n: u8) -> bool
    ensures { result ≡ fits.every (standing.process_sound t.now s.now) 0 n }
{
    for p in 0..n {
        if !process_sound(t, s, p) {
            return false;
        }
    }
    true
}

fn is_channel(t: &[u32], s: &[i32], c: u32) -> bool
    ensures { result ≡ standing.is_channel t.now s.now c }
{
    let d = state_layout::declared_of(s, c);
    let n = state_layout::waiting_of(s, c) as usize;
    both(
        both(
            table_layout::code(t, d as usize) == base_codes::CHANNEL,
            n <= step_ready::capacity(t, d),
        ),
        state_types::messages_fit(
            t,
            s,
            c,
            d,
            base_bytes::least(base_ceilings::CAPACITY_MOST, n) as u32,
        ),
    )
}

fn channel_sound(t: &[u32], s: &[i32], c: u32) -> bool
    ensures { result ≡ standing.channel_sound t.now s.now c }
{
    let e = items_last(t);
    both(
        counts_from(
            s,
            e,
            base_ceilings::CAPACITY_MOST,
            state_layout::channel_at(c),
        ),
        is_channel(t, s, c),
    )
}

fn channels_sound(t: &[u32], s: &[i32], n: u32) -> bool
    ensures { result ≡ fits.every (standing.channel_sound t.now s.now) 0 n }
{
    for c in 0..n {
        if !channel_sound(t, s, c) {
            return false;
        }
    }
    true
}

fn sound(t: &[u32], s: &[i32]) -> bool
    ensures { result ≡ standing.sound t.now s.now }
{
    both(
        counts_from(
            s,
            base_ceilings::PROCESSES_MOST,
            base_ceilings::CHANNELS_MOST,
            0,
        ),
        both(
            state_types::globals_fit(
                t,
                s,
                base_bytes::least(base_ceilings::ITEMS_MOST, table_layout::items(t)),
            ),
            both(
                processes_sound(t, s, state_used::processes_in(s)),
                channels_sound(t, s, state_used::channels_in(s)),
            ),
        ),
    )
}

// Are these the same numbers, over the whole of a state?
fn same_numbers(x: &[i32], s: &[i32]) -> bool
    ensures { result ≡ standing.same_numbers x.now s.now }
{
    for i in 0..base_ceilings::STATE_ROOM {
        if state_layout::cell(x, i) != state_layout::cell(s, i) {
            return false;
        }
    }
    true
}

// Are these numbers a state of the model with these tables?
pub fn is_state(t: &[u32], s: &[i32]) -> bool
    ensures { result ≡ standing.is_state_of t.now s.now }
{
    if s.len() < base_ceilings::STATE_ROOM {
        return false;
    }
    let mut x = [0i32; base_ceilings::STATE_ROOM];
    state_used::shape(t, s, &mut x);
    both(sound(t, s), same_numbers(&x, s))
}
