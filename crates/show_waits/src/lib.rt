// What keeps a `run` from starting: the first process that stands at one for which there is no room, in a line behind a tab, written to lent bytes.
#![tactic(auto)]

ghost use Rattle.std.specs.Prelude.{◌≡◌, ◌+◌, ◌<◌, ◌≤◌};
ghost use Rattle.base_ceilings.specs.Ceilings.{items_most};
ghost use Rattle.base_pens.specs.Pen.{pen, puts};
ghost use Rattle.state_layout.specs.Layout.{kept_most};
ghost use Rattle.step_offers.specs.Offers as offers;
ghost use Rattle.show_waits.specs.Waits as waits;

use show_words::put_count;
use step_offers::{
    DEPTH_MOST, ITEMS_MOST, OPTIONS_MOST, Walk, end_of, first_of, is_option, is_selection, pick_one,
};
use text_pens::put_all;

// Is the statement at place q a `run` for which there is no room?
fn is_stuck(t: &[u32], s: &[i32], q: u32) -> bool
    ensures { result ≡ waits.is_stuck t.now s.now q }
{
    let m = step_ready::mark(t, q);
    if table_layout::code(t, m) == base_codes::RUN {
        !step_ready::has_room(t, s, table_layout::link(t, m) as u32)
    } else {
        false
    }
}

// The k-th of those that wait at place q.
#[cycle(walk_item_walk_options)]
fn walk_item(t: &[u32], s: &[i32], d: u32, q: u32, stop: u32, k: u32) -> Walk
    requires { (q < kept_most + 1) × (stop ≤ items_most) }
    ensures { result ≡ offers.pick_at k (waits.stuck_from t.now s.now d q stop) }
{
    if d == 0 {
        return Walk::Left(k);
    }
    if is_selection(t, q) {
        let e = base_bytes::least(table_layout::link(t, q as usize), stop as usize) as u32;
        walk_options(t, s, d - 1, OPTIONS_MOST, q + 1, e, k)
    } else if is_stuck(t, s, q) {
        pick_one(k, q)
    } else {
        Walk::Left(k)
    }
}

// The k-th of those that wait at the options from item m on.
#[cycle(walk_item_walk_options)]
fn walk_options(t: &[u32], s: &[i32], d: u32, n: u32, m: u32, stop: u32, k: u32) -> Walk
    requires { stop ≤ items_most }
    ensures { result ≡ offers.pick_at k (offers.each_option t.now (λ f e. waits.stuck_from t.now s.now d f e) n m stop) }
{
    if n == 0 {
        return Walk::Left(k);
    }
    if !is_option(t, m, stop) {
        return Walk::Left(k);
    }
    let e = end_of(t, m, stop);
    let w = walk_item(t, s, d, first_of(t, m), e, k);
    match w {
        Walk::Found(i) => Walk::Found(i),
        Walk::Left(l) => walk_options(t, s, d, n - 1, e + 1, stop, l),
    }
}

// The first of those at which process p stands.
fn stuck_of(t: &[u32], s: &[i32], p: u8) -> Walk
    ensures { result ≡ offers.pick_at 0 (waits.stuck_of t.now s.now p) }
{
    walk_item(
        t,
        s,
        DEPTH_MOST,
        state_layout::place_of(s, p),
        ITEMS_MOST,
        0,
    )
}

// Writes which ceiling is met.
fn put_ceiling(s: &[i32], out: &mut [u8], p: usize) -> usize
    ensures { pen out.new result ≡ puts (waits.ceiling_in s.now) (pen out.old p) }
{
    if (state_layout::processes(s) as usize) < base_ceilings::PROCESSES_MOST {
        let a = put_count(base_ceilings::CHANNELS_MOST, out, p);
        put_all(b" channels are the most\n", out, a)
    } else {
        let b = put_count(base_ceilings::PROCESSES_MOST, out, p);
        put_all(b" processes are the most\n", out, b)
    }
}

// Writes that process p waits at the statement at place q.
fn put_wait(t: &[u32], s: &[i32], process: u8, q: u32, out: &mut [u8], p: usize) -> usize
    ensures { pen out.new result ≡ puts (waits.line_in t.now s.now process q) (pen out.old p) }
{
    let a = put_all(b"\tprocess ", out, p);
    let b = put_count(process as usize, out, a);
    let c = put_all(b" waits at ", out, b);
    let d = show_statement::put_seen(t, q as usize, out, c);
    let e = put_all(b": ", out, d);
    put_ceiling(s, out, e)
}

// Writes that the first process waits that does, if one does.
pub fn put_waits(t: &[u32], s: &[i32], out: &mut [u8], p: usize) -> usize
    ensures { pen out.new result ≡ puts (waits.waits_in t.now s.now) (pen out.old p) }
{
    let n = base_bytes::least(
        state_layout::processes(s) as usize,
        base_ceilings::PROCESSES_MOST,
    );
    for i in 0..n {
        let w = stuck_of(t, s, i as u8);
        match w {
            Walk::Found(q) => {
                return put_wait(t, s, i as u8, q, out, p);
            }
            Walk::Left(_) => {}
        }
    }
    p
}
