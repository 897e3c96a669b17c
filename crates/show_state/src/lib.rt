// How a state is shown: the variables by name with their numbers, the channels with their messages, written one after the other to a lent slice that may end too soon.
#![tactic(auto)]

ghost use Rattle.std.specs.Prelude.{◌≡◌};
ghost use Rattle.base_pens.specs.Pen.{pen, puts};
ghost use Rattle.spec_account.specs.States.{values_text};
ghost use Rattle.show_state.specs.Listing as listing;

use show_words::{put_count, put_message, put_value};
use text_pens::{put, put_all};
use write_letters::put_name;

// Writes the numbers of the variable l of process x, each behind a blank.
fn put_numbers(s: &[i32], l: u32, x: u8, out: &mut [u8], p: usize) -> usize
    ensures { pen out.new result ≡ puts (values_text (listing.numbers_in s.now l x)) (pen out.old p) }
{
    let n = step_eval::size_of(l);
    let mut q = p;
    for k in 0..n {
        let a = put(out, q, b' ');
        q = put_value(
            state_layout::cell(s, step_eval::slot(l, x, k as u8)),
            out,
            a,
        );
    }
    q
}

// Writes the variable of process x that item j declares, behind a word.
fn put_variable(
    t: &[u32],
    s: &[i32],
    word: &[u8],
    x: u8,
    j: usize,
    out: &mut [u8],
    p: usize,
) -> usize
    ensures { pen out.new result ≡ puts (listing.variable_in t.now s.now word.now x j) (pen out.old p) }
{
    let a = put_all(word, out, p);
    let b = put_name(t, step_eval::minus_one(j), out, a);
    let c = put_numbers(s, table_layout::link(t, j) as u32, x, out, b);
    put(out, c, b'\n')
}

// Writes the global variable that item j declares, if it declares one.
fn put_global(t: &[u32], s: &[i32], j: usize, out: &mut [u8], p: usize) -> usize
    ensures { pen out.new result ≡ puts (listing.global_in t.now s.now j) (pen out.old p) }
{
    if state_types::is_global(t, j) {
        put_variable(t, s, b"global ", 0, j, out, p)
    } else {
        p
    }
}

// Writes the global variables.
pub fn put_globals(t: &[u32], s: &[i32], out: &mut [u8], p: usize) -> usize
    ensures { pen out.new result ≡ puts (listing.globals_in t.now s.now) (pen out.old p) }
{
    let n = table_layout::items(t);
    let mut q = p;
    for j in 0..n {
        q = put_global(t, s, j, out, q);
    }
    q
}

// Writes the variable of process x that item j of its unit declares, if it declares one.
fn put_local(t: &[u32], s: &[i32], x: u8, j: usize, out: &mut [u8], p: usize) -> usize
    ensures { pen out.new result ≡ puts (listing.local_in t.now s.now x j) (pen out.old p) }
{
    if state_types::is_local(t, j) {
        put_variable(t, s, b"local ", x, j, out, p)
    } else {
        p
    }
}

// Writes the variables of process x.
pub fn put_locals(t: &[u32], s: &[i32], x: u8, out: &mut [u8], p: usize) -> usize
    ensures { pen out.new result ≡ puts (listing.locals_in t.now s.now x) (pen out.old p) }
{
    let u = state_layout::unit_of(s, x);
    let n = state_start::unit_length(t, u);
    let mut q = p;
    for k in 0..n {
        q = put_local(t, s, x, (u + k) as usize, out, q);
    }
    q
}

// Writes the messages of channel c, each of n fields, the oldest first.
fn put_messages(s: &[i32], c: u32, n: u32, out: &mut [u8], p: usize) -> usize
    ensures { pen out.new result ≡ puts (listing.messages_in s.now c n) (pen out.old p) }
{
    let w = state_layout::waiting_of(s, c);
    let mut q = p;
    for m in 0..w {
        q = put_message(s, c, m, n, out, q);
    }
    q
}

// Writes channel c, which has the number c + 1, with its capacity and its messages.
fn put_channel(t: &[u32], s: &[i32], c: u32, out: &mut [u8], p: usize) -> usize
    ensures { pen out.new result ≡ puts (listing.channel_in t.now s.now c) (pen out.old p) }
{
    let d = state_layout::declared_of(s, c);
    let a = put_all(b"channel ", out, p);
    let b = put_count(c as usize + 1, out, a);
    let e = put(out, b, b' ');
    let f = put_count(step_ready::capacity(t, d), out, e);
    let g = put_messages(s, c, step_ready::fields(t, d), out, f);
    put(out, g, b'\n')
}

// Writes the channels.
pub fn put_channels(t: &[u32], s: &[i32], out: &mut [u8], p: usize) -> usize
    ensures { pen out.new result ≡ puts (listing.channels_in t.now s.now) (pen out.old p) }
{
    let n = state_layout::channels(s);
    let mut q = p;
    for c in 0..n {
        q = put_channel(t, s, c, out, q);
    }
    q
}
