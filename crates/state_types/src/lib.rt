// Do numbers count something, and do they lie in their types? No function asks anything of its caller.
#![tactic(auto)]

ghost use Rattle.std.specs.Prelude.{◌≡◌};
ghost use Rattle.state_types.specs.Fits as fits;

use base_bytes::{both, either};

// Does item j make a global variable?
pub fn is_global(t: &[u32], j: usize) -> bool
    ensures { result ≡ fits.is_global t.now j }
{
    both(
        table_layout::code(t, j) == base_codes::DECLARED,
        table_layout::link(t, j) / 8 % 2 == 0,
    )
}

// Does item j of a unit make a variable of its processes?
pub fn is_local(t: &[u32], j: usize) -> bool
    ensures { result ≡ fits.is_local t.now j }
{
    let c = table_layout::code(t, j);
    either(c == base_codes::DECLARED, c == base_codes::PARAMETER)
}

// Is the number at i one from 0 to most?
pub fn counts_at(s: &[i32], most: usize, i: usize) -> bool
    ensures { result ≡ fits.counts_at s.now most i }
{
    state_layout::cell(s, i)
        == state_layout::kept(base_bytes::least(most, state_layout::count(s, i) as usize))
}

// Does the number at i lie in the type ty?
fn fits_at(s: &[i32], ty: u8, i: usize) -> bool
    ensures { result ≡ fits.fits_at s.now ty i }
{
    let v = state_layout::cell(s, i);
    base_values::cast(ty, v) == v
}

fn element_fits(s: &[i32], l: u32, p: u8, k: u8) -> bool
    ensures { result ≡ fits.element_fits s.now l p k }
{
    fits_at(s, step_eval::type_of(l), step_eval::slot(l, p, k))
}

fn variable_fits(s: &[i32], l: u32, p: u8) -> bool
    ensures { result ≡ fits.variable_fits s.now l p }
{
    let n = step_eval::size_of(l);
    for k in 0..n {
        if !element_fits(s, l, p, k as u8) {
            return false;
        }
    }
    true
}

fn global_fits(t: &[u32], s: &[i32], j: usize) -> bool
    ensures { result ≡ fits.global_fits t.now s.now j }
{
    if is_global(t, j) {
        variable_fits(s, table_layout::link(t, j) as u32, 0)
    } else {
        true
    }
}

pub fn globals_fit(t: &[u32], s: &[i32], n: usize) -> bool
    ensures { result ≡ fits.every (fits.global_fits t.now s.now) 0 n }
{
    for j in 0..n {
        if !global_fits(t, s, j) {
            return false;
        }
    }
    true
}

fn local_fits(t: &[u32], s: &[i32], p: u8, j: usize) -> bool
    ensures { result ≡ fits.local_fits t.now s.now p j }
{
    if is_local(t, j) {
        variable_fits(s, table_layout::link(t, j) as u32, p)
    } else {
        true
    }
}

pub fn locals_fit(t: &[u32], s: &[i32], p: u8, u: u32) -> bool
    ensures { result ≡ fits.locals_fit t.now s.now p u }
{
    let n = state_start::unit_length(t, u);
    for k in 0..n {
        if !local_fits(t, s, p, (u + k) as usize) {
            return false;
        }
    }
    true
}

fn field_fits(t: &[u32], s: &[i32], c: u32, d: u32, m: u32, f: u32) -> bool
    ensures { result ≡ fits.field_fits t.now s.now c d m f }
{
    fits_at(
        s,
        step_messages::field_type(t, d, f),
        state_layout::field_at(c, m, f),
    )
}

fn message_fits(t: &[u32], s: &[i32], c: u32, d: u32, m: u32) -> bool
    ensures { result ≡ fits.message_fits t.now s.now c d m }
{
    let n = step_ready::fields(t, d);
    for f in 0..n {
        if !field_fits(t, s, c, d, m, f) {
            return false;
        }
    }
    true
}

pub fn messages_fit(t: &[u32], s: &[i32], c: u32, d: u32, n: u32) -> bool
    ensures { result ≡ fits.every (fits.message_fits t.now s.now c d) 0 n }
{
    for m in 0..n {
        if !message_fits(t, s, c, d, m) {
            return false;
        }
    }
    true
}
