// What is in use of a state's numbers, written on others. No function asks anything of its caller.
#![tactic(auto)]

ghost use Rattle.std.specs.Prelude.{◌≡◌};
ghost use Rattle.state_layout.specs.Walks.{walk};
ghost use Rattle.state_used.specs.Shapes as shapes;

// The number at i, copied.
fn copy_number(s: &[i32], x: &mut [i32], i: usize)
    ensures { x.new ≡ shapes.copied s.now i x.old }
{
    state_layout::put(x, i, state_layout::cell(s, i));
}

// Number k of the variable l.
fn shape_element(s: &[i32], x: &mut [i32], l: u32, p: u8, k: u8)
    ensures { x.new ≡ shapes.element_shaped s.now l p k x.old }
{
    copy_number(s, x, step_eval::slot(l, p, k));
}

fn shape_variable(s: &[i32], x: &mut [i32], l: u32, p: u8)
    ensures { x.new ≡ shapes.variable_shaped s.now l p x.old }
{
    let n = step_eval::size_of(l);
    for k in 0..n {
        shape_element(s, x, l, p, k as u8);
    }
}

fn shape_global(t: &[u32], s: &[i32], x: &mut [i32], j: usize)
    ensures { x.new ≡ shapes.global_shaped t.now s.now j x.old }
{
    if state_types::is_global(t, j) {
        shape_variable(s, x, table_layout::link(t, j) as u32, 0);
    }
}

fn shape_globals(t: &[u32], s: &[i32], x: &mut [i32], n: usize)
    ensures { x.new ≡ walk (shapes.global_shaped t.now s.now) 0 n x.old }
{
    for j in 0..n {
        shape_global(t, s, x, j);
    }
}

fn shape_local(t: &[u32], s: &[i32], x: &mut [i32], p: u8, j: usize)
    ensures { x.new ≡ shapes.local_shaped t.now s.now p j x.old }
{
    if state_types::is_local(t, j) {
        shape_variable(s, x, table_layout::link(t, j) as u32, p);
    }
}

// The variables of process p, whose unit item u begins.
fn shape_locals(t: &[u32], s: &[i32], x: &mut [i32], p: u8, u: u32)
    ensures { x.new ≡ shapes.locals_shaped t.now s.now p u x.old }
{
    let n = state_start::unit_length(t, u);
    for k in 0..n {
        shape_local(t, s, x, p, (u + k) as usize);
    }
}

fn shape_process(t: &[u32], s: &[i32], x: &mut [i32], p: u8)
    ensures { x.new ≡ shapes.process_shaped t.now s.now p x.old }
{
    let u = state_layout::unit_of(s, p);
    let i = state_layout::process_at(p);
    state_layout::put_count(x, i, u as usize);
    state_layout::put_count(x, i + 1, state_layout::place_of(s, p) as usize);
    shape_locals(t, s, x, p, u);
}

fn shape_processes(t: &[u32], s: &[i32], x: &mut [i32], n: u8)
    ensures { x.new ≡ walk (shapes.process_shaped t.now s.now) 0 n x.old }
{
    for p in 0..n {
        shape_process(t, s, x, p);
    }
}

// Field f of message m in the record c.
fn shape_field(s: &[i32], x: &mut [i32], c: u32, m: u32, f: u32)
    ensures { x.new ≡ shapes.field_shaped s.now c m f x.old }
{
    copy_number(s, x, state_layout::field_at(c, m, f));
}

fn shape_message(t: &[u32], s: &[i32], x: &mut [i32], c: u32, d: u32, m: u32)
    ensures { x.new ≡ shapes.message_shaped t.now s.now c d m x.old }
{
    let n = step_ready::fields(t, d);
    for f in 0..n {
        shape_field(s, x, c, m, f);
    }
}

fn shape_messages(t: &[u32], s: &[i32], x: &mut [i32], c: u32, d: u32, n: u32)
    ensures { x.new ≡ walk (shapes.message_shaped t.now s.now c d) 0 n x.old }
{
    for m in 0..n {
        shape_message(t, s, x, c, d, m);
    }
}

fn shape_channel(t: &[u32], s: &[i32], x: &mut [i32], c: u32)
    ensures { x.new ≡ shapes.channel_shaped t.now s.now c x.old }
{
    let d = state_layout::declared_of(s, c);
    let n = base_bytes::least(
        base_ceilings::CAPACITY_MOST,
        state_layout::waiting_of(s, c) as usize,
    );
    let i = state_layout::channel_at(c);
    state_layout::put_count(x, i, d as usize);
    state_layout::put_count(x, i + 1, n);
    shape_messages(t, s, x, c, d, n as u32);
}

fn shape_channels(t: &[u32], s: &[i32], x: &mut [i32], n: u32)
    ensures { x.new ≡ walk (shapes.channel_shaped t.now s.now) 0 n x.old }
{
    for c in 0..n {
        shape_channel(t, s, x, c);
    }
}

// How many processes there are, within the ceiling.
pub fn processes_in(s: &[i32]) -> u8
    ensures { result ≡ shapes.processes_in s.now }
{
    base_bytes::least(
        base_ceilings::PROCESSES_MOST,
        state_layout::processes(s) as usize,
    ) as u8
}

// How many channels were made, within the ceiling.
pub fn channels_in(s: &[i32]) -> u32
    ensures { result ≡ shapes.channels_in s.now }
{
    base_bytes::least(
        base_ceilings::CHANNELS_MOST,
        state_layout::channels(s) as usize,
    ) as u32
}

// What is in use of s, on x.
pub fn shape(t: &[u32], s: &[i32], x: &mut [i32])
    ensures { x.new ≡ shapes.shaped_on t.now s.now x.old }
{
    let p = processes_in(s);
    let c = channels_in(s);
    state_layout::put_count(x, 0, p as usize);
    state_layout::put_count(x, 1, c as usize);
    shape_globals(
        t,
        s,
        x,
        base_bytes::least(base_ceilings::ITEMS_MOST, table_layout::items(t)),
    );
    shape_processes(t, s, x, p);
    shape_channels(t, s, x, c);
}
