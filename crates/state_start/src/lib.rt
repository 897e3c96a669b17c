// The initial state of a model, and one process more. No function asks anything of its caller, but that an item's number has 32 bits.
#![tactic(auto)]

ghost use Rattle.std.specs.Prelude.{◌≡◌, ◌+◌, ◌-◌, ◌<◌, ◌≤◌};
ghost use Rattle.base_ceilings.specs.Ceilings.{items_most};
ghost use Rattle.state_layout.specs.Walks.{walk};
ghost use Rattle.state_start.specs.Values as values;
ghost use Rattle.state_start.specs.Starting as starting;

// The most processes.
const PROCESSES_MOST: u32 = base_ceilings::PROCESSES_MOST as u32;

// Where the value of the variable that item d declares stands, if it has one.
fn value_at(t: &[u32], d: u32) -> usize
    ensures value { result ≡ values.value_at t.now d }
    ensures upper_bound { result < 4294967299 }
{
    if table_layout::code(t, d as usize + 2) == base_codes::SIZE {
        d as usize + 3
    } else {
        d as usize + 1
    }
}

// A number, `true` or `false`.
fn literal(t: &[u32], k: usize) -> i32
    ensures { result ≡ values.literal_of t.now k }
{
    match table_layout::code(t, k) {
        base_codes::NUMBER => state_layout::kept(table_layout::number(t, k)),
        base_codes::TRUE => 1,
        _ => 0,
    }
}

fn value_of(t: &[u32], k: usize) -> i32
    requires { k < 4294967299 }
    ensures { result ≡ values.value_of t.now k }
{
    match table_layout::code(t, k + 1) {
        base_codes::VALUE => literal(t, k),
        base_codes::MINUS => base_values::apply_unary(15, literal(t, k)),
        base_codes::NAMED => state_layout::kept(table_layout::link(
            t,
            table_layout::link(t, k + 1),
        )),
        _ => 0,
    }
}

// Every element of the variable l gets v.
fn fill(s: &mut [i32], l: u32, p: u8, v: i32)
    ensures { s.new ≡ starting.filled l p v s.old }
{
    let n = step_eval::size_of(l);
    for k in 0..n {
        state_layout::put(s, step_eval::slot(l, p, k as u8), v);
    }
}

// One channel more, declared by item m.
fn make_channel(s: &mut [i32], m: usize)
    ensures { s.new ≡ starting.channel_made m s.old }
{
    let c = state_layout::channels(s);
    state_layout::put_count(s, state_layout::channel_at(c), m);
    state_layout::put_count(s, 1, c as usize + 1);
}

// A value stored in the first number of the variable l.
fn store(s: &mut [i32], l: u32, p: u8, v: i32)
    ensures { s.new ≡ starting.stored l p v s.old }
{
    state_layout::put(
        s,
        step_eval::slot(l, p, 0),
        base_values::cast(step_eval::type_of(l), v),
    );
}

// The variable l, whose value's item is k.
fn make_variable(t: &[u32], s: &mut [i32], l: u32, p: u8, k: usize)
    requires { k < 4294967299 }
    ensures { s.new ≡ starting.variable_made t.now l p k s.old }
{
    if table_layout::code(t, k + 1) == base_codes::CHANNEL {
        let n = state_layout::channels(s);
        make_channel(s, k + 1);
        store(s, l, p, state_layout::kept(n as usize + 1));
    } else {
        fill(
            s,
            l,
            p,
            base_values::cast(step_eval::type_of(l), value_of(t, k)),
        );
    }
}

fn declare(t: &[u32], s: &mut [i32], p: u8, d: u32)
    ensures { s.new ≡ starting.declared t.now p d s.old }
{
    make_variable(
        t,
        s,
        table_layout::link(t, d as usize) as u32,
        p,
        value_at(t, d),
    );
}

// Item j of a proctype or of init.
fn enter(t: &[u32], s: &mut [i32], p: u8, j: u32)
    ensures { s.new ≡ starting.entered t.now p j s.old }
{
    match table_layout::code(t, j as usize) {
        base_codes::BODY => {
            state_layout::put_count(
                s,
                state_layout::process_at(p) + 1,
                table_layout::link(t, j as usize),
            );
        }
        base_codes::DECLARED => {
            declare(t, s, p, j);
        }
        _ => {}
    }
}

// How many items the unit that item u begins has from there on.
pub fn unit_length(t: &[u32], u: u32) -> u32
    ensures value { result ≡ starting.unit_length t.now u }
    ensures upper_bound { (result ≤ items_most) × (u + result < 4294967296) }
{
    let e = table_layout::link(t, u as usize);
    base_bytes::least(base_ceilings::ITEMS_MOST, e.saturating_sub(u as usize)) as u32
}

// The next process, of the unit that item u begins, if one more fits.
pub fn make_process(t: &[u32], s: &mut [i32], u: u32)
    ensures { s.new ≡ starting.process_made t.now u s.old }
{
    let p = state_layout::processes(s);
    if p < PROCESSES_MOST {
        state_layout::put_count(s, state_layout::process_at(p as u8), u as usize);
        state_layout::put_count(s, 0, p as usize + 1);
        let n = unit_length(t, u);
        for k in 0..n {
            enter(t, s, p as u8, u + k);
        }
    }
}

// Item j, if it declares a global variable.
fn make_global(t: &[u32], s: &mut [i32], j: u32)
    ensures { s.new ≡ starting.global_made t.now j s.old }
{
    if table_layout::code(t, j as usize) == base_codes::DECLARED {
        if table_layout::link(t, j as usize) / 8 % 2 == 0 {
            declare(t, s, 0, j);
        }
    }
}

// Two less, as far as 0.
fn minus_two(j: u32) -> usize
    ensures { result ≡ j - 2 }
{
    j.saturating_sub(2) as usize
}

// How many processes the unit that item j begins starts.
fn starts_of(t: &[u32], j: u32) -> usize
    ensures { result ≡ starting.starts_of t.now j }
{
    match table_layout::code(t, j as usize) {
        base_codes::ACTIVE => 1,
        base_codes::ACTIVE_MANY => table_layout::number(t, minus_two(j)),
        base_codes::INIT => 1,
        _ => 0,
    }
}

fn start_unit(t: &[u32], s: &mut [i32], j: u32)
    ensures { s.new ≡ starting.unit_started t.now j s.old }
{
    let n = base_bytes::least(base_ceilings::PROCESSES_MOST, starts_of(t, j));
    for _k in 0..n {
        make_process(t, s, j);
    }
}

fn make_globals(t: &[u32], s: &mut [i32], n: u32)
    ensures { s.new ≡ walk (starting.global_made t.now) 0 n s.old }
{
    for j in 0..n {
        make_global(t, s, j);
    }
}

fn start_units(t: &[u32], s: &mut [i32], n: u32)
    ensures { s.new ≡ walk (starting.unit_started t.now) 0 n s.old }
{
    for j in 0..n {
        start_unit(t, s, j);
    }
}

// The initial state, over the whole of s.
pub fn start(t: &[u32], s: &mut [i32])
    ensures { s.new ≡ starting.initial_of t.now s.old }
{
    let n = base_bytes::least(base_ceilings::ITEMS_MOST, table_layout::items(t)) as u32;
    state_layout::clear(s);
    make_globals(t, s, n);
    start_units(t, s, n);
}
