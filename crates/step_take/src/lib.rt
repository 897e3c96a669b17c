// Taking the step of the statement at a place, `run` among them.
#![tactic(auto)]

ghost use Rattle.std.specs.Prelude.{◌≡◌, ◌<◌};
ghost use Rattle.base_ceilings.specs.Ceilings.{numbers_most, processes_most};
ghost use Rattle.state_layout.specs.Layout.{processes_of};
ghost use Rattle.step_take.specs.Effects as effects;

use base_outcome::Taken;

// Where the arguments from item a on end.
fn end_of(t: &[u32], a: usize) -> usize
    ensures { result ≡ effects.end_from t.now numbers_most a }
{
    let mut j = a;
    for _n in 0..base_ceilings::NUMBERS_MOST {
        if table_layout::code(t, j) == base_codes::END {
            return j;
        }
        j = table_layout::link(t, j) + 1;
    }
    j
}

fn set_parameter(t: &[u32], s: &mut [i32], p: u8, values: &[i32], j: u32)
    ensures { s.new ≡ effects.parameter_set t.now p values.now j s.old }
{
    if table_layout::code(t, j as usize) == base_codes::PARAMETER {
        let l = table_layout::link(t, j as usize) as u32;
        let v = base_values::cast(
            step_eval::type_of(l),
            state_layout::cell(values, (l / 1024) as usize),
        );
        state_layout::put(s, step_eval::slot(l, p, 0), v);
    }
}

// One more process of the unit that item u begins, with the values of its arguments.
fn call(t: &[u32], s: &mut [i32], u: u32, values: &[i32])
    requires { processes_of s.old < processes_most }
    ensures { s.new ≡ effects.called t.now u values.now s.old }
{
    let p = state_layout::processes(s) as u8;
    state_start::make_process(t, s, u);
    let n = state_start::unit_length(t, u);
    for k in 0..n {
        set_parameter(t, s, p, values, u + k);
    }
}

fn run(t: &[u32], s: &mut [i32], p: u8, m: usize) -> Taken
    requires { m < 4294967296 }
    ensures { (result, s.new) ≡ effects.ran t.now p m s.old }
{
    let u = table_layout::link(t, m) as u32;
    if !step_ready::has_room(t, s, u) {
        return Taken::Idle;
    }
    let mut values = [0i32; base_ceilings::NUMBERS_MOST];
    let g = step_messages::gather(t, s, p, m + 1, &mut values);
    match g {
        Ok(e) => {
            call(t, s, u, &values);
            step_statements::move_to(s, p, table_layout::link(t, e));
            Taken::Done
        }
        Err(f) => Taken::Faulted(f),
    }
}

// `v = run` with the marks m of its target, which stands in place i, and e of run.
fn set_run_at(t: &[u32], s: &mut [i32], p: u8, i: usize, m: usize, e: usize) -> Taken
    requires { e < 4294967296 }
    ensures { (result, s.new) ≡ effects.set_run_at t.now p i m e s.old }
{
    let u = table_layout::link(t, e) as u32;
    if !step_ready::has_room(t, s, u) {
        step_statements::store_at(t, s, m, i, 0);
        step_statements::move_to(s, p, table_layout::link(t, end_of(t, e + 1)));
        return Taken::Done;
    }
    let n = state_layout::processes(s);
    let mut values = [0i32; base_ceilings::NUMBERS_MOST];
    let g = step_messages::gather(t, s, p, e + 1, &mut values);
    match g {
        Ok(z) => {
            call(t, s, u, &values);
            step_statements::store_at(t, s, m, i, state_layout::kept(n as usize));
            step_statements::move_to(s, p, table_layout::link(t, z));
            Taken::Done
        }
        Err(f) => Taken::Faulted(f),
    }
}

fn set_run(t: &[u32], s: &mut [i32], p: u8, q: usize, m: usize, e: usize) -> Taken
    requires { e < 4294967296 }
    ensures { (result, s.new) ≡ effects.set_ran t.now p q m e s.old }
{
    let x = step_eval::locate(t, s, p, q, m);
    match x {
        Ok(i) => set_run_at(t, s, p, i, m, e),
        Err(f) => Taken::Faulted(f),
    }
}

fn target(t: &[u32], s: &mut [i32], p: u8, q: usize, m: usize) -> Taken
    requires { m < 4294967296 }
    ensures { (result, s.new) ≡ effects.targeted t.now p q m s.old }
{
    let e = table_layout::link(t, m);
    if table_layout::code(t, e) == base_codes::SET_RUN {
        set_run(t, s, p, q, m, e)
    } else {
        step_statements::assign(t, s, p, q, m as u32, e)
    }
}

fn take_by(t: &[u32], s: &mut [i32], p: u8, q: usize, m: usize) -> Taken
    requires { m < 4294967296 }
    ensures { (result, s.new) ≡ effects.taken_by t.now p q m s.old }
{
    match table_layout::code(t, m) {
        base_codes::TEXT => step_statements::print(t, s, p, m as u32),
        base_codes::EXPRESS => step_statements::express(t, s, p, q, m),
        base_codes::TARGET => target(t, s, p, q, m),
        base_codes::INCREMENT => step_statements::step_by(t, s, p, 1, q, m),
        base_codes::DECREMENT => step_statements::step_by(t, s, p, -1, q, m),
        base_codes::SEND => step_statements::send(t, s, p, q, m as u32),
        base_codes::RECEIVE => step_statements::receive(t, s, p, q, m as u32),
        base_codes::ASSERT => step_statements::assert_that(t, s, p, q, m),
        base_codes::SKIP => step_statements::pass(t, s, p, m),
        base_codes::GOTO => step_statements::pass(t, s, p, m),
        base_codes::BREAK => step_statements::pass(t, s, p, m),
        base_codes::TIMEOUT => step_statements::pass(t, s, p, m),
        base_codes::ELSE => step_statements::pass(t, s, p, m),
        base_codes::RUN => run(t, s, p, m),
        _ => Taken::Idle,
    }
}

// The step of the statement at place q.
pub fn take(t: &[u32], s: &mut [i32], p: u8, q: u32) -> Taken
    ensures { (result, s.new) ≡ effects.taken_of t.now p q s.old }
{
    take_by(t, s, p, q as usize, step_ready::mark(t, q))
}
