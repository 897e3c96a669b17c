// What the statements do, but for `run`: the state after a step, or why it is not taken. All is worked out before the first store, so that a fault or a failed assertion
// leaves the state as it is.
#![tactic(auto)]

ghost use Rattle.std.specs.Prelude.{◌≡◌, ◌<◌};
ghost use Rattle.step_statements.specs.Statements as statements;

use base_outcome::Taken;
use step_ready::Found;

// Process p goes on at place q.
pub fn move_to(s: &mut [i32], p: u8, q: usize)
    ensures { s.new ≡ statements.moved p q s.old }
{
    state_layout::put_count(s, state_layout::process_at(p) + 1, q);
}

// v stored in place i of the variable before mark m.
pub fn store_at(t: &[u32], s: &mut [i32], m: usize, i: usize, v: i32)
    ensures { s.new ≡ statements.stored_at t.now m i v s.old }
{
    let l = step_eval::variable(t, step_eval::minus_one(m));
    state_layout::put(s, i, base_values::cast(step_eval::type_of(l), v));
}

pub fn pass(t: &[u32], s: &mut [i32], p: u8, m: usize) -> Taken
    ensures { (result, s.new) ≡ statements.passed t.now p m s.old }
{
    move_to(s, p, table_layout::link(t, m));
    Taken::Done
}

pub fn express(t: &[u32], s: &mut [i32], p: u8, q: usize, m: usize) -> Taken
    ensures { (result, s.new) ≡ statements.expressed t.now p q m s.old }
{
    let x = step_eval::eval(t, s, p, q, m);
    match x {
        Ok(_) => pass(t, s, p, m),
        Err(f) => Taken::Faulted(f),
    }
}

pub fn assert_that(t: &[u32], s: &mut [i32], p: u8, q: usize, m: usize) -> Taken
    ensures { (result, s.new) ≡ statements.asserted t.now p q m s.old }
{
    let x = step_eval::eval(t, s, p, q, m);
    match x {
        Ok(v) => {
            if v == 0 {
                return Taken::Refuted;
            }
            pass(t, s, p, m)
        }
        Err(f) => Taken::Faulted(f),
    }
}

pub fn step_by(t: &[u32], s: &mut [i32], p: u8, d: i32, q: usize, m: usize) -> Taken
    ensures { (result, s.new) ≡ statements.stepped t.now p d q m s.old }
{
    let x = step_eval::locate(t, s, p, q, m);
    match x {
        Ok(i) => {
            let v = base_values::add(state_layout::cell(s, i), d);
            store_at(t, s, m, i, v);
            move_to(s, p, table_layout::link(t, m));
            Taken::Done
        }
        Err(f) => Taken::Faulted(f),
    }
}

pub fn assign(t: &[u32], s: &mut [i32], p: u8, q: usize, m: u32, e: usize) -> Taken
    ensures { (result, s.new) ≡ statements.assigned t.now p q m e s.old }
{
    let x = step_eval::locate(t, s, p, q, m as usize);
    match x {
        Ok(i) => {
            let y = step_eval::eval(t, s, p, m as usize + 1, e);
            match y {
                Ok(v) => {
                    store_at(t, s, m as usize, i, v);
                    move_to(s, p, table_layout::link(t, e));
                    Taken::Done
                }
                Err(f) => Taken::Faulted(f),
            }
        }
        Err(f) => Taken::Faulted(f),
    }
}

pub fn send(t: &[u32], s: &mut [i32], p: u8, q: usize, m: u32) -> Taken
    ensures { (result, s.new) ≡ statements.sent t.now p q m s.old }
{
    let r = step_ready::message(t, s, p, q, m);
    match r {
        Ok(c) => {
            let mut values = [0i32; base_ceilings::NUMBERS_MOST];
            let g = step_messages::gather(t, s, p, m as usize + 1, &mut values);
            match g {
                Ok(e) => {
                    let w = state_layout::waiting_of(s, c);
                    step_messages::put(t, s, c, w, &values);
                    move_to(s, p, table_layout::link(t, e));
                    Taken::Done
                }
                Err(f) => Taken::Faulted(f),
            }
        }
        Err(f) => Taken::Faulted(f),
    }
}

// The fields of message w of channel c.
fn fetch(s: &[i32], c: u32, w: u32, values: &mut [i32])
    ensures { values.new ≡ statements.fetched s.now c w values.old }
{
    state_layout::put(values, 0, state_layout::field_of(s, c, w, 0));
    state_layout::put(values, 1, state_layout::field_of(s, c, w, 1));
    state_layout::put(values, 2, state_layout::field_of(s, c, w, 2));
    state_layout::put(values, 3, state_layout::field_of(s, c, w, 3));
}

// Message w of channel c goes where the arguments from item a on are stored.
fn receive_from(t: &[u32], s: &mut [i32], p: u8, a: usize, c: u32, w: u32) -> Taken
    ensures { (result, s.new) ≡ statements.received_from t.now p a c w s.old }
{
    let mut places = [0usize; base_ceilings::FIELDS_MOST];
    let g = step_messages::aim(t, s, p, a, &mut places);
    match g {
        Ok(e) => {
            let mut values = [0i32; base_ceilings::FIELDS_MOST];
            fetch(s, c, w, &mut values);
            step_messages::take(s, c, w);
            step_messages::deliver(t, s, a, &places, &values);
            move_to(s, p, table_layout::link(t, e));
            Taken::Done
        }
        Err(f) => Taken::Faulted(f),
    }
}

pub fn receive(t: &[u32], s: &mut [i32], p: u8, q: usize, m: u32) -> Taken
    ensures { (result, s.new) ≡ statements.received t.now p q m s.old }
{
    let r = step_ready::message(t, s, p, q, m);
    match r {
        Ok(c) => {
            let x = step_ready::find(t, s, p, c, m as usize + 1, step_ready::tried(s, c));
            match x {
                Found::Message(w) => receive_from(t, s, p, m as usize + 1, c, w),
                Found::Nothing => Taken::Idle,
                Found::Spoilt(f) => Taken::Faulted(f),
            }
        }
        Err(f) => Taken::Faulted(f),
    }
}

pub fn print(t: &[u32], s: &mut [i32], p: u8, m: u32) -> Taken
    ensures { (result, s.new) ≡ statements.printed t.now p m s.old }
{
    let mut values = [0i32; base_ceilings::NUMBERS_MOST];
    let g = step_messages::gather(t, s, p, m as usize + 1, &mut values);
    match g {
        Ok(e) => {
            move_to(s, p, table_layout::link(t, e));
            Taken::Done
        }
        Err(f) => Taken::Faulted(f),
    }
}
