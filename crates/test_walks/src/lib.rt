// Walks by the entries of the stepper: how many steps are offered, and the one that is taken; and steps and runs that are refused. One crate holds them all, since what costs is loading the stepper.
#![tactic(auto)]

use base_outcome::Step;
use step_entry::Listed;
use test_answers::{show_run, show_step};

// The moves of a walk.
const MOVES: usize = 24;

fn how_many(tables: &[u32], state: &[i32]) -> u32 {
    match step_entry::offered(tables, state, 4294967295) {
        Listed::Only(n) => n,
        Listed::Step(_) => 0,
        Listed::Refused(_) => 0,
    }
}

// Takes the n-th offered step; does the walk go on?
fn move_on(tables: &[u32], state: &mut [i32], n: u32) -> bool {
    match step_entry::offered(tables, state, n) {
        Listed::Step(x) => {
            test_cases::number(b' ', x.process as usize);
            test_cases::number(b'.', x.number as usize);
            let mut printed = [0u8; 128];
            let r = step_entry::step(tables, state, x.process as u32, x.number, &mut printed);
            show_step(r, &printed)
        }
        Listed::Only(_) => false,
        Listed::Refused(_) => false,
    }
}

// Which of n offered steps is taken at move i: now an early one, now a late one.
fn choice(i: usize, n: u32) -> u32 {
    if n == 0 {
        return 0;
    }
    (i % 7 * 5) as u32 % n
}

pub fn walk(tables: &[u32], state: &mut [i32]) {
    for i in 0..MOVES {
        let n = how_many(tables, state);
        if !move_on(tables, state, choice(i, n)) {
            return;
        }
        test_cases::number(b'/', n as usize);
    }
}

// Steps that are never offered, too little room, numbers that are no state, and tables of no model.
pub fn corners(tables: &[u32]) {
    let none = [0u32; 16384];
    let mut state = [0i32; 2048];
    step_entry::start(tables, &mut state);
    let mut printed = [0u8; 128];
    let mut few = [0u8; 127];
    show_step(
        step_entry::step(tables, &mut state, 0, 0, &mut printed),
        &printed,
    );
    show_step(
        step_entry::step(tables, &mut state, 16, 1, &mut printed),
        &printed,
    );
    show_step(
        step_entry::step(tables, &mut state, 0, 1, &mut few),
        &printed,
    );
    state_layout::put(&mut state, 0, 17);
    show_step(
        step_entry::step(tables, &mut state, 0, 1, &mut printed),
        &printed,
    );
    show_run(run_entry::run(tables, &mut state, 1));
    show_step(
        step_entry::step(&none, &mut state, 0, 1, &mut printed),
        &printed,
    );
    show_run(run_entry::run(&none, &mut state, 1));
}
