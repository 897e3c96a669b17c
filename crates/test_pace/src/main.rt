// Replays the trail on standard input on the model before it, and runs that model, each twenty times: time it to see what steps of many processes take.
#![tactic(auto)]

use run_entry::Ran;
use trail_replay::Replayed;

// The steps of a run.
const LIMIT: u32 = 2000;

fn is_accepted(tables: &[u32], trail: &[u8]) -> bool {
    let mut state = [0i32; base_ceilings::STATE_ROOM];
    match trail_replay::replay(tables, trail, &mut state) {
        Replayed::Accepted(_) => true,
        Replayed::Refused(_, _) => false,
    }
}

fn is_run(tables: &[u32]) -> bool {
    let mut state = [0i32; base_ceilings::STATE_ROOM];
    step_entry::start(tables, &mut state);
    match run_entry::run(tables, &mut state, LIMIT) {
        Ran::Ended(_, n) => n == LIMIT,
        Ran::Refused(_) => false,
    }
}

// Whether all went well, twenty times over.
fn often(tables: &[u32], trail: &[u8]) -> bool {
    (0..20).all(|_| is_accepted(tables, trail) && is_run(tables))
}

fn on_model(text: &[u8], trail: &[u8]) -> bool {
    let mut tables = [0u32; base_ceilings::TABLES_ROOM];
    read_entry::read(text, &mut tables).is_ok() && often(&tables, trail)
}

fn main() {
    let mut text = [0u8; base_ceilings::TEXT_MOST];
    let mut trail = [0u8; base_ceilings::TRAIL_MOST];
    let n = test_cases::next(&mut text).unwrap_or(0);
    let m = test_cases::next(&mut trail).unwrap_or(0);
    if on_model(test_cases::front(&text, n), test_cases::front(&trail, m)) {
        test_cases::put(b"replayed and run\n");
    } else {
        test_cases::put(b"not so\n");
    }
}
