// The command that shows the state which a trail leaves. Its last line is the replay's answer, and it returns the status of that.
#![tactic(auto)]

ghost use Rattle.std.specs.Prelude.{◌≡◌};
ghost use Rattle.show_commands.specs.Statuses as statuses;

use show_answers::{Output, hand_on};
use show_commands::answer_replay;
use show_statuses::Status;
use trail_replay::Replayed;

// The most bytes of a process with its variables, where a byte of its statement takes at most four, and of all global variables or channels.
const PART_ROOM: usize = 5 * base_ceilings::NORMAL_MOST;

// Each process with the statement at which it stands, and its variables.
fn show_processes(t: &[u32], s: &[i32], to: &mut Output) {
    let n = base_bytes::least(
        state_layout::processes(s) as usize,
        base_ceilings::PROCESSES_MOST,
    );
    let mut out = [0u8; PART_ROOM];
    for p in 0..n {
        let k = show_steps::put_process(t, s, p as u8, &mut out, 0);
        hand_on(&out, k, to);
    }
}

// Global variables, processes, channels.
fn show_all(t: &[u32], s: &[i32], to: &mut Output) {
    let mut out = [0u8; PART_ROOM];
    let g = show_state::put_globals(t, s, &mut out, 0);
    hand_on(&out, g, to);
    show_processes(t, s, to);
    let c = show_state::put_channels(t, s, &mut out, 0);
    hand_on(&out, c, to);
}

// Does a replay so answered leave a state?
fn leaves_state(r: Replayed) -> bool {
    matches!(r, Replayed::Accepted(_) | Replayed::Refused(11 | 12, _))
}

// `state MODEL TRAIL`
pub fn state(tables: &[u32], trail: &[u8], to: &mut Output) -> Status
    ensures { result ≡ statuses.replay_status tables.now trail.now }
{
    let mut s = [0i32; base_ceilings::STATE_ROOM];
    let r = trail_replay::replay(tables, trail, &mut s);
    if leaves_state(r) {
        show_all(read_genuine::written(tables), &s, to);
    }
    answer_replay(r, to)
}
