// How far the work on a list is, told on standard error: on a terminal at most once a second, else every thousand commands.
use std::io::IsTerminal;
use std::rt::Clock;

// After so many commands it is told where standard error is no terminal.
const COMMANDS_BETWEEN: u32 = 1000;

// The descriptor of standard error.
const STDERR_FILENO: i32 = 2;

// Whether standard error is a terminal, and the second in which something was told last.
#[derive(Drop)]
pub struct Watch {
    pub terminal: bool,
    pub second: Option<i64>,
}

// The seconds since 1970, if the clock can tell them.
fn second(clock: &impl Clock) -> Option<i64> {
    let t = clock.since_1970().ok()?;
    i64::try_from(t.as_secs()).ok()
}

// A watch that begins now.
pub fn begun(clock: &impl Clock, stderr: &impl IsTerminal) -> Watch {
    Watch {
        terminal: stderr.is_terminal(),
        second: second(clock),
    }
}

fn tell(n: u32, x: Option<u32>) {
    io::print_decimal(STDERR_FILENO, n as u64);
    if let Some(k) = x {
        io::write_all(STDERR_FILENO, b" of ");
        io::print_decimal(STDERR_FILENO, k as u64);
    }
    io::write_all(STDERR_FILENO, b" commands\n");
}

// Tells that n commands are worked off, of so many as are expected, if it is time.
pub fn told(clock: &impl Clock, w: Watch, n: u32, x: Option<u32>) -> Watch {
    let terminal = w.terminal;
    let last = w.second;
    if terminal {
        let now = second(clock);
        if now != last {
            tell(n, x);
        }
        return Watch {
            terminal,
            second: now,
        };
    }
    if n % COMMANDS_BETWEEN == 0 {
        tell(n, x);
    }
    Watch {
        terminal,
        second: last,
    }
}
