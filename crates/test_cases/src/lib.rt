// Stored cases on standard input, and their answers on standard output. A case comes as five digits, its length, and a line end; then its bytes, and a line end.
#![tactic(auto)]

ghost use Rattle.std.specs.Prelude.{◌≡◌, min, length, take};
ghost use Rattle.test_cases.specs.Within.{Within};

// The descriptor of standard output.
const STDOUT_FILENO: i32 = 1;

fn wide(b: u8) -> usize {
    b as usize
}

fn wider(x: u32) -> usize {
    x as usize
}

// The digits at the front of a line, taken as a number; any other byte counts as its last digit.
fn length_of(head: &[u8; 6]) -> usize {
    let mut n: usize = 0;
    for b in &head[..5] {
        n = n % 10000 * 10 + wide(*b) % 16 % 10;
    }
    n
}

// Reads n bytes, as far as there is room.
fn take_in(buffer: &mut [u8], n: usize) -> usize {
    let most = base_bytes::least(n, buffer.len());
    io::read_full(0, &mut buffer[..most])
}

// Reads the next case, as far as there is room for it, and answers how many bytes of the buffer it has; None at the end of the cases.
pub fn next(buffer: &mut [u8]) -> Option<usize>
    ensures { Within (length buffer.old) result }
{
    let mut head = [0u8; 6];
    if io::read_full(0, &mut head) < 6 {
        return None;
    }
    let got = take_in(buffer, length_of(&head));
    let mut end = [0u8; 1];
    io::read_full(0, &mut end);
    Some(base_bytes::least(got, buffer.len()))
}

// Shows each case in its turn: at most a million, so that this ends.
pub fn for_each<Show: Fn(&[u8])>(buffer: &mut [u8], show: Show)
    requires { Show.IsAlwaysCallable show }
{
    for _ in 0..1000000 {
        let Some(n) = next(buffer) else {
            return;
        };
        show(&buffer[..n]);
    }
}

// The first n bytes of a buffer, as far as there are so many.
pub fn front(buffer: &[u8], n: usize) -> &[u8]
    ensures { result.now ≡ take (min n (length buffer.now)) buffer.now }
{
    let m = base_bytes::least(n, buffer.len());
    &buffer[..m]
}

pub fn put(s: &[u8]) {
    io::write_all(STDOUT_FILENO, s);
}

// A number behind a byte.
pub fn number(before: u8, n: usize) {
    put(&[before]);
    io::print_decimal(STDOUT_FILENO, n as u64);
}

// The first n of three arrays side by side, as ` a@b-c`.
pub fn triples(a: &[u8], b: &[u32], c: &[u32], n: usize) {
    for ((kind, from), to) in a.iter().zip(b).zip(c).take(n) {
        number(b' ', wide(*kind));
        number(b'@', wider(*from));
        number(b'-', wider(*to));
    }
}
