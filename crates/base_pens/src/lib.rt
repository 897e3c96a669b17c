// Writing numbers, and bytes packed four to a number, one after the other to a lent slice that may end too soon.
#![tactic(auto)]

ghost use Rattle.std.specs.Prelude.{◌≡◌, ◌+◌, ◌<◌};
ghost use Rattle.base_pens.specs.Pen.{pen, write};
ghost use Rattle.base_pens.specs.Pack as pack;
ghost use Rattle.base_pens.specs.Pack.{well};

// Where the pen stands, and up to three bytes that wait for a fourth.
#[derive(Drop)]
pub struct Ink {
    pub at: usize,
    pub held: u8,
    pub a: u8,
    pub b: u8,
    pub c: u8,
}

// Writes a number; past the end nothing, and the pen stands one past the end.
pub fn put(out: &mut [u32], p: usize, v: u32) -> usize
    ensures { pen out.new result ≡ write v (pen out.old p) }
{
    if p < out.len() {
        out[p] = v;
        p + 1
    } else {
        out.len() + 1
    }
}

fn wide(x: u8) -> u32
    ensures { (result ≡ x) × (result < 256) }
{
    x as u32
}

// Four bytes as a number, the first lowest.
pub fn four(a: u8, b: u8, c: u8, d: u8) -> u32
    ensures { result ≡ pack.four a b c d }
{
    wide(a) + 256 * wide(b) + 65536 * wide(c) + 16777216 * wide(d)
}

// Digit k of a number in bytes, the fourth for any k past it.
pub fn digit(k: usize, w: usize) -> u8
    ensures { result ≡ pack.digit k w }
{
    match k {
        0 => (w % 256) as u8,
        1 => (w / 256 % 256) as u8,
        2 => (w / 65536 % 256) as u8,
        _ => (w / 16777216 % 256) as u8,
    }
}

// One byte more.
pub fn drip(out: &mut [u32], i: Ink, x: u8) -> Ink
    ensures { well (pen out.new result.at) result.held result.a result.b result.c ≡ pack.drip x (well (pen out.old i.at) i.held i.a i.b i.c) }
{
    let Ink { at, held, a, b, c } = i;
    match held {
        0 => Ink {
            at,
            held: 1,
            a: x,
            b: 0,
            c: 0,
        },
        1 => Ink {
            at,
            held: 2,
            a,
            b: x,
            c: 0,
        },
        2 => Ink {
            at,
            held: 3,
            a,
            b,
            c: x,
        },
        _ => {
            let p = put(out, at, four(a, b, c, x));
            Ink {
                at: p,
                held: 0,
                a: 0,
                b: 0,
                c: 0,
            }
        }
    }
}

// Bytes, one after the other.
pub fn pour(s: &[u8], out: &mut [u32], i: Ink) -> Ink
    ensures { well (pen out.new result.at) result.held result.a result.b result.c ≡ pack.pour s.now (well (pen out.old i.at) i.held i.a i.b i.c) }
{
    let mut w = i;
    for b in s {
        w = drip(out, w, *b);
    }
    w
}

// What waits is written.
pub fn settle(out: &mut [u32], i: Ink) -> usize
    ensures { pen out.new result ≡ pack.settle (well (pen out.old i.at) i.held i.a i.b i.c) }
{
    let Ink { at, held, a, b, c } = i;
    if held == 0 {
        at
    } else {
        put(out, at, four(a, b, c, 0))
    }
}
