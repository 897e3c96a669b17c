// A state: 2,048 signed numbers. specs/Layout.antt says where each of them stands. Reading past the end gives 0, storing there changes nothing.
#![tactic(auto)]

ghost use Rattle.std.specs.Prelude.{◌≡◌, ◌<◌, ◌+◌, set};
ghost use Rattle.state_layout.specs.Layout.{kept_most};
ghost use Rattle.base_bytes.specs.Numbers.{nat};
ghost use Rattle.state_layout.specs.Layout as layout;

// Strides, as in specs/Layout.antt.
const GLOBALS_FROM: usize = 2;

const PROCESSES_FROM: usize = GLOBALS_FROM + base_ceilings::GLOBALS_MOST;

const PROCESS_SIZE: usize = 2 + base_ceilings::NUMBERS_MOST;

const CHANNELS_FROM: usize = PROCESSES_FROM + PROCESS_SIZE * base_ceilings::PROCESSES_MOST;

const CHANNEL_SIZE: usize = 2 + base_ceilings::CAPACITY_MOST * base_ceilings::FIELDS_MOST;

// The greatest number that a state keeps.
pub const KEPT_MOST: usize = 2147483647;

// The number at a place, 0 where there is none.
pub fn cell(s: &[i32], i: usize) -> i32
    ensures { result ≡ layout.cell_of s.now i }
{
    if i < s.len() { s[i] } else { 0 }
}

// A number stored at a place, if the place is there.
pub fn put(s: &mut [i32], i: usize, v: i32)
    ensures { s.new ≡ set s.old i v }
{
    if i < s.len() {
        s[i] = v;
    }
}

// A number as a natural one, 0 below 0.
pub fn natural(v: i32) -> u32
    ensures value { result ≡ nat v }
    ensures upper_bound { result < kept_most + 1 }
{
    v.max(0) as u32
}

pub fn count(s: &[i32], i: usize) -> u32
    ensures value { result ≡ layout.count_of s.now i }
    ensures upper_bound { result < kept_most + 1 }
{
    natural(cell(s, i))
}

// A natural number as a state keeps it.
pub fn kept(n: usize) -> i32
    ensures { result ≡ layout.kept n }
{
    base_bytes::least(KEPT_MOST, n) as i32
}

pub fn put_count(s: &mut [i32], i: usize, n: usize)
    ensures { s.new ≡ set s.old i (layout.kept n) }
{
    put(s, i, kept(n));
}

// Where the global number k stands.
pub fn global_at(k: u32) -> usize
    ensures { result ≡ layout.global_at_lem k }
{
    GLOBALS_FROM + k as usize
}

// Where the record of process p begins.
pub fn process_at(p: u8) -> usize
    ensures { result ≡ layout.process_at_lem p }
{
    PROCESSES_FROM + PROCESS_SIZE * p as usize
}

// Where its number k stands.
pub fn local_at(p: u8, k: u32) -> usize
    ensures { result ≡ layout.local_at p k }
{
    PROCESSES_FROM + PROCESS_SIZE * p as usize + 2 + k as usize
}

// Where the record c of channels begins.
pub fn channel_at(c: u32) -> usize
    ensures { result ≡ layout.channel_at c }
{
    CHANNELS_FROM + CHANNEL_SIZE * c as usize
}

// Where the field f of its message m stands.
pub fn field_at(c: u32, m: u32, f: u32) -> usize
    ensures { result ≡ layout.field_at c m f }
{
    CHANNELS_FROM
        + CHANNEL_SIZE * c as usize
        + 2
        + base_ceilings::FIELDS_MOST * m as usize
        + f as usize
}

// How many processes there are.
pub fn processes(s: &[i32]) -> u32
    ensures value { result ≡ layout.processes_of s.now }
    ensures upper_bound { result < kept_most + 1 }
{
    count(s, 0)
}

// How many channels were made.
pub fn channels(s: &[i32]) -> u32
    ensures value { result ≡ layout.channels_of s.now }
    ensures upper_bound { result < kept_most + 1 }
{
    count(s, 1)
}

// The item that begins the proctype of process p.
pub fn unit_of(s: &[i32], p: u8) -> u32
    ensures value { result ≡ layout.unit_of s.now p }
    ensures upper_bound { result < kept_most + 1 }
{
    count(s, process_at(p))
}

// Its place.
pub fn place_of(s: &[i32], p: u8) -> u32
    ensures value { result ≡ layout.place_of s.now p }
    ensures upper_bound { result < kept_most + 1 }
{
    count(s, process_at(p) + 1)
}

// The item that declares the channel of record c.
pub fn declared_of(s: &[i32], c: u32) -> u32
    ensures value { result ≡ layout.declared_of s.now c }
    ensures upper_bound { result < kept_most + 1 }
{
    count(s, channel_at(c))
}

// How many messages it holds.
pub fn waiting_of(s: &[i32], c: u32) -> u32
    ensures value { result ≡ layout.waiting_of s.now c }
    ensures upper_bound { result < kept_most + 1 }
{
    count(s, channel_at(c) + 1)
}

// The field f of its message m.
pub fn field_of(s: &[i32], c: u32, m: u32, f: u32) -> i32
    ensures { result ≡ layout.field_of s.now c m f }
{
    cell(s, field_at(c, m, f))
}

// Zeros over the whole of a state.
pub fn clear(s: &mut [i32])
    ensures { s.new ≡ layout.cleared s.old }
{
    let most = base_bytes::least(base_ceilings::STATE_ROOM, s.len());
    s[..most].fill(0);
}
