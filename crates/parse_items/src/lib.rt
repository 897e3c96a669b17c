// Parsing: from the kinds of tokens to the items of the tree, by one loop over an explicit stack that the tables of `parse_tables` drive.
#![tactic(auto)]

ghost use Rattle.std.specs.Prelude.{◌≡◌, List, ◌++◌, ℕ, ◌+◌, ◌-◌, ◌*◌, ◌≤◌, ◌<◌, min, length, take, drop};
ghost use Rattle.std.specs.Option.{unwrap_or, IfSome};
ghost use Rattle.base_ceilings.specs.Ceilings.{items_most, tokens_most};
ghost use Rattle.parse_tables.specs.Tables.{choices, rights, span};
ghost use Rattle.parse_machine.specs.Machine.{symbol_of, place_of, count_of_lem, clipped, column, marked, mark, write, expand, step, machine, most_stack, place_room};
ghost use Rattle.parse_items.specs.Parse.{Parses};
ghost use Rattle.parse_items.specs.Views.{Stepped, Ran, Spread, conf};

// What the tokens can ask of the loop at most: 19 places of the stack and 37 turns for each.
const STACK: usize = 20 * base_ceilings::TOKENS_MOST;

const BOTTOM: usize = STACK - 1;

const TURNS: usize = 40 * base_ceilings::TOKENS_MOST;

// Room for a place in a packed number (specs/Machine.antt of `parse_machine`).
const PLACE_ROOM: usize = 4096;

// Where the numbers of symbols change (specs/Numbering.antt of `parse_tables`): from terminals that write to nonterminals, to those that go on with what was begun, to items.
const NAME: u8 = 70;

const NONTERMINALS: u8 = 73;

const LATE: usize = 143;

const WRITTEN: u8 = base_codes::OR_ELSE;

const MODEL: usize = 141;

// What is no kind has the column after the last.
const NO_KIND: u8 = 73;

#[derive(Drop)]
pub enum Parsed {
    // How many items are written.
    Items(usize),
    // Why not, and at which token.
    Refused(u8, usize),
}

// Where the machine stands: the stack is stack[sp..], the next token kinds[pos], the items out[..n].
#[derive(Drop)]
struct State {
    sp: usize,
    pos: usize,
    n: usize,
}

#[derive(Drop)]
enum Step {
    Go(State),
    Stop(usize),
    Done(usize),
    Spent,
}

#[derive(Drop)]
enum Halt {
    Accepted(usize),
    Stopped(usize),
    Exhausted,
}

// The column of the tables for a kind: 73 for what is none.
fn clip(k: u8) -> u8
    ensures { result ≡ clipped k }
{
    if k == 0 {
        return NO_KIND;
    }
    if k < NO_KIND { k } else { NO_KIND }
}

// And for the token at a place: 0 at the end.
fn column(kinds: &[u8], pos: usize) -> u8
    ensures { result ≡ column kinds.now pos }
{
    if pos < kinds.len() {
        clip(kinds[pos])
    } else {
        0
    }
}

// An item for the stack's number v and the token at, if there is room.
fn write(out: &mut [usize], v: usize, at: usize, s: State) -> Step
    requires { (at < place_room) × (s.sp ≤ most_stack) × (s.n ≤ items_most) × (s.pos ≤ tokens_most) × (length out.old ≡ items_most) }
    ensures { (a : List ℕ) → Stepped (write v at (drop s.sp a) s.pos (take s.n out.old)) result a out.new }
{
    let n = s.n;
    if n < base_ceilings::ITEMS_MOST {
        out[n] = v % 256 + 256 * at + 1048576 * base_bytes::minus(n, v / 1048576 % 65536);
        return Step::Go(State {
            sp: s.sp,
            pos: s.pos,
            n: n + 1,
        });
    }
    Step::Spent
}

// The symbols of a row of right sides, from place first on, n of them, above the top; the new top.
fn push(
    sides: &[u8],
    stack: &mut [usize],
    top: usize,
    first: usize,
    n: usize,
    marking: usize,
) -> usize
    requires { (sides.now ≡ rights) × (n ≤ top) × (top ≤ length stack.old) × (first < items_most) × (n < 256) × (marking ≤ 18446744073709551360) }
    ensures { (drop result stack.new ≡ marked marking (span first n) ++ drop top stack.old) × (result ≡ top - n) × (length stack.new ≡ length stack.old) }
{
    let at = top - n;
    for k in (0..n).rev() {
        stack[at + k] = usize::from(base_bytes::byte_at(sides, first + k)) + marking;
    }
    at
}

// What is added to each symbol of a right side.
fn mark_of(v: usize, pos: usize, n: usize) -> usize
    requires { (pos ≤ tokens_most) × (n ≤ items_most) }
    ensures { ((o : List ℕ) → length o ≡ n → result ≡ mark v pos o) × (result ≤ 18446744073709551360) }
{
    if v % 256 < LATE {
        256 * pos + 1048576 * n
    } else {
        v - v % 256
    }
}

// The symbols of the right side p, if there is one, take the place of v, which is on top.
fn expand(sides: &[u8], stack: &mut [usize], v: usize, p: Option<usize>, s: State) -> Step
    requires { (sides.now ≡ rights) × IfSome p (λ q. (0 < q) × (q < 512)) × (s.sp < most_stack) × (s.n ≤ items_most) × (s.pos ≤ tokens_most) × (length stack.old ≡ most_stack) }
    ensures { (o : List ℕ) → length o ≡ items_most → Stepped (expand v (drop (s.sp + 1) stack.old) s.pos (take s.n o) (unwrap_or p 0)) result stack.new o }
{
    let sp = s.sp;
    let pos = s.pos;
    let n = s.n;
    let Some(p) = p else {
        return Step::Stop(pos);
    };
    let size = usize::from(base_bytes::byte_at(sides, p * 13));
    if size > sp + 1 {
        return Step::Spent;
    }
    let top = push(sides, stack, sp + 1, p * 13 + 1, size, mark_of(v, pos, n));
    Step::Go(State { sp: top, pos, n })
}

fn symbol_of(v: usize) -> u8
    ensures { result ≡ symbol_of v }
{
    (v % 256) as u8
}

// One turn, by the tables that are lent.
fn step_on(
    rows: &[u8],
    sides: &[u8],
    kinds: &[u8],
    stack: &mut [usize],
    out: &mut [usize],
    s: State,
) -> Step
    requires { (rows.now ≡ choices) × (sides.now ≡ rights) × (s.sp ≤ most_stack) × (s.n ≤ items_most) × (s.pos ≤ tokens_most) × (length kinds.now ≤ tokens_most) × (length stack.old ≡ most_stack) × (length out.old ≡ items_most) }
    ensures { Stepped (step kinds.now (conf stack.old out.old s)) result stack.new out.new }
{
    let sp = s.sp;
    let pos = s.pos;
    let n = s.n;
    if sp >= STACK {
        if pos < kinds.len() {
            return Step::Stop(pos);
        }
        return Step::Done(n);
    }
    let v = stack[sp];
    let x = symbol_of(v);
    let k = column(kinds, pos);
    if x < NONTERMINALS {
        if pos >= kinds.len() {
            return Step::Stop(pos);
        }
        if x != k {
            return Step::Stop(pos);
        }
        if x < NAME {
            return Step::Go(State {
                sp: sp + 1,
                pos: pos + 1,
                n,
            });
        }
        return write(
            out,
            v,
            pos,
            State {
                sp: sp + 1,
                pos: pos + 1,
                n,
            },
        );
    }
    if x < WRITTEN {
        return expand(sides, stack, v, parse_tables::production(rows, x, k), s);
    }
    write(out, v, v / 256 % PLACE_ROOM, State { sp: sp + 1, pos, n })
}

// The loop.
fn run(rows: &[u8], sides: &[u8], kinds: &[u8], stack: &mut [usize], out: &mut [usize]) -> Halt
    requires { (rows.now ≡ choices) × (sides.now ≡ rights) × (length kinds.now ≤ tokens_most) × (length stack.old ≡ most_stack) × (length out.old ≡ items_most) }
    ensures { Ran (machine kinds.now) result out.new }
{
    stack[BOTTOM] = MODEL;
    let mut s = State {
        sp: BOTTOM,
        pos: 0,
        n: 0,
    };
    for _ in 0..TURNS {
        let next = step_on(rows, sides, kinds, stack, out, s);
        match next {
            Step::Go(t) => {
                s = t;
            }
            Step::Stop(i) => {
                return Halt::Stopped(i);
            }
            Step::Done(n) => {
                return Halt::Accepted(n);
            }
            Step::Spent => {
                return Halt::Exhausted;
            }
        }
    }
    Halt::Exhausted
}

// The loop, with its tables laid out.
fn drive(kinds: &[u8], stack: &mut [usize], out: &mut [usize]) -> Halt
    requires { (length kinds.now ≤ tokens_most) × (length stack.old ≡ most_stack) × (length out.old ≡ items_most) }
    ensures { Ran (machine kinds.now) result out.new }
{
    let mut rows = [0u8; 5476];
    let mut sides = [0u8; 2275];
    parse_tables::lay_choices(&mut rows);
    parse_tables::lay_rights(&mut sides);
    run(&rows, &sides, kinds, stack, out)
}

fn token_of(v: usize) -> u32
    ensures { result ≡ place_of v }
{
    (v / 256 % PLACE_ROOM) as u32
}

fn size_of(v: usize) -> u32
    ensures { result ≡ count_of_lem v }
{
    (v / 1048576 % 65536) as u32
}

// The first n items, taken apart into three arrays.
fn spread(work: &[usize], n: usize, codes: &mut [u8], tokens: &mut [u32], sizes: &mut [u32])
    requires { (n ≤ length work.now) × (n ≤ length codes.old) × (n ≤ length tokens.old) × (n ≤ length sizes.old) }
    ensures { Spread n work.now codes.old codes.new tokens.old tokens.new sizes.old sizes.new }
{
    for i in 0..n {
        let v = work[i];
        codes[i] = symbol_of(v);
        tokens[i] = token_of(v);
        sizes[i] = size_of(v);
    }
}

// The items of the tokens of these kinds, or the first that can continue no text of the grammar, or that is too deep.
pub fn parse(kinds: &[u8], codes: &mut [u8], tokens: &mut [u32], sizes: &mut [u32]) -> Parsed
    ensures { Parses kinds.now (min (length codes.old) (min (length tokens.old) (length sizes.old))) result codes.old codes.new tokens.old tokens.new sizes.old sizes.new }
{
    if base_bytes::least(codes.len(), base_bytes::least(tokens.len(), sizes.len()))
        < base_ceilings::ITEMS_MOST
    {
        return Parsed::Refused(7, 0);
    }
    if kinds.len() > base_ceilings::TOKENS_MOST {
        return Parsed::Refused(2, base_ceilings::TOKENS_MOST);
    }
    let d = parse_depth::first_too_deep(kinds);
    let mut stack = [0usize; STACK];
    let mut work = [0usize; base_ceilings::ITEMS_MOST];
    let a = drive(kinds, &mut stack, &mut work);
    match a {
        Halt::Stopped(i) => {
            match d {
                None => Parsed::Refused(3, i),
                Some(k) => {
                    if k <= i {
                        Parsed::Refused(2, k)
                    } else {
                        Parsed::Refused(3, i)
                    }
                }
            }
        }
        Halt::Accepted(n) => {
            if let Some(k) = d {
                return Parsed::Refused(2, k);
            }
            spread(&work, n, codes, tokens, sizes);
            Parsed::Items(n)
        }
        Halt::Exhausted => Parsed::Refused(6, 0),
    }
}
