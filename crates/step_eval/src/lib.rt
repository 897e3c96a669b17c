// Working expressions out over tables and a state, for a process. No function asks anything of its caller: past the end of tables and state every number is 0.
#![tactic(auto)]

ghost use Rattle.std.specs.Prelude.{◌≡◌, ◌+◌, ◌-◌, ◌<◌};
ghost use Rattle.base_values.specs.Operators.{truth};
ghost use Rattle.step_eval.specs.Variables as variables;
ghost use Rattle.step_eval.specs.Expressions as expressions;

use base_values::Fault;

// What the last item of an expression is.
#[derive(Clone, Copy)]
pub enum Node {
    Number,
    True,
    False,
    Plain,
    Index,
    Length,
    Unary(u8),
    Lazy(u8),
    Binary(u8),
    Choice,
    Other,
}

// The variable that the reference which ends with item j names.
pub fn variable(t: &[u32], j: usize) -> u32
    ensures { result ≡ variables.variable_of t.now j }
{
    table_layout::link(t, table_layout::link(t, j)) as u32
}

// The number of its type.
pub fn type_of(l: u32) -> u8
    ensures { result ≡ variables.type_of l }
{
    (38 + l % 8) as u8
}

// How many numbers it has.
pub fn size_of(l: u32) -> u32
    ensures value { result ≡ variables.size_of l }
    ensures upper_bound { result < 64 }
{
    l / 16 % 64
}

// Where its number k stands.
pub fn slot(l: u32, p: u8, k: u8) -> usize
    ensures { result ≡ variables.slot_of l p k }
{
    if l / 8 % 2 == 0 {
        state_layout::global_at(l / 1024 + k as u32)
    } else {
        state_layout::local_at(p, l / 1024 + k as u32)
    }
}

// The element with an index that was worked out.
pub fn element(l: u32, p: u8, a: Result<i32, Fault>) -> Result<usize, Fault>
    ensures { result ≡ variables.element_of l p a }
{
    let i = a?;
    if i < 0 {
        return Err(Fault::Index);
    }
    if state_layout::natural(i) < size_of(l) {
        Ok(slot(l, p, state_layout::natural(i) as u8))
    } else {
        Err(Fault::Index)
    }
}

pub fn load(s: &[i32], x: Result<usize, Fault>) -> Result<i32, Fault>
    ensures { result ≡ variables.load_of s.now x }
{
    Ok(state_layout::cell(s, x?))
}

// The record of the channel whose number was worked out.
pub fn channel(s: &[i32], a: Result<i32, Fault>) -> Result<u32, Fault>
    ensures { result ≡ variables.channel_of s.now a }
{
    let n = state_layout::natural(a?);
    if n == 0 {
        return Err(Fault::Channel);
    }
    if n <= state_layout::channels(s) {
        Ok(n - 1)
    } else {
        Err(Fault::Channel)
    }
}

// How many messages it holds.
pub fn length(s: &[i32], c: Result<u32, Fault>) -> Result<i32, Fault>
    ensures { result ≡ variables.length_of s.now c }
{
    Ok(state_layout::waiting_of(s, c?) as i32)
}

fn node_of(c: u8) -> Node
    ensures { result ≡ expressions.node_of c }
{
    match c {
        base_codes::NUMBER => Node::Number,
        base_codes::OR_ELSE => Node::Lazy(1),
        base_codes::AND_THEN => Node::Lazy(2),
        base_codes::NEGATE => Node::Unary(15),
        base_codes::NOT => Node::Unary(19),
        base_codes::COMPLEMENT => Node::Unary(20),
        base_codes::PLAIN => Node::Plain,
        base_codes::INDEX => Node::Index,
        base_codes::TRUE => Node::True,
        base_codes::FALSE => Node::False,
        base_codes::LEN => Node::Length,
        base_codes::CHOICE => Node::Choice,
        _ => {
            if c < base_codes::BIT_OR {
                return Node::Other;
            }
            if base_codes::REMAINDER < c {
                return Node::Other;
            }
            Node::Binary(c - 146)
        }
    }
}

pub fn is_fault(x: Result<i32, Fault>) -> bool
    ensures { result ≡ expressions.is_fault x }
{
    x.is_err()
}

// Is it a value other than 0?
pub fn holds(x: Result<i32, Fault>) -> bool
    ensures { result ≡ expressions.holds x }
{
    match x {
        Ok(v) => v != 0,
        Err(_) => false,
    }
}

// 0 or 1.
fn truth(x: Result<i32, Fault>) -> Result<i32, Fault>
    ensures { result ≡ truth x }
{
    Ok((x? != 0) as i32)
}

fn unary(op: u8, x: Result<i32, Fault>) -> Result<i32, Fault>
    ensures { result ≡ expressions.unary_by op x }
{
    Ok(base_values::apply_unary(op, x?))
}

fn right(op: u8, a: i32, y: Result<i32, Fault>) -> Result<i32, Fault>
    ensures { result ≡ expressions.right_by op a y }
{
    base_values::apply(op, a, y?)
}

fn both(op: u8, x: Result<i32, Fault>, y: Result<i32, Fault>) -> Result<i32, Fault>
    ensures { result ≡ expressions.both_by op x y }
{
    right(op, x?, y)
}

// Does the left operand alone decide?
fn decided(op: u8, x: Result<i32, Fault>) -> bool
    ensures { result ≡ expressions.decided op x }
{
    if is_fault(x) {
        return true;
    }
    if op == 1 { holds(x) } else { !holds(x) }
}

// One less, and 0 of 0.
pub fn minus_one(n: usize) -> usize
    ensures { result ≡ n - 1 }
{
    if n == 0 { 0 } else { n - 1 }
}

// Where the phrase that ends before item j starts.
fn start(t: &[u32], from: usize, j: usize) -> usize
    ensures { result ≡ expressions.start_of t.now from j }
{
    let x = base_bytes::least(table_layout::link(t, j), j);
    if from < x { x } else { from }
}

// A plain reference to declaration d.
fn plain(t: &[u32], s: &[i32], p: u8, d: usize) -> Result<i32, Fault>
    ensures { result ≡ expressions.plain_of t.now s.now p d }
{
    match table_layout::code(t, d) {
        base_codes::MESSAGE => Ok(state_layout::kept(table_layout::link(t, d))),
        base_codes::NAME => Ok(p as i32),
        _ => Ok(state_layout::cell(s, slot(table_layout::link(t, d) as u32, p, 0))),
    }
}

fn eval_at(t: &[u32], s: &[i32], p: u8, h: usize, from: usize, to: usize) -> Result<i32, Fault>
    ensures { result ≡ expressions.eval_t t.now s.now p h from to }
{
    if h == 0 {
        return Ok(0);
    }
    if to <= from {
        return Ok(0);
    }
    let j = to - 1;
    let n = node_of(table_layout::code(t, j));
    match n {
        Node::Number => Ok(state_layout::kept(table_layout::number(t, j))),
        Node::True => Ok(1),
        Node::False => Ok(0),
        Node::Plain => plain(t, s, p, table_layout::link(t, j)),
        Node::Index => {
            let x = eval_at(t, s, p, h - 1, from, j);
            load(s, element(variable(t, j), p, x))
        }
        Node::Length => {
            let x = eval_at(t, s, p, h - 1, from, j);
            length(s, channel(s, x))
        }
        Node::Unary(op) => {
            let x = eval_at(t, s, p, h - 1, from, j);
            unary(op, x)
        }
        Node::Lazy(op) => {
            let b = start(t, from, j);
            let x = eval_at(t, s, p, h - 1, from, b);
            if decided(op, x) {
                return truth(x);
            }
            truth(eval_at(t, s, p, h - 1, b, j))
        }
        Node::Binary(op) => {
            let b = start(t, from, j);
            let x = eval_at(t, s, p, h - 1, from, b);
            let y = eval_at(t, s, p, h - 1, b, j);
            both(op, x, y)
        }
        Node::Choice => {
            let c = start(t, from, j);
            let q = minus_one(c);
            let b = start(t, from, q);
            let x = eval_at(t, s, p, h - 1, from, b);
            if is_fault(x) {
                return x;
            }
            if holds(x) {
                eval_at(t, s, p, h - 1, b, q)
            } else {
                eval_at(t, s, p, h - 1, c, j)
            }
        }
        Node::Other => Ok(0),
    }
}

// The value of the expression that the items from `from` to before `to` hold.
pub fn eval(t: &[u32], s: &[i32], p: u8, from: usize, to: usize) -> Result<i32, Fault>
    ensures { result ≡ expressions.eval_of t.now s.now p from to }
{
    eval_at(t, s, p, base_ceilings::HEIGHT_MOST, from, to)
}

// Where the reference that they hold stands.
pub fn locate(t: &[u32], s: &[i32], p: u8, from: usize, to: usize) -> Result<usize, Fault>
    ensures { result ≡ expressions.locate_of t.now s.now p from to }
{
    let j = minus_one(to);
    if table_layout::code(t, j) == base_codes::INDEX {
        element(variable(t, j), p, eval(t, s, p, from, j))
    } else {
        Ok(slot(variable(t, j), p, 0))
    }
}
