// The steps that a place offers, in text order, each by its place: the k-th of them, and how many there are.
#![tactic(auto)]

ghost use Rattle.std.specs.Prelude.{◌≡◌, ◌+◌, ◌-◌, ◌<◌, ◌≤◌, [], ◌∷◌};
ghost use Rattle.base_ceilings.specs.Ceilings.{items_most};
ghost use Rattle.state_layout.specs.Layout.{kept_most};
ghost use Rattle.state_layout.specs.Layout as layout;
ghost use Rattle.step_offers.specs.Offers as offers;

// The most options of a selection, and how deep selections nest, with a statement in the last.
pub const OPTIONS_MOST: u32 = base_ceilings::STATEMENTS_MOST as u32;

pub const DEPTH_MOST: u32 = base_ceilings::SELECTIONS_MOST as u32 + 1;

pub const ITEMS_MOST: u32 = base_ceilings::ITEMS_MOST as u32;

// How far offers are counted.
const OFFERS_MOST: u32 = 8 * OPTIONS_MOST;

// The place that was looked for, or how many are left to pass.
#[derive(Clone, Copy)]
pub enum Walk {
    Found(u32),
    Left(u32),
}

// The place q is one more: the one that was looked for, or passed.
pub fn pick_one(k: u32, q: u32) -> Walk
    ensures { result ≡ offers.pick_at k (q ∷ []) }
{
    if k == 0 {
        Walk::Found(q)
    } else {
        Walk::Left(k - 1)
    }
}

// Does a selection stand at place q?
pub fn is_selection(t: &[u32], q: u32) -> bool
    ensures { result ≡ offers.is_selection t.now q }
{
    let c = table_layout::code(t, q as usize);
    c == base_codes::IF || c == base_codes::DO
}

// Is there an option at item m, before `stop`?
pub fn is_option(t: &[u32], m: u32, stop: u32) -> bool
    ensures { result ≡ offers.is_option t.now m stop }
{
    m < stop && table_layout::code(t, m as usize) == base_codes::OPTION
}

// Where the option at item m ends.
pub fn end_of(t: &[u32], m: u32, stop: u32) -> u32
    requires { (m < stop) × (stop ≤ items_most) }
    ensures value { result ≡ offers.end_of t.now m stop }
    ensures lower_bound { (m < result) × (result ≤ stop) }
{
    let e = base_bytes::least(table_layout::link(t, m as usize), stop as usize) as u32;
    if e <= m { m + 1 } else { e }
}

// The place of its first statement.
pub fn first_of(t: &[u32], m: u32) -> u32
    requires { m < items_most }
    ensures value { result ≡ offers.first_of t.now m }
    ensures upper_bound { result < 8196 }
{
    if table_layout::code(t, m as usize + 2) == base_codes::LABEL {
        m + 3
    } else {
        m + 1
    }
}

// The statement at place q, if it is `else` and the k-th.
fn else_at(t: &[u32], q: u32, k: u32) -> Walk
    ensures { result ≡ offers.pick_at k (offers.else_at t.now q 0) }
{
    if table_layout::code(t, q as usize) == base_codes::ELSE {
        pick_one(k, q)
    } else {
        Walk::Left(k)
    }
}

// What l lacks to n.
fn lacking(n: u32, l: u32) -> u32
    ensures { result ≡ n - l }
{
    n.saturating_sub(l)
}

// The k-th of what is offered at place q.
#[cycle(walk_item_walk_options)]
fn walk_item(t: &[u32], s: &[i32], p: u8, late: bool, d: u32, q: u32, stop: u32, k: u32) -> Walk
    requires { (q < kept_most + 1) × (stop ≤ items_most) }
    ensures { result ≡ offers.pick_at k (offers.offers_from t.now s.now p late d q stop) }
{
    if d == 0 {
        return Walk::Left(k);
    }
    if is_selection(t, q) {
        let e = base_bytes::least(table_layout::link(t, q as usize), stop as usize) as u32;
        let w = walk_options(t, s, p, late, d - 1, OPTIONS_MOST, q + 1, e, k);
        match w {
            Walk::Found(i) => Walk::Found(i),
            Walk::Left(l) => {
                if l == k {
                    walk_else(t, OPTIONS_MOST, q + 1, e, k)
                } else {
                    Walk::Left(l)
                }
            }
        }
    } else if step_ready::ready(t, s, p, late, q) {
        pick_one(k, q)
    } else {
        Walk::Left(k)
    }
}

// The k-th of what the options from item m on offer.
#[cycle(walk_item_walk_options)]
fn walk_options(
    t: &[u32],
    s: &[i32],
    p: u8,
    late: bool,
    d: u32,
    n: u32,
    m: u32,
    stop: u32,
    k: u32,
) -> Walk
    requires { stop ≤ items_most }
    ensures { result ≡ offers.pick_at k (offers.each_option t.now (λ f e. offers.offers_from t.now s.now p late d f e) n m stop) }
{
    if n == 0 {
        return Walk::Left(k);
    }
    if !is_option(t, m, stop) {
        return Walk::Left(k);
    }
    let e = end_of(t, m, stop);
    let w = walk_item(t, s, p, late, d, first_of(t, m), e, k);
    match w {
        Walk::Found(i) => Walk::Found(i),
        Walk::Left(l) => walk_options(t, s, p, late, d, n - 1, e + 1, stop, l),
    }
}

// The k-th `else` of the options from item m on.
fn walk_else(t: &[u32], n: u32, m: u32, stop: u32, k: u32) -> Walk
    requires { stop ≤ items_most }
    ensures { result ≡ offers.pick_at k (offers.each_option t.now (offers.else_at t.now) n m stop) }
{
    if n == 0 {
        return Walk::Left(k);
    }
    if !is_option(t, m, stop) {
        return Walk::Left(k);
    }
    let e = end_of(t, m, stop);
    let f = first_of(t, m);
    let w = else_at(t, f, k);
    match w {
        Walk::Found(i) => Walk::Found(i),
        Walk::Left(l) => walk_else(t, n - 1, e + 1, stop, l),
    }
}

// The step, from 0, that is the k-th that process p is offered.
pub fn offered(t: &[u32], s: &[i32], p: u8, late: bool, k: u32) -> Walk
    ensures { result ≡ offers.pick_at k (offers.offers_of t.now s.now p late (layout.place_of s.now p)) }
{
    walk_item(
        t,
        s,
        p,
        late,
        DEPTH_MOST,
        state_layout::place_of(s, p),
        ITEMS_MOST,
        k,
    )
}

// Is it offered any?
pub fn is_offered(t: &[u32], s: &[i32], p: u8, late: bool) -> bool
    ensures { result ≡ offers.is_some (offers.offers_of t.now s.now p late (layout.place_of s.now p)) }
{
    let w = offered(t, s, p, late, 0);
    match w {
        Walk::Found(_) => true,
        Walk::Left(_) => false,
    }
}

// How many it is offered, as far as 4,096.
pub fn count(t: &[u32], s: &[i32], p: u8, late: bool) -> u32
    ensures { result ≡ offers.count_of (offers.offers_of t.now s.now p late (layout.place_of s.now p)) }
{
    let w = offered(t, s, p, late, OFFERS_MOST);
    match w {
        Walk::Found(_) => OFFERS_MOST,
        Walk::Left(l) => lacking(OFFERS_MOST, l),
    }
}
