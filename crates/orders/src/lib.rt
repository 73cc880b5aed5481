// The rules along windows and orders of pairs.

#![tactic(auto)]

ghost use Rattle.std.specs.Prelude.{◌≡◌, true, ◌<◌};
ghost use Rattle.states.specs.State.{Search, Spaced, Dead};
ghost use Rattle.cells.specs.View.{view, Prunes, Says, Always, From};
ghost use Rattle.lent.specs.Lent.{Lent};
ghost use Rattle.orders.specs.Order.{HitFlag, Tills};

use cells::State;
use lent::Tables;

// Job j starts at x or later, or is out.
pub fn from(s: &mut State, j: usize, x: u64)
    requires { j < 24 }
    ensures { Says (From j x) s.old s.new }
{
    if u64::from(cells::hi(s, j)) < x {
        cells::put_barred(s, j);
        return;
    }
    if u64::from(cells::lo(s, j)) < x {
        cells::put_lo(s, j, x as u32);
    }
}

// Job j starts by x.
pub fn till(s: &mut State, j: usize, x: u32)
    requires { j < 24 }
    ensures { Tills s.old j x s.new }
{
    if x < cells::hi(s, j) {
        cells::put_hi(s, j, x);
    }
}

// a is over before b and a is inside: b starts late enough, or is out.
fn push(s: &mut State, a: usize, b: usize, wait: u32)
    requires { (a < 24) × (b < 24) }
    ensures { Prunes (Spaced a b wait) s.old s.new }
{
    if !cells::sure(s, a, b) {
        return;
    }
    if !cells::inside(s, a) {
        return;
    }
    let x = cells::sum(cells::lo(s, a), wait);
    from(s, b, x);
}

// a is over before b and b is inside: a starts early enough, or is out.
fn pull(s: &mut State, a: usize, b: usize, wait: u32)
    requires { (a < 24) × (b < 24) }
    ensures { Prunes (Spaced a b wait) s.old s.new }
{
    if !cells::sure(s, a, b) {
        return;
    }
    if !cells::inside(s, b) {
        return;
    }
    let y = cells::hi(s, b);
    if y < wait {
        cells::put_barred(s, a);
        return;
    }
    till(s, a, y - wait);
}

// The windows keep a from being over before b.
fn far(s: &mut State, a: usize, b: usize, wait: u32)
    requires { (a < 24) × (b < 24) }
    ensures { Prunes (Spaced a b wait) s.old s.new }
{
    if u64::from(cells::hi(s, b)) < cells::sum(cells::lo(s, a), wait) {
        cells::put_never(s, a, b);
    }
}

// a over before b: not b before a. Of two that interfere, not a before b: b before a.
fn orders(s: &mut State, a: usize, b: usize, hit: bool)
    requires { (a < 24) × (b < 24) }
    ensures { Prunes (HitFlag a b hit) s.old s.new }
{
    if cells::sure(s, a, b) {
        cells::put_never(s, b, a);
        return;
    }
    if !cells::never(s, a, b) {
        return;
    }
    if hit {
        cells::put_sure(s, b, a);
    }
}

// Both orders of a pair and one of its jobs inside: the other is out.
fn clash(s: &mut State, a: usize, b: usize)
    requires { (a < 24) × (b < 24) }
    ensures { Prunes Always s.old s.new }
{
    if !cells::sure(s, a, b) {
        return;
    }
    if !cells::never(s, a, b) {
        return;
    }
    if cells::inside(s, a) {
        cells::put_barred(s, b);
        return;
    }
    if cells::inside(s, b) {
        cells::put_barred(s, a);
    }
}

// All of these for one pair.
fn pair(s: &mut State, a: usize, b: usize, t: &Tables)
    requires { (a < 24) × (b < 24) }
    ensures { Prunes (Lent t.now) s.old s.new }
{
    let wait = lent::wait(t, a, b);
    push(s, a, b, wait);
    pull(s, a, b, wait);
    far(s, a, b, wait);
    orders(s, a, b, jobs::has(lent::hits(t, a), b));
    clash(s, a, b);
}

// Of a pair in order: something is missing that follows from it. Any answer is right; this one saves work.
fn strains(s: &State, a: usize, b: usize, wait: u32) -> bool
    requires { (a < 24) × (b < 24) }
{
    if !cells::never(s, b, a) {
        return true;
    }
    if cells::never(s, a, b) {
        return true;
    }
    let early = u64::from(cells::lo(s, b)) < cells::sum(cells::lo(s, a), wait);
    if early && cells::inside(s, a) {
        return true;
    }
    let late = u64::from(cells::hi(s, b)) < cells::sum(cells::hi(s, a), wait);
    late && cells::inside(s, b)
}

// The rules may tell something of the pair. Any answer is right; this one saves work.
fn stirs(s: &State, a: usize, b: usize, t: &Tables) -> bool
    requires { (a < 24) × (b < 24) }
{
    let wait = lent::wait(t, a, b);
    if cells::sure(s, a, b) {
        return strains(s, a, b, wait);
    }
    if !cells::never(s, a, b) {
        return u64::from(cells::hi(s, b)) < cells::sum(cells::lo(s, a), wait);
    }
    if cells::sure(s, b, a) {
        return false;
    }
    jobs::has(lent::hits(t, a), b)
}

// The pair a, b, unless the rules tell nothing of it or a is a stray bit.
fn pair_at(s: &mut State, a: usize, b: usize, t: &Tables)
    requires { b < 24 }
    ensures { Prunes (Lent t.now) s.old s.new }
{
    if 24 <= a {
        return;
    }
    if stirs(s, a, b, t) {
        pair(s, a, b, t);
    }
}

// All pairs with b, where no job is out.
fn pairs_at(s: &mut State, b: usize, t: &Tables)
    requires { b < 24 }
    ensures { Prunes (Lent t.now) s.old s.new }
{
    if cells::barred(s, b) {
        return;
    }
    for a in jobs::each(!cells::outsides(s)) {
        pair_at(s, a, b, t);
    }
}

// All pairs of jobs.
pub fn pairs(s: &mut State, t: &Tables)
    ensures { Prunes (Lent t.now) s.old s.new }
{
    for b in 0..24 {
        pairs_at(s, b, t);
    }
}

// m is inside and over before b: what is over before m is over before b. A stray bit is no job.
fn through(s: &mut State, m: usize, b: usize)
    requires { b < 24 }
    ensures { Prunes Always s.old s.new }
{
    if 24 <= m {
        return;
    }
    if !cells::sure(s, m, b) {
        return;
    }
    if !cells::inside(s, m) {
        return;
    }
    let v = cells::row_sure(s, m);
    cells::put_sures(s, b, v);
}

// All that is over before b by way of another job.
fn through_all(s: &mut State, b: usize)
    requires { b < 24 }
    ensures { Prunes Always s.old s.new }
{
    for m in jobs::each(cells::insides(s) & cells::row_sure(s, b)) {
        through(s, m, b);
    }
}

// A job whose window is empty is out.
fn shut(s: &mut State, j: usize)
    requires { j < 24 }
    ensures { Prunes Always s.old s.new }
{
    if cells::hi(s, j) < cells::lo(s, j) {
        cells::put_barred(s, j);
    }
}

// Chains and window of a job that is not out.
fn chain(s: &mut State, b: usize)
    requires { b < 24 }
    ensures { Prunes Always s.old s.new }
{
    if cells::barred(s, b) {
        return;
    }
    through_all(s, b);
    shut(s, b);
}

// Chains and windows of every job.
pub fn chains(s: &mut State)
    ensures { Prunes Always s.old s.new }
{
    for b in 0..24 {
        chain(s, b);
    }
}

// Some job is both inside and barred: no plan is left.
pub fn broken(s: &State) -> bool
    ensures { result ≡ true → (P : Search) → Dead P (view s.now) }
{
    (cells::insides(s) & cells::outsides(s)) != 0
}
