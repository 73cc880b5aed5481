// Pruning by supports. A consumer b is a job, or 24 for End, as the rows of the lent table are numbered.

#![tactic(auto)]

ghost use Rattle.std.specs.Prelude.{ℕ, ◌+◌, ◌≤◌, ◌<◌, T};
ghost use Rattle.facts.specs.Facts.{has};
ghost use Rattle.cells.specs.View.{view, Prunes};
ghost use Rattle.lent.specs.Lent.{wants_of, wait_of, Lent};
ghost use Rattle.prune.specs.Prune.{Lost, Spared, Begun, LeastEnd, Awaits, OnlyOne, OnlyStart};

use cells::State;
use lent::Tables;

// A fact of the consumer b has no candidate.
fn none_left(s: &mut State, b: usize)
    requires { b ≤ 24 }
    ensures { Prunes (Lost s.old b) s.old s.new }
{
    if b == 24 {
        cells::kill(s);
        return;
    }
    cells::put_barred(s, b);
}

// Job a is the support of b in the plan left; d is another job that deletes its fact, or a stray bit.
fn spare(s: &mut State, b: usize, a: usize, d: usize)
    requires { (b ≤ 24) × (a < 24) }
    ensures { (kills : ℕ) → T (has kills d) → Prunes (Spared s.old b a kills) s.old s.new }
{
    if 24 <= d {
        return;
    }
    if d == b {
        return;
    }
    if supports::late_for(s, b, d) {
        cells::put_sure(s, d, a);
        return;
    }
    if !cells::never(s, d, a) {
        return;
    }
    if b < 24 {
        cells::put_sure(s, b, d);
    }
}

// The same for all jobs that delete it.
fn spare_all(s: &mut State, b: usize, a: usize, kills: u32)
    requires { (b ≤ 24) × (a < 24) }
    ensures { Prunes (Spared s.old b a kills) s.old s.new }
{
    for d in jobs::each(kills) {
        spare(s, b, a, d);
    }
}

// The support a is over before b.
fn serve(s: &mut State, b: usize, a: usize)
    requires { (b ≤ 24) × (a < 24) }
    ensures { (kills : ℕ) → Prunes (Spared s.old b a kills) s.old s.new }
{
    if b < 24 {
        cells::put_sure(s, a, b);
    }
}

// The single candidate a of the consumer b, which is there.
fn take_only(s: &mut State, b: usize, a: usize, kills: u32)
    requires { (b ≤ 24) × (a < 24) }
    ensures { Prunes (Spared s.old b a kills) s.old s.new }
{
    cells::put_inside(s, a);
    serve(s, b, a);
    spare_all(s, b, a, kills);
}

// Start alone gives the fact to b: a job d that deletes it comes after b, or is out for End. A stray bit is no job.
fn follow(s: &mut State, b: usize, d: usize)
    requires { b ≤ 24 }
    ensures { (kills : ℕ) → T (has kills d) → Prunes (Begun s.old b kills) s.old s.new }
{
    if 24 <= d {
        return;
    }
    if d == b {
        return;
    }
    if b == 24 {
        cells::put_barred(s, d);
        return;
    }
    cells::put_sure(s, b, d);
}

// The same for all jobs that delete it.
fn follow_all(s: &mut State, b: usize, kills: u32)
    requires { b ≤ 24 }
    ensures { Prunes (Begun s.old b kills) s.old s.new }
{
    for d in jobs::each(kills) {
        follow(s, b, d);
    }
}

// The smaller of m and where b may start at the earliest behind job a, if that is no stray bit.
fn sooner(s: &State, a: usize, b: usize, t: &Tables, m: u64) -> u64
    requires { b ≤ 24 }
    ensures { (result ≤ m) × (a < 24 → result ≤ (view s.now).lo a + wait_of t.now a b) }
{
    if 24 <= a {
        return m;
    }
    cells::sum(cells::lo(s, a), lent::wait(t, a, b)).min(m)
}

// Where b may start at the earliest behind the first of its candidates; where there is none, later than any start.
fn least_of(s: &State, w: u32, b: usize, t: &Tables) -> u64
    requires { b ≤ 24 }
    ensures { LeastEnd s.now t.now w b result }
{
    let mut m: u64 = 8589934592;
    for a in jobs::each(w) {
        m = sooner(s, a, b, t, m);
    }
    m
}

// The consumer b waits for the first of its candidates.
fn wait(s: &mut State, b: usize, w: u32, t: &Tables)
    requires { b ≤ 24 }
    ensures { Prunes (Awaits t.now s.old b w) s.old s.new }
{
    if b < 24 {
        let x = least_of(s, w, b, t);
        orders::from(s, b, x);
    }
}

// The single candidate is taken, where the consumer is there.
fn only_one(s: &mut State, b: usize, w: u32, kills: u32)
    requires { b ≤ 24 }
    ensures { Prunes (OnlyOne s.old b w kills) s.old s.new }
{
    if let Some(a) = jobs::single(w) {
        if supports::there_for(s, b) {
            take_only(s, b, a, kills);
        }
    }
}

// The rule on Start where no job is a candidate.
fn with_start(s: &mut State, b: usize, w: u32, kills: u32)
    requires { b ≤ 24 }
    ensures { Prunes (OnlyStart s.old b w kills) s.old s.new }
{
    if w == 0 && supports::there_for(s, b) {
        follow_all(s, b, kills);
    }
}

// The rules on supports for the fact p of the consumer b.
fn support(s: &mut State, b: usize, p: usize, t: &Tables)
    requires { (b ≤ 24) × (p < 64) }
    ensures { T (has (wants_of t.now b) p) → Prunes (Lent t.now) s.old s.new }
{
    let kills = lent::killers(t, p);
    let dang = supports::threats(s, b, kills, true);
    let w = supports::cands(s, b, lent::adders(t, p), dang);
    if supports::may_start(t, p, dang) {
        with_start(s, b, w, kills);
        return;
    }
    if w == 0 {
        none_left(s, b);
        return;
    }
    wait(s, b, w, t);
    only_one(s, b, w, kills);
}

// The consumer b is End, or a job that is not out. Any answer is right; this one saves work.
fn live(s: &State, b: usize) -> bool
    requires { b ≤ 24 }
{
    b == 24 || !cells::barred(s, b)
}

// The same for all conditions of a job, or the goals.
fn consumer(s: &mut State, b: usize, t: &Tables)
    requires { b ≤ 24 }
    ensures { Prunes (Lent t.now) s.old s.new }
{
    if !live(s, b) {
        return;
    }
    for p in facts::each(lent::wants(t, b)) {
        support(s, b, p, t);
    }
}

// The rules on supports for all consumers.
fn consumers(s: &mut State, t: &Tables)
    ensures { Prunes (Lent t.now) s.old s.new }
{
    for b in 0..25 {
        consumer(s, b, t);
    }
}

// Every rule once, or until a job is inside and barred.
fn round(s: &mut State, t: &Tables)
    ensures { Prunes (Lent t.now) s.old s.new }
{
    orders::pairs(s, t);
    if orders::broken(s) {
        return;
    }
    leads::all_led(s, t);
    orders::chains(s);
    if orders::broken(s) {
        return;
    }
    consumers(s, t);
}

// The rules that cost more: room for jobs that exclude each other, and supports that are different.
fn rare(s: &mut State, t: &Tables)
    ensures { Prunes (Lent t.now) s.old s.new }
{
    if crowds::crowded(s, t) {
        return;
    }
    distinct::distinct(s, t);
}

// One round, and where nothing changes the rules that cost more; whether it was the last: a job is inside and barred, or nothing changed.
fn rests(s: &mut State, t: &Tables) -> bool
    ensures { Prunes (Lent t.now) s.old s.new }
{
    let old = *s;
    round(s, t);
    if orders::broken(s) {
        return true;
    }
    if old != *s {
        return false;
    }
    rare(s, t);
    orders::broken(s) || old == *s
}

// Every rule until nothing changes.
pub fn tighten(s: &mut State, t: &Tables)
    ensures { Prunes (Lent t.now) s.old s.new }
{
    for _ in 0..4096 {
        if rests(s, t) {
            return;
        }
    }
}
