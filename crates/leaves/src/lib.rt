// When a state is a plan: its lower bounds are settled and every job stands.

#![tactic(auto)]

ghost use Rattle.std.specs.Prelude.{ℕ, ◌<◌, T};
ghost use Rattle.facts.specs.Facts.{has};
ghost use Rattle.facts.specs.Words.{Decides};
ghost use Rattle.cells.specs.View.{view};
ghost use Rattle.lent.specs.Lent.{Lent};
ghost use Rattle.leaves.specs.Leaf.{Violated, ViolatedRow, Finds, BeginsAt, BegunBy, Raised, SettledBy, InPlaceIf, AllInPlace, Verifies, StartIs, StartsOf, Resolves, LeafOk};

use cells::State;
use lent::Tables;
use std::array;

// Two jobs, the first over before the second.
#[derive(Clone, Copy)]
pub struct Pair {
    pub first: usize,
    pub second: usize,
}

// a is over before b, both are in, and b may start too early for that.
fn violated_at(s: &State, a: usize, b: usize, t: &Tables) -> bool
    requires { b < 24 }
    ensures { Decides result (Violated s.now t.now a b) }
{
    a < 24
        && cells::inside(s, a)
        && cells::inside(s, b)
        && cells::sure(s, a, b)
        && u64::from(cells::lo(s, b)) < cells::sum(cells::lo(s, a), lent::step(t, a))
}

// Such a job a for b, which may be a stray bit and no job.
fn violated_row(s: &State, b: usize, t: &Tables) -> Option<usize>
    ensures { ViolatedRow s.now t.now b result }
{
    if 24 <= b {
        return None;
    }
    jobs::each(cells::row_sure(s, b) & cells::insides(s)).find(|&a| violated_at(s, a, b, t))
}

// Such a pair of jobs.
fn violated(s: &State, t: &Tables) -> Option<Pair>
    ensures { Finds s.now t.now result }
{
    for b in jobs::each(cells::insides(s)) {
        if let Some(a) = violated_row(s, b, t) {
            return Some(Pair {
                first: a,
                second: b,
            });
        }
    }
    None
}

// b starts when a is over, if it still may.
fn raise(s: &mut State, a: usize, b: usize, t: &Tables) -> bool
    requires { Violated s.old t.now a b }
    ensures { Raised t.now s.old s.new result }
{
    let x = cells::sum(cells::lo(s, a), lent::step(t, a));
    if u64::from(cells::hi(s, b)) < x {
        return false;
    }
    cells::put_lo(s, b, x as u32);
    true
}

// Job j starts no earlier than its estimate.
fn begin(s: &mut State, j: usize, t: &Tables)
    requires { j < 24 }
    ensures { BeginsAt t.now s.old s.new j }
{
    let x = lent::est(t, j);
    if cells::lo(s, j) < x {
        cells::put_lo(s, j, x);
    }
}

// The same of all jobs.
fn begin_all(s: &mut State, t: &Tables)
    ensures { BegunBy t.now s.old s.new 24 }
{
    for j in 0..24 {
        begin(s, j, t);
    }
}

// The least starts over the sure pairs, from the estimates on, as lower bounds; or no plan is left.
pub fn settle(s: &mut State, t: &Tables) -> bool
    ensures { SettledBy t.now s.old s.new result }
{
    begin_all(s, t);
    while let Some(c) = violated(s, t) {
        if !raise(s, c.first, c.second, t) {
            return false;
        }
    }
    true
}

// Job j is out, or of the table and over by the bound within its window.
fn stands_at(s: &State, j: usize, t: &Tables) -> bool
    requires { j < 24 }
    ensures { Verifies (Lent t.now) s.now result (InPlaceIf s.now t.now j) }
{
    if !cells::inside(s, j) {
        return true;
    }
    if lent::count(t) <= j {
        return false;
    }
    if cells::barred(s, j) {
        return false;
    }
    if cells::hi(s, j) < cells::lo(s, j) {
        return false;
    }
    cells::sum(cells::lo(s, j), lent::step(t, j)) <= cells::sum(lent::bound(t), lent::gap(t))
}

// The same of all jobs.
fn stand_all(s: &State, t: &Tables) -> bool
    ensures { Verifies (Lent t.now) s.now result (AllInPlace s.now t.now 24) }
{
    (0..24).all(|j| stands_at(s, j, t))
}

// No bit from 24 on.
fn no_stray(w: u32) -> bool
    ensures { Decides result ((j : ℕ) → T (has w j) → j < 24) }
{
    w < 16777216
}

// The start of job j: its lower bound, or 65,535, which the starts have for a job that is out (`plan_of`).
fn start_at(s: &State, j: usize) -> u16
    requires { j < 24 }
    ensures { StartIs ((view s.now).inside j) ((view s.now).lo j) result }
{
    if !cells::inside(s, j) {
        return 65535;
    }
    cells::lo(s, j).min(65535) as u16
}

// The starts of all jobs.
fn starts(s: &State) -> [u16; 24]
    ensures { StartsOf s.now 24 result }
{
    array::from_fn(|j| start_at(s, j))
}

// A state without a flaw whose lower bounds are settled: they are a plan, or nothing fits.
pub fn leaf(s: &State, t: &Tables, out: &mut [u16; 24]) -> bool
    requires { LeafOk s.now t.now }
    ensures { Resolves (Lent t.now) s.now out.old out.new result }
{
    if !no_stray(cells::insides(s)) {
        return false;
    }
    if !stand_all(s, t) {
        return false;
    }
    *out = starts(s);
    true
}
