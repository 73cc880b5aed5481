// Planning within a bound, and the least bound.

#![tactic(auto)]

ghost use Rattle.std.specs.Prelude.{◌≡◌, ◌+◌, ◌≤◌, min};
ghost use Rattle.rules.specs.Table.{Problem};
ghost use Rattle.rules.specs.Premises.{enough_time, most};
ghost use Rattle.rules.specs.Sums.{sum};
ghost use Rattle.tables.specs.Tables.{job_at, problem};
ghost use Rattle.lent.specs.Lent.{Listed};
ghost use Rattle.bounds.specs.Bounds.{Served, SomeAt};
ghost use Rattle.planning.specs.Derived.{InReach, PlanAt, FirstAt, LeastOf};
ghost use Rattle.planning.specs.Planning.{PlansWithin, BoundsWithin};

use lent::Tables;
use tables::{Answer, Ask, Loaded};

// The first plan within the bound, from some plan within it.
fn first_at(t: &mut Tables, bound: u16, out: &mut [u16; 24])
    requires { Served t.old bound × SomeAt t.old bound out.old }
    ensures { FirstAt t.old bound out.new }
{
    lent::put_bound(t, u32::from(bound));
    let mut s = outset::root(t);
    planner::first(&mut s, t, out);
}

// The latest release of the jobs below n.
fn last_release(l: Loaded, n: usize) -> u16
    requires { n ≤ 24 }
    ensures { result ≡ most (λ a. (job_at l a).release) n }
{
    let mut last: u16 = 0;
    for j in 0..n {
        let a = l.jobs[j];
        last = last.max(a.release);
    }
    last
}

// A duration with the gap behind it.
fn span(duration: u16, gap: u16) -> u32
    ensures { (result ≡ duration + gap) × (result ≤ 131070) }
{
    u32::from(duration) + u32::from(gap)
}

// The time `from` and the durations of the jobs below n, each with a gap.
fn all_durations(l: Loaded, n: usize, from: u16, gap: u16) -> u32
    requires { n ≤ 24 }
    ensures { result ≡ from + sum (λ a. (job_at l a).duration + gap) n }
{
    let mut all = u32::from(from);
    for j in 0..n {
        let a = l.jobs[j];
        all += span(a.duration, gap);
    }
    all
}

// The bound, or the latest release and all durations with their gaps where that is less: more time changes nothing.
fn enough(l: Loaded, q: Ask) -> u16
    requires { q.jobs ≤ 24 }
    ensures { result ≡ min q.bound (enough_time (problem l q)) }
{
    let all = all_durations(l, q.jobs, last_release(l, q.jobs), tables::gap(q));
    all.min(u32::from(q.bound)) as u16
}

// The least bound up to top, with the first plan at it; none where there is no plan.
fn least_of(t: &mut Tables, top: u16, out: &mut [u16; 24]) -> Option<u16>
    requires { Served t.old top }
    ensures { (P : Problem) → Listed t.old P → LeastOf P top out.new result }
{
    match bounds::least(t, top, out) {
        Some(bound) => {
            first_at(t, bound, out);
            Some(bound)
        }
        None => None,
    }
}

// The first plan within top.
fn first_within(l: Loaded, q: Ask, top: u16, out: &mut [u16; 24]) -> bool
    requires { InReach l q top }
    ensures { PlanAt (problem l q) top out.new result }
{
    let Ok(mut t) = outset::set_out(l, q) else {
        return false;
    };
    if !bounds::any_at(&mut t, top, out) {
        return false;
    }
    first_at(&mut t, top, out);
    true
}

// The least bound up to top, with the first plan at it.
fn least_within(l: Loaded, q: Ask, top: u16, out: &mut [u16; 24]) -> Option<u16>
    requires { InReach l q top }
    ensures { LeastOf (problem l q) top out.new result }
{
    let Ok(mut t) = outset::set_out(l, q) else {
        return None;
    };
    least_of(&mut t, top, out)
}

// The first valid plan within the bound, in the stated order.
pub fn plan_within(l: Loaded, q: Ask, out: &mut [u16]) -> Answer
    ensures { PlansWithin l q out.old out.new result }
{
    let fault = tables::call_fault(l, q, out.len() < q.jobs, q.bound);
    if fault.number != 0 {
        return fault;
    }
    let top = enough(l, q);
    let mut starts = [65535u16; 24];
    if !first_within(l, q, top, &mut starts) {
        return tables::refuse(10, 0, 0);
    }
    entries::fill(out, starts, q.jobs);
    tables::done(0)
}

// The least bound, with the first plan at it.
pub fn least_bound(l: Loaded, q: Ask, out: &mut [u16]) -> Answer
    ensures { BoundsWithin l q out.old out.new result }
{
    let fault = tables::call_fault(l, q, out.len() < q.jobs, q.bound);
    if fault.number != 0 {
        return tables::refuse_for(fault.number, fault.second, fault.place, 65535);
    }
    let top = enough(l, q);
    let mut starts = [65535u16; 24];
    match least_within(l, q, top, &mut starts) {
        Some(bound) => {
            entries::fill(out, starts, q.jobs);
            tables::done(u32::from(bound))
        }
        None => tables::refuse(10, 0, 65535),
    }
}
