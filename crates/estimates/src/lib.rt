// Earliest estimates: from 65,535 downwards, round by round, until no job has a condition that got cheaper.

#![tactic(auto)]

ghost use Rattle.std.specs.Prelude.{◌≡◌, cond, ◌&&◌, ◌≤◌, ◌<◌, max, eqb, ltb, length};
ghost use Rattle.facts.specs.Facts.{has};
ghost use Rattle.facts.specs.Least.{any};
ghost use Rattle.facts.specs.Words.{Word};
ghost use Rattle.rules.specs.Estimates.{plus, cost, Estimates};
ghost use Rattle.tables.specs.Tables.{problem};
ghost use Rattle.tables.specs.Steps.{Released};
ghost use Rattle.entries.specs.Entries.{entry};
ghost use Rattle.estimates.specs.Rounds.{greatest, lagging, Costs, CostOf, NextRound, Lowers, Cheaper, at_first, due, Rests, AfterRound};
ghost use Rattle.estimates.specs.Earliest.{Earliest};

use std::array;
use tables::{Action, Answer, Ask, Loaded};

// An estimate with a duration added; 65,535 stays.
pub fn plus(e: u16, d: u16) -> u16
    ensures { result ≡ plus e d }
{
    e.saturating_add(d)
}

// Fact p costs c at most from now on; the word, with p if it got cheaper.
fn lower_one(p: usize, c: u16, costs: &mut [u16; 64], cheaper: u64) -> u64
    requires { p < 64 }
    ensures { Lowers (λ f. eqb f p) c cheaper costs.old costs.new result }
{
    if c < costs[p] {
        costs[p] = c;
        return facts::with(cheaper, p);
    }
    cheaper
}

// Every fact of w costs c at most from now on; the word, with those that got cheaper.
fn lower(w: u64, c: u16, costs: &mut [u16; 64], cheaper: u64) -> u64
    ensures { Lowers (has w) c cheaper costs.old costs.new result }
{
    let mut all = cheaper;
    for p in facts::each(w) {
        all = lower_one(p, c, costs, all);
    }
    all
}

// A job whose estimate fell: what it adds costs that and its duration at most, with the lag.
fn lower_by(a: Action, lag: u16, est: u16, next: u16, costs: &mut [u16; 64], cheaper: u64) -> u64
    ensures { Lowers (λ p. ltb next est && has a.additions p) (plus (plus next a.duration) lag) cheaper costs.old costs.new result }
{
    if next < est {
        return lower(
            a.additions,
            plus(plus(next, a.duration), lag),
            costs,
            cheaper,
        );
    }
    cheaper
}

// The costs where all jobs have come to their next estimates; the facts that got cheaper. A loop, since the costs are lowered in place.
fn lower_all(
    l: Loaded,
    q: Ask,
    lag: u16,
    est: [u16; 24],
    next: [u16; 24],
    costs: &mut [u16; 64],
) -> u64
    requires { (q.jobs ≤ 24) × Costs (lagging (problem l q) (entry est) lag) costs.old 64 }
    ensures { Cheaper (problem l q) (entry next) (entry est) lag q.jobs costs.old costs.new result }
{
    let n = q.jobs;
    let mut cheaper: u64 = 0;
    for i in 0..n {
        cheaper = lower_by(l.jobs[i], lag, est[i], next[i], costs, cheaper);
    }
    cheaper
}

// The greatest cost of the facts of the word.
fn greatest(w: u64, costs: &[u16; 64]) -> u16
    ensures { result ≡ greatest w costs.now 64 }
{
    let mut most: u16 = 0;
    for p in facts::each(w) {
        most = costs[p].max(most);
    }
    most
}

// What facts cost before any job is reached: only what is open has a cost.
fn unreached(opening: u64) -> [u16; 64]
    ensures { Costs (λ p. cond (has opening p) 0 65535) result 64 }
{
    let mut costs = [65535u16; 64];
    lower(opening, 0, &mut costs, 0);
    costs
}

// What each fact costs by the estimates; no cost has a gap.
pub fn fact_costs(l: Loaded, q: Ask, est: [u16; 24]) -> [u16; 64]
    requires { q.jobs ≤ 24 }
    ensures { Costs (cost (problem l q) (entry est)) result 64 }
{
    let mut costs = unreached(q.opening);
    lower_all(l, q, 0, [65535u16; 24], est, &mut costs);
    costs
}

// What a word of facts costs: the greatest of their costs.
pub fn dearest(l: Loaded, q: Ask, est: [u16; 24], w: u64) -> u16
    requires { q.jobs ≤ 24 }
    ensures { CostOf (problem l q) (entry est) w result }
{
    let costs = fact_costs(l, q, est);
    greatest(w, &costs)
}

// A job's first estimate: its release if its conditions are open, else 65,535.
fn at_first(conditions: u64, opening: u64, release: u16) -> u16
    ensures { result ≡ at_first conditions opening release }
{
    if facts::covers(opening, conditions) {
        release
    } else {
        65535
    }
}

// The first round: each job's estimate where no job is reached.
fn first(l: Loaded, q: Ask) -> [u16; 24]
    requires { (q.jobs ≤ 24) × Released l q }
    ensures { NextRound (problem l q) (λ _. 65535) result q.jobs }
{
    array::from_fn(|i| {
        let a = l.jobs[i];
        if i < q.jobs {
            at_first(a.conditions, q.opening, a.release)
        } else {
            65535
        }
    })
}

// A job's next estimate: the greater of its release and what its conditions cost where one of them got cheaper, else the one it has.
fn look(a: Action, est: u16, costs: &[u16; 64], cheaper: u64) -> u16
    ensures { result ≡ cond (due a.conditions cheaper) (max a.release (greatest a.conditions costs.now 64)) est }
{
    if !facts::meets(a.conditions, cheaper) {
        return est;
    }
    a.release.max(greatest(a.conditions, costs))
}

// One round more, from the facts that got cheaper in the round before to those that got cheaper in this one. A loop, since it works in place.
fn round(l: Loaded, q: Ask, cheaper: u64, est: &mut [u16; 24], costs: &mut [u16; 64]) -> u64
    requires { (q.jobs ≤ 24) × (length est.old ≡ 24) × Costs (lagging (problem l q) (entry est.old) (problem l q).gap) costs.old 64 × Rests (problem l q) (entry est.old) cheaper }
    ensures { AfterRound (problem l q) est.old costs.old est.new costs.new result }
{
    let before = *costs;
    let gap = tables::gap(q);
    let n = q.jobs;
    let mut new: u64 = 0;
    for i in 0..n {
        let a = l.jobs[i];
        let next = look(a, est[i], &before, cheaper);
        new = lower_by(a, gap, est[i], next, costs, new);
        est[i] = next;
    }
    new
}

// The facts that some job needs.
fn needed(l: Loaded, q: Ask) -> u64
    requires { q.jobs ≤ 24 }
    ensures { Word (λ p. any (λ i. has ((problem l q).conditions i) p) q.jobs) result }
{
    (0..q.jobs).fold(0, |all, i| all | l.jobs[i].conditions)
}

// The estimates of all jobs.
pub fn estimate_all(l: Loaded, q: Ask) -> [u16; 24]
    requires { (q.jobs ≤ 24) × Released l q }
    ensures { Estimates (problem l q) (entry result) }
{
    let needed = needed(l, q);
    let mut costs = unreached(q.opening);
    let mut est = first(l, q);
    let mut cheaper = lower_all(l, q, tables::gap(q), [65535u16; 24], est, &mut costs);
    while facts::meets(needed, cheaper) {
        cheaper = round(l, q, cheaper, &mut est, &mut costs);
    }
    est
}

// The earliest estimates, one a job, into lent memory.
pub fn earliest(l: Loaded, q: Ask, out: &mut [u16]) -> Answer
    ensures { Earliest l q out.old out.new result }
{
    let fault = tables::call_fault(l, q, out.len() < q.jobs, 0);
    if fault.number != 0 {
        return fault;
    }
    let est = estimate_all(l, q);
    entries::fill(out, est, q.jobs);
    tables::done(0)
}
