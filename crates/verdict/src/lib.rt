// The verdict on an offered plan: refusals 3 to 9, 20, 11 to 14 and 21.

#![tactic(auto)]

ghost use Rattle.std.specs.Prelude.{◌≡◌, Bool, ℕ, not, ◌&&◌, ◌+◌, ◌-◌, ◌<◌, T, eqb, ltb, length};
ghost use Rattle.facts.specs.Facts.{has};
ghost use Rattle.facts.specs.Words.{Word};
ghost use Rattle.facts.specs.Tests.{Agrees, some_least};
ghost use Rattle.refusals.specs.Refusals.{accepted};
ghost use Rattle.rules.specs.Plans.{starts, after_if, finishes};
ghost use Rattle.rules.specs.Verdicts.{overlap, overlap_above, late, early, clashes, clash_fact, unready, missing, plan_checks};
ghost use Rattle.tables.specs.Tables.{problem, answer_of};
ghost use Rattle.tables.specs.Steps.{Judges};
ghost use Rattle.verdict.specs.Offered.{offered, ChecksPlan};
ghost use Rattle.verdict.specs.Steps.{Sound, Given, FactsAt, start_in, Nearer, Next};

use tables::{Answer, Ask, Loaded};

// The job is in and finishes at t.
fn ends_at(start: u16, duration: u16, t: u32) -> bool
    ensures { result ≡ (start_in start && eqb (start + duration) t) }
{
    start != 65535 && u32::from(start) + u32::from(duration) == t
}

// The facts after a job that finishes now, or as they were.
fn after_job(state: u64, additions: u64, deletions: u64, now: bool) -> u64
    ensures { Word (λ p. after_if now (has additions p) (has deletions p) (has state p)) result }
{
    if now {
        return facts::after(state, additions, deletions);
    }
    state
}

// The facts after all finishes at t, in the order of the jobs' numbers.
fn after_finishes(l: Loaded, q: Ask, s: &[u16], t: u32, before: u64) -> u64
    requires { Given q s.now }
    ensures { Word (λ p. finishes (problem l q) (starts s.now) p t q.jobs (has before p)) result }
{
    let n = q.jobs;
    let mut state = before;
    for i in 0..n {
        let a = l.jobs[i];
        let ends = ends_at(s[i], a.duration, t);
        state = after_job(state, a.additions, a.deletions, ends);
    }
    state
}

// The job's finish where it comes after `from` and before best, else best.
fn nearer(start: u16, duration: u16, from: u32, best: u32) -> u32
    ensures { Nearer start duration from best result }
{
    let end = u32::from(start) + u32::from(duration);
    if start == 65535 {
        return best;
    }
    if end <= from {
        return best;
    }
    end.min(best)
}

// The next finish after `from` and before till, or till.
fn next_finish(l: Loaded, q: Ask, s: &[u16], from: u32, till: u32) -> u32
    requires { Given q s.now × (from < till) }
    ensures { Next (problem l q) (starts s.now) from till result }
{
    let n = q.jobs;
    let mut best = till;
    for i in 0..n {
        let a = l.jobs[i];
        best = nearer(s[i], a.duration, from, best);
    }
    best
}

// The facts at time t: from finish to finish, so that hours in which nothing ends cost nothing.
pub fn facts_at(l: Loaded, q: Ask, s: &[u16], t: u16) -> u64
    requires { Given q s.now }
    ensures { FactsAt (problem l q) (starts s.now) t result }
{
    let till = u32::from(t) + 1;
    let mut state = q.opening;
    let mut next = next_finish(l, q, s, 0, till);
    while next < till {
        state = after_finishes(l, q, s, next, state);
        next = next_finish(l, q, s, next, till);
    }
    state
}

// The job is in and ends, with the gap behind it, after t.
fn ends_after(start: u16, duration: u16, gap: u16, t: u16) -> bool
    ensures { result ≡ (start_in start && ltb t (start + duration + gap)) }
{
    start != 65535 && u32::from(t) < u32::from(start) + u32::from(duration) + u32::from(gap)
}

// The job is in and starts before its release.
fn starts_early(start: u16, release: u16) -> bool
    ensures { result ≡ (start_in start && ltb start release) }
{
    start != 65535 && start < release
}

// Both jobs are in, and each starts before the other finishes with the gap behind it: with no gap touching is not that.
fn together(a: u16, a_long: u16, b: u16, b_long: u16, gap: u16) -> bool
    ensures { result ≡ ((start_in a && ltb b (a + a_long + gap)) && (start_in b && ltb a (b + b_long + gap))) }
{
    ends_after(a, a_long, gap, b) && ends_after(b, b_long, gap, a)
}

// Jobs i and j overlap and interfere.
fn overlap(l: Loaded, q: Ask, s: &[u16], i: usize, j: usize) -> bool
    requires { (i < 24) × (j < 24) × (i < length s.now) × (j < length s.now) }
    ensures { result ≡ overlap (problem l q) (starts s.now) i j }
{
    let a = l.jobs[i];
    let b = l.jobs[j];
    if together(s[i], a.duration, s[j], b.duration, tables::gap(q)) {
        return interference::interferes(l, i, j);
    }
    false
}

// The lowest job above i with which it overlaps and interferes.
fn first_above(l: Loaded, q: Ask, s: &[u16], i: usize) -> Option<usize>
    requires { Given q s.now × (i < q.jobs) }
    ensures { result ≡ some_least (overlap_above (problem l q) (starts s.now) i) q.jobs }
{
    facts::first(q.jobs, |j| i < j && overlap(l, q, s, i, j))
}

// The fact over which job i clashes with that job.
fn clash_fact(l: Loaded, q: Ask, s: &[u16], i: usize) -> u8
    requires { Given q s.now × (i < q.jobs) × T (clashes (problem l q) (starts s.now) i) }
    ensures { result ≡ clash_fact (problem l q) (starts s.now) i }
{
    let j = first_above(l, q, s, i).unwrap();
    let why = interference::why_clash(tables::job_at(l, i), tables::job_at(l, j));
    why.fact
}

// The lowest fact that is wanted and not there.
fn first_lacking(have: u64, want: u64) -> Option<usize>
    ensures { result ≡ some_least (λ p. has want p && not (has have p)) 64 }
{
    let mut lacking = facts::each(facts::less(want, have));
    lacking.next()
}

// The moment the gap before t; 0 where there is none.
fn earlier(t: u16, gap: u16) -> u16
    ensures { result ≡ t - gap }
{
    t.saturating_sub(gap)
}

// Job i is in and misses a condition at its start: what finishes less than the gap before is not seen.
fn unready(l: Loaded, q: Ask, s: &[u16], i: usize) -> bool
    requires { Given q s.now × (i < q.jobs) }
    ensures { result ≡ unready (problem l q) (starts s.now) i }
{
    if s[i] == 65535 {
        return false;
    }
    let a = l.jobs[i];
    let state = facts_at(l, q, s, earlier(s[i], tables::gap(q)));
    first_lacking(state, a.conditions).is_some()
}

// Job i is in and ends after the bound.
fn late(l: Loaded, q: Ask, s: &[u16], i: usize) -> bool
    requires { Given q s.now × (i < q.jobs) }
    ensures { result ≡ late (problem l q) q.bound (starts s.now) i }
{
    ends_after(s[i], l.jobs[i].duration, 0, q.bound)
}

// Job i is in and starts before its release.
fn early(l: Loaded, q: Ask, s: &[u16], i: usize) -> bool
    requires { Given q s.now × (i < q.jobs) }
    ensures { result ≡ early (problem l q) (starts s.now) i }
{
    starts_early(s[i], l.jobs[i].release)
}

// Job i clashes with a job above it.
fn clashes(l: Loaded, q: Ask, s: &[u16], i: usize) -> bool
    requires { Given q s.now × (i < q.jobs) }
    ensures { result ≡ clashes (problem l q) (starts s.now) i }
{
    first_above(l, q, s, i).is_some()
}

// The lowest goal that is missing at the bound.
fn first_missing(l: Loaded, q: Ask, s: &[u16]) -> Option<usize>
    requires { Given q s.now }
    ensures { result ≡ some_least (missing (problem l q) q.bound (starts s.now)) 64 }
{
    first_lacking(facts_at(l, q, s, q.bound), q.goals)
}

// Checks 11, 21 and 12 to 14, in this order.
fn steps_fault(l: Loaded, q: Ask, s: &[u16]) -> Answer
    requires { Given q s.now }
    ensures { result ≡ answer_of (plan_checks (problem l q) q.bound (starts s.now) accepted) 0 0 }
{
    let n = q.jobs;
    if let Some(i) = facts::first(n, |i| late(l, q, s, i)) {
        return tables::refuse(11, i as u16, 0);
    }
    if let Some(i) = facts::first(n, |i| early(l, q, s, i)) {
        return tables::refuse(21, i as u16, 0);
    }
    if let Some(i) = facts::first(n, |i| clashes(l, q, s, i)) {
        let fact = clash_fact(l, q, s, i);
        return tables::refuse_for(12, fact, i as u16, 0);
    }
    if let Some(i) = facts::first(n, |i| unready(l, q, s, i)) {
        return tables::refuse(13, i as u16, 0);
    }
    if let Some(goal) = first_missing(l, q, s) {
        return tables::refuse(14, goal as u16, 0);
    }
    tables::done(0)
}

// The verdict for calls that lend more memory, of which `short` says that it is too short.
pub fn plan_fault(l: Loaded, q: Ask, starts: &[u16], short: bool) -> Answer
    ensures { Judges (offered short l q starts.now accepted) (Sound short l q starts.now) result }
{
    let few = tables::too_short(short, starts.len(), q.jobs);
    let fault = tables::call_fault(l, q, few, q.bound);
    if fault.number != 0 {
        return fault;
    }
    steps_fault(l, q, starts)
}

// The verdict on an offered plan.
pub fn check_plan(l: Loaded, q: Ask, starts: &[u16]) -> Answer
    ensures { ChecksPlan l q starts.now result }
{
    plan_fault(l, q, starts, false)
}
