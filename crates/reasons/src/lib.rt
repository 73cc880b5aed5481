// Why a job of settled starts starts when it does, and why there is no plan.

#![tactic(auto)]

ghost use Rattle.std.specs.Prelude.{◌≡◌, ◌&&◌, ◌+◌, ◌≤◌, ◌<◌, eqb, ltb, length};
ghost use Rattle.facts.specs.Facts.{has};
ghost use Rattle.facts.specs.Tests.{some_least};
ghost use Rattle.facts.specs.Words.{Word};
ghost use Rattle.rules.specs.Plans.{finish};
ghost use Rattle.rules.specs.Reasons.{fits_before, Chain, hindrance_of};
ghost use Rattle.tables.specs.Tables.{problem, written};
ghost use Rattle.entries.specs.Entries.{entry};
ghost use Rattle.times.specs.Times.{wanted};
ghost use Rattle.times.specs.Steps.{Ready};
ghost use Rattle.reasons.specs.Reasons.{WhyStart, reason_of, no_reason, WhyNoPlan};
ghost use Rattle.reasons.specs.Steps.{Explainable, backwards};

use rules::Hindrance;
use tables::{Answer, Ask, Loaded};

// What is asked of settled starts: the numbers of the settling, and the job whose start is to be explained.
#[repr(C)]
#[derive(Clone, Copy)]
pub struct Question {
    pub ask: Ask,
    pub job: u8,
}

// A chain as it is gone back: the job asked about first, the first `count` of them. An array, since memory is fixed and a chain has at most 24 jobs.
#[derive(Clone, Copy)]
pub struct Back {
    pub jobs: [u8; 24],
    pub count: usize,
}

// A job starts just when another has finished, with the gap.
fn follows(start: u16, before: u16, duration: u16, gap: u16) -> bool
    ensures { result ≡ eqb start (before + duration + gap) }
{
    u32::from(start) == u32::from(before) + u32::from(duration) + u32::from(gap)
}

// The second job of the pair a, b is job j, which starts where a has finished, with the gap.
fn fits(l: Loaded, q: Ask, z: [u16; 24], a: usize, b: usize, j: usize) -> bool
    requires { (a < 24) × (j < 24) }
    ensures { result ≡ (eqb b j && eqb (entry z j) (finish (problem l q) (entry z) a + (problem l q).gap)) }
{
    b == j && follows(z[j], z[a], l.jobs[a].duration, tables::gap(q))
}

// The jobs that fit before job j.
fn fitting(l: Loaded, q: Ask, pairs: &[u8], z: [u16; 24], j: usize) -> u64
    requires { Ready q pairs.now × (j < 24) }
    ensures { Word (λ a. fits_before (problem l q) (wanted l q pairs.now) (entry z) a j) result }
{
    let mut w = 0u64;
    for k in 0..q.pairs {
        let a = usize::from(pairs[2 * k]);
        let b = usize::from(pairs[2 * k + 1]);
        w = facts::with_if(w, a, fits(l, q, z, a, b, j));
    }
    w
}

// The chain that ends at the job, gone back to a job at its release.
fn go_back(l: Loaded, q: Ask, pairs: &[u8], z: [u16; 24], job: usize) -> Back
    requires { Explainable l q pairs.now (entry z) job }
    ensures { Chain (problem l q) (wanted l q pairs.now) (entry z) job (backwards result.jobs result.count) }
{
    let mut jobs = [0u8; 24];
    let mut count = 0usize;
    let mut j = job;
    loop {
        jobs[count] = j as u8;
        count = count + 1;
        let a = l.jobs[j];
        if z[j] == a.release {
            return Back { jobs, count };
        }
        j = facts::lowest(fitting(l, q, pairs, z, j)) as usize;
    }
}

// The chain into lent bytes, first job first.
fn fill_chain(out: &mut [u8], c: Back)
    requires { (c.count ≤ 24) × (c.count ≤ length out.old) }
    ensures { out.new ≡ written (backwards c.jobs c.count) out.old }
{
    let n = c.count;
    for i in 0..n {
        out[i] = c.jobs[n - 1 - i];
    }
}

// The chain of asked pairs that ends at the job, into lent bytes; its length comes back.
pub fn why_start(l: Loaded, q: Question, pairs: &[u8], out: &mut [u8]) -> Answer
    ensures { WhyStart l q pairs.now out.old out.new result }
{
    let ask = q.ask;
    let z = match settle::settled(l, ask, pairs, out.len()) {
        Ok(starts) => starts,
        Err(answer) => return answer,
    };
    if !settle::in_set(ask.set, q.job) {
        return tables::refuse(27, u16::from(q.job), 0);
    }
    let c = go_back(l, ask, pairs, z, usize::from(q.job));
    fill_chain(out, c);
    tables::done(c.count as u32)
}

// Fact p is a goal, and its cost is above the limit.
fn above(goals: u64, p: usize, cost: u16, limit: u16) -> bool
    requires { p < 64 }
    ensures { result ≡ (has goals p && ltb limit cost) }
{
    facts::has(goals, p) && limit < cost
}

// The lowest goal that costs more than the limit.
fn first_above(goals: u64, costs: [u16; 64], limit: u16) -> Option<usize>
    ensures { result ≡ some_least (λ p. has goals p && ltb limit (entry costs p)) 64 }
{
    facts::first(64, |p| above(goals, p, costs[p], limit))
}

// Why there is no plan within the bound, by the estimates; what is never reachable costs 65,535.
fn hindrance(l: Loaded, q: Ask, est: [u16; 24]) -> Hindrance
    requires { q.jobs ≤ 24 }
    ensures { result ≡ hindrance_of (problem l q) (entry est) q.bound }
{
    let costs = estimates::fact_costs(l, q, est);
    if let Some(goal) = first_above(q.goals, costs, 65534) {
        return Hindrance::Never(goal as u8);
    }
    match first_above(q.goals, costs, q.bound) {
        Some(goal) => Hindrance::TooDear(goal as u8),
        None => Hindrance::Neither,
    }
}

// What is said of the want of a plan, and a reason for it as kind and fact: 64 where no fact is named.
#[repr(C)]
#[derive(Clone, Copy)]
pub struct Reason {
    pub answer: Answer,
    pub kind: u8,
    pub fact: u8,
}

// A refusal gives no reason.
fn no_reason(answer: Answer) -> Reason
    ensures { result ≡ no_reason answer }
{
    Reason {
        answer,
        kind: 0,
        fact: 64,
    }
}

impl From<Hindrance> for Reason {
    ghost from_gives = { λ h said. said ≡ reason_of h };

    fn from(h: Hindrance) -> Reason {
        let (kind, fact) = match h {
            Hindrance::Never(fact) => (1, fact),
            Hindrance::TooDear(fact) => (2, fact),
            Hindrance::Neither => (3, 64),
        };
        Reason {
            answer: tables::done(0),
            kind,
            fact,
        }
    }
}

// Why there is no plan within the bound: a goal never reachable, a goal above the bound, or neither.
pub fn why_no_plan(l: Loaded, q: Ask) -> Reason
    ensures { WhyNoPlan l q result }
{
    let fault = tables::call_fault(l, q, false, q.bound);
    if fault.number != 0 {
        return no_reason(fault);
    }
    let est = estimates::estimate_all(l, q);
    hindrance(l, q, est).into()
}
