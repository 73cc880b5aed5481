// Settling of times.

#![tactic(auto)]

ghost use Rattle.std.specs.Prelude.{◌≡◌, not, ◌&&◌, ◌||◌, ◌/◌, ◌≤◌, ◌<◌, ltb, length};
ghost use Rattle.facts.specs.Facts.{has};
ghost use Rattle.facts.specs.Tests.{some_least};
ghost use Rattle.refusals.specs.Refusals.{accepted};
ghost use Rattle.rules.specs.Settling.{settle_checks};
ghost use Rattle.tables.specs.Tables.{problem, answer_of};
ghost use Rattle.tables.specs.Steps.{Judges};
ghost use Rattle.tables.specs.declared.Loaded.{Loaded};
ghost use Rattle.times.specs.Times.{pair_first, pair_second};
ghost use Rattle.settle.specs.Settle.{settling_checks, Settling};
ghost use Rattle.settle.specs.Steps.{Settleable, Settlements};

use tables::{Answer, Ask, Loaded};

// Job j is in the set.
pub fn in_set(set: u64, j: u8) -> bool
    ensures { result ≡ has set j }
{
    j < 64 && facts::has(set, usize::from(j))
}

// Pair k names a job outside the set.
fn pair_outside(set: u64, pairs: &[u8], k: usize) -> bool
    requires { k < length pairs.now / 2 }
    ensures { result ≡ not (has set (pair_first pairs.now k) && has set (pair_second pairs.now k)) }
{
    !(in_set(set, pairs[2 * k]) && in_set(set, pairs[2 * k + 1]))
}

// The first of n pairs that does.
fn first_outside(set: u64, pairs: &[u8], n: usize) -> Option<usize>
    requires { n ≤ length pairs.now / 2 }
    ensures { result ≡ some_least (λ k. not (has set (pair_first pairs.now k) && has set (pair_second pairs.now k))) n }
{
    facts::first(n, |k| pair_outside(set, pairs, k))
}

// Check 15.
fn pairs_fault(q: Ask, pairs: &[u8]) -> Answer
    requires { (q.jobs ≤ 24) × (q.pairs ≤ length pairs.now / 2) }
    ensures { (l : Loaded) → result ≡ answer_of (settle_checks (problem l q) q.set (pair_first pairs.now) (pair_second pairs.now) q.pairs accepted) 0 0 }
{
    if tables::word_strays(q.set, q.jobs) {
        return tables::refuse(15, 601, 0);
    }
    let n = q.pairs;
    if 600 < n {
        return tables::refuse(15, 600, 0);
    }
    if let Some(k) = first_outside(q.set, pairs, n) {
        return tables::refuse(15, k as u16, 0);
    }
    tables::done(0)
}

// Fewer starts are lent than there are jobs, or fewer bytes than two a pair.
fn too_few(out: usize, jobs: usize, lent: usize, pairs: usize) -> bool
    ensures { result ≡ (ltb out jobs || ltb (lent / 2) pairs) }
{
    out < jobs || lent / 2 < pairs
}

// Checks 3 to 9, 20 and 15; `out` is the number of starts lent.
fn settle_fault(l: Loaded, q: Ask, pairs: &[u8], out: usize) -> Answer
    ensures { Judges (settling_checks l q pairs.now out accepted) (Settleable l q pairs.now out) result }
{
    let short = too_few(out, q.jobs, pairs.len(), q.pairs);
    let fault = tables::call_fault(l, q, short, q.bound);
    if fault.number != 0 {
        return fault;
    }
    pairs_fault(q, pairs)
}

// The least starts by value, or the refusal; `room` is how many numbers are lent for them.
pub fn settled(l: Loaded, q: Ask, pairs: &[u8], room: usize) -> Result<[u16; 24], Answer>
    ensures { Settlements l q pairs.now room result }
{
    let answer = settle_fault(l, q, pairs, room);
    if answer.number != 0 {
        return Err(answer);
    }
    times::least_starts(l, q, pairs).ok_or(tables::refuse(16, 0, 0))
}

// The least starts, one a job, into lent memory.
pub fn settle(l: Loaded, q: Ask, pairs: &[u8], out: &mut [u16]) -> Answer
    ensures { Settling l q pairs.now out.old out.new result }
{
    match settled(l, q, pairs, out.len()) {
        Ok(starts) => {
            entries::fill(out, starts, q.jobs);
            tables::done(0)
        }
        Err(answer) => answer,
    }
}
