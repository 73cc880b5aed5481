// Which two facts can stand side by side in a state of a plan.

#![tactic(auto)]

ghost use Rattle.std.specs.Prelude.{◌≡◌, ◌&&◌, ◌||◌, ℕ, ◌≤◌, ◌<◌, T, get_or, set, length, replicate};
ghost use Rattle.facts.specs.Facts.{has};
ghost use Rattle.facts.specs.Words.{Word, Covers, Decides};
ghost use Rattle.rules.specs.Premises.{InOrder};
ghost use Rattle.tables.specs.Tables.{problem};
ghost use Rattle.reach.specs.Reach.{Exact};
ghost use Rattle.reach.specs.Rows.{in_rows, FitIn, Seen, StayBeside, grown_row, Grown, Looked, PairRound, Barred, EJob, EDone};

use std::array;
use tables::{Action, Ask, Loaded};

// Bit q of row p: p and q can stand side by side.
#[derive(Clone, Copy)]
pub struct PairRows {
    pub rows: [u64; 64],
}

// If r is a condition, it is reachable with all conditions.
fn row_fits(row: u64, c: u64, r: usize) -> bool
    requires { r < 64 }
    ensures { Decides result (T (has c r) → Covers row c) }
{
    !facts::has(c, r) || facts::covers(row, c)
}

// The facts of c are pairwise reachable.
pub fn fits(s: PairRows, c: u64) -> bool
    ensures { Decides result (FitIn s.rows c 64) }
{
    (0..64).all(|r| row_fits(s.rows[r], c, r))
}

// Fact q is reachable, stays where the job finishes, and is reachable with all conditions.
fn stays_beside(row: u64, c: u64, d: u64, q: usize) -> bool
    requires { q < 64 }
    ensures { Decides result (Seen row c d q) }
{
    !facts::has(d, q) && facts::has(row, q) && facts::covers(row, c)
}

// The facts that stay beside a job with these conditions and deletions.
fn beside(s: PairRows, c: u64, d: u64) -> u64
    ensures { StayBeside s.rows c d 64 result }
{
    facts::those(64, |q| stays_beside(s.rows[q], c, d, q))
}

// All facts of either.
fn union(a: u64, b: u64) -> u64
    ensures { Word (λ p. has a p || has b p) result }
{
    a | b
}

// All facts of either, if so.
fn union_if(a: u64, b: u64, so: bool) -> u64
    ensures { Word (λ p. has a p || (so && has b p)) result }
{
    if so {
        return union(a, b);
    }
    a
}

// Row p with what a job adds, where the facts w stay beside it.
fn grown_row(row: u64, a: u64, w: u64, p: usize) -> u64
    requires { p < 64 }
    ensures { Word (grown_row row a w p) result }
{
    let added = union_if(row, union(a, w), facts::has(a, p));
    union_if(added, a, facts::has(w, p))
}

// All rows with what a job adds, where the facts w stay beside it.
fn grown(s: PairRows, a: u64, w: u64) -> PairRows
    ensures { Grown s.rows a w 64 result.rows }
{
    PairRows {
        rows: array::from_fn(|p| grown_row(s.rows[p], a, w, p)),
    }
}

// The pairs that a job gives.
fn look(s: PairRows, c: u64, a: u64, d: u64) -> PairRows
    ensures { Looked s.rows c a d result.rows }
{
    if !fits(s, c) {
        return s;
    }
    grown(s, a, beside(s, c, d))
}

// The pairs that the jobs give, one after the other: a loop, since a fold of the rows is no plainer.
fn round(l: Loaded, q: Ask, s: PairRows) -> PairRows
    requires { (q.jobs ≤ 24) × InOrder (problem l q) }
    ensures { PairRound (problem l q) q.jobs s.rows result.rows }
{
    let mut t = s;
    let n = q.jobs;
    for i in 0..n {
        let a = l.jobs[i];
        t = look(t, a.conditions, a.additions, a.deletions);
    }
    t
}

// Every pair of t is one of s.
fn within(t: PairRows, s: PairRows) -> bool
    ensures { Decides result ((p : ℕ) → p < 64 → Covers (get_or s.rows p 0) (get_or t.rows p 0)) }
{
    (0..64).all(|p| facts::covers(s.rows[p], t.rows[p]))
}

// The pairs of opening facts.
fn opened(opening: u64) -> PairRows
    ensures { Looked (replicate 64 0) 0 opening 0 result.rows }
{
    let rows = [0u64; 64];
    look(PairRows { rows }, 0, opening, 0)
}

// The reachable pairs.
pub fn reachable(l: Loaded, q: Ask) -> PairRows
    requires { (q.jobs ≤ 24) × InOrder (problem l q) }
    ensures { Exact (problem l q) (in_rows result.rows) }
{
    let mut s = opened(q.opening);
    loop {
        let t = round(l, q, s);
        if within(t, s) {
            return s;
        }
        s = t;
    }
}

// The facts that can hold and are not reachable with all of w.
fn barred(s: PairRows, w: u64) -> u64
    requires { length s.rows ≡ 64 }
    ensures { (p : ℕ) → Decides (has result p) (Barred s.rows w p) }
{
    facts::less(beside(s, 0, 0), beside(s, w, 0))
}

// The job, but it deletes what it e-deletes.
fn e_job(s: PairRows, a: Action) -> Action
    ensures { EJob s.rows a result }
{
    if !fits(s, a.conditions) {
        return a;
    }
    let adding = barred(s, a.additions);
    let needing = facts::less(barred(s, a.conditions), a.additions);
    Action {
        deletions: union(a.deletions, union(adding, needing)),
        ..a
    }
}

// The table whose jobs delete what they e-delete by these pairs: it has the same valid plans.
pub fn e_table(l: Loaded, jobs: usize, s: PairRows) -> Loaded
    requires { jobs ≤ 24 }
    ensures { EDone s.rows l jobs result }
{
    Loaded {
        jobs: array::from_fn(|i| if i < jobs {
            e_job(s, l.jobs[i])
        } else {
            l.jobs[i]
        }),
        ..l
    }
}
