// Supports and binding pairs of an offered plan.

#![tactic(auto)]

ghost use Rattle.std.specs.Prelude.{◌≡◌, ◌&&◌, ℕ, ◌+◌, ◌*◌, ◌≤◌, ◌<◌, length, get_or};
ghost use Rattle.facts.specs.Facts.{has};
ghost use Rattle.facts.specs.Least.{any};
ghost use Rattle.facts.specs.Tests.{some_least};
ghost use Rattle.rules.specs.Plans.{starts, in_plan};
ghost use Rattle.rules.specs.Supports.{support_byte};
ghost use Rattle.rules.specs.Pairs.{feeds, binds, pair_if, pair_bytes};
ghost use Rattle.tables.specs.Tables.{problem, filled};
ghost use Rattle.verdict.specs.Steps.{Given};
ghost use Rattle.bindings.specs.Bindings.{Supports, Pairs};
ghost use Rattle.bindings.specs.Steps.{row_byte, FillsRow, FeedersOf, Binders, BindersOf, pair_row, Appends};

use named::Row;
use std::array;
use tables::{Answer, Ask, Loaded};

// For each job, a set of jobs that come before it.
#[derive(Clone, Copy)]
pub struct Before {
    pub of: [u64; 24],
}

// The lowest job that gives fact p in the row.
fn first_giver(row: Row, n: usize, p: usize) -> Option<usize>
    requires { (n ≤ 24) × (p < 64) }
    ensures { result ≡ some_least (λ a. has (get_or row.by a 0) p) n }
{
    facts::first(n, |a| facts::has(row.by[a], p))
}

// The byte of fact p in the row.
fn support_byte(row: Row, n: usize, p: usize) -> u8
    requires { (n ≤ 24) × (p < 64) }
    ensures { result ≡ row_byte row n p }
{
    if facts::has(row.start, p) {
        return 254;
    }
    match first_giver(row, n, p) {
        Some(a) => a as u8,
        None => 255,
    }
}

// One row of 64 bytes is written from base on.
fn fill_row(row: Row, n: usize, base: usize, out: &mut [u8])
    requires { (n ≤ 24) × (base + 64 ≤ length out.old) }
    ensures { FillsRow row n base out.old out.new }
{
    for p in 0..64 {
        out[base + p] = support_byte(row, n, p);
    }
}

// The whole table of supports is written.
fn fill_supports(l: Loaded, q: Ask, s: &[u16], out: &mut [u8])
    requires { Given q s.now × (64 * (q.jobs + 1) ≤ length out.old) }
    ensures { out.new ≡ filled (support_byte (problem l q) q.bound (starts s.now)) (64 * (q.jobs + 1)) out.old }
{
    let n = q.jobs;
    for b in 0..n + 1 {
        fill_row(named::row_of(l, q, s, b), n, 64 * b, out);
    }
}

// The table of supports of a valid plan, 64 bytes a job and 64 for End.
pub fn supports(l: Loaded, q: Ask, starts: &[u16], out: &mut [u8]) -> Answer
    ensures { Supports l q starts.now out.old out.new result }
{
    let short = out.len() / 64 <= q.jobs;
    let said = verdict::plan_fault(l, q, starts, short);
    if said.number != 0 {
        return said;
    }
    fill_supports(l, q, starts, out);
    said
}

// The word has a fact.
fn some_fact(w: u64) -> bool
    ensures { result ≡ any (has w) 64 }
{
    facts::lowest(w) < 64
}

// The set of jobs that give a fact in the row.
fn givers(row: Row, n: usize) -> u64
    requires { n ≤ 24 }
    ensures { (a : ℕ) → a < n → has result a ≡ any (has (get_or row.by a 0)) 64 }
{
    facts::those(n, |a| some_fact(row.by[a]))
}

// The jobs that are named supports of the conditions of job b; behind the last job there are none.
fn feeders(l: Loaded, q: Ask, s: &[u16], b: usize) -> u64
    requires { Given q s.now }
    ensures { (a : ℕ) → b < q.jobs → a < q.jobs → has result a ≡ (in_plan (starts s.now) b && feeds (problem l q) (starts s.now) a b) }
{
    if q.jobs <= b {
        return 0;
    }
    givers(named::row_of(l, q, s, b), q.jobs)
}

// Of each job, these.
pub fn all_feeders(l: Loaded, q: Ask, s: &[u16]) -> Before
    requires { Given q s.now }
    ensures { FeedersOf (problem l q) (starts s.now) result }
{
    Before {
        of: array::from_fn(|b| feeders(l, q, s, b)),
    }
}

// Job a, then job b, is a binding pair.
fn binds(l: Loaded, q: Ask, s: &[u16], f: Before, a: usize, b: usize) -> bool
    requires { Given q s.now × (a < q.jobs) × (b < q.jobs) × FeedersOf (problem l q) (starts s.now) f }
    ensures { result ≡ binds (problem l q) (starts s.now) a b }
{
    if s[b] == 65535 {
        return false;
    }
    let first = l.jobs[a];
    if named::over_by(s[a], first.duration, tables::gap(q), u32::from(s[b])) {
        return interference::interferes(l, a, b) || facts::has(f.of[b], a);
    }
    false
}

// The jobs that bind job b; behind the last job there are none.
fn binders(l: Loaded, q: Ask, s: &[u16], f: Before, b: usize) -> u64
    requires { Given q s.now × FeedersOf (problem l q) (starts s.now) f }
    ensures { b < q.jobs → Binders (problem l q) (starts s.now) b result }
{
    if q.jobs <= b {
        return 0;
    }
    facts::those(q.jobs, |a| binds(l, q, s, f, a, b))
}

// Of each job, the jobs that bind it, from those that feed it.
pub fn all_binders(l: Loaded, q: Ask, s: &[u16], f: Before) -> Before
    requires { Given q s.now × FeedersOf (problem l q) (starts s.now) f }
    ensures { BindersOf (problem l q) (starts s.now) result }
{
    Before {
        of: array::from_fn(|b| binders(l, q, s, f, b)),
    }
}

// A pair is written behind what is there, where the test passes; the next place comes back.
fn put_if(out: &mut [u8], at: usize, yes: bool, a: usize, b: usize) -> usize
    requires { (a < 24) × (b < 24) × (at + length (pair_if yes a b) ≤ length out.old) }
    ensures { Appends (pair_if yes a b) at out.old out.new result }
{
    if yes {
        out[at] = a as u8;
        out[at + 1] = b as u8;
        return at + 2;
    }
    at
}

// The pairs with first job a are written behind what is there.
fn put_row(l: Loaded, q: Ask, s: &[u16], f: Before, a: usize, at: usize, out: &mut [u8]) -> usize
    requires { Given q s.now × (a < q.jobs) × FeedersOf (problem l q) (starts s.now) f × (at + length (pair_row (problem l q) (starts s.now) a q.jobs) ≤ length out.old) }
    ensures { Appends (pair_row (problem l q) (starts s.now) a q.jobs) at out.old out.new result }
{
    let mut next = at;
    for b in 0..q.jobs {
        next = put_if(out, next, binds(l, q, s, f, a, b), a, b);
    }
    next
}

// All binding pairs are written; how many bytes they take comes back.
pub fn put_pairs(l: Loaded, q: Ask, s: &[u16], out: &mut [u8]) -> usize
    requires { Given q s.now × (length (pair_bytes (problem l q) (starts s.now)) ≤ length out.old) }
    ensures { Appends (pair_bytes (problem l q) (starts s.now)) 0 out.old out.new result }
{
    let f = all_feeders(l, q, s);
    let mut next = 0;
    for a in 0..q.jobs {
        next = put_row(l, q, s, f, a, next, out);
    }
    next
}

// The binding pairs of a valid plan, two bytes a pair, and their count.
pub fn binding_pairs(l: Loaded, q: Ask, starts: &[u16], out: &mut [u8]) -> Answer
    ensures { Pairs l q starts.now out.old out.new result }
{
    let said = verdict::plan_fault(l, q, starts, out.len() < 552);
    if said.number != 0 {
        return said;
    }
    let bytes = put_pairs(l, q, starts, out);
    tables::done((bytes / 2) as u32)
}
