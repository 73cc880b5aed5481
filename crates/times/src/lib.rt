// Least starts that keep ordered pairs: starts are pushed along the pairs until a round changes nothing.

#![tactic(auto)]

ghost use Rattle.std.specs.Prelude.{◌≡◌, cond, ◌&&◌, ◌+◌, ◌≤◌, ◌<◌, ltb};
ghost use Rattle.facts.specs.Facts.{has};
ghost use Rattle.facts.specs.Words.{Decides};
ghost use Rattle.tables.specs.Tables.{problem};
ghost use Rattle.entries.specs.Entries.{entry};
ghost use Rattle.times.specs.Times.{wanted};
ghost use Rattle.times.specs.Steps.{Ready, Begins, EndInTime, Pushes, Round, Rounds, Solved};

use std::array;
use tables::{Ask, Loaded};

// Where job b starts, no earlier than the gap after job a finishes; refused where b would then end after the bound.
fn push(
    t: &[u16; 24],
    a: usize,
    b: usize,
    first: u16,
    gap: u16,
    second: u16,
    bound: u16,
) -> Option<u16>
    requires { (a < 24) × (b < 24) }
    ensures { Pushes t.now b (entry t.now a + first + gap) second bound result }
{
    let x = u32::from(t[a]) + u32::from(first) + u32::from(gap);
    if u32::from(bound) < x + u32::from(second) {
        return None;
    }
    Some(t[b].max(x as u16))
}

// Every pair once.
fn round(l: Loaded, q: Ask, pairs: &[u8], t: [u16; 24]) -> Option<[u16; 24]>
    requires { Ready q pairs.now }
    ensures { Round l q pairs.now (entry t) result }
{
    let gap = tables::gap(q);
    let mut s = t;
    for k in 0..q.pairs {
        let a = usize::from(pairs[2 * k]);
        let b = usize::from(pairs[2 * k + 1]);
        s[b] = push(
            &s,
            a,
            b,
            l.jobs[a].duration,
            gap,
            l.jobs[b].duration,
            q.bound,
        )?;
    }
    Some(s)
}

// Rounds until nothing changes.
fn rounds(l: Loaded, q: Ask, pairs: &[u8], t: [u16; 24]) -> Option<[u16; 24]>
    requires { Ready q pairs.now }
    ensures { Rounds l q pairs.now (entry t) result }
{
    let mut s = t;
    loop {
        let next = round(l, q, pairs, s)?;
        if entries::same(s, next, q.jobs) {
            return Some(next);
        }
        s = next;
    }
}

// A job of the set begins at its release, another is out.
fn begin_at(set: u64, j: usize, release: u16) -> u16
    requires { j < 64 }
    ensures { result ≡ cond (has set j) release 65535 }
{
    if facts::has(set, j) { release } else { 65535 }
}

// The same of all jobs.
fn begin(l: Loaded, q: Ask) -> [u16; 24]
    ensures { Begins l q result 24 }
{
    array::from_fn(|j| begin_at(q.set, j, l.jobs[j].release))
}

// Job j is of the set and ends after the bound.
fn late(set: u64, j: usize, start: u16, span: u16, bound: u16) -> bool
    requires { j < 64 }
    ensures { result ≡ (has set j && ltb bound (start + span)) }
{
    facts::has(set, j) && u32::from(bound) < u32::from(start) + u32::from(span)
}

// All jobs of the set end by the bound.
fn all_end(l: Loaded, q: Ask, t: [u16; 24]) -> bool
    requires { q.jobs ≤ 24 }
    ensures { Decides result (EndInTime l q (entry t) q.jobs) }
{
    (0..q.jobs).all(|j| !late(q.set, j, t[j], l.jobs[j].duration, q.bound))
}

// The least starts, from the releases on.
pub fn least_starts(l: Loaded, q: Ask, pairs: &[u8]) -> Option<[u16; 24]>
    requires { Ready q pairs.now }
    ensures { Solved (problem l q) (wanted l q pairs.now) result }
{
    let t = begin(l, q);
    if !all_end(l, q, t) {
        return None;
    }
    rounds(l, q, pairs, t)
}
