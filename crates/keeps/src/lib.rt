// How long groups of jobs keep others away, and when they are gone.

#![tactic(auto)]

ghost use Rattle.std.specs.Prelude.{◌<◌, ⊤, MatchOption};
ghost use Rattle.keeps.specs.Keeps.{KeepsFor, KeepsAllFor, KeepsAway, AllKeepAway, Latest};

use cells::State;
use lent::Tables;
use std::array;

// The smaller of m and how long job a keeps b away, if b can be behind it.
fn nearer(s: &State, t: &Tables, a: usize, b: usize, m: u32) -> u32
    requires { a < 24 }
    ensures { KeepsFor s.now t.now a b m result }
{
    if 24 <= b || cells::never(s, a, b) {
        return m;
    }
    lent::wait(t, a, b).min(m)
}

// The smaller of m and how long job a keeps every job of the word away.
fn hold(s: &State, t: &Tables, a: usize, w: u32, m: u32) -> u32
    ensures { KeepsAllFor s.now t.now w a m result }
{
    if 24 <= a {
        return m;
    }
    let mut x = m;
    for b in jobs::each(w) {
        x = nearer(s, t, a, b, x);
    }
    x
}

// How long the jobs of a group keep all jobs of the crowd outside it away, if it is one of the crowd.
fn holds(s: &State, t: &Tables, w: u32, group: u32) -> u32
    ensures { KeepsAway s.now t.now w group result }
{
    if !jobs::within(group, w) {
        return 0;
    }
    let others = jobs::outside(w, group);
    let mut x: u32 = 65535;
    for a in jobs::each(group) {
        x = hold(s, t, a, others, x);
    }
    x
}

// The same for every group.
pub fn lengths(s: &State, t: &Tables, w: u32, words: [u32; 24]) -> [u32; 24]
    ensures { AllKeepAway s.now t.now w words result 24 }
{
    array::from_fn(|a| holds(s, t, w, words[a]))
}

// The latest start of the jobs of a group.
pub fn latest(s: &State, group: u32) -> u32
    ensures { Latest s.now group result }
{
    let mut x: u32 = 0;
    for a in jobs::each(group) {
        if a < 24 {
            x = x.max(cells::hi(s, a));
        }
    }
    x
}

// After every end that two times of 32 bits add up to.
const AFTER_ALL: u64 = 8589934592;

// When a group is gone at the latest, if it has jobs, else after all: a time still, as `ends` gives plain times.
fn gone_by(s: &State, group: u32, long: u32) -> u64 {
    if group == 0 {
        AFTER_ALL
    } else {
        cells::sum(latest(s, group), long)
    }
}

// The same for every group.
pub fn ends(s: &State, words: [u32; 24], long: [u32; 24]) -> [u64; 24] {
    array::from_fn(|a| gone_by(s, words[a], long[a]))
}

// The group of the word that is gone first, at the latest; any answer is right.
fn soonest(gone: &[u64; 24], w: u32) -> Option<usize>
    ensures { MatchOption result ⊤ (λ j. j < 24) }
{
    jobs::each(w)
        .filter(|&j| j < 24 && gone[j] < AFTER_ALL)
        .min_by_key(|&j| gone[j])
}

// The groups of the word by their latest ends, and 24 behind the last, since arrays are of fixed length. Any order is right; this one finds most.
pub fn by_end(gone: [u64; 24], w: u32) -> [usize; 24] {
    let mut order = [24usize; 24];
    let mut left = w;
    for k in 0..24 {
        let Some(j) = soonest(&gone, left) else {
            return order;
        };
        order[k] = j;
        left = jobs::outside(left, jobs::with(0, j));
    }
    order
}
