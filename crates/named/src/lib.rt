// The named supports of an offered plan, a row at a time and by words.

#![tactic(auto)]

ghost use Rattle.std.specs.Prelude.{◌≡◌, ◌&&◌, ◌+◌, ◌≤◌, ◌<◌, eqb, leb, ltb};
ghost use Rattle.facts.specs.Facts.{has};
ghost use Rattle.facts.specs.Words.{Word};
ghost use Rattle.facts.specs.Least.{any};
ghost use Rattle.rules.specs.Plans.{starts};
ghost use Rattle.rules.specs.Supports.{blocks, start_fits, job_fits, wants, consumer, whose_row};
ghost use Rattle.tables.specs.Tables.{problem};
ghost use Rattle.verdict.specs.Steps.{Given, start_in};
ghost use Rattle.named.specs.Named.{consumer_of, RowOf, RowAt};

use tables::{Ask, Loaded};

// Who has the conditions of a row, a job or End: its number, start and finish, and the gap before and behind it.
#[derive(Clone, Copy)]
pub struct Holder {
    pub me: usize,
    pub at: u32,
    pub till: u32,
    pub lag: u16,
}

// The conditions of a row by their named support: Start, or a job.
#[derive(Clone, Copy)]
pub struct Row {
    pub start: u64,
    pub by: [u64; 24],
}

// The job is in and finishes, with a lag behind it, no later than `at`.
pub fn over_by(start: u16, duration: u16, lag: u16, at: u32) -> bool
    ensures { result ≡ (start_in start && leb (start + duration + lag) at) }
{
    start != 65535 && u32::from(start) + u32::from(duration) + u32::from(lag) <= at
}

// The job is in, finishes, with a lag behind it, after `from`, and starts before `till` with the rear behind it.
fn in_way(start: u16, duration: u16, lag: u16, from: u32, till: u32, rear: u16) -> bool
    ensures { result ≡ (start_in start && (ltb from (start + duration + lag) && ltb start (till + rear))) }
{
    start != 65535
        && from < u32::from(start) + u32::from(duration) + u32::from(lag)
        && u64::from(start) < u64::from(till) + u64::from(rear)
}

// The word, where both tests pass.
fn word_if(first: bool, second: bool, w: u64) -> u64
    ensures { Word (λ p. has w p && (first && second)) result }
{
    if first && second { w } else { 0 }
}

// The facts that some job deletes which is not the holder, and neither finishes a lag before `from` nor starts the holder's lag after its finish.
fn blocked(l: Loaded, q: Ask, s: &[u16], c: Holder, lag: u16, from: u32) -> u64
    requires { Given q s.now }
    ensures { Word (λ p. any (blocks (problem l q) (starts s.now) p (consumer_of c) lag from) q.jobs) result }
{
    let mut w = 0u64;
    for d in 0..q.jobs {
        let a = l.jobs[d];
        let way = in_way(s[d], a.duration, lag, from, c.till, c.lag);
        w |= word_if(way, d != c.me, a.deletions);
    }
    w
}

// The facts that Start can support for the holder.
fn start_fits(l: Loaded, q: Ask, s: &[u16], c: Holder) -> u64
    requires { Given q s.now }
    ensures { Word (λ p. start_fits (problem l q) (starts s.now) p (consumer_of c)) result }
{
    facts::less(q.opening, blocked(l, q, s, c, 0, 0))
}

// The facts that job a can support for the holder.
fn job_fits(l: Loaded, q: Ask, s: &[u16], c: Holder, a: usize) -> u64
    requires { Given q s.now × (a < q.jobs) }
    ensures { Word (λ p. job_fits (problem l q) (starts s.now) p (consumer_of c) a) result }
{
    let j = l.jobs[a];
    if over_by(s[a], j.duration, c.lag, c.at) {
        return facts::less(
            j.additions,
            blocked(l, q, s, c, tables::gap(q), u32::from(s[a])),
        );
    }
    0
}

// The conditions by named support: Start first, then each job what is left.
fn named_row(l: Loaded, q: Ask, s: &[u16], c: Holder, want: u64) -> Row
    requires { Given q s.now }
    ensures { RowOf (problem l q) (starts s.now) (consumer_of c) (has want) result }
{
    let start = start_fits(l, q, s, c);
    let mut left = facts::less(want, start);
    let mut by = [0u64; 24];
    for a in 0..q.jobs {
        let fit = job_fits(l, q, s, c, a);
        by[a] = left & fit;
        left = facts::less(left, fit);
    }
    Row {
        start: want & start,
        by,
    }
}

// Holder b by its start, its length and its lag.
fn holder_at(b: usize, start: u16, duration: u16, lag: u16) -> Holder
    ensures { consumer_of result ≡ record { me = b; at = start; till = start + duration; lag = lag } }
{
    Holder {
        me: b,
        at: u32::from(start),
        till: u32::from(start) + u32::from(duration),
        lag,
    }
}

// Who has row b: job b, or End after the last job.
fn holder_of(l: Loaded, q: Ask, s: &[u16], b: usize) -> Holder
    requires { Given q s.now × (b ≤ q.jobs) }
    ensures { consumer_of result ≡ consumer (problem l q) q.bound (starts s.now) (whose_row (eqb b q.jobs) b) }
{
    if b == q.jobs {
        return holder_at(b, q.bound, 0, 0);
    }
    let a = l.jobs[b];
    holder_at(b, s[b], a.duration, tables::gap(q))
}

// The conditions of row b; a job that is out has none.
fn wanted(l: Loaded, q: Ask, s: &[u16], b: usize) -> u64
    requires { Given q s.now × (b ≤ q.jobs) }
    ensures { Word (wants (problem l q) (starts s.now) (whose_row (eqb b q.jobs) b)) result }
{
    if b == q.jobs {
        return q.goals;
    }
    if s[b] == 65535 {
        return 0;
    }
    let a = l.jobs[b];
    a.conditions
}

// Row b of the table of supports, by words.
pub fn row_of(l: Loaded, q: Ask, s: &[u16], b: usize) -> Row
    requires { Given q s.now × (b ≤ q.jobs) }
    ensures { RowAt (problem l q) q.bound (starts s.now) b result }
{
    named_row(l, q, s, holder_of(l, q, s, b), wanted(l, q, s, b))
}
