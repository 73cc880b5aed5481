// Jobs that can stand for one another: turns of the jobs and facts of a table, looked for and checked.

#![tactic(auto)]

ghost use Rattle.std.specs.Prelude.{◌≡◌, true, ◌≤◌, ◌<◌};
ghost use Rattle.tables.specs.Tables.{problem};
ghost use Rattle.entries.specs.Entries.{entry};
ghost use Rattle.turns.specs.Turns.{Turn};
ghost use Rattle.turns.specs.Checked.{Inverse, AllInverse, Moved, Image, SameTimes, SameJob, TurnsJob, TurnsBelow, MovesTo, Leader, Follower};

use std::array;
use tables::{Action, Ask, Loaded};

// The jobs and the facts that change places.
#[derive(Clone, Copy)]
pub struct Guess {
    pub to: [u8; 24],
    pub fact: [u8; 64],
}

// The word with the fact that takes the place of p.
fn with_moved(w: u64, fact: [u8; 64], p: usize) -> u64
    requires { p < 64 }
    ensures { Moved fact p w result }
{
    let i = usize::from(fact[p]);
    if i < 64 { facts::with(w, i) } else { w }
}

// The facts that take the places of those of the word.
fn image(w: u64, fact: [u8; 64]) -> u64
    ensures { Image fact w result }
{
    let mut r: u64 = 0;
    for p in facts::each(w) {
        r = with_moved(r, fact, p);
    }
    r
}

// Fact p is in its place again when all change places twice.
fn back_at(fact: [u8; 64], p: usize) -> bool
    requires { p < 64 }
    ensures { result ≡ true → Inverse fact p }
{
    let i = usize::from(fact[p]);
    i < 64 && usize::from(fact[i]) == p
}

// Every fact is.
fn facts_back(fact: [u8; 64]) -> bool
    ensures { result ≡ true → AllInverse fact 64 }
{
    (0..64).all(|p| back_at(fact, p))
}

// Job b takes as long as job a and has the same release.
fn same_times(a: Action, b: Action) -> bool
    ensures { result ≡ true → SameTimes a b }
{
    b.duration == a.duration && b.release == a.release
}

// Job b is job a with other facts.
fn same_job(a: Action, b: Action, fact: [u8; 64]) -> bool
    ensures { result ≡ true → SameJob a b fact }
{
    same_times(a, b)
        && image(a.conditions, fact) == b.conditions
        && image(a.additions, fact) == b.additions
        && image(a.deletions, fact) == b.deletions
}

// Job j and the job that takes its place.
fn turns_job(l: Loaded, n: usize, g: Guess, j: usize) -> bool
    requires { (n ≤ 24) × (j < 24) }
    ensures { result ≡ true → TurnsJob l n g j }
{
    let k = usize::from(g.to[j]);
    k < n && usize::from(g.to[k]) == j && same_job(l.jobs[j], l.jobs[k], g.fact)
}

// The jobs below n.
fn turns_jobs(l: Loaded, n: usize, g: Guess) -> bool
    requires { n ≤ 24 }
    ensures { result ≡ true → TurnsBelow l n g n }
{
    (0..n).all(|j| turns_job(l, n, g, j))
}

// The whole turn.
fn is_turn(l: Loaded, q: Ask, g: Guess) -> bool
    requires { q.jobs ≤ 24 }
    ensures { result ≡ true → Turn (problem l q) (entry g.to) (entry g.to) (entry g.fact) }
{
    facts_back(g.fact)
        && image(q.opening, g.fact) == q.opening
        && image(q.goals, g.fact) == q.goals
        && turns_jobs(l, q.jobs, g)
}

// Nothing moves.
fn still() -> Guess {
    Guess {
        to: array::from_fn(|j| j as u8),
        fact: array::from_fn(|p| p as u8),
    }
}

// The facts x and y change places; none where one would have two.
fn swap_facts(g: Guess, x: usize, y: usize) -> Option<Guess>
    requires { (x < 64) × (y < 64) }
{
    let a = usize::from(g.fact[x]);
    if a == y {
        return Some(g);
    }
    if a != x || usize::from(g.fact[y]) != y {
        return None;
    }
    let mut r = g;
    r.fact[x] = y as u8;
    r.fact[y] = x as u8;
    Some(r)
}

// The facts in which the words differ change places, in their order.
fn swap_words(g: Guess, v: u64, w: u64) -> Option<Guess> {
    let mut theirs = facts::each(facts::less(w, v));
    let mut r = g;
    for x in facts::each(facts::less(v, w)) {
        r = swap_facts(r, x, theirs.next()?)?;
    }
    Some(r)
}

// The jobs i and j change places; none where one would have two.
fn swap_jobs(g: Guess, i: usize, j: usize) -> Option<Guess>
    requires { (i < 24) × (j < 24) }
{
    if usize::from(g.to[i]) != i || usize::from(g.to[j]) != j {
        return None;
    }
    let mut r = g;
    r.to[i] = j as u8;
    r.to[j] = i as u8;
    Some(r)
}

// And the facts in which they differ.
fn pair_jobs(g: Guess, l: Loaded, i: usize, j: usize) -> Option<Guess>
    requires { (i < 24) × (j < 24) }
{
    let a = l.jobs[i];
    let b = l.jobs[j];
    if !same_times(a, b) {
        return None;
    }
    let r = swap_jobs(g, i, j)?;
    let s = swap_words(r, a.conditions, b.conditions)?;
    let t = swap_words(s, a.additions, b.additions)?;
    swap_words(t, a.deletions, b.deletions)
}

// Job k and the one that takes its place are the same with other facts.
fn fits(g: Guess, l: Loaded, k: usize) -> bool
    requires { k < 24 }
{
    let m = usize::from(g.to[k]);
    m < 24 && same_job(l.jobs[k], l.jobs[m], g.fact)
}

// Jobs k and m change places, if k then fits.
fn try_pair(g: Guess, l: Loaded, k: usize, m: usize) -> Option<Guess>
    requires { (k < 24) × (m < 24) }
{
    if k == m {
        return None;
    }
    pair_jobs(g, l, k, m).filter(|r| fits(*r, l, k))
}

// The first job below n that does not fit gets the first place from `low` on that fits; none below `low` moves.
fn grow(g: Guess, l: Loaded, n: usize, low: usize) -> Option<Guess>
    requires { n ≤ 24 }
{
    match (0..n).find(|&k| !fits(g, l, k)) {
        None => Some(g),
        Some(k) if k < low => None,
        Some(k) => (low..n).find_map(|m| try_pair(g, l, k, m)),
    }
}

// A turn that moves i to j, if there is one.
fn find(l: Loaded, n: usize, i: usize, j: usize) -> Option<Guess>
    requires { (n ≤ 24) × (i < 24) × (j < 24) }
{
    let mut g = try_pair(still(), l, i, j)?;
    for _ in 0..8 {
        g = grow(g, l, n, i)?;
    }
    Some(g)
}

// The jobs below i stay, and j takes i's place.
fn moves_to(to: [u8; 24], i: usize, j: usize) -> bool
    requires { i < 24 }
    ensures { result ≡ true → MovesTo to i j }
{
    (0..i).all(|x| usize::from(to[x]) == x) && usize::from(to[i]) == j
}

// A turn shows that m leads n.
fn leads(l: Loaded, q: Ask, m: usize, n: usize) -> bool
    requires { (q.jobs ≤ 24) × (m < q.jobs) × (n < 24) }
    ensures { result ≡ true → Leader l q m n }
{
    if !same_times(l.jobs[m], l.jobs[n]) {
        return false;
    }
    match find(l, q.jobs, m, n) {
        None => false,
        Some(g) => moves_to(g.to, m, n) && is_turn(l, q, g),
    }
}

// The first job behind m that it leads.
pub fn led(l: Loaded, q: Ask, m: usize) -> Option<usize>
    requires { (q.jobs ≤ 24) × (m < q.jobs) }
    ensures { Follower l q m result }
{
    (m + 1..q.jobs).find(|&n| leads(l, q, m, n))
}
