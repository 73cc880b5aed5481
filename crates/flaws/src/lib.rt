// The flaws of a state: open conditions, support threats and mutex threats.

#![tactic(auto)]

ghost use Rattle.std.specs.Prelude.{◌≡◌, ℕ, ◌≤◌, ◌<◌, ◌^◌, T};
ghost use Rattle.facts.specs.Facts.{has};
ghost use Rattle.facts.specs.Words.{Decides};
ghost use Rattle.states.specs.State.{Search, StartMay, SafeJob, Dead};
ghost use Rattle.cells.specs.View.{view};
ghost use Rattle.lent.specs.Lent.{wants_of, Lent};
ghost use Rattle.lent.specs.Consumers.{who_at, SomeSafe, SafeFor, Ordered, NoFlaw};
ghost use Rattle.supports.specs.Supports.{Candidate, NoMay};
ghost use Rattle.flaws.specs.Flaw.{threat_pair, Picks, Eased, Roomier, Sooner, Urgent, Pending, SceneOf, NoCandidate, OneLost, AllSafe, SafeBelow, Interfering, RowOrdered, AllOrdered};

use Choice::{Fine, Lost, Open};
use Repair::{Job, Pair};
use cells::State;
use lent::Tables;

// What is to be settled next: that a job is in or out, or that the first of a pair is over before the second or not.
#[derive(Clone, Copy)]
pub enum Repair {
    Job(usize),
    Pair(usize, usize),
}

// What a look for flaws finds: none, one that no repair mends, or one with a repair.
#[derive(Clone, Copy)]
pub enum Choice {
    Fine,
    Lost,
    Open(Repair),
}

// Ranks below OPEN are those of threats, by their room; from OPEN on stand open conditions, by the earliest of their candidates.
const OPEN: u64 = 1000000;

// A choice with its rank among the flaws.
#[derive(Clone, Copy)]
pub struct Ranked {
    pub choice: Choice,
    pub rank: u64,
}

// A choice that ranks before all that have a repair.
fn foremost(choice: Choice) -> Ranked
    ensures { result.choice ≡ choice }
{
    Ranked { choice, rank: 0 }
}

// One fact of a consumer: the consumer, its candidates, and the deleters before which it is not surely over.
#[derive(Clone, Copy)]
pub struct Scene {
    pub by: usize,
    pub cands: u32,
    pub rest: u32,
}

// Job d deletes the fact of the candidate a: it goes behind the consumer b if it surely is not over before a, else before a.
fn part(s: &State, b: usize, a: usize, d: usize) -> Repair
    requires { (a < 24) × (d < 24) }
    ensures { result ≡ threat_pair ((view s.now).never d a) a b d }
{
    if cells::never(s, d, a) {
        Pair(b, d)
    } else {
        Pair(d, a)
    }
}

// What the candidate a wants for the consumer b.
fn support(s: &State, b: usize, a: usize, rest: u32) -> Choice
    requires { (b ≤ 24) × (a < 24) }
    ensures { (P : Search) (p : ℕ) → Pending P s.now p b rest → Candidate P s.now p b a → Picks s.now (SafeJob P (view s.now) p (who_at b) a) ⊥ result }
{
    if !supports::serves_for(s, a, b) {
        return Open(Pair(a, b));
    }
    if !cells::inside(s, a) {
        return Open(Job(a));
    }
    match jobs::lack(rest, cells::row_sure(s, a)) {
        Some(d) => Open(part(s, b, a, d)),
        None => Fine,
    }
}

// Where job a finishes at the earliest.
fn reach(s: &State, a: usize, t: &Tables) -> u64
    requires { a < 24 }
    ensures { result < 2 ^ 33 }
{
    cells::sum(cells::lo(s, a), lent::step(t, a))
}

// How much room there is for a job that reaches so far before y.
fn slack(s: &State, y: usize, early: u64) -> u64
    requires { y < 24 }
{
    u64::from(cells::hi(s, y)).saturating_sub(early)
}

// The room of two jobs one after the other, in the order that has more.
fn room(s: &State, x: usize, y: usize, t: &Tables) -> u64
    requires { (x < 24) × (y < 24) }
{
    slack(s, y, reach(s, x, t)).max(slack(s, x, reach(s, y, t)))
}

// A threat ranks by its room, behind all threats an open condition by its earliest candidate. Any rank is right; this one saves work.
fn rank_of(s: &State, b: usize, c: Choice, t: &Tables) -> u64 {
    match c {
        Open(Job(x)) if x < 24 => OPEN + reach(s, x, t),
        Open(Pair(x, y)) if x < 24 && y == b => OPEN + reach(s, x, t),
        Open(Pair(x, y)) if x < 24 && y < 24 => room(s, x, y, t),
        _ => 0,
    }
}

// Among open conditions the one whose earliest candidate is latest comes first.
fn turned(rank: u64) -> u64 {
    if rank < OPEN {
        rank
    } else {
        3 * OPEN - rank % OPEN
    }
}

// Of two candidates the one to be tried: an established one, else the earlier.
fn sooner(best: Ranked, c: Ranked) -> Ranked
    ensures { Sooner best.choice c.choice result.choice }
{
    match (best.choice, c.choice) {
        (Lost, _) | (_, Fine) => c,
        _ if c.rank < best.rank => c,
        _ => best,
    }
}

// Of two flaws the one to be repaired: a dead end, else that of the lower rank.
fn urgent(best: Ranked, c: Ranked) -> Ranked
    ensures { Urgent best.choice c.choice result.choice }
{
    match (best.choice, c.choice) {
        (_, Fine) => best,
        (_, Lost) | (Fine, _) => c,
        _ if c.rank < best.rank => c,
        _ => best,
    }
}

// What the candidate a wants, with its rank.
fn offer(s: &State, x: Scene, a: usize, t: &Tables) -> Ranked
    requires { x.by ≤ 24 }
    ensures { (P : Search) (p : ℕ) → SceneOf P s.now p x → T (has x.cands a) → Picks s.now (SomeSafe P s.now p x.by) ⊥ result.choice }
{
    if 24 <= a {
        return foremost(Fine);
    }
    let choice = support(s, x.by, a, x.rest);
    Ranked {
        choice,
        rank: rank_of(s, x.by, choice, t),
    }
}

// The candidate to be tried first, with what it wants.
fn best_job(s: &State, x: Scene, t: &Tables) -> Ranked
    requires { x.by ≤ 24 }
    ensures { (P : Search) (p : ℕ) → SceneOf P s.now p x → Picks s.now (SomeSafe P s.now p x.by) (NoCandidate P s.now p x.by) result.choice }
{
    let mut best = foremost(Lost);
    for a in jobs::each(x.cands) {
        best = sooner(best, offer(s, x, a, t));
        if let Fine = best.choice {
            return best;
        }
    }
    best
}

// Start is a candidate: what it wants.
fn start_choice(s: &State, b: usize, rest: u32) -> Choice
    requires { b ≤ 24 }
    ensures { (P : Search) (p : ℕ) → Pending P s.now p b rest → StartMay P (view s.now) p (who_at b) → Picks s.now (SomeSafe P s.now p b) ⊥ result }
{
    match jobs::lack(rest, 0) {
        Some(d) => Open(Pair(b, d)),
        None => Fine,
    }
}

// What the fact p wants for the consumer b.
fn look(s: &State, b: usize, p: usize, t: &Tables) -> Ranked
    requires { (b ≤ 24) × (p < 64) }
    ensures { (P : Search) → Lent t.now P → Picks s.now (SomeSafe P s.now p b) (NoMay P s.now p b) result.choice }
{
    let kills = lent::killers(t, p);
    let dang = supports::threats(s, b, kills, true);
    let x = Scene {
        by: b,
        cands: supports::cands(s, b, lent::adders(t, p), dang),
        rest: supports::threats(s, b, kills, false),
    };
    let mut c = best_job(s, x, t);
    c.rank = turned(c.rank);
    if let Fine = c.choice {
        return c;
    }
    if !supports::may_start(t, p, dang) {
        return c;
    }
    foremost(start_choice(s, b, x.rest))
}

// What the fact p wants for the consumer b, if it is one of its conditions.
fn condition(s: &State, b: usize, p: usize, t: &Tables) -> Ranked
    requires { b ≤ 24 }
    ensures { (P : Search) → Lent t.now P → Picks s.now (T (has (wants_of t.now b) p) → SomeSafe P s.now p b) (OneLost P s.now b (wants_of t.now b)) result.choice }
{
    let w = lent::wants(t, b);
    if 64 <= p {
        return foremost(Fine);
    }
    if !facts::has(w, p) {
        return foremost(Fine);
    }
    look(s, b, p, t)
}

// What all conditions of the consumer b want.
fn conditions(s: &State, b: usize, t: &Tables) -> Ranked
    requires { b ≤ 24 }
    ensures { (P : Search) → Lent t.now P → Picks s.now (AllSafe P s.now b (wants_of t.now b)) (OneLost P s.now b (wants_of t.now b)) result.choice }
{
    let mut best = foremost(Fine);
    for p in facts::each(lent::wants(t, b)) {
        best = urgent(best, condition(s, b, p, t));
    }
    best
}

// What the consumer b wants, if it is there.
fn consumer(s: &State, b: usize, t: &Tables) -> Ranked
    requires { b ≤ 24 }
    ensures { (P : Search) → Lent t.now P → Picks s.now (SafeFor P s.now b) (Dead P (view s.now)) result.choice }
{
    if !supports::there_for(s, b) {
        return foremost(Fine);
    }
    conditions(s, b, t)
}

// What all consumers want.
fn consumers(s: &State, t: &Tables) -> Ranked
    ensures { (P : Search) → Lent t.now P → Picks s.now (SafeBelow P s.now 25) (Dead P (view s.now)) result.choice }
{
    let mut best = foremost(Fine);
    for b in 0..25 {
        best = urgent(best, consumer(s, b, t));
    }
    best
}

// Jobs a and b are not both inside, or one is surely over before the other.
fn ordered(s: &State, a: usize, b: usize) -> bool
    requires { (a < 24) × (b < 24) }
    ensures { Decides result (Ordered s.now a b) }
{
    !cells::inside(s, a) || !cells::inside(s, b) || cells::sure(s, a, b) || cells::sure(s, b, a)
}

// Two jobs that interfere.
fn mutex_at(s: &State, a: usize, b: usize) -> Choice
    requires { a < 24 }
    ensures { (P : Search) → Interfering P a b → Picks s.now (b < 24 → Ordered s.now a b) (Dead P (view s.now)) result }
{
    if 24 <= b || ordered(s, a, b) {
        return Fine;
    }
    if !cells::never(s, a, b) {
        return Open(Pair(a, b));
    }
    if !cells::never(s, b, a) {
        return Open(Pair(b, a));
    }
    Lost
}

// Two jobs that interfere, with their rank.
fn threat(s: &State, a: usize, b: usize, t: &Tables) -> Ranked
    requires { a < 24 }
    ensures { (P : Search) → Interfering P a b → Picks s.now (b < 24 → Ordered s.now a b) (Dead P (view s.now)) result.choice }
{
    let choice = mutex_at(s, a, b);
    Ranked {
        choice,
        rank: rank_of(s, 24, choice, t),
    }
}

// The job a with all that interfere with it.
fn mutex_row(s: &State, a: usize, t: &Tables) -> Ranked
    ensures { (P : Search) → Lent t.now P → Picks s.now (RowOrdered s.now t.now a) (Dead P (view s.now)) result.choice }
{
    let mut best = foremost(Fine);
    if 24 <= a {
        return best;
    }
    for b in jobs::each(lent::hits(t, a) & cells::insides(s)) {
        best = urgent(best, threat(s, a, b, t));
    }
    best
}

// All jobs that interfere.
fn mutexes(s: &State, t: &Tables) -> Ranked
    ensures { (P : Search) → Lent t.now P → Picks s.now (AllOrdered s.now t.now) (Dead P (view s.now)) result.choice }
{
    let mut best = foremost(Fine);
    for a in jobs::each(cells::insides(s)) {
        best = urgent(best, mutex_row(s, a, t));
    }
    best
}

// The pair the other way round is open and leaves more room.
fn roomier(s: &State, x: usize, y: usize, t: &Tables) -> bool
    ensures { Roomier s.now x y result }
{
    if 24 <= x || 24 <= y || cells::sure(s, y, x) || cells::never(s, y, x) {
        return false;
    }
    slack(s, y, reach(s, x, t)) < slack(s, x, reach(s, y, t))
}

// A pair, the other way round where that is open and leaves more room; a condition's candidate stays.
fn eased(s: &State, c: Ranked, t: &Tables) -> Choice
    ensures { Eased s.now c.choice result }
{
    match c.choice {
        Open(Pair(x, y)) if c.rank < OPEN && roomier(s, x, y, t) => Open(Pair(y, x)),
        choice => choice,
    }
}

// The flaw to repair next.
pub fn flaw(s: &State, t: &Tables) -> Choice
    ensures { (P : Search) → Lent t.now P → Picks s.now (NoFlaw P s.now t.now) (Dead P (view s.now)) result }
{
    let c = consumers(s, t);
    if let Fine = c.choice {
        return eased(s, mutexes(s, t), t);
    }
    eased(s, c, t)
}
