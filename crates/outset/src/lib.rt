// What a table sets out to the search: the lists it reads, and the state it begins from.

#![tactic(auto)]

ghost use Rattle.std.specs.Prelude.{◌≡◌, ◌+◌, ◌≤◌, ◌<◌, ◌^◌};
ghost use Rattle.rules.specs.Premises.{InOrder};
ghost use Rattle.tables.specs.Tables.{problem};
ghost use Rattle.tables.specs.Steps.{Released};
ghost use Rattle.states.specs.State.{Search};
ghost use Rattle.cells.specs.View.{Says};
ghost use Rattle.lent.specs.Lent.{Lent};
ghost use Rattle.turns.specs.Checked.{Leader};
ghost use Rattle.outset.specs.Outset.{Upto, Stands, Lists, RowPut, WaitsPut, LeadsPut, Waits, AllWait, FitsAll, ListedPlan, SetsOut};

use cells::State;
use lent::Tables;
use reach::PairRows;
use std::array;
use tables::{Action, Ask, Loaded};

// A duration with the gap behind it.
fn step(duration: u16, gap: u16) -> u64
    ensures { (result ≡ duration + gap) × (result < 2 ^ 32) }
{
    u64::from(duration) + u64::from(gap)
}

// What stands at place i of the search's table; 0 for waits, leads and bound, which are put in later.
fn entry(l: &Loaded, q: &Ask, est: &[u16; 24], i: usize) -> u64
    ensures { Upto i 228 (Stands l.now q.now est.now i result) (result ≡ 0) }
{
    let n = q.jobs.min(24);
    if i < 24 {
        return l.jobs[i].conditions;
    }
    if i < 25 {
        return q.goals;
    }
    if i < 26 {
        return q.opening;
    }
    if i < 90 {
        return u64::from(jobs::those(n, |j| facts::has(l.jobs[j].additions, i - 26)));
    }
    if i < 154 {
        return u64::from(jobs::those(n, |j| facts::has(l.jobs[j].deletions, i - 90)));
    }
    if i < 178 {
        return step(l.jobs[i - 154].duration, tables::gap(*q));
    }
    if i < 202 {
        return u64::from(jobs::those(n, |b| interference::interferes(*l, i - 178, b)));
    }
    if i < 226 {
        return u64::from(est[i - 202]);
    }
    if i < 227 {
        return q.jobs as u64;
    }
    if i < 228 {
        return u64::from(tables::gap(*q));
    }
    0
}

// The table of the search, but for the waits, the leads and the bound.
fn listed(l: Loaded, q: Ask, est: [u16; 24]) -> Tables
    ensures { Lists l q est result 228 }
{
    array::from_fn(
        |i|
            ensures { Upto i 228 (Stands l q est i result) (result ≡ 0) }
        { entry(&l, &q, &est, i) },
    )
}

// The waits of job a: a loop, as the two below, since the table is written in place.
fn put_row(t: &mut Tables, a: usize, row: [u16; 25])
    requires { a < 24 }
    ensures { RowPut row a 25 t.old t.new }
{
    for b in 0..25 {
        lent::put_wait(t, a, b, u64::from(row[b]));
    }
}

// The waits of all jobs.
fn put_waits(t: &mut Tables, l: Loaded, q: Ask)
    requires { q.jobs ≤ 24 }
    ensures { WaitsPut (problem l q) q.jobs t.old t.new }
{
    let n = q.jobs;
    let free = distances::freed(l);
    for a in 0..n {
        let row = distances::row(free, q, a);
        put_row(t, a, row);
    }
}

// The job that job m leads, or 24 for none, since the table of the search holds numbers.
fn follower(l: Loaded, q: Ask, m: usize) -> usize
    requires { q.jobs ≤ 24 }
    ensures within { result ≤ 24 }
    ensures led { result < 24 → Leader l q m result }
{
    if q.jobs <= m {
        return 24;
    }
    turns::led(l, q, m).unwrap_or(24)
}

// Who leads whom.
fn put_leads(t: &mut Tables, l: Loaded, q: Ask)
    requires { q.jobs ≤ 24 }
    ensures { LeadsPut l q 24 t.old t.new }
{
    for m in 0..24 {
        lent::put_led(t, m, follower(l, q, m));
    }
}

// Job j from its estimate to the bound less the time that the plan lasts from there, or out.
fn root_job(s: &mut State, j: usize, t: &Tables)
    requires { j < 24 }
    ensures { Says (ListedPlan t.now) s.old s.new }
{
    if lent::count(t) <= j {
        cells::put_barred(s, j);
        return;
    }
    let rest = lent::wait(t, j, 24);
    let bound = lent::bound(t);
    if bound < rest {
        cells::put_barred(s, j);
        return;
    }
    orders::till(s, j, bound - rest);
    orders::from(s, j, u64::from(lent::est(t, j)));
}

// The state that every valid plan within the bound fits.
pub fn root(t: &Tables) -> State
    ensures { (P : Search) → Lent t.now P → FitsAll P result }
{
    let mut s = cells::blank();
    for j in 0..24 {
        root_job(&mut s, j, t);
    }
    s
}

// The estimate of a job, or never where its conditions are not pairwise reachable.
fn waits(s: PairRows, c: u64, est: u16) -> u16
    ensures { Waits s.rows c est result }
{
    if reach::fits(s, c) { est } else { 65535 }
}

// The same for all jobs.
fn all_wait(s: PairRows, l: Loaded, est: [u16; 24]) -> [u16; 24]
    ensures { AllWait s.rows l est result 24 }
{
    array::from_fn(|j| waits(s, l.jobs[j].conditions, est[j]))
}

// What is searched for the table: it has the same plans. Refused where the goals are not pairwise reachable: there is no plan.
pub fn set_out(l: Loaded, q: Ask) -> Result<Tables, Tables>
    requires { (q.jobs ≤ 24) × InOrder (problem l q) × Released l q }
    ensures { SetsOut l q result }
{
    let s = reach::reachable(l, q);
    let table = reach::e_table(l, q.jobs, s);
    let est = all_wait(s, table, estimates::estimate_all(table, q));
    let mut tables = listed(table, q, est);
    put_waits(&mut tables, table, q);
    put_leads(&mut tables, l, q);
    if !reach::fits(s, q.goals) {
        return Err(tables);
    }
    Ok(tables)
}
