// The table of jobs by value, and its checks.

#![tactic(auto)]

ghost use Rattle.std.specs.Prelude.{◌≡◌, Bool, not, ◌||◌, ℕ, ◌≤◌, ◌<◌, min, ltb};
ghost use Rattle.facts.specs.Tests.{Agrees, some_least};
ghost use Rattle.refusals.specs.Refusals.{accepted, refused, refused_for};
ghost use Rattle.rules.specs.Table.{between, strays, job_checks, bound_check};
ghost use Rattle.tables.specs.Tables.{unmarked, problem, answer_of, no_jobs, job_at, call_checks};
ghost use Rattle.tables.specs.Steps.{with_job, stray_record, Judges, Cleared};

// A job as the caller keeps it.
#[repr(C)]
#[derive(Clone, Copy)]
pub struct Action {
    pub conditions: u64,
    pub additions: u64,
    pub deletions: u64,
    pub duration: u16,
    pub release: u16,
}

// The first 24 records that were lent, and how many were lent.
#[derive(Clone, Copy)]
pub struct Loaded {
    pub jobs: [Action; 24],
    pub lent: usize,
}

// How many of so many jobs a table by value holds.
pub fn held(jobs: usize) -> usize
    ensures { result ≡ min jobs 24 }
{
    jobs.min(24)
}

// A table by value without jobs.
pub fn no_jobs(lent: usize) -> Loaded
    ensures { result ≡ no_jobs lent }
{
    let none = Action {
        conditions: 0,
        additions: 0,
        deletions: 0,
        duration: 0,
        release: 0,
    };
    let jobs = [none; 24];
    Loaded { jobs, lent }
}

// The table with another job i.
pub fn with_job(l: Loaded, i: usize, a: Action) -> Loaded
    requires { i < 24 }
    ensures { result ≡ with_job l i a }
{
    let mut t = l;
    t.jobs[i] = a;
    t
}

// Job i of the table.
pub fn job_at(l: Loaded, i: usize) -> Action
    requires { i < 24 }
    ensures { result ≡ job_at l i }
{
    l.jobs[i]
}

// The numbers that a call is made with; the atom count has the mark of its rule, set and pairs are settling's.
#[repr(C)]
#[derive(Clone, Copy)]
pub struct Ask {
    pub jobs: usize,
    pub atoms: u8,
    pub opening: u64,
    pub goals: u64,
    pub bound: u16,
    pub set: u64,
    pub pairs: usize,
}

// The atom count without the mark of rule 2.
fn atoms(q: Ask) -> u8
    ensures { result ≡ (unmarked q.atoms).atoms }
{
    if q.atoms < 128 {
        return q.atoms;
    }
    q.atoms - 128
}

// The gap that the rule asks for between jobs that bind.
pub fn gap(q: Ask) -> u16
    ensures { result ≡ (unmarked q.atoms).gap }
{
    if q.atoms < 128 {
        return 0;
    }
    1
}

// What every call says: number, second number and place, all 0 on success, and the number returned.
// C's struct; a call on a table by value answers with it too, since its promise and the theorem that two results are one speak of it.
#[repr(C)]
#[derive(Clone, Copy)]
pub struct Answer {
    pub number: u8,
    pub second: u8,
    pub place: u16,
    pub value: u32,
}

// A success that returns this value.
pub fn done(value: u32) -> Answer
    ensures { result ≡ answer_of accepted value 0 }
{
    Answer {
        number: 0,
        second: 0,
        place: 0,
        value,
    }
}

// The word has a fact at or above the atom count.
pub fn word_strays(w: u64, atoms: usize) -> bool
    requires { atoms ≤ 64 }
    ensures { result ≡ strays atoms w }
{
    if atoms == 64 {
        return false;
    }
    (w >> atoms) != 0
}

// n is not 1 to most.
fn outside(n: u16, most: u16) -> bool
    ensures { result ≡ not (between 1 most n) }
{
    if n < 1 {
        return true;
    }
    most < n
}

// The atom count is not 1 to 64.
fn atoms_wrong(q: Ask) -> bool
    ensures { result ≡ not (between 1 64 (unmarked q.atoms).atoms) }
{
    outside(u16::from(atoms(q)), 64)
}

// The record has a fact at or above the atom count.
fn job_strays(a: Action, atoms: usize) -> bool
    requires { atoms ≤ 64 }
    ensures { result ≡ stray_record atoms a }
{
    word_strays(a.conditions, atoms)
        || (word_strays(a.additions, atoms) || word_strays(a.deletions, atoms))
}

// The opening facts or the goals have a fact at or above the atom count.
fn edges_stray(q: Ask) -> bool
    requires { (unmarked q.atoms).atoms ≤ 64 }
    ensures { result ≡ (strays (unmarked q.atoms).atoms q.opening || strays (unmarked q.atoms).atoms q.goals) }
{
    let atoms = usize::from(atoms(q));
    word_strays(q.opening, atoms) || word_strays(q.goals, atoms)
}

// The lowest of the first n jobs that passes the test.
fn first_job<F: Fn(Action) -> bool>(l: &Loaded, n: usize, test: F) -> Option<usize>
    requires few { n ≤ 24 }
    requires callable { (a : Action) → F.pre test a }
    ensures { (f : ℕ → Bool) → ((i : ℕ) → i < n → Agrees f i (F.post test (job_at l.now i))) → result ≡ some_least f n }
{
    facts::first(n, |i| test(l.jobs[i]))
}

// A refusal with a second number, at a place.
pub fn refuse_for(number: u8, second: u8, place: u16, value: u32) -> Answer
    requires { 0 < number }
    ensures { result ≡ answer_of (refused_for number second place) 0 value }
{
    Answer {
        number,
        second,
        place,
        value,
    }
}

// A refusal at a place; its second number is 0.
pub fn refuse(number: u8, place: u16, value: u32) -> Answer
    requires { 0 < number }
    ensures { result ≡ answer_of (refused number place) 0 value }
{
    refuse_for(number, 0, place, value)
}

// Checks 6, 20 and 7 to 9, in this order.
fn jobs_fault(l: Loaded, q: Ask, bound: u16) -> Answer
    requires { (q.jobs ≤ 24) × ((unmarked q.atoms).atoms ≤ 64) }
    ensures { result ≡ answer_of (job_checks (problem l q) (bound_check bound accepted)) 0 0 }
{
    let n = q.jobs;
    let atoms = usize::from(atoms(q));
    if let Some(long) = first_job(&l, n, |a| outside(a.duration, 960)) {
        return refuse(6, long as u16, 0);
    }
    if let Some(held) = first_job(&l, n, |a| 2880 < a.release) {
        return refuse(20, held as u16, 0);
    }
    if let Some(stray) = first_job(&l, n, |a| job_strays(a, atoms)) {
        return refuse(7, stray as u16, 0);
    }
    if edges_stray(q) {
        return refuse(7, 24, 0);
    }
    if let Some(both) = first_job(&l, n, |a| facts::meets(a.additions, a.deletions)) {
        return refuse(8, both as u16, 0);
    }
    if 2880 < bound {
        return refuse(9, 0, 0);
    }
    done(0)
}

// Lent memory beside the table is too short, or fewer records were lent than there are jobs.
pub fn too_short(short: bool, lent: usize, jobs: usize) -> bool
    ensures { result ≡ (short || ltb lent jobs) }
{
    short || lent < jobs
}

// Checks 3 to 9 and 20; `short` says that lent memory beside the table is too short, and a call without a bound gives 0.
pub fn call_fault(l: Loaded, q: Ask, short: bool, bound: u16) -> Answer
    ensures { Judges (call_checks short bound l q accepted) (Cleared short bound l q) result }
{
    if too_short(short, l.lent, q.jobs) {
        return refuse(3, 0, 0);
    }
    if atoms_wrong(q) {
        return refuse(4, 0, 0);
    }
    if 24 < q.jobs {
        return refuse(5, 0, 0);
    }
    jobs_fault(l, q, bound)
}
