// The open job table: held by a service and edited job by job, with a row of clash bits a job.

#![tactic(auto)]

ghost use Rattle.std.specs.Prelude.{◌≡◌, cond, ◌≤◌, ◌<◌, eqb, get_or};
ghost use Rattle.facts.specs.Facts.{has};
ghost use Rattle.readings.specs.Opening.{word_of};
ghost use Rattle.tables.specs.Tables.{record_at};
ghost use Rattle.tables.specs.Steps.{Judges};
ghost use Rattle.opentable.specs.Open.{jobs_of, ask_of, places, bit_rows, moved_from, empty_of, reclashed, without_job, edited, open_checks, beginning, adding, replacing, removing};
ghost use Rattle.opentable.specs.Steps.{Clashing, moved_jobs, with_record, Overfull};

use std::array;
use tables::{Action, Answer, Ask, Loaded};

// The atom count with the mark of its rule, how many jobs there are, the jobs, and of each a bit for every job with which it clashes.
#[repr(C)]
#[derive(Clone, Copy)]
pub struct OpenTable {
    pub atoms: u8,
    pub count: usize,
    pub jobs: [Action; 24],
    pub rows: [u32; 24],
}

// What a plan is wanted for, beside the jobs.
#[repr(C)]
#[derive(Clone, Copy)]
pub struct Wanted {
    pub opening: u64,
    pub goals: u64,
    pub bound: u16,
}

// The number of a job, and the record that comes in its place.
#[repr(C)]
#[derive(Clone, Copy)]
pub struct Replacement {
    pub job: u8,
    pub record: Action,
}

// What an edit says, and the table after it. One struct, since the promises `beginning`, `adding`, `replacing` and `removing` speak of it.
#[derive(Clone, Copy)]
pub struct Edited {
    pub answer: Answer,
    pub table: OpenTable,
}

// The jobs of the table, one record lent for each.
pub fn jobs_of(t: OpenTable) -> Loaded
    ensures { result ≡ jobs_of t }
{
    let jobs = t.jobs;
    let lent = t.count;
    Loaded { jobs, lent }
}

// The numbers of a call on the table.
pub fn ask_of(t: OpenTable, w: Wanted) -> Ask
    ensures { result ≡ ask_of t w }
{
    Ask {
        jobs: t.count,
        atoms: t.atoms,
        opening: w.opening,
        goals: w.goals,
        bound: w.bound,
        set: 0,
        pairs: 0,
    }
}

// Checks 4 to 8 and 20 of the table.
fn table_fault(t: OpenTable) -> Answer
    ensures { Judges (open_checks t) (t.count ≤ 24) result }
{
    let none = Wanted {
        opening: 0,
        goals: 0,
        bound: 0,
    };
    tables::call_fault(jobs_of(t), ask_of(t, none), false, 0)
}

// w with bit k as the flag says.
fn with_bit(w: u32, k: usize, flag: bool) -> u32
    requires { k < 24 }
    ensures { result ≡ word_of (λ j. cond (eqb j k) flag (has w j)) 32 }
{
    let bit = jobs::with(0, k);
    if flag {
        return w | bit;
    }
    jobs::outside(w, bit)
}

// The jobs with which job k clashes, as bits.
fn clash_word(l: Loaded, k: usize) -> u32
    requires { (k < 24) × (l.lent ≤ 24) }
    ensures { Clashing l k result }
{
    jobs::those(l.lent, |j| interference::interferes(l, k, j))
}

// Row i, where `word` is what row k shall be: that word, or the row as it was but for bit k.
fn row_anew(row: u32, word: u32, k: usize, i: usize) -> u32
    requires { (k < 24) × (i < 24) }
    ensures { result ≡ cond (eqb i k) word (word_of (λ j. cond (eqb j k) (has word i) (has row j)) 32) }
{
    if i == k {
        return word;
    }
    with_bit(row, k, jobs::has(word, i))
}

// The rows, where `word` is what row k shall be.
fn rows_anew(rows: [u32; 24], word: u32, k: usize) -> [u32; 24]
    requires { k < 24 }
    ensures { result ≡ places 0 (λ i. cond (eqb i k) word (word_of (λ j. cond (eqb j k) (has word i) (has (get_or rows i 0) j)) 32)) }
{
    array::from_fn(|i| row_anew(rows[i], word, k, i))
}

// The table with the bits of job k worked out anew.
fn reclashed(t: OpenTable, k: usize) -> OpenTable
    requires { (k < t.count) × (t.count ≤ 24) }
    ensures { result ≡ reclashed t k }
{
    let word = clash_word(jobs_of(t), k);
    let rows = rows_anew(t.rows, word, k);
    OpenTable { rows, ..t }
}

// Where what comes to place i stood before job k went.
fn moved_from(k: usize, i: usize) -> usize
    requires { i < 24 }
    ensures { result ≡ moved_from k i }
{
    if i < k { i } else { i + 1 }
}

// w without bit k: the bits above it move down by one.
fn squeezed(w: u32, k: usize) -> u32
    requires { k < 24 }
    ensures { result ≡ word_of (λ j. has w (moved_from k j)) 32 }
{
    let low = (1u32 << k) - 1;
    (w & low) | jobs::outside(w >> 1, low)
}

// What comes to row i when job k goes.
fn row_moved(rows: [u32; 24], k: usize, i: usize) -> u32
    requires { (k < 24) × (i < 24) }
    ensures { result ≡ word_of (λ j. has (get_or rows (moved_from k i) 0) (moved_from k j)) 32 }
{
    match rows.get(moved_from(k, i)) {
        Some(&row) => squeezed(row, k),
        None => 0,
    }
}

// The rows without job k.
fn rows_moved(rows: [u32; 24], k: usize) -> [u32; 24]
    requires { k < 24 }
    ensures { result ≡ bit_rows (λ i j. has (get_or rows (moved_from k i) 0) (moved_from k j)) }
{
    array::from_fn(|i| row_moved(rows, k, i))
}

// What comes to place i when job k goes.
fn job_moved(l: &Loaded, k: usize, i: usize) -> Action
    requires { i < 24 }
    ensures { result ≡ record_at l.now.jobs (moved_from k i) }
{
    match l.jobs.get(moved_from(k, i)) {
        Some(&job) => job,
        None => tables::no_jobs(0).jobs[0],
    }
}

// The jobs without job k.
fn jobs_moved(l: Loaded, k: usize) -> Loaded
    ensures { result ≡ moved_jobs l k }
{
    let jobs = array::from_fn(|i| job_moved(&l, k, i));
    Loaded { jobs, ..l }
}

// The table without job k.
fn without(t: OpenTable, k: usize) -> OpenTable
    requires { (k < t.count) × (t.count ≤ 24) }
    ensures { result ≡ without_job t k }
{
    let jobs = jobs_moved(jobs_of(t), k).jobs;
    let rows = rows_moved(t.rows, k);
    OpenTable {
        count: t.count - 1,
        jobs,
        rows,
        ..t
    }
}

// The table without jobs.
fn empty_of(atoms: u8) -> OpenTable
    ensures { result ≡ empty_of atoms }
{
    let jobs = tables::no_jobs(0).jobs;
    let rows = [0; 24];
    OpenTable {
        atoms,
        count: 0,
        jobs,
        rows,
    }
}

// The table with another record at place k, and so many jobs.
fn with_record(t: OpenTable, k: usize, a: Action, count: usize) -> OpenTable
    requires { k < 24 }
    ensures { result ≡ with_record t k a count }
{
    let mut u = t;
    u.jobs[k] = a;
    u.count = count;
    u
}

// What a table of so many atoms with more than 24 jobs is refused with: 4 or 5.
fn overfull(atoms: u8) -> Answer
    ensures { Overfull atoms result }
{
    table_fault(OpenTable {
        count: 25,
        ..empty_of(atoms)
    })
}

// The table u in place of t, with the bits of job k worked out anew, if it passes its checks.
fn judged(t: OpenTable, u: OpenTable, k: usize, value: u32) -> Edited
    requires { k < u.count }
    ensures { result ≡ edited (open_checks u) value (reclashed u k) t }
{
    let answer = table_fault(u);
    if answer.number != 0 {
        return Edited { answer, table: t };
    }
    let table = reclashed(u, k);
    Edited {
        answer: tables::done(value),
        table,
    }
}

// Begins a table without jobs.
pub fn begun(t: OpenTable, atoms: u8) -> Edited
    ensures { result ≡ beginning t atoms }
{
    let table = empty_of(atoms);
    let answer = table_fault(table);
    if answer.number != 0 {
        return Edited { answer, table: t };
    }
    Edited { answer, table }
}

// Adds a job behind the last one, and returns its number.
pub fn added(t: OpenTable, a: Action) -> Edited
    ensures { result ≡ adding t a }
{
    let n = t.count;
    if 24 <= n {
        let answer = overfull(t.atoms);
        return Edited { answer, table: t };
    }
    let u = with_record(t, n, a, n + 1);
    judged(t, u, n, n as u32)
}

// Replaces a job.
pub fn replaced(t: OpenTable, r: Replacement) -> Edited
    ensures { result ≡ replacing t r }
{
    let k = usize::from(r.job);
    if t.count <= k {
        let answer = tables::refuse(22, u16::from(r.job), 0);
        return Edited { answer, table: t };
    }
    if 24 < t.count {
        let answer = overfull(t.atoms);
        return Edited { answer, table: t };
    }
    let u = with_record(t, k, r.record, t.count);
    judged(t, u, k, 0)
}

// Removes a job.
pub fn removed(t: OpenTable, job: u8) -> Edited
    ensures { result ≡ removing t job }
{
    let k = usize::from(job);
    if t.count <= k {
        let answer = tables::refuse(22, u16::from(job), 0);
        return Edited { answer, table: t };
    }
    let answer = table_fault(t);
    if answer.number != 0 {
        return Edited { answer, table: t };
    }
    let table = without(t, k);
    Edited { answer, table }
}
