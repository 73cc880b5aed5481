// The reader of job files.

#![tactic(auto)]

ghost use Rattle.std.specs.Prelude.{◌≡◌, ◌+◌, ◌*◌, ◌≤◌, ◌<◌, length};
ghost use Rattle.facts.specs.Least.{any};
ghost use Rattle.tables.specs.Steps.{Tests};
ghost use Rattle.jobfile.specs.Format.{distance_in, too_far, spoilt, action_in, first_of, table_in};
ghost use Rattle.jobfile.specs.Calls.{record_checks, save_checks, handed, handed_from, reading};
ghost use Rattle.jobfile_read.specs.Steps.{TrailerAsk};

use bytes_le::number;
use jobfile::{Read, nothing};
use tables::{Action, Answer, Ask, Loaded};

// One of the last four bytes of record i is not zero.
fn spoilt(records: &[u8], i: usize) -> bool
    requires { 32 * i + 32 ≤ length records.now }
    ensures { result ≡ spoilt records.now i }
{
    number(records, 32 * i + 28, 4) != 0
}

// The same of any of the first n records.
fn any_spoilt(records: &[u8], n: usize) -> bool
    requires { 32 * n ≤ length records.now }
    ensures { result ≡ any (spoilt records.now) n }
{
    (0..n).any(|i| spoilt(records, i))
}

// Record i.
fn action_in(records: &[u8], i: usize) -> Action
    requires { 32 * i + 32 ≤ length records.now }
    ensures { result ≡ action_in records.now i }
{
    let at = 32 * i;
    Action {
        conditions: number(records, at, 8),
        additions: number(records, at + 8, 8),
        deletions: number(records, at + 16, 8),
        duration: number(records, at + 24, 2) as u16,
        release: number(records, at + 26, 2) as u16,
    }
}

// The first n records.
fn first_records(records: &[u8], n: usize, room: usize) -> Loaded
    requires { (n ≤ 24) × (32 * n ≤ length records.now) }
    ensures { result ≡ first_of records.now n room }
{
    let mut jobs = tables::no_jobs(room).jobs;
    for i in 0..n {
        jobs[i] = action_in(records, i);
    }
    Loaded { jobs, lent: room }
}

// The numbers of the trailer.
fn ask_in(trailer: &[u8]) -> Ask
    requires { length trailer.now ≡ 24 }
    ensures { TrailerAsk trailer.now result }
{
    Ask {
        jobs: number(trailer, 18, 1) as usize,
        atoms: number(trailer, 19, 1) as u8,
        opening: number(trailer, 0, 8),
        goals: number(trailer, 8, 8),
        bound: number(trailer, 16, 2) as u16,
        set: 0,
        pairs: 0,
    }
}

// The distance back from the trailer's start to the first record.
pub fn distance_in(trailer: &[u8]) -> usize
    requires { length trailer.now ≡ 24 }
    ensures { result ≡ distance_in trailer.now }
{
    number(trailer, 20, 4) as usize
}

// The distance is out of range.
fn too_far(distance: usize, jobs: usize, before: usize) -> bool
    requires { jobs < 256 }
    ensures { Tests (too_far distance jobs before) ((32 * jobs ≤ distance) × (distance ≤ before)) result }
{
    !(32 * jobs..=before).contains(&distance)
}

// The records of a save, with its numbers.
fn read_records(records: &[u8], q: Ask, room: usize) -> Read
    requires { 32 * q.jobs ≤ length records.now }
    ensures { result ≡ handed (record_checks records.now q room) q (table_in records.now q.jobs room) }
{
    let jobs = q.jobs;
    if any_spoilt(records, jobs) {
        return nothing(tables::refuse(2, 0, 0));
    }
    let l = first_records(records, tables::held(jobs), room);
    let a = tables::call_fault(l, q, false, q.bound);
    if a.number != 0 {
        return nothing(a);
    }
    Read {
        answer: a,
        ask: q,
        table: l,
    }
}

// The last save of a file: the trailer is the last 24 bytes, and its distance leads back to the records.
fn read_save(file: &[u8], room: usize) -> Read
    requires { 24 ≤ length file.now }
    ensures { result ≡ handed_from (save_checks file.now room) file.now room }
{
    let n = file.len();
    let start = n - 24;
    let trailer = &file[start..];
    let q = ask_in(trailer);
    let distance = distance_in(trailer);
    let jobs = q.jobs;
    if too_far(distance, jobs, start) {
        return nothing(tables::refuse(2, 0, 0));
    }
    let first = start - distance;
    let end = first + 32 * jobs;
    read_records(&file[first..end], q, room)
}

// Reads a file for a caller that lends room for so many records.
pub fn read_file(file: &[u8], room: usize) -> Read
    ensures { result ≡ reading file.now room }
{
    if 65536 < file.len() {
        return nothing(tables::refuse(1, 0, 0));
    }
    if file.len() < 24 {
        return nothing(tables::refuse(2, 0, 0));
    }
    read_save(file, room)
}
