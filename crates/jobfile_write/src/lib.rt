// The writer of job files.

#![tactic(auto)]

ghost use Rattle.std.specs.Prelude.{◌≡◌, ◌*◌, ◌≤◌, ltb, length};
ghost use Rattle.tables.specs.Steps.{Tests};
ghost use Rattle.bytes_le.specs.Little.{at_front};
ghost use Rattle.jobfile.specs.Format.{record_of, records_of, trailer_of, length_after};
ghost use Rattle.jobfile.specs.Calls.{Writes};

use bytes_le::put;
use tables::{Action, Answer, Ask, Loaded};

// A record, over the first 32 bytes.
fn put_record(a: Action, out: &mut [u8])
    requires { 32 ≤ length out.old }
    ensures { out.new ≡ at_front (record_of a) out.old }
{
    put(a.conditions, 8, 0, out);
    put(a.additions, 8, 8, out);
    put(a.deletions, 8, 16, out);
    put(u64::from(a.duration), 2, 24, out);
    put(u64::from(a.release), 2, 26, out);
    put(0, 4, 28, out);
}

// The records of the first n jobs, over the first places.
fn put_records(l: Loaded, n: usize, out: &mut [u8])
    requires { (n ≤ 24) × (32 * n ≤ length out.old) }
    ensures { out.new ≡ at_front (records_of l n) out.old }
{
    for i in 0..n {
        let at = 32 * i;
        put_record(l.jobs[i], &mut out[at..]);
    }
}

// The trailer, over the first 24 bytes.
fn put_trailer(q: Ask, out: &mut [u8])
    requires { (q.jobs ≤ 24) × (24 ≤ length out.old) }
    ensures { out.new ≡ at_front (trailer_of q) out.old }
{
    let jobs = q.jobs as u64;
    put(q.opening, 8, 0, out);
    put(q.goals, 8, 8, out);
    put(u64::from(q.bound), 2, 16, out);
    put(jobs, 1, 18, out);
    put(u64::from(q.atoms), 1, 19, out);
    put(32 * jobs, 4, 20, out);
}

// The file is too long once a save of so many jobs stands behind the bytes used.
fn too_long(used: usize, jobs: usize) -> bool
    ensures { Tests (ltb 65536 (length_after used jobs)) (length_after used jobs ≤ 65536) result }
{
    65536 < used || 65536 < jobs || 65536 < used + 32 * jobs + 24
}

// Appends a save behind the bytes used, and returns the new length.
pub fn write_file(l: Loaded, q: Ask, used: usize, buf: &mut [u8]) -> Answer
    ensures { Writes l q used buf.old buf.new result }
{
    let jobs = q.jobs;
    if too_long(used, jobs) {
        return tables::refuse(1, 0, 0);
    }
    let end = used + 32 * jobs;
    let a = tables::call_fault(l, q, buf.len() < end + 24, q.bound);
    if a.number != 0 {
        return a;
    }
    put_records(l, jobs, &mut buf[used..]);
    put_trailer(q, &mut buf[end..]);
    tables::done((end + 24) as u32)
}
