// The caller's lent table of job records: taken into a table by value, and filled from one.

#![tactic(auto)]

ghost use Rattle.std.specs.Prelude.{◌≡◌, ◌≤◌, length};
ghost use Rattle.tables.specs.Tables.{job_at, filled};
ghost use Rattle.records.specs.Records.{loaded};

use tables::{Action, Loaded};

// The first 24 lent records, and how many were lent.
pub fn load(t: &[Action]) -> Loaded
    ensures { result ≡ loaded t.now }
{
    let lent = t.len();
    let n = lent.min(24);
    let mut jobs = tables::no_jobs(lent).jobs;
    jobs[..n].copy_from_slice(&t[..n]);
    Loaded { jobs, lent }
}

// The first n jobs go into the lent records.
pub fn scatter(t: &mut [Action], l: Loaded, n: usize)
    requires { (n ≤ 24) × (n ≤ length t.old) }
    ensures { t.new ≡ filled (job_at l) n t.old }
{
    t[..n].copy_from_slice(&l.jobs[..n]);
}
