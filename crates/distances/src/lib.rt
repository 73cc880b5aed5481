// Distances between jobs: how long after the start of a job another, which it is over before, starts at the earliest.

#![tactic(auto)]

ghost use Rattle.std.specs.Prelude.{◌≡◌, ◌≤◌, ◌<◌};
ghost use Rattle.rules.specs.Premises.{InOrder};
ghost use Rattle.tables.specs.Tables.{problem};
ghost use Rattle.tables.specs.Steps.{Released};
ghost use Rattle.entries.specs.Entries.{entry};
ghost use Rattle.lent.specs.Lent.{Spacing};
ghost use Rattle.distances.specs.Distances.{unreleased, Frees, Complement, RowWithin};
ghost use Rattle.tables.specs.declared.Loaded.{Loaded};

use std::array;
use tables::{Action, Ask, Loaded};

// The facts that the word lacks.
fn lacks(w: u64) -> u64
    ensures { Complement w result }
{
    !w
}

// An end behind a duration, and each estimate behind that and the gap.
fn behind(dur: u16, gap: u16, est: [u16; 24], end: u16) -> [u16; 25]
    ensures { RowWithin dur gap est end result }
{
    let step = estimates::plus(dur, gap);
    let last = estimates::plus(dur, end);
    array::from_fn(|b| {
        if b < 24 {
            estimates::plus(step, est[b])
        } else {
            last
        }
    })
}

// The job without its release.
fn free(a: Action) -> Action
    ensures { result ≡ unreleased a }
{
    Action { release: 0, ..a }
}

// The table without releases.
pub fn freed(l: Loaded) -> Loaded
    ensures { Frees l result }
{
    Loaded {
        jobs: array::from_fn(|i| free(l.jobs[i])),
        ..l
    }
}

// How long after the start of job a each other job starts at the earliest, if a is over before it; for 24, how long the plan lasts.
// Releases are times of day: the table k has none, and the row holds of every table with the same jobs otherwise.
pub fn row(k: Loaded, q: Ask, a: usize) -> [u16; 25]
    requires { (q.jobs ≤ 24) × (a < 24) × Released k q }
    ensures { (l : Loaded) → Frees l k → InOrder (problem l q) → Spacing (problem l q) a (entry result) }
{
    let job = k.jobs[a];
    let spared = lacks(job.deletions);
    let since = Ask {
        opening: spared,
        ..q
    };
    let est = estimates::estimate_all(k, since);
    let end = estimates::dearest(k, since, est, q.goals);
    behind(job.duration, tables::gap(q), est, end)
}
