// How late it can get, where each job of a plan runs over by up to so many quarter hours.

#![tactic(auto)]

ghost use Rattle.std.specs.Prelude.{◌≡◌, cond, ◌&&◌, List, ℕ, ◌+◌, ◌≤◌, max, ltb, length};
ghost use Rattle.facts.specs.Facts.{has};
ghost use Rattle.facts.specs.Words.{Word};
ghost use Rattle.rules.specs.Plans.{starts, in_plan};
ghost use Rattle.rules.specs.Lateness.{LatestFinish, SettledFinish};
ghost use Rattle.tables.specs.Tables.{problem};
ghost use Rattle.entries.specs.Entries.{entry};
ghost use Rattle.times.specs.Times.{wanted};
ghost use Rattle.times.specs.Steps.{Ready};
ghost use Rattle.lateness.specs.Lateness.{HowLate};
ghost use Rattle.lateness.specs.Steps.{LastOf, even_table, asked_of, Keepable, Runnable, Listing, SomeListing};

use tables::{Action, Answer, Ask, Loaded};

// What is asked of a plan: the numbers, and by how many quarter hours each of its jobs may run over.
#[repr(C)]
#[derive(Clone, Copy)]
pub struct Overruns {
    pub ask: Ask,
    pub most: u16,
}

// The jobs of the plan.
fn plan_jobs(s: &[u16], n: usize) -> u64
    requires { (n ≤ 24) × (n ≤ length s.now) }
    ensures { Word (λ j. ltb j n && in_plan (starts s.now) j) result }
{
    facts::those(n, |j| s[j] != 65535)
}

// The later of a time and the finish of a job that counts.
fn later(last: u32, counts: bool, start: u16, duration: u16) -> u32
    ensures { result ≡ cond counts (max last (start + duration)) last }
{
    if counts {
        last.max(u32::from(start) + u32::from(duration))
    } else {
        last
    }
}

// The last finish of a job of the set, 0 if there is none.
fn last_finish(l: Loaded, q: Ask, z: [u16; 24]) -> u32
    requires { q.jobs ≤ 24 }
    ensures { LastOf (problem l q) (has q.set) (entry z) q.jobs result }
{
    let mut last = 0u32;
    for j in 0..q.jobs {
        let a = l.jobs[j];
        last = later(last, facts::has(q.set, j), z[j], a.duration);
    }
    last
}

// The settled finish of pairs that some starts keep.
fn settled_finish(l: Loaded, q: Ask, pairs: &[u8]) -> u32
    requires { Ready q pairs.now × Keepable (problem l q) (wanted l q pairs.now) }
    ensures { SettledFinish (problem l q) (wanted l q pairs.now) result }
{
    last_finish(l, q, times::least_starts(l, q, pairs).unwrap())
}

// A table whose jobs all take so long, are released at 0 and have no facts.
fn even_table(duration: u16) -> Loaded
    ensures { result ≡ even_table duration }
{
    let one = Action {
        conditions: 0,
        additions: 0,
        deletions: 0,
        duration,
        release: 0,
    };
    Loaded {
        jobs: [one; 24],
        lent: 24,
    }
}

// The numbers of a settling of this set by so many pairs; the atom count says the rule.
fn asked(q: Ask, atoms: u8, set: u64, pairs: usize) -> Ask
    ensures { result ≡ asked_of q atoms set pairs }
{
    Ask {
        atoms,
        set,
        pairs,
        ..q
    }
}

// The settled finish of the binding pairs, and `most` for each job of the longest chain: the jobs settled at one quarter hour each, by rule 1.
fn finish_by(l: Loaded, q: Ask, set: u64, pairs: &[u8], n: usize, most: u16) -> u32
    requires { SomeListing l q pairs.now n set × (most ≤ 96) }
    ensures { (s : List ℕ) → Runnable l q s → Listing l q s pairs.now n set → LatestFinish (problem l q) q.bound (starts s) most result }
{
    let last = settled_finish(l, asked(q, q.atoms, set, n), pairs);
    let jobs = settled_finish(even_table(1), asked(q, 1, set, n), pairs);
    last + u32::from(most) * jobs
}

// The same of a plan: its binding pairs are listed, and its jobs are the set.
fn latest_finish(l: Loaded, q: Ask, s: &[u16], most: u16) -> u32
    requires { Runnable l q s.now × (most ≤ 96) }
    ensures { LatestFinish (problem l q) q.bound (starts s.now) most result }
{
    let mut space = [0u8; 552];
    let pairs: &mut [u8] = &mut space;
    let n = bindings::put_pairs(l, q, s, pairs) / 2;
    finish_by(l, q, plan_jobs(s, q.jobs), pairs, n, most)
}

// When all is finished at the latest, where each job of a valid plan runs over by up to so many quarter hours.
pub fn how_late(l: Loaded, o: Overruns, starts: &[u16]) -> Answer
    ensures { HowLate l o starts.now result }
{
    let q = o.ask;
    let said = verdict::plan_fault(l, q, starts, false);
    if said.number != 0 {
        return said;
    }
    if 96 < o.most {
        return tables::refuse(34, 0, 0);
    }
    tables::done(latest_finish(l, q, starts, o.most))
}
