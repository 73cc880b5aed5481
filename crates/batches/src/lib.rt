// Batches of house groups, expanded into a job table above the planner.

#![tactic(auto)]

ghost use Rattle.std.specs.Prelude.{◌≡◌, ◌+◌, ◌≤◌, ◌<◌, length};
ghost use Rattle.facts.specs.Tests.{some_least};
ghost use Rattle.tables.specs.Tables.{job_at};
ghost use Rattle.batches.specs.Batches.{group_stages, jobs_for, jobs_up_to, job_count, StageJob, ClearingJob, unknown, Expands};
ghost use Rattle.batches.specs.Steps.{AllKnown, OneStage, SomeStages, Appended, Drafted, batched, HandedOut};

use jobfile::Read;
use tables::{Action, Answer, Ask, Loaded};

// A stage of a house group, in quarter hours, and whether it holds the wash bay.
#[derive(Clone, Copy)]
pub struct Stage {
    pub duration: u16,
    pub bay: bool,
}

// A stage of so many quarter hours that does not hold the bay.
macro_rules! bench {
    ($d:literal) => {
        Stage {
            duration: $d,
            bay: false,
        }
    };
}

// A stage of so many quarter hours that holds it.
macro_rules! bay {
    ($d:literal) => {
        Stage {
            duration: $d,
            bay: true,
        }
    };
}

// The stages of each house group.
const GROUPS: [&[Stage]; 12] = [
    &[bench!(4)],
    &[bench!(4), bay!(3)],
    &[bench!(6), bay!(3), bench!(8)],
    &[bench!(4), bench!(12)],
    &[bench!(8), bay!(3), bench!(16)],
    &[bench!(4), bay!(3), bench!(8), bench!(24)],
    &[bench!(12)],
    &[bench!(6), bay!(2), bench!(12), bay!(3)],
    &[bench!(4), bench!(8), bench!(16), bench!(32)],
    &[bench!(8), bay!(3), bench!(24), bay!(3), bench!(48)],
    &[
        bench!(4),
        bay!(2),
        bench!(8),
        bay!(2),
        bench!(16),
        bench!(32),
    ],
    &[bench!(96)],
];

// The stages of a group.
fn stages_of(group: usize) -> &'static [Stage]
    requires { group < 12 }
    ensures { result.now ≡ group_stages group }
{
    GROUPS[group]
}

// How many jobs a stage gives.
fn jobs_for(s: Stage) -> usize
    ensures { result ≡ jobs_for s }
{
    if s.bay { 2 } else { 1 }
}

// How many jobs the stages of a group give.
fn group_jobs(stages: &[Stage]) -> usize
    requires { length stages.now ≤ 6 }
    ensures { result ≡ jobs_up_to stages.now (length stages.now) }
{
    stages.iter().map(|&s| jobs_for(s)).sum()
}

// How many jobs the batches give.
fn job_count(groups: &[u8]) -> usize
    requires { AllKnown groups.now × (length groups.now ≤ 4) }
    ensures { result ≡ job_count groups.now }
{
    let mut jobs = 0;
    for &group in groups {
        jobs += group_jobs(stages_of(usize::from(group)));
    }
    jobs
}

// The lowest batch that names no house group.
fn first_unknown(groups: &[u8]) -> Option<usize>
    ensures { result ≡ some_least (unknown groups.now) (length groups.now) }
{
    facts::first(groups.len(), |b| 12 <= groups[b])
}

// The job of stage i of a batch whose done facts stand from `first` on.
fn stage_job(s: Stage, first: usize, i: usize) -> Action
    requires { first + i < 64 }
    ensures { StageJob s first i result }
{
    let bay = facts::with_if(0, 0, s.bay);
    Action {
        conditions: facts::with_if(bay, first + i.saturating_sub(1), 0 < i),
        additions: facts::with(0, first + i),
        deletions: bay,
        duration: s.duration,
        release: 0,
    }
}

// The clearing job of a stage with this done fact.
fn clearing_job(done: usize) -> Action
    requires { done < 64 }
    ensures { ClearingJob done result }
{
    Action {
        conditions: facts::with(0, done),
        additions: facts::with(0, 0),
        deletions: 0,
        duration: 1,
        release: 0,
    }
}

// The table with stage i of a batch from job n on.
fn with_stage(l: Loaded, n: usize, s: Stage, first: usize, i: usize) -> Loaded
    requires { (n + jobs_for s ≤ 24) × (first + i < 64) }
    ensures { OneStage l n s first i result }
{
    let a = stage_job(s, first, i);
    let t = tables::with_job(l, n, a);
    if !s.bay {
        return t;
    }
    let c = clearing_job(first + i);
    tables::with_job(t, n + 1, c)
}

// The table with the stages of a group from job `at` on.
fn with_stages(l: Loaded, stages: &[Stage], at: usize, first: usize) -> Loaded
    requires { (length stages.now ≤ 6) × (at + jobs_up_to stages.now (length stages.now) ≤ 24) × (first + 6 ≤ 64) }
    ensures { SomeStages l stages.now (length stages.now) at first result }
{
    let mut t = l;
    let mut n = at;
    for (i, &s) in stages.iter().enumerate() {
        t = with_stage(t, n, s, first, i);
        n = n + jobs_for(s);
    }
    t
}

// The table so far, how many jobs it has, the next done fact, and the goals.
#[derive(Clone, Copy)]
struct Draft {
    table: Loaded,
    jobs: usize,
    facts: usize,
    goals: u64,
}

// One batch more.
fn with_batch(d: Draft, group: usize) -> Draft
    requires { (group < 12) × (d.jobs + jobs_up_to (group_stages group) (length (group_stages group)) ≤ 24) × (d.facts + 6 ≤ 64) }
    ensures { Appended d (group_stages group) result }
{
    let stages = stages_of(group);
    let table = with_stages(d.table, stages, d.jobs, d.facts);
    let jobs = d.jobs + group_jobs(stages);
    let facts = d.facts + stages.len();
    let goals = facts::with(d.goals, facts - 1);
    Draft {
        table,
        jobs,
        facts,
        goals,
    }
}

// All batches.
fn with_batches(groups: &[u8], room: usize) -> Draft
    requires { AllKnown groups.now × (length groups.now ≤ 4) × (job_count groups.now ≤ 24) }
    ensures { Drafted groups.now (length groups.now) result }
{
    let table = tables::no_jobs(room);
    let mut d = Draft {
        table,
        jobs: 0,
        facts: 1,
        goals: 0,
    };
    for &group in groups {
        d = with_batch(d, usize::from(group));
    }
    d
}

// What expanding batches says beside the records.
#[repr(C)]
#[derive(Clone, Copy)]
pub struct BatchAnswer {
    pub answer: Answer,
    pub jobs: usize,
    pub atoms: u8,
    pub opening: u64,
    pub goals: u64,
}

// The answer and the numbers of what was handed out.
impl From<Read> for BatchAnswer {
    ghost from_gives = { λ r said. said ≡ batched r };

    fn from(r: Read) -> BatchAnswer {
        BatchAnswer {
            answer: r.answer,
            jobs: r.ask.jobs,
            atoms: r.ask.atoms,
            opening: r.ask.opening,
            goals: r.ask.goals,
        }
    }
}

// The table of the batches, for a caller that lends so many records; it has no bound.
fn whole_table(groups: &[u8], room: usize) -> Read
    requires { AllKnown groups.now × (length groups.now ≤ 4) × (job_count groups.now ≤ 24) }
    ensures { HandedOut groups.now result }
{
    let d = with_batches(groups, room);
    let ask = Ask {
        jobs: d.jobs,
        atoms: d.facts as u8,
        opening: facts::with(0, 0),
        goals: d.goals,
        bound: 0,
        set: 0,
        pairs: 0,
    };
    let table = d.table;
    Read {
        answer: tables::done(0),
        ask,
        table,
    }
}

// Expands batches, a group each, for a caller that lends room for so many records.
pub fn expand(groups: &[u8], room: usize) -> Read
    ensures { Expands groups.now room (job_at result.table) (batched result) }
{
    if let Some(b) = first_unknown(groups) {
        let place = b.min(65535) as u16;
        return jobfile::nothing(tables::refuse(28, place, 0));
    }
    if 4 < groups.len() {
        return jobfile::nothing(tables::refuse(29, 4, 0));
    }
    let jobs = job_count(groups);
    if 24 < jobs {
        return jobfile::nothing(tables::refuse(30, 0, 0));
    }
    if room < jobs {
        return jobfile::nothing(tables::refuse(3, 0, 0));
    }
    whole_table(groups, room)
}
