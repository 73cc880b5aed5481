// Following the house as it works: one event of a plan's jobs at a time.

#![tactic(auto)]

ghost use Rattle.std.specs.Prelude.{◌≡◌, not, ◌&&◌, ℕ, ◌≤◌, ◌<◌, T, length};
ghost use Rattle.facts.specs.Facts.{has};
ghost use Rattle.facts.specs.Words.{Word, Covers, Decides};
ghost use Rattle.rules.specs.Plans.{starts, holds};
ghost use Rattle.rules.specs.InStep.{freed, can_come, finished_of};
ghost use Rattle.tables.specs.Tables.{problem};
ghost use Rattle.verdict.specs.Steps.{Given, start_in};
ghost use Rattle.bindings.specs.Steps.{BindersOf};
ghost use Rattle.following.specs.Screens.{dark, Following};
ghost use Rattle.following.specs.Steps.{Screened};

use bindings::Before;
use std::array;
use tables::{Answer, Ask, Loaded};

// What the screen is handed: the numbers, the jobs that have started and those that have finished, and an event of a job, 0 its start and 1 its finish.
#[repr(C)]
#[derive(Clone, Copy)]
pub struct Watch {
    pub ask: Ask,
    pub started: u64,
    pub finished: u64,
    pub event: u8,
    pub job: u8,
}

// What the screen shows: what is said, the jobs that have started and finished after the event, the facts now, and the jobs that may start.
#[repr(C)]
#[derive(Clone, Copy)]
pub struct Screen {
    pub answer: Answer,
    pub started: u64,
    pub finished: u64,
    pub facts: u64,
    pub may_start: u64,
}

// The screen of a refusal: the words as they came, no facts and no jobs.
fn dark(w: Watch, answer: Answer) -> Screen
    ensures { result ≡ dark w answer }
{
    Screen {
        answer,
        started: w.started,
        finished: w.finished,
        facts: 0,
        may_start: 0,
    }
}

// The job is in, and all jobs before it have finished.
fn is_free(start: u16, before: u64, finished: u64) -> bool
    ensures { Decides result (T (start_in start) × Covers finished before) }
{
    if start == 65535 {
        return false;
    }
    facts::covers(finished, before)
}

// The jobs of the plan that wait for none.
fn free_jobs(l: Loaded, q: Ask, s: &[u16], before: Before, finished: u64) -> u64
    requires { Given q s.now × BindersOf (problem l q) (starts s.now) before }
    ensures { Word (freed (problem l q) (starts s.now) finished) result }
{
    facts::those(q.jobs, |j| is_free(s[j], before.of[j], finished))
}

// What has finished has started, and what has started was free to.
fn in_step(started: u64, finished: u64, free: u64) -> bool
    ensures { Decides result (Covers started finished × Covers free started) }
{
    if facts::covers(started, finished) {
        return facts::covers(free, started);
    }
    false
}

// Job j is in the one word and not in the other; no word has a job above 63.
fn only_in(a: u64, b: u64, j: u8) -> bool
    ensures { result ≡ (has a j && not (has b j)) }
{
    if j >= 64 {
        return false;
    }
    let j = usize::from(j);
    facts::has(a, j) && !facts::has(b, j)
}

// The event may come: the start of a free job that has not started, or the finish of one that has started and not finished.
fn may_come(w: Watch, free: u64) -> bool
    ensures { result ≡ can_come free w.started w.finished w.event w.job }
{
    if w.event == 0 {
        return only_in(free, w.started, w.job);
    }
    if w.event == 1 {
        return only_in(w.started, w.finished, w.job);
    }
    false
}

// The start of job j where it has finished, else out; behind the first n jobs all are out.
fn finished_start(s: &[u16], n: usize, finished: u64, j: usize) -> u16
    requires { (j < 24) × (n ≤ length s.now) }
    ensures { j < n → result ≡ finished_of finished (starts s.now) j }
{
    if n <= j {
        return 65535;
    }
    if facts::has(finished, j) { s[j] } else { 65535 }
}

// The starts of the first n jobs, those that have not finished taken out.
fn finished_starts(s: &[u16], n: usize, finished: u64) -> [u16; 24]
    requires { (n ≤ 24) × (n ≤ length s.now) }
    ensures { (j : ℕ) → j < n → starts result j ≡ finished_of finished (starts s.now) j }
{
    array::from_fn(|j| finished_start(s, n, finished, j))
}

// The facts now: those of the finished jobs in the plan's order of finish.
fn facts_now(l: Loaded, q: Ask, s: &[u16], finished: u64) -> u64
    requires { Given q s.now }
    ensures { Word (λ p. holds (problem l q) (finished_of finished (starts s.now)) p q.bound) result }
{
    let left = finished_starts(s, q.jobs, finished);
    verdict::facts_at(l, q, &left, q.bound)
}

// The screen after an event that may come.
fn after_event(l: Loaded, w: Watch, s: &[u16], before: Before) -> Screen
    requires { Given w.ask s.now × (w.job < 64) × BindersOf (problem l w.ask) (starts s.now) before }
    ensures { Screened (problem l w.ask) w.ask.bound (starts s.now) w result }
{
    let q = w.ask;
    let job = usize::from(w.job);
    let started = facts::with_if(w.started, job, w.event == 0);
    let finished = facts::with_if(w.finished, job, w.event == 1);
    let facts = facts_now(l, q, s, finished);
    let free = free_jobs(l, q, s, before, finished);
    Screen {
        answer: tables::done(0),
        started,
        finished,
        facts,
        may_start: facts::less(free, started),
    }
}

// The words after an event of a plan's job, the facts now, and the jobs that may start.
pub fn follow(l: Loaded, w: Watch, starts: &[u16]) -> Screen
    ensures { Following l w starts.now result }
{
    let q = w.ask;
    let said = verdict::plan_fault(l, q, starts, false);
    if said.number != 0 {
        return dark(w, said);
    }
    let feeders = bindings::all_feeders(l, q, starts);
    let before = bindings::all_binders(l, q, starts, feeders);
    let free = free_jobs(l, q, starts, before, w.finished);
    if !in_step(w.started, w.finished, free) {
        return dark(w, tables::refuse(19, 65535, 0));
    }
    if !may_come(w, free) {
        return dark(w, tables::refuse(19, u16::from(w.job), 0));
    }
    after_event(l, w, starts, before)
}
