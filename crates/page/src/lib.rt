// The text that bench-plan prints for a job file, put into a lent buffer.

#![tactic(auto)]

ghost use Rattle.std.specs.Prelude.{◌≡◌, ◌+◌, ◌*◌, ◌≤◌, ◌<◌, eqb, length};
ghost use Rattle.rules.specs.Plans.{starts};
ghost use Rattle.rules.specs.Premises.{InOrder};
ghost use Rattle.tables.specs.Tables.{job_at, problem};
ghost use Rattle.verdict.specs.Steps.{Given};
ghost use Rattle.lines.specs.Lines.{text_if, job_line, starting_at};
ghost use Rattle.lines.specs.Lays.{Lays, LaysSome};
ghost use Rattle.page.specs.Page.{plan_line, job_lines, pair_lines, plan_text, Shows, Pages};

use tables::{Answer, Ask, Loaded};

// When a job that starts then is over.
fn finish(start: u16, duration: u16) -> u32
    ensures { result ≡ start + duration }
{
    u32::from(start) + u32::from(duration)
}

// The line of job j, where it starts at t.
fn put_start(l: Loaded, s: &[u16], t: usize, j: usize, at: usize, out: &mut [u8]) -> usize
    requires { (j < 24) × (j < length s.now) × (at + 18 ≤ length out.old) }
    ensures { Lays 18 (text_if (eqb (starts s.now j) t) (job_line (starts s.now j) (starts s.now j + (job_at l j).duration) j)) at out.old out.new result }
{
    let start = s[j];
    if usize::from(start) != t {
        return at;
    }
    let a = l.jobs[j];
    let end = finish(start, a.duration);
    lines::put_job(u32::from(start), end, j as u32, at, out)
}

// The jobs that start at t, by number.
fn put_starts(l: Loaded, q: Ask, s: &[u16], t: usize, at: usize, out: &mut [u8]) -> usize
    requires { Given q s.now × (at + 18 * q.jobs ≤ length out.old) }
    ensures { Lays (18 * q.jobs) (starting_at (plan_line (problem l q) (starts s.now)) (starts s.now) q.jobs t) at out.old out.new result }
{
    let n = q.jobs;
    let mut next = at;
    for j in 0..n {
        next = put_start(l, s, t, j, next, out);
    }
    next
}

// The plan's jobs by start, then number; no text is longer than a line a job.
fn put_jobs(l: Loaded, q: Ask, s: &[u16], bound: u32, at: usize, out: &mut [u8]) -> usize
    requires { Given q s.now × (at + 36 * q.jobs ≤ length out.old) }
    ensures { Lays (18 * q.jobs) (job_lines (problem l q) (starts s.now) bound) at out.old out.new result }
{
    let n = bound as usize + 1;
    let mut next = at;
    for t in 0..n {
        next = put_starts(l, q, s, t, next, out);
    }
    next
}

// A line for each of the first n pairs.
fn put_pairs(pairs: &[u8], n: usize, at: usize, out: &mut [u8]) -> usize
    requires { (2 * n ≤ length pairs.now) × (at + 19 * n ≤ length out.old) }
    ensures { Lays (19 * n) (pair_lines pairs.now n) at out.old out.new result }
{
    let mut next = at;
    for i in 0..n {
        next = lines::put_pair(pairs[2 * i], pairs[2 * i + 1], next, out);
    }
    next
}

// The text of a plan.
fn put_plan(l: Loaded, q: Ask, s: &[u16], bound: u32, out: &mut [u8]) -> usize
    requires { Given q s.now × InOrder (problem l q) × (8192 ≤ length out.old) }
    ensures { Lays 8192 (plan_text (problem l q) bound (starts s.now)) 0 out.old out.new result }
{
    let mut space = [0u8; 552];
    let pairs: &mut [u8] = &mut space;
    let n = bindings::put_pairs(l, q, s, pairs);
    let first = lines::put_least(bound, out);
    let second = put_jobs(l, q, s, bound, first, out);
    put_pairs(pairs, n / 2, second, out)
}

// What is printed of a table: its least bound and plan, or the refusal.
fn put_table(l: Loaded, q: Ask, out: &mut [u8]) -> usize
    requires { 8192 ≤ length out.old }
    ensures { LaysSome (Shows l q) 8192 out.old out.new result }
{
    let mut space = [65535u16; 24];
    let starts: &mut [u16] = &mut space;
    let a = planning::least_bound(l, q, starts);
    if a.number != 0 {
        return lines::put_refused(a.number, a.place, out);
    }
    put_plan(l, q, starts, a.value, out)
}

// What is printed of a job file, into the first bytes of a lent buffer; its length comes back.
pub fn page(file: &[u8], out: &mut [u8]) -> Answer
    ensures { Pages file.now out.old out.new result }
{
    if out.len() < 8192 {
        return tables::refuse(3, 0, 0);
    }
    let read = jobfile_read::read_file(file, 255);
    let said = read.answer;
    if said.number != 0 {
        return tables::done(lines::put_refused(said.number, said.place, out) as u32);
    }
    tables::done(put_table(read.table, read.ask, out) as u32)
}
