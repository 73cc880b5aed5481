// The text of a plan, written into a lent buffer.

#![tactic(auto)]

ghost use Rattle.std.specs.Prelude.{◌++◌, ◌+◌, ◌*◌, ◌≤◌, ◌<◌, length};
ghost use Rattle.rules.specs.Plans.{starts};
ghost use Rattle.tables.specs.Tables.{problem};
ghost use Rattle.lines.specs.Lines.{decimal};
ghost use Rattle.plantext.specs.Names.{name_of};
ghost use Rattle.plantext.specs.Writing.{steps_text, WritesText};
ghost use Rattle.plantext_write.specs.Steps.{TextGiven, step_at, steps_at, PutsText, NextStart};
ghost use Rattle.verdict.specs.Steps.{Given};

use tables::{Answer, Ask, Loaded};

// A number and the word behind it, long enough that a number of five digits has room at the place.
fn put_with(n: u32, word: &[u8], at: usize, out: &mut [u8]) -> usize
    requires { (5 ≤ length word.now) × (at + length (decimal n) + length word.now ≤ length out.old) }
    ensures { PutsText (decimal n ++ word.now) at out.old out.new result }
{
    let next = lines::put_number(n, at, out);
    lines::put_word(word, next, out)
}

// The name of job j.
fn put_name(names: &[u8], j: usize, at: usize, out: &mut [u8]) -> usize
    requires { (j < 24) × (16 * j + 16 ≤ length names.now) × (at + length (name_of names.now j) ≤ length out.old) }
    ensures { PutsText (name_of names.now j) at out.old out.new result }
{
    let first = 16 * j;
    let end = first + plantext::name_size(names, j);
    lines::put_word(&names[first..end], at, out)
}

// The line of job j, where it starts at t.
fn put_step(
    l: Loaded,
    q: Ask,
    names: &[u8],
    s: &[u16],
    t: usize,
    j: usize,
    at: usize,
    out: &mut [u8],
) -> usize
    requires { TextGiven q names.now s.now × (j < q.jobs) × (at + length (step_at names.now (problem l q) (starts s.now) t j) ≤ length out.old) }
    ensures { PutsText (step_at names.now (problem l q) (starts s.now) t j) at out.old out.new result }
{
    let start = u32::from(s[j]);
    if start as usize != t {
        return at;
    }
    let a = l.jobs[j];
    let first = put_with(start, b".000: (", at, out);
    let second = put_name(names, j, first, out);
    let third = lines::put_word(b") [", second, out);
    put_with(u32::from(a.duration), b".000]\n", third, out)
}

// The lines of the jobs that start at t, by number.
fn put_starting(
    l: Loaded,
    q: Ask,
    names: &[u8],
    s: &[u16],
    t: usize,
    at: usize,
    out: &mut [u8],
) -> usize
    requires { TextGiven q names.now s.now × (at + length (steps_at names.now (problem l q) (starts s.now) t) ≤ length out.old) }
    ensures { PutsText (steps_at names.now (problem l q) (starts s.now) t) at out.old out.new result }
{
    let n = q.jobs;
    let mut next = at;
    for j in 0..n {
        next = put_step(l, q, names, s, t, j, next, out);
    }
    next
}

// The next moment from `from` on at which a job starts, or till.
fn next_start(q: Ask, s: &[u16], from: usize, till: usize) -> usize
    requires { Given q s.now × (from ≤ till) }
    ensures { NextStart q.jobs (starts s.now) from till result }
{
    let mut best = till;
    for j in 0..q.jobs {
        let at = usize::from(s[j]);
        if from <= at {
            best = best.min(at);
        }
    }
    best
}

// The lines of the plan's jobs by start, then number: from start to start, so that hours in which nothing starts cost nothing.
fn put_steps(l: Loaded, q: Ask, names: &[u8], s: &[u16], out: &mut [u8]) -> usize
    requires { TextGiven q names.now s.now × (length (steps_text names.now (problem l q) q.bound (starts s.now)) ≤ length out.old) }
    ensures { PutsText (steps_text names.now (problem l q) q.bound (starts s.now)) 0 out.old out.new result }
{
    let till = q.bound as usize + 1;
    let mut next = 0usize;
    let mut t = next_start(q, s, 0, till);
    while t < till {
        next = put_starting(l, q, names, s, t, next, out);
        t = next_start(q, s, t + 1, till);
    }
    next
}

// The text of a valid plan, into the first bytes of a lent buffer; its length comes back.
pub fn write_text(l: Loaded, q: Ask, names: &[u8], starts: &[u16], out: &mut [u8]) -> Answer
    ensures { WritesText l q names.now starts.now out.old out.new result }
{
    let short = tables::too_short(names.len() / 16 < q.jobs, out.len() / 39, q.jobs);
    let said = verdict::plan_fault(l, q, starts, short);
    if said.number != 0 {
        return said;
    }
    let fault = plantext::names_fault(names, q.jobs);
    if fault.number != 0 {
        return fault;
    }
    tables::done(put_steps(l, q, names, starts, out) as u32)
}
