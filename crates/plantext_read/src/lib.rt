// Reading the text of a plan.

#![tactic(auto)]

ghost use Rattle.std.specs.Prelude.{◌≡◌, not, ◌||◌, ◌≤◌, ltb, length};
ghost use Rattle.refusals.specs.Refusals.{accepted};
ghost use Rattle.tables.specs.Tables.{problem, answer_of};
ghost use Rattle.plantext.specs.Form.{in_form, value_at};
ghost use Rattle.plantext.specs.Reading.{line_job, line_checks, ReadsText};
ghost use Rattle.plantext_read.specs.Steps.{AtLine, SaysLines};

use tables::{Answer, Ask, Loaded};

// The line at a place is outside the form, or its start is over 2,880.
fn formless(text: &[u8], at: usize) -> bool
    requires { at ≤ length text.now }
    ensures { result ≡ (not (in_form text.now at) || ltb 2880 (value_at text.now at)) }
{
    let formed = plantext::in_form(text, at);
    !formed || 2880 < plantext::value_at(text, at)
}

// Checks 23 to 26 of line k, which stands at a place behind lines that gave these starts; the job that it names comes back.
fn line_fault(
    l: Loaded,
    q: Ask,
    names: &[u8],
    text: &[u8],
    starts: [u16; 24],
    at: usize,
    k: usize,
) -> Answer
    requires { (q.jobs ≤ 24) × (k ≤ 24) × AtLine (problem l q) names.now text.now k at starts }
    ensures { result ≡ answer_of (line_checks (problem l q) names.now text.now k accepted) (line_job (problem l q) names.now text.now k) 0 }
{
    if formless(text, at) {
        return tables::refuse(23, k as u16, 0);
    }
    let j = match plantext::job_named(names, q.jobs, text, at) {
        Some(j) => j,
        None => return tables::refuse(24, k as u16, 0),
    };
    if starts[j] != 65535 {
        return tables::refuse(25, k as u16, 0);
    }
    let a = l.jobs[j];
    if plantext::value_at(text, plantext::duration_at(text, at)) != u64::from(a.duration) {
        return tables::refuse(26, k as u16, 0);
    }
    tables::done(j as u32)
}

// The starts that the lines say, line by line up to the end of the text or the first bad line; a `while`, since each line says where the next one stands.
fn read_lines(l: Loaded, q: Ask, names: &[u8], text: &[u8]) -> Result<[u16; 24], Answer>
    requires { q.jobs ≤ 24 }
    ensures { SaysLines (problem l q) names.now text.now result }
{
    let mut starts = [65535u16; 24];
    let mut at = 0;
    let mut k = 0;
    while at < text.len() {
        let answer = line_fault(l, q, names, text, starts, at, k);
        if answer.number != 0 {
            return Err(answer);
        }
        starts[answer.value as usize] = plantext::value_at(text, at) as u16;
        at = plantext::next_line(text, at);
        k += 1;
    }
    Ok(starts)
}

// The starts that the lines of a text say, one a job, into lent memory; a job without a line is out.
pub fn read_text(l: Loaded, q: Ask, names: &[u8], text: &[u8], out: &mut [u16]) -> Answer
    ensures { ReadsText l q names.now text.now out.old out.new result }
{
    let short = tables::too_short(out.len() < q.jobs, names.len() / 16, q.jobs);
    let fault = tables::call_fault(l, q, short, 0);
    if fault.number != 0 {
        return fault;
    }
    let bad = plantext::names_fault(names, q.jobs);
    if bad.number != 0 {
        return bad;
    }
    match read_lines(l, q, names, text) {
        Ok(starts) => {
            entries::fill(out, starts, q.jobs);
            tables::done(0)
        }
        Err(answer) => answer,
    }
}
