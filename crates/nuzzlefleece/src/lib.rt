// The calls: over the caller's lent job records, with no condition on the caller; `nuzzlefleece_c` exports each under its name for C.
// A call over records takes them out and hands on to the call on a table by value, all in one form.

#![tactic(auto)]

ghost use Rattle.std.specs.Prelude.{◌≡◌};
ghost use Rattle.rules.specs.Clashes.{clash_of, numbers};
ghost use Rattle.interference.specs.Records.{record_masks};
ghost use Rattle.verdict.specs.Offered.{ChecksPlan};
ghost use Rattle.bindings.specs.Bindings.{Supports, Pairs};
ghost use Rattle.following.specs.Screens.{Following};
ghost use Rattle.lateness.specs.Lateness.{HowLate};
ghost use Rattle.batches.specs.Batches.{Batches};
ghost use Rattle.estimates.specs.Earliest.{Earliest};
ghost use Rattle.settle.specs.Settle.{Settling};
ghost use Rattle.reasons.specs.Reasons.{WhyStart, WhyNoPlan};
ghost use Rattle.planning.specs.Planning.{PlansWithin, BoundsWithin};
ghost use Rattle.jobfile.specs.Calls.{Writes};
ghost use Rattle.jobfile.specs.Tidy.{Tidies};
ghost use Rattle.plantext.specs.Reading.{ReadsText};
ghost use Rattle.plantext.specs.Writing.{WritesText};
ghost use Rattle.opentable.specs.Open.{jobs_of, ask_of, beginning, adding, replacing, removing, Leaves};
ghost use Rattle.records.specs.Records.{loaded};
ghost use Rattle.nuzzlefleece.specs.Version.{version};
ghost use Rattle.nuzzlefleece.specs.Files.{told, Reads};
ghost use Rattle.readings.specs.Marks.{marks_of};
ghost use Rattle.readings.specs.Opening.{Opens};
ghost use Rattle.page.specs.Page.{Pages};

use batches::BatchAnswer;
use following::{Screen, Watch};
use jobfile::Read;
use lateness::Overruns;
use opentable::{Edited, OpenTable, Replacement, Wanted};
use readings::{BenchReading, Opening};
use reasons::{Question, Reason};
use rules::ClashNumbers;
use tables::{Action, Answer, Ask, Loaded};

// The version of the library: 10,000 times the first number, 100 times the second, and the third.
pub fn nuzzlefleece_version() -> u32
    ensures { result ≡ version }
{
    11000
}

// The verdict on an offered plan.
pub fn nuzzlefleece_check_plan(t: &[Action], q: Ask, starts: &[u16]) -> Answer
    ensures { ChecksPlan (loaded t.now) q starts.now result }
{
    verdict::check_plan(records::load(t), q, starts)
}

// Why two jobs with these records clash, by kind and lowest fact.
pub fn nuzzlefleece_why_clash(one: Action, other: Action) -> ClashNumbers
    ensures { result ≡ numbers (clash_of (record_masks one) (record_masks other)) }
{
    interference::why_clash(one, other)
}

// The first valid plan within the bound, in the stated order.
pub fn nuzzlefleece_plan_within(t: &[Action], q: Ask, out: &mut [u16]) -> Answer
    ensures { PlansWithin (loaded t.now) q out.old out.new result }
{
    planning::plan_within(records::load(t), q, out)
}

// The least bound, with the first plan at it.
pub fn nuzzlefleece_least_bound(t: &[Action], q: Ask, out: &mut [u16]) -> Answer
    ensures { BoundsWithin (loaded t.now) q out.old out.new result }
{
    planning::least_bound(records::load(t), q, out)
}

// The table of supports of a valid plan, 64 bytes a job and 64 for End.
pub fn nuzzlefleece_supports(t: &[Action], q: Ask, starts: &[u16], out: &mut [u8]) -> Answer
    ensures { Supports (loaded t.now) q starts.now out.old out.new result }
{
    bindings::supports(records::load(t), q, starts, out)
}

// The binding pairs of a valid plan, two bytes a pair, and their count.
pub fn nuzzlefleece_binding_pairs(t: &[Action], q: Ask, starts: &[u16], out: &mut [u8]) -> Answer
    ensures { Pairs (loaded t.now) q starts.now out.old out.new result }
{
    bindings::binding_pairs(records::load(t), q, starts, out)
}

// The words of started and finished jobs after an event of a plan's job, the facts now, and the jobs that may start.
pub fn nuzzlefleece_follow(t: &[Action], w: Watch, starts: &[u16]) -> Screen
    ensures { Following (loaded t.now) w starts.now result }
{
    following::follow(records::load(t), w, starts)
}

// When all is finished at the latest, where each job of a valid plan runs over by up to so many quarter hours.
pub fn nuzzlefleece_how_late(t: &[Action], o: Overruns, starts: &[u16]) -> Answer
    ensures { HowLate (loaded t.now) o starts.now result }
{
    lateness::how_late(records::load(t), o, starts)
}

// The earliest estimates, one a job.
pub fn nuzzlefleece_earliest(t: &[Action], q: Ask, out: &mut [u16]) -> Answer
    ensures { Earliest (loaded t.now) q out.old out.new result }
{
    estimates::earliest(records::load(t), q, out)
}

// The least starts, one a job, for pairs of two bytes each.
pub fn nuzzlefleece_settle(t: &[Action], q: Ask, pairs: &[u8], out: &mut [u16]) -> Answer
    ensures { Settling (loaded t.now) q pairs.now out.old out.new result }
{
    settle::settle(records::load(t), q, pairs, out)
}

// The chain of asked pairs that ends at a job of settled starts, first job first, and how many jobs it has.
pub fn nuzzlefleece_why_start(t: &[Action], q: Question, pairs: &[u8], out: &mut [u8]) -> Answer
    ensures { WhyStart (loaded t.now) q pairs.now out.old out.new result }
{
    reasons::why_start(records::load(t), q, pairs, out)
}

// Why there is no plan within the bound: a goal never reachable, a goal above the bound, or neither.
pub fn nuzzlefleece_why_no_plan(t: &[Action], q: Ask) -> Reason
    ensures { WhyNoPlan (loaded t.now) q result }
{
    reasons::why_no_plan(records::load(t), q)
}

// Expands batches, a house group each, into the lent records, one a job; those behind the last job stay as they are. No bound comes out.
pub fn nuzzlefleece_batches(groups: &[u8], t: &mut [Action]) -> BatchAnswer
    ensures { Batches groups.now t.old t.new result }
{
    let r = batches::expand(groups, t.len());
    if r.ask.jobs == 0 {
        return r.into();
    }
    records::scatter(t, r.table, r.ask.jobs);
    r.into()
}

// What reading a job file says beside the records.
#[repr(C)]
#[derive(Clone, Copy)]
pub struct ReadAnswer {
    pub answer: Answer,
    pub ask: Ask,
}

impl From<Read> for ReadAnswer {
    ghost from_gives = { λ r a. a ≡ told r };

    fn from(r: Read) -> ReadAnswer {
        ReadAnswer {
            answer: r.answer,
            ask: r.ask,
        }
    }
}

// Reads a job file into the lent records, one a job; those behind the last job stay as they are.
pub fn nuzzlefleece_read_file(file: &[u8], t: &mut [Action]) -> ReadAnswer
    ensures { Reads file.now t.old t.new result }
{
    let r = jobfile_read::read_file(file, t.len());
    if r.ask.jobs == 0 {
        return r.into();
    }
    records::scatter(t, r.table, r.ask.jobs);
    r.into()
}

// What a save is made of beside the records: the numbers, and how many bytes of the buffer are in use.
#[repr(C)]
#[derive(Clone, Copy)]
pub struct Save {
    pub ask: Ask,
    pub used: usize,
}

// Appends a save behind the bytes used, and returns the new length.
pub fn nuzzlefleece_write_file(t: &[Action], s: Save, buf: &mut [u8]) -> Answer
    ensures { Writes (loaded t.now) s.ask s.used buf.old buf.new result }
{
    jobfile_write::write_file(records::load(t), s.ask, s.used, buf)
}

// Moves the last save of the bytes in use to the front of the buffer, and returns the new length.
pub fn nuzzlefleece_tidy(used: usize, buf: &mut [u8]) -> Answer
    ensures { Tidies used buf.old buf.new result }
{
    jobfile_tidy::tidy(used, buf)
}

// Reads the text of a plan, a line a step, into the starts, one a job; a job without a line is out. The names are 16 bytes a job.
pub fn nuzzlefleece_read_text(
    t: &[Action],
    q: Ask,
    names: &[u8],
    text: &[u8],
    out: &mut [u16],
) -> Answer
    ensures { ReadsText (loaded t.now) q names.now text.now out.old out.new result }
{
    plantext_read::read_text(records::load(t), q, names, text, out)
}

// Writes the text of a valid plan, a line a step, into the first bytes of a lent buffer; its length comes back.
pub fn nuzzlefleece_write_text(
    t: &[Action],
    q: Ask,
    names: &[u8],
    starts: &[u16],
    out: &mut [u8],
) -> Answer
    ensures { WritesText (loaded t.now) q names.now starts.now out.old out.new result }
{
    plantext_write::write_text(records::load(t), q, names, starts, out)
}

// What an edit says; the table after it is left in the lent one.
fn left(e: Edited, t: &mut OpenTable) -> Answer
    ensures { Leaves e t.new result }
{
    *t = e.table;
    e.answer
}

// Begins a lent table without jobs.
pub fn nuzzlefleece_begin(t: &mut OpenTable, atoms: u8) -> Answer
    ensures { Leaves (beginning t.old atoms) t.new result }
{
    left(opentable::begun(*t, atoms), t)
}

// Adds a job behind the last one of a lent table, and returns its number.
pub fn nuzzlefleece_add(t: &mut OpenTable, a: Action) -> Answer
    ensures { Leaves (adding t.old a) t.new result }
{
    left(opentable::added(*t, a), t)
}

// Replaces a job of a lent table.
pub fn nuzzlefleece_replace(t: &mut OpenTable, r: Replacement) -> Answer
    ensures { Leaves (replacing t.old r) t.new result }
{
    left(opentable::replaced(*t, r), t)
}

// Removes a job of a lent table; the later jobs move down by one.
pub fn nuzzlefleece_remove(t: &mut OpenTable, job: u8) -> Answer
    ensures { Leaves (removing t.old job) t.new result }
{
    left(opentable::removed(*t, job), t)
}

// The first valid plan of a lent table within the bound, in the stated order.
pub fn nuzzlefleece_plan_open(t: &OpenTable, w: Wanted, out: &mut [u16]) -> Answer
    ensures { PlansWithin (jobs_of t.now) (ask_of t.now w) out.old out.new result }
{
    planning::plan_within(opentable::jobs_of(*t), opentable::ask_of(*t, w), out)
}

// The least bound of a lent table, with the first plan at it.
pub fn nuzzlefleece_least_bound_open(t: &OpenTable, w: Wanted, out: &mut [u16]) -> Answer
    ensures { BoundsWithin (jobs_of t.now) (ask_of t.now w) out.old out.new result }
{
    planning::least_bound(opentable::jobs_of(*t), opentable::ask_of(*t, w), out)
}

// Opening facts from a reading. The marks stand side by side in the three tables, the first `count` of each.
pub fn nuzzlefleece_opening_facts(
    reading: BenchReading,
    channels: &[u8],
    levels: &[i16],
    facts: &[u8],
    count: usize,
    given: u64,
) -> Opening
    ensures { Opens reading (marks_of channels.now levels.now facts.now count) given result }
{
    readings::opening_facts(reading, channels, levels, facts, count, given)
}

// What bench-plan prints of a job file, into the first bytes of a lent buffer; its length comes back.
pub fn nuzzlefleece_page(file: &[u8], out: &mut [u8]) -> Answer
    ensures { Pages file.now out.old out.new result }
{
    page::page(file, out)
}
