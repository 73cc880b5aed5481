// What a job file is, and what reading one returns.

#![tactic(auto)]

ghost use Rattle.std.specs.Prelude.{◌≡◌};
ghost use Rattle.jobfile.specs.Calls.{nothing};

use tables::{Answer, Ask, Loaded};

// What the reader returns: the answer, the numbers asked with and the records; all 0 on refusal. One struct, since the reader's promise `reading` speaks of it.
#[derive(Clone, Copy)]
pub struct Read {
    pub answer: Answer,
    pub ask: Ask,
    pub table: Loaded,
}

// What is returned on refusal.
pub fn nothing(a: Answer) -> Read
    ensures { result ≡ nothing a }
{
    let ask = Ask {
        jobs: 0,
        atoms: 0,
        opening: 0,
        goals: 0,
        bound: 0,
        set: 0,
        pairs: 0,
    };
    let table = tables::no_jobs(0);
    Read {
        answer: a,
        ask,
        table,
    }
}
