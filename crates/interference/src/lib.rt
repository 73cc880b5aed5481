// Why two jobs clash, and whether two jobs of a table interfere.

#![tactic(auto)]

ghost use Rattle.std.specs.Prelude.{◌≡◌, ◌&&◌, ◌||◌, ◌<◌};
ghost use Rattle.facts.specs.Facts.{has};
ghost use Rattle.facts.specs.Tests.{some_least};
ghost use Rattle.rules.specs.Clashes.{clash_of, numbers, interfere};
ghost use Rattle.tables.specs.declared.Ask.{Ask};
ghost use Rattle.tables.specs.Tables.{problem};
ghost use Rattle.interference.specs.Records.{record_masks};

use rules::{Clash, ClashNumbers};
use tables::{Action, Loaded};

// The lowest fact that one of two jobs deletes and that is in a word of the other.
fn first_spoilt(deletes: u64, word: u64, others: u64, theirs: u64) -> Option<usize>
    ensures { result ≡ some_least (λ p. (has deletes p && has theirs p) || (has others p && has word p)) 64 }
{
    let mut spoilt = facts::each((deletes & theirs) | (others & word));
    spoilt.next()
}

// Why two jobs with these records clash; a condition comes first.
pub fn clash(a: Action, b: Action) -> Clash
    ensures { result ≡ clash_of (record_masks a) (record_masks b) }
{
    if let Some(fact) = first_spoilt(a.deletions, a.conditions, b.deletions, b.conditions) {
        return Clash::Condition(fact as u8);
    }
    if let Some(fact) = first_spoilt(a.deletions, a.additions, b.deletions, b.additions) {
        return Clash::Addition(fact as u8);
    }
    Clash::None
}

// Why two jobs with these records clash, as numbers.
pub fn why_clash(a: Action, b: Action) -> ClashNumbers
    ensures { result ≡ numbers (clash_of (record_masks a) (record_masks b)) }
{
    clash(a, b).into()
}

// Jobs i and j are two, and their clash is not none.
pub fn interferes(l: Loaded, i: usize, j: usize) -> bool
    requires { (i < 24) × (j < 24) }
    ensures { (q : Ask) → result ≡ interfere (problem l q) i j }
{
    i != j && !matches!(clash(l.jobs[i], l.jobs[j]), Clash::None)
}
