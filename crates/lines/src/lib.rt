// The lines of the text that bench-plan prints, each put into a lent buffer at a place.

#![tactic(auto)]

ghost use Rattle.std.specs.Prelude.{[], ◌∷◌, ◌+◌, ◌≤◌, ◌<◌, length};
ghost use Rattle.lines.specs.Lines.{digit, decimal, number_then, refused_line, least_line, job_line, pair_line};
ghost use Rattle.lines.specs.Lays.{Lays};

// One letter at the place given; the next place comes back.
fn put_letter(letter: u8, at: usize, out: &mut [u8]) -> usize
    requires { at + 1 ≤ length out.old }
    ensures { Lays 1 (letter ∷ []) at out.old out.new result }
{
    out[at] = letter;
    at + 1
}

// A word at the place given.
pub fn put_word(word: &[u8], at: usize, out: &mut [u8]) -> usize
    requires { at + length word.now ≤ length out.old }
    ensures { Lays (length word.now) word.now at out.old out.new result }
{
    out[at..at + word.len()].copy_from_slice(word);
    at + word.len()
}

// The digit of so many units, where the number has it.
fn put_digit(n: u32, unit: u32, at: usize, out: &mut [u8]) -> usize
    requires { (0 < unit) × (at + 1 ≤ length out.old) }
    ensures { Lays 1 (digit n unit) at out.old out.new result }
{
    if n < unit {
        return at;
    }
    put_letter(48 + ((n / unit) % 10) as u8, at, out)
}

// A number below 100,000.
pub fn put_number(n: u32, at: usize, out: &mut [u8]) -> usize
    requires { at + 5 ≤ length out.old }
    ensures { Lays 5 (decimal n) at out.old out.new result }
{
    let tens = put_digit(n, 10000, at, out);
    let thousands = put_digit(n, 1000, tens, out);
    let hundreds = put_digit(n, 100, thousands, out);
    let last = put_digit(n, 10, hundreds, out);
    put_letter(48 + (n % 10) as u8, last, out)
}

// A number and the letter behind it.
fn put_then(n: u32, letter: u8, at: usize, out: &mut [u8]) -> usize
    requires { at + 6 ≤ length out.old }
    ensures { Lays 6 (number_then n letter) at out.old out.new result }
{
    let next = put_number(n, at, out);
    put_letter(letter, next, out)
}

// The line of a refusal.
pub fn put_refused(number: u8, place: u16, out: &mut [u8]) -> usize
    requires { 20 ≤ length out.old }
    ensures { Lays 20 (refused_line number place) 0 out.old out.new result }
{
    let word = put_word(b"refused ", 0, out);
    let next = put_then(u32::from(number), 32, word, out);
    put_then(u32::from(place), 10, next, out)
}

// The line of the least bound.
pub fn put_least(bound: u32, out: &mut [u8]) -> usize
    requires { 12 ≤ length out.old }
    ensures { Lays 12 (least_line bound) 0 out.old out.new result }
{
    let word = put_word(b"least ", 0, out);
    put_then(bound, 10, word, out)
}

// The line of a job.
pub fn put_job(start: u32, end: u32, job: u32, at: usize, out: &mut [u8]) -> usize
    requires { at + 18 ≤ length out.old }
    ensures { Lays 18 (job_line start end job) at out.old out.new result }
{
    let first = put_then(start, 32, at, out);
    let second = put_then(end, 32, first, out);
    put_then(job, 10, second, out)
}

// The line of a pair.
pub fn put_pair(a: u8, b: u8, at: usize, out: &mut [u8]) -> usize
    requires { at + 19 ≤ length out.old }
    ensures { Lays 19 (pair_line a b) at out.old out.new result }
{
    let first = put_number(u32::from(a), at, out);
    let word = put_word(b" before ", first, out);
    put_then(u32::from(b), 10, word, out)
}
