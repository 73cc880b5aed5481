// The form of a plan's text: letters, numbers and names at a place, and the name table.

#![tactic(auto)]

ghost use Rattle.std.specs.Prelude.{◌≡◌, Bool, true, not, ◌&&◌, ◌||◌, eqb, ℕ, ◌+◌, ◌-◌, ◌*◌, ◌≤◌, ◌<◌, ◌^◌, length};
ghost use Rattle.facts.specs.Tests.{Agrees, some_least};
ghost use Rattle.refusals.specs.Refusals.{accepted};
ghost use Rattle.rules.specs.Table.{between};
ghost use Rattle.tables.specs.Tables.{answer_of};
ghost use Rattle.plantext.specs.Form.{letter_at, is_digit, is_zero, in_name, letters_from, word_stands, digits_end, point_at, zeros_end, number_at, value_of, value_at, name_at, name_length, name_end, duration_at, next_line, start_form, duration_form, in_form};
ghost use Rattle.plantext.specs.Names.{name_size, name_letter, is_named, misnamed, shares_name, names_check};
ghost use Rattle.plantext.specs.Steps.{NumberEnds};

use tables::Answer;

// The letter at a place, 0 behind the end.
fn letter_at(text: &[u8], i: usize) -> u8
    ensures { result ≡ letter_at text.now i }
{
    text.get(i).copied().unwrap_or(0)
}

// n is from least to most.
fn from_to(least: usize, most: usize, n: usize) -> bool
    ensures { result ≡ between least most n }
{
    (least..=most).contains(&n)
}

// A digit.
fn is_digit(c: u8) -> bool
    ensures { result ≡ is_digit c }
{
    c.is_ascii_digit()
}

// The digit 0.
fn is_zero(c: u8) -> bool
    ensures { result ≡ is_zero c }
{
    c == b'0'
}

// A letter of a name: a small letter, a digit or a hyphen.
fn in_name(c: u8) -> bool
    ensures { result ≡ in_name c }
{
    c.is_ascii_lowercase() || (is_digit(c) || c == b'-')
}

// How many letters from a place on pass the test, so many at most; a loop, since the proof of a search whose closure calls the test did not close.
fn letters_from<F: Fn(u8) -> bool>(text: &[u8], at: usize, most: usize, test: F) -> usize
    requires room { at + most < 2 ^ 64 }
    requires callable { F.IsAlwaysCallable test }
    ensures count { (f : ℕ → Bool) → ((c : ℕ) → c < 256 → Agrees f c (F.post test c)) → result ≡ letters_from f text.now at most }
    ensures few { result ≤ most }
{
    for i in 0..most {
        if !test(letter_at(text, at + i)) {
            return i;
        }
    }
    most
}

// The word stands at a place.
fn word_at(word: &[u8], text: &[u8], at: usize) -> bool
    requires { at + length word.now < 2 ^ 64 }
    ensures { result ≡ word_stands word.now text.now at }
{
    (0..word.len()).all(|i| letter_at(text, at + i) == word[i])
}

// Where the digits from a place on end, looked at up to the fifth.
fn digits_end(text: &[u8], at: usize) -> usize
    requires { at ≤ length text.now + 40 }
    ensures { (result ≡ digits_end text.now at) × (result ≤ at + 5) }
{
    at + letters_from(text, at, 5, is_digit)
}

// A point stands at a place, so within the text.
fn point_at(text: &[u8], at: usize) -> bool
    ensures { (result ≡ point_at text.now at) × (result ≡ true → at < length text.now) }
{
    letter_at(text, at) == b'.'
}

// Where the zeros from a place on end.
fn zeros_end(text: &[u8], at: usize) -> usize
    requires { at ≤ length text.now }
    ensures { (result ≡ zeros_end text.now at) × (result ≤ length text.now) }
{
    at + letters_from(text, at, text.len() - at, is_zero)
}

// Where the number at a place ends: behind its digits, or behind the zeros that follow the point.
fn number_end(text: &[u8], at: usize) -> usize
    requires { at ≤ length text.now + 40 }
    ensures { NumberEnds text.now at result }
{
    let end = digits_end(text, at);
    if point_at(text, end) {
        return zeros_end(text, end + 1);
    }
    end
}

// A number stands at a place: 1 to 4 digits and, if wanted, a point and one or more zeros.
fn number_at(text: &[u8], at: usize) -> bool
    requires { at ≤ length text.now + 40 }
    ensures { result ≡ number_at text.now at }
{
    let end = digits_end(text, at);
    if !from_to(at + 1, at + 4, end) {
        return false;
    }
    if !point_at(text, end) {
        return true;
    }
    end + 1 < zeros_end(text, end + 1)
}

// What a digit counts; another letter below the digits counts nothing.
fn digit_value(c: u8) -> u64
    ensures { (result ≡ c - 48) × (result < 256) }
{
    u64::from(c.saturating_sub(b'0'))
}

// The value of so many digits from a place on.
fn value_of(text: &[u8], at: usize, digits: usize) -> u64
    requires { (at ≤ length text.now + 40) × (digits ≤ 5) }
    ensures { result ≡ value_of text.now at digits }
{
    let mut value = 0u64;
    for i in 0..digits {
        value = 10 * value + digit_value(letter_at(text, at + i));
    }
    value
}

// The value of the number at a place.
pub fn value_at(text: &[u8], at: usize) -> u64
    requires { at ≤ length text.now + 40 }
    ensures { result ≡ value_at text.now at }
{
    value_of(text, at, letters_from(text, at, 5, is_digit))
}

// Where the name of the line at a place stands.
fn name_at(text: &[u8], at: usize) -> usize
    requires { at ≤ length text.now }
    ensures { (result ≡ name_at text.now at) × (result ≤ length text.now + 8) }
{
    number_end(text, at) + 3
}

// How many letters the name has, looked at up to the seventeenth.
fn name_length(text: &[u8], at: usize) -> usize
    requires { at ≤ length text.now }
    ensures { (result ≡ name_length text.now at) × (result ≤ 17) }
{
    letters_from(text, name_at(text, at), 17, in_name)
}

// Where the name ends.
fn name_end(text: &[u8], at: usize) -> usize
    requires { at ≤ length text.now }
    ensures { (result ≡ name_end text.now at) × (result ≤ length text.now + 25) }
{
    name_at(text, at) + name_length(text, at)
}

// Where the duration stands.
pub fn duration_at(text: &[u8], at: usize) -> usize
    requires { at ≤ length text.now }
    ensures { (result ≡ duration_at text.now at) × (result ≤ length text.now + 28) }
{
    name_end(text, at) + 3
}

// Where the next line stands.
pub fn next_line(text: &[u8], at: usize) -> usize
    requires { at ≤ length text.now }
    ensures { result ≡ next_line text.now at }
{
    number_end(text, duration_at(text, at)) + 2
}

// The line begins with a start and a name of 1 to 16 letters.
fn start_form(text: &[u8], at: usize) -> bool
    requires { at ≤ length text.now }
    ensures { result ≡ start_form text.now at }
{
    if !number_at(text, at) {
        return false;
    }
    if !word_at(b": (", text, number_end(text, at)) {
        return false;
    }
    from_to(1, 16, name_length(text, at))
}

// Behind them stand a duration and the newline.
fn duration_form(text: &[u8], at: usize) -> bool
    requires { at ≤ length text.now }
    ensures { result ≡ duration_form text.now at }
{
    if !word_at(b") [", text, name_end(text, at)) {
        return false;
    }
    let duration = duration_at(text, at);
    if !number_at(text, duration) {
        return false;
    }
    word_at(b"]\n", text, number_end(text, duration))
}

// The line that stands at a place has the form.
pub fn in_form(text: &[u8], at: usize) -> bool
    requires { at ≤ length text.now }
    ensures { result ≡ in_form text.now at }
{
    start_form(text, at) && duration_form(text, at)
}

// How many letters the name of job j has.
pub fn name_size(names: &[u8], j: usize) -> usize
    requires { j < 24 }
    ensures { (result ≡ name_size names.now j) × (result ≤ 16) }
{
    letters_from(names, 16 * j, 16, in_name)
}

// Letter i of the name of so many letters at a place; zeros behind it.
fn name_letter(text: &[u8], at: usize, size: usize, i: usize) -> u8
    requires { at + i < 2 ^ 64 }
    ensures { result ≡ name_letter text.now at size i }
{
    if i < size { letter_at(text, at + i) } else { 0 }
}

// The 16 bytes of job j are the name of so many letters at a place.
fn is_named(names: &[u8], j: usize, text: &[u8], at: usize, size: usize) -> bool
    requires { (j < 24) × (at + 16 < 2 ^ 64) }
    ensures { result ≡ is_named names.now j text.now at size }
{
    (0..16).all(|i| letter_at(names, 16 * j + i) == name_letter(text, at, size, i))
}

// Job j has no name of 1 to 16 letters with zeros alone behind it.
fn misnamed(names: &[u8], j: usize) -> bool
    requires { j < 24 }
    ensures { result ≡ misnamed names.now j }
{
    let size = name_size(names, j);
    size == 0 || !is_named(names, j, names, 16 * j, size)
}

// Job i is not job j and has its bytes.
fn namesake(names: &[u8], i: usize, j: usize) -> bool
    requires { (i < 24) × (j < 24) }
    ensures { result ≡ (not (eqb i j) && is_named names.now i names.now (16 * j) 16) }
{
    i != j && is_named(names, i, names, 16 * j, 16)
}

// Another of n jobs has the bytes of job j.
fn shares_name(names: &[u8], n: usize, j: usize) -> bool
    requires { (n ≤ 24) × (j < 24) }
    ensures { result ≡ shares_name names.now n j }
{
    (0..n).any(|i| namesake(names, i, j))
}

// The name of job j is not one, or not its own.
fn bad_name(names: &[u8], n: usize, j: usize) -> bool
    requires { (n ≤ 24) × (j < 24) }
    ensures { result ≡ (misnamed names.now j || shares_name names.now n j) }
{
    misnamed(names, j) || shares_name(names, n, j)
}

// The lowest of n jobs whose name is not one, or not its own.
fn first_misnamed(names: &[u8], n: usize) -> Option<usize>
    requires { n ≤ 24 }
    ensures { result ≡ some_least (λ j. misnamed names.now j || shares_name names.now n j) n }
{
    (0..n).find(|&j| bad_name(names, n, j))
}

// Check 33, over n jobs.
pub fn names_fault(names: &[u8], n: usize) -> Answer
    requires { n ≤ 24 }
    ensures { result ≡ answer_of (names_check names.now n accepted) 0 0 }
{
    match first_misnamed(names, n) {
        Some(j) => tables::refuse(33, j as u16, 0),
        None => tables::done(0),
    }
}

// The job that the line at a place names.
pub fn job_named(names: &[u8], n: usize, text: &[u8], at: usize) -> Option<usize>
    requires { (n ≤ 24) × (at ≤ length text.now) }
    ensures { result ≡ some_least (λ j. is_named names.now j text.now (name_at text.now at) (name_length text.now at)) n }
{
    let name = name_at(text, at);
    let size = name_length(text, at);
    (0..n).find(|&j| is_named(names, j, text, name, size))
}
