// Whole tenths of a 64-bit float, worked from its bits with no rounding.

#![tactic(auto)]

ghost use Rattle.std.specs.Prelude.{◌≡◌, ◌^◌, ◌<◌, ◌≤◌, T};
ghost use Rattle.std.specs.Int.Signed.{shr_z};
ghost use Rattle.tenths.specs.Tenths.{signed, in_range, tenths, measured};
ghost use Rattle.tenths.specs.Bits.{field, digits_of, drop_of, floor_times};

// What a float measures: its tenths are 0 where it is not finite and from -100 to 100.
// A flag with the tenths, no Option: the theorem `Nearest.measure_only` speaks of this struct.
#[derive(Clone, Copy)]
pub struct Measured {
    pub in_range: bool,
    pub tenths: i16,
}

// What the sign counts in a pattern.
const SIGN: u64 = 1 << 63;

// What the leading digit counts, which is not written.
const LEAD: u64 = 1 << 52;

// The exponent's field of a pattern.
fn field(bits: u64) -> u64
    ensures { result ≡ field bits }
{
    bits % SIGN / LEAD
}

// The digits of a pattern, with the leading one that is not written.
fn digits(bits: u64) -> u64
    ensures { result ≡ digits_of bits }
{
    bits % LEAD + field(bits).min(1) * LEAD
}

// How far the digits are shifted down to ones: 63 places take all of them, as more would.
fn drop(bits: u64) -> u64
    ensures { result ≡ drop_of bits }
{
    let place = field(bits).saturating_sub(1);
    1074u64.saturating_sub(place).min(63)
}

// A size with its sign.
fn give_sign(negative: bool, size: u64) -> i64
    requires { size < 2 ^ 63 }
    ensures { result ≡ signed negative size }
{
    let n = size as i64;
    if negative { -n } else { n }
}

// c times a float in range, rounded down.
fn floor_times(c: u64, x: f64) -> i64
    requires { (c ≤ 100) × T (in_range x) }
    ensures { result ≡ floor_times c x }
{
    let bits = f64::to_bits(x);
    let n = give_sign(SIGN <= bits, c * digits(bits));
    n >> drop(bits)
}

// Every comparison with a NaN is false.
fn in_range(x: f64) -> bool
    ensures { result ≡ in_range x }
{
    x >= -100.0 && x <= 100.0
}

// The rule of the tenths: half of twenty times the value and one, each rounded down.
fn tenths_of(x: f64) -> i16
    requires { T (in_range x) }
    ensures { result ≡ tenths x }
{
    ((floor_times(20, x) + 1) >> 1) as i16
}

// Whether a float is in range, and its tenths.
pub fn measure(x: f64) -> Measured
    ensures { result ≡ measured x }
{
    if in_range(x) {
        Measured {
            in_range: true,
            tenths: tenths_of(x),
        }
    } else {
        Measured {
            in_range: false,
            tenths: 0,
        }
    }
}
