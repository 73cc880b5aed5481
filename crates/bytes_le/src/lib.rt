// Little-endian numbers of up to 8 bytes in slices.

#![tactic(auto)]

ghost use Rattle.std.specs.Prelude.{◌≡◌, ◌+◌, ◌≤◌, length};
ghost use Rattle.bytes_le.specs.Little.{little, at_front, laid};
ghost use Rattle.bytes_le.specs.Steps.{ReadsNumber};

// The number of so many bytes from place at on.
pub fn number(bytes: &[u8], at: usize, size: usize) -> u64
    requires { (at + size ≤ length bytes.now) × (size ≤ 8) }
    ensures { ReadsNumber size bytes.now at result }
{
    let mut value = 0u64;
    for place in (at..at + size).rev() {
        value = value * 256 + u64::from(bytes[place]);
    }
    value
}

// The number's lowest bytes, so many, over the first places.
fn put_first(value: u64, size: usize, out: &mut [u8])
    requires { size ≤ length out.old }
    ensures { out.new ≡ at_front (little size value) out.old }
{
    let mut left = value;
    for byte in &mut out[..size] {
        *byte = (left % 256) as u8;
        left /= 256;
    }
}

// The same from place at on.
pub fn put(value: u64, size: usize, at: usize, out: &mut [u8])
    requires { at + size ≤ length out.old }
    ensures { out.new ≡ laid (little size value) at out.old }
{
    put_first(value, size, &mut out[at..]);
}
