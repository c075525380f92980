// Hexadecimal, read in either case and written small.
#![tactic(auto)]

ghost use Rattle.std.specs.Prelude.{◌≡◌, ◌/◌, ◌%◌, ◌<◌};
ghost use Rattle.desk_rules.specs.Hex.{hex_value, is_hex, hex_digit, decoded, encoded};

fn value(b: u8) -> u8
    ensures { (result ≡ hex_value b) × (result < 16) }
{
    match b {
        b'0'..=b'9' => b - b'0',
        b'A'..=b'F' => b - b'A' + 10,
        b'a'..=b'f' => b - b'a' + 10,
        _ => 0,
    }
}

// Whether a line is whole bytes: an even number of digits.
pub fn is_hex(line: &[u8]) -> bool
    ensures { result ≡ is_hex line.now }
{
    line.len().is_multiple_of(2) && line.iter().all(|b| b.is_ascii_hexdigit())
}

// The bytes of a line, into room for just so many; other room is left as it is.
pub fn decode(line: &[u8], bytes: &mut [u8])
    ensures { bytes.new ≡ decoded line.now bytes.old }
{
    if bytes.len() != line.len() / 2 {
        return;
    }
    for (i, byte) in bytes.iter_mut().enumerate() {
        *byte = value(line[2 * i]) * 16 + value(line[2 * i + 1]);
    }
}

fn digit(n: u8) -> u8
    requires { n < 16 }
    ensures { result ≡ hex_digit n }
{
    match n {
        0..=9 => b'0' + n,
        _ => b'a' + (n - 10),
    }
}

// The line of a frame, its newline too, into room for just so much; other room is left as it is.
pub fn encode(frame: &[u8], line: &mut [u8])
    ensures { line.new ≡ encoded frame.now line.old }
{
    if line.len() != 2 * frame.len() + 1 {
        return;
    }
    for (i, byte) in frame.iter().enumerate() {
        line[2 * i] = digit(byte / 16);
        line[2 * i + 1] = digit(byte % 16);
    }
    line[2 * frame.len()] = b'\n';
}

// The two bytes of a number that has no more.
pub fn high(n: u32) -> u8
    ensures { result ≡ n / 256 % 256 }
{
    n.to_be_bytes()[2]
}

pub fn low(n: u32) -> u8
    ensures { result ≡ n % 256 }
{
    n.to_be_bytes()[3]
}
