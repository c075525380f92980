// The words of a line: the call's name, and values with a name each: decimal numbers, and bytes in hexadecimal, where `(HEX*N)` is HEX
// repeated N times. A line is bytes and need not be text.
ghost use Rattle.std.specs.Prelude.{◌≤◌, ◌<◌, length};

// The call's name, the line's first word.
pub fn name(line: &[u8]) -> &[u8] {
    line.split(|b| *b == b' ').next().unwrap_or(b"")
}

// The value of the first word with this name, or nothing where there is none.
pub fn value<'a>(line: &'a [u8], name: &str) -> &'a [u8] {
    line.split(|b| *b == b' ')
        .find_map(|word| word.strip_prefix(name.as_bytes()))
        .unwrap_or(b"")
}

// The number that the digits at the front spell, by its lowest 32 bits; 0 where there is no digit.
pub fn number(value: &[u8]) -> u32 {
    value.iter().map_while(|b| char::from(*b).to_digit(10)).fold(
        0u32,
        |sum, digit| sum.wrapping_mul(10).wrapping_add(digit),
    )
}

// What a hexadecimal digit says; 0 for any other byte, a capital too.
fn digit(b: u8) -> u8
    ensures { result < 16 }
{
    match b {
        b'0'..=b'9' => b - b'0',
        b'a'..=b'f' => b - b'a' + 10,
        _ => 0,
    }
}

// The bytes that pairs of digits spell, this many times at the front of `room`, which keeps the rest. A time that does not fit whole
// is left out with those behind it, and so is a last digit that has no other.
fn put_times(room: &mut &mut [u8], hex: &[u8], times: u32)
    ensures { length room.new.now ≤ length room.old.now }
{
    let (pairs, _) = hex.as_chunks::<2>();
    for _ in 0..times {
        let Some(to) = room.split_off_mut(..pairs.len()) else {
            return;
        };
        for (byte, [high, low]) in to.iter_mut().zip(pairs) {
            *byte = digit(*high) * 16 + digit(*low);
        }
    }
}

// The bytes of a value, at the front of `out`.
pub fn part<'a>(out: &'a mut [u8], value: &[u8]) -> &'a mut [u8]
    ensures { length result.now ≤ length out.old }
{
    let mut room = &mut out[..];
    // A piece is hexadecimal, or HEX*N, within brackets or not.
    for piece in value.split(|b| matches!(*b, b'(' | b')')) {
        let mut halves = piece.splitn(2, |b| *b == b'*');
        let hex = halves.next().unwrap_or(b"");
        let times = halves.next().map_or(1, number);
        put_times(&mut room, hex, times);
    }
    let left = room.len();
    let n = out.len().saturating_sub(left);
    &mut out[..n]
}
