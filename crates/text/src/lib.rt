//! Numbers as text in ASCII: digits that are put into a page, and digits that are read from bytes.

#![tactic(auto)]

ghost use Rattle.std.specs.Prelude.{◌≡◌, ◌+◌, ◌<◌, ◌≤◌, ◌++◌, length};
ghost use Rattle.arrayvec.specs.ArrayString.{array_string_len};
ghost use Rattle.text.specs.Text.{Digit, Reads, glyph, digits};

use arrayvec::ArrayString;

// The character of a digit below 16. It is cast, since `u32::try_from` would have a case that cannot be.
fn glyph(digit: u64) -> char
    requires { digit < 16 }
    ensures value { result ≡ glyph digit }
    ensures ascii { result < 128 }
{
    char::from_digit(digit as u32, 16).unwrap()
}

// Puts in the last digits of a number, no more than a number of 64 bits has.
// By recursion, as the digits are defined: a loop from the first digit on would need powers of the base.
fn put_last<const CAPACITY: usize>(
    page: &mut ArrayString<CAPACITY>,
    base: u64,
    count: usize,
    number: u64,
)
    requires least { 0 < base }
    requires most { base ≤ 16 }
    requires few { count ≤ 64 }
    requires room { array_string_len page.old + count ≤ CAPACITY }
    ensures bytes { page.new.bytes ≡ page.old.bytes ++ digits base count number }
    ensures len { array_string_len page.new ≡ array_string_len page.old + count }
{
    if 0 < count {
        put_last(page, base, count - 1, number / base);
        page.push(glyph(number % base));
    }
}

/// Puts the last digits of a number in, so many of them, in a base up to 16.
// What stands before the last 64 are zeros: they are put in by a loop, so that no count takes more stack than these.
pub fn put_digits<const CAPACITY: usize>(
    page: &mut ArrayString<CAPACITY>,
    base: u64,
    count: usize,
    number: u64,
)
    requires least { 0 < base }
    requires most { base ≤ 16 }
    requires room { array_string_len page.old + count ≤ CAPACITY }
    ensures bytes { page.new.bytes ≡ page.old.bytes ++ digits base count number }
    ensures len { array_string_len page.new ≡ array_string_len page.old + count }
{
    let last = count.min(64);
    for _ in 0..count - last {
        page.push('0');
    }
    put_last(page, base, last, number);
}

// The digit below 16, in lower case, that a byte shows.
fn digit(byte: u8) -> Option<u64>
    ensures { Digit byte result }
{
    match byte {
        b'0'..=b'9' => Some(u64::from(byte - b'0')),
        b'a'..=b'f' => Some(u64::from(byte - b'a') + 10),
        _ => None,
    }
}

/// Reads a number from its hexadecimal digits, in lower case.
pub fn read_hex(bytes: &[u8]) -> Option<u64>
    requires { length bytes.now ≤ 16 }
    ensures { Reads bytes.now (length bytes.now) result }
{
    let mut number = 0;
    for &byte in bytes {
        number = number * 16 + digit(byte)?;
    }
    Some(number)
}
