// Packed fields, most significant bit first: reading one, and writing one.
#![tactic(auto)]

ghost use Rattle.std.specs.Prelude.{◌≡◌, ◌+◌, ◌*◌, ◌/◌, ◌^◌, ◌≤◌, ◌<◌, length};
ghost use Rattle.bits.specs.Field.{bit_of, field_of, Field};
ghost use Rattle.bits.specs.Digits.{splice};
ghost use Rattle.bits.specs.Put.{Put};

// 2 to the k.
fn power(k: usize) -> u64
    requires { k ≤ 32 }
    ensures { result ≡ 2 ^ k }
{
    1 << k
}

// Bit i of s: in byte i / 8, counted from its most significant bit.
#[tactic(auto, unfolding(crate::specs::Field::bit_of))]
fn bit(s: &[u8], i: usize) -> u64
    requires { i < 8 * length s.now }
    ensures { result ≡ bit_of s.now i }
{
    (u64::from(s[i / 8]) >> (7 - i % 8)) % 2
}

// The width bits of s from bit at on, one by one, the most significant first (docs/DRAWING.md).
fn read(s: &[u8], at: usize, width: usize) -> u64
    requires { (width ≤ 32) × (at < 8) × (at + width ≤ 8 * length s.now) }
    ensures { result ≡ field_of s.now at width }
{
    let mut acc: u64 = 0;
    for k in 0..width {
        acc = acc * 2 + bit(s, at + k);
    }
    acc
}

// How many bytes the bits before bit at + width take; that sum itself may not fit.
fn reach(at: usize, width: usize) -> usize
    requires { width ≤ 32 }
    ensures { result ≡ (at + width + 7) / 8 }
{
    at / 8 + (at % 8 + width + 7) / 8
}

// The field of width bits that starts at bit at; bits past the end are 0. A field wider than 32 bits reads as 0.
pub fn field(s: &[u8], at: usize, width: usize) -> u64
    ensures { Field s.now at width result }
{
    if width > 32 {
        return 0;
    }
    // it starts in byte first, after skip bits of it
    let first = at / 8;
    let skip = at % 8;
    if reach(at, width) <= s.len() {
        return read(&s[first..], skip, width);
    }
    if s.len() <= first {
        return 0;
    }
    // s ends inside the field: the bits that are there, then zeros
    let n = 8 * (s.len() - first) - skip;
    read(&s[first..], skip, n) << (width - n)
}

// The byte b, with the n bits that have j bits after them replaced by the last n bits of v.
fn spliced(b: u8, n: usize, j: usize, v: u64) -> u8
    requires { n + j ≤ 8 }
    ensures { result ≡ splice b n j v }
{
    let x = u64::from(b);
    let top = power(n + j);
    let low = power(j);
    // a byte, as the contract proves: `try_from` would bring an error that cannot be
    (x / top * top + (v % power(n) * low + x % low)) as u8
}

// Puts the last width bits of value where the field of width bits at bit at stands.
// A field wider than 64 bits, or one that does not lie in s, leaves s as it is.
pub fn put_field(s: &mut [u8], at: usize, width: usize, value: u64)
    ensures { Put s.old at width value s.new }
{
    if width > 64 {
        return;
    }
    let first = at / 8;
    let skip = at % 8;
    if first + (skip + width + 7) / 8 > s.len() {
        return;
    }
    // from the last bits to the first: v is what is left of the value, w its width
    let mut v = value;
    let mut w = width;
    while w > 0 {
        let last = (skip + w - 1) / 8;
        let j = 8 * last + 8 - (skip + w);
        let n = w.min(8 - j);
        let i = first + last;
        s[i] = spliced(s[i], n, j, v);
        v = v / power(n);
        w -= n;
    }
}
