// Doubles: bit patterns, Rust's abs, max, min, recip, %, rem_euclid, round and is_finite, and casts, each total and equal to a
// definition of specs/Double.antt. No public one has a `requires`: every pattern of 64 bits is an input.
#![tactic(auto)]

ghost use Rattle.std.specs.Prelude.{◌≡◌, ◌*◌, ◌%◌, ◌^◌, ◌<◌, nat_eq, pos, from_bits, to_bits};
ghost use Rattle.std.specs.Float.{binary64};
ghost use Rattle.std.specs.Float.Ieee.{to_unsigned, to_signed, of_int, rem};
ghost use Rattle.float.specs.Double.{is_finite, not_positive, mag, max_of, min_of, recip_of, rem_euclid, high, field, sign, round_size, round_away, significand, places, power_of};

// std::f64::consts
pub const FRAC_PI_2: f64 = 1.5707963267948966;

pub const PI: f64 = 3.141592653589793;

pub const TAU: f64 = 6.283185307179586;

// f64::abs, by clearing the sign's bit.
pub fn abs(x: f64) -> f64
    ensures { result ≡ mag x }
{
    if x != x {
        return x;
    }
    f64::from_bits(f64::to_bits(x) % 0x8000_0000_0000_0000)
}

// f64::is_finite.
pub fn is_finite(x: f64) -> bool
    ensures { result ≡ is_finite x }
{
    abs(x) < 1.0 / 0.0
}

// Whether x is not finite, or not positive.
pub fn not_positive(x: f64) -> bool
    ensures { result ≡ not_positive x }
{
    !is_finite(x) || x <= 0.0
}

// f64::max: a NaN is passed over, and of two equal values the first is the answer.
pub fn max(a: f64, b: f64) -> f64
    ensures { result ≡ max_of a b }
{
    if a < b {
        return b;
    }
    if a != a {
        return b;
    }
    a
}

// f64::min, likewise.
pub fn min(a: f64, b: f64) -> f64
    ensures { result ≡ min_of a b }
{
    if b < a {
        return b;
    }
    if a != a {
        return b;
    }
    a
}

// f64::recip.
pub fn recip(x: f64) -> f64
    ensures { result ≡ recip_of x }
{
    1.0 / x
}

// The significand of a finite value, a whole number: with the leading digit, where the value is not subnormal.
fn significand(x: f64) -> u64
    ensures { result ≡ significand x }
{
    let low_digits = bits(x) % 0x10_0000_0000_0000;
    if exponent(x) == 0 {
        return low_digits;
    }
    low_digits + 0x10_0000_0000_0000
}

// How many times a finite value's significand is doubled, in units of the smallest double.
fn places(x: f64) -> u64
    ensures { result ≡ places x }
{
    let field = exponent(x);
    if field == 0 {
        return 0;
    }
    field - 1
}

// The smallest double, doubled j times.
fn power_of(j: u64) -> f64
    requires { j < 2047 }
    ensures { result ≡ power_of j }
{
    if j < 52 {
        return from_bits(1 << j);
    }
    from_bits((j - 51) * 0x10_0000_0000_0000)
}

// The remainder of p, doubled j times, by q. Eleven doublings at a time fit, since what is left stays below 2^53.
fn remainder_of_doubled(p: u64, j: u64, q: u64) -> u64
    requires small { p < 2 ^ 53 }
    requires divisor { 0 < q }
    requires divisor_small { q < 2 ^ 53 }
    ensures { result ≡ p * 2 ^ j % q }
{
    let mut rest = p;
    let mut left = j;
    while left >= 11 {
        rest = rest * 2048 % q;
        left -= 11;
    }
    (rest << left) % q
}

// Rust's x % y, with no call of C's fmod: on the significands, as whole numbers. The sign is x's, also of a zero.
pub fn remainder(x: f64, y: f64) -> f64
    ensures { result ≡ rem binary64 x y }
{
    if !is_finite(x) || y != y || y == 0.0 {
        return f64::NAN;
    }
    if !is_finite(y) {
        return x;
    }
    let above = places(x);
    let below = places(y);
    if above < below {
        return x;
    }
    let rest = remainder_of_doubled(significand(x), above - below, significand(y));
    let size = from_whole(rest) * power_of(below);
    if is_sign_positive(x) {
        return size;
    }
    -size
}

// f64::rem_euclid. Where |x| is below |y| the remainder is x itself.
pub fn rem_euclid(x: f64, y: f64) -> f64
    ensures { result ≡ rem_euclid x y }
{
    let size = abs(y);
    if abs(x) < size {
        if x < 0.0 {
            return x + size;
        }
        return x;
    }
    let r = remainder(x, y);
    if r < 0.0 {
        return r + size;
    }
    r
}

// f64::to_bits, and for a NaN one and the same pattern.
pub fn bits(x: f64) -> u64
    ensures { result ≡ to_bits binary64 x }
{
    if x != x {
        return 0x7ff8_0000_0000_0000;
    }
    f64::to_bits(x)
}

// f64::from_bits.
pub fn from_bits(b: u64) -> f64
    ensures { result ≡ from_bits binary64 b }
{
    if b % 0x8000_0000_0000_0000 > 0x7ff0_0000_0000_0000 {
        return 0.0 / 0.0;
    }
    f64::from_bits(b)
}

// The pattern's upper word without the sign: fdlibm's `ix`.
pub fn high_word(x: f64) -> u64
    ensures { result ≡ high x }
{
    bits(x) % 0x8000_0000_0000_0000 / 0x1_0000_0000
}

// The exponent's field.
pub fn exponent(x: f64) -> u64
    ensures { result ≡ field x }
{
    bits(x) % 0x8000_0000_0000_0000 / 0x10_0000_0000_0000
}

// The whole part, as Rust's `x as u64`: 0 for a NaN and below 1, u64::MAX from 2^64 on.
pub fn whole(x: f64) -> u64
    ensures { result ≡ to_unsigned 64 x }
{
    if x > -1.0 {
        if x < 18446744073709551616.0 {
            return std::num::truncating_f64_to_u64(x);
        }
        return 0xffff_ffff_ffff_ffff;
    }
    0
}

// Rust's `n as f64`. A number below 2^53 is converted by one instruction, as a signed one.
pub fn from_whole(n: u64) -> f64
    ensures { result ≡ of_int binary64 (pos n) }
{
    if n < 0x20_0000_0000_0000 {
        return (n as i64) as f64;
    }
    std::num::nearest_u64_to_f64(n)
}

// f64::is_sign_positive, also of a NaN.
pub fn is_sign_positive(x: f64) -> bool
    ensures { result ≡ nat_eq (sign x) 0 }
{
    bits(x) / 0x8000_0000_0000_0000 == 0
}

// The whole part of a, or one more where what is left is a half or more.
fn round_size(a: f64) -> f64
    ensures { result ≡ round_size a }
{
    let f = from_whole(whole(a));
    if a - f >= 0.5 {
        return f + 1.0;
    }
    f
}

// f64::round: to the nearest whole number, a half away from zero. From 2^52 on every double is whole.
pub fn round(x: f64) -> f64
    ensures { result ≡ round_away x }
{
    if x == 0.0 {
        return x;
    }
    let a = abs(x);
    if a < 4503599627370496.0 {
        let r = round_size(a);
        if x < 0.0 {
            return -r;
        }
        return r;
    }
    x
}

// Rust's `x as i64`: cut to the whole part, and at the ends of the range; 0 for a NaN.
pub fn whole_signed(x: f64) -> i64
    ensures { result ≡ to_signed 63 x }
{
    if x >= -9223372036854775808.0 {
        if x < 9223372036854775808.0 {
            return std::num::truncating_f64_to_i64(x);
        }
        return 0x7fff_ffff_ffff_ffff;
    }
    if x != x {
        return 0;
    }
    -0x7fff_ffff_ffff_ffff - 1
}
