// The IEEE square root of a double, by whole-number arithmetic: total, and equal to `root_of` of specs/Root.antt, which is the nearest double (specs/Nearest.antt).
#![tactic(auto)]

ghost use Rattle.std.specs.Prelude.{◌≡◌, ◌+◌, ◌*◌, ◌/◌, ◌%◌, ◌^◌, ◌<◌, ◌≤◌, true};
ghost use Rattle.std.specs.Float.Ieee.{lt};
ghost use Rattle.float.specs.Double.{lit, is_finite};
ghost use Rattle.root.specs.Root as Root;
ghost use Rattle.root.specs.Root.{root_in, root_at, root_bits, root_of, Settled};
ghost use Rattle.root.specs.Nearest.{Nearest};

// The whole part of the root of d0 * 2^44, which has 54 digits: q so far, with what is left over, r, and the digits to come, d.
pub fn root_digits(d0: u64) -> u64
    ensures { (result ≡ root_in 54 (d0 * 2 ^ 44)) × (result < 2 ^ 54) }
{
    let mut q: u64 = 0;
    let mut r: u64 = 0;
    let mut d: u64 = d0;
    for _i in 0..54u64 {
        let t = r * 4 + d / 0x4000_0000_0000_0000;
        let s = q * 4 + 1;
        if s <= t {
            r = t - s;
            q = q * 2 + 1;
        } else {
            r = t;
            q = q * 2;
        }
        d = d % 0x4000_0000_0000_0000 * 4;
    }
    q
}

fn aligned(c: u64, x: u64) -> u64
    requires { c < 2 ^ 53 }
    ensures { (result ≡ Root.aligned c x) × (result % 1024 ≡ 0) }
{
    if x % 2 == 0 {
        return c * 1024;
    }
    c * 2048
}

// A guess at the whole number nearest to the root of m * 2^52, for the m of 53 or 54 digits that f is: 1 / √m by Newton's
// method, from a first guess by the bit pattern, times m; then the digits of that root. Nothing is proved of it: settled tests it.
fn guess(f: f64) -> u64 {
    let h = f * 0.5;
    let y0 = float::from_bits(std::num::wrapping_sub_u64(
        0x5fe6_eb50_c7b5_37a9,
        float::bits(f) / 2,
    ));
    let y1 = y0 * (1.5 - h * y0 * y0);
    let y2 = y1 * (1.5 - h * y1 * y1);
    let y3 = y2 * (1.5 - h * y2 * y2);
    let s = f * y3;
    let t = s + 0.5 * y3 * (f - s * s);
    std::num::wrapping_sub_u64(float::bits(t), 0x4180_0000_0000_0000)
}

// The one of r, r + 1 and r - 1 that is nearest to the root of m * 2^52, where one is found to be. With r = a * 2^27 + b,
// m * 2^52 is r * r + d * 2^52 - (ab * 2^28 + b * b), so that r and its neighbours are judged by one square.
fn settled(m: u64, r: u64) -> Option<u64>
    requires { (0 < r) × (r < 2 ^ 53) }
    ensures { Settled m result }
{
    let a = r / 0x800_0000;
    let b = r % 0x800_0000;
    let aa = a * a * 4;
    if m < aa {
        return None;
    }
    let d = m - aa;
    if d >= 0x10_0000_0000 {
        return None;
    }
    let e = d * 0x100_0000;
    let ab = a * b;
    let bb = b * b;
    if e <= ab + (bb + r) / 0x1000_0000 {
        if ab + (bb + 0x40_0000_0000_0000 - r) / 0x1000_0000 < e + 0x400_0000 {
            return Some(r);
        }
        if ab + (bb + 0x100_0000_0000_0002 - 3 * r) / 0x1000_0000 < e + 0x1000_0000 {
            return Some(r - 1);
        }
        return None;
    }
    if e <= ab + (bb + 3 * r + 2) / 0x1000_0000 {
        return Some(r + 1);
    }
    None
}

// The whole number nearest to the root of d * 2^42, for a d that ends in ten zeros; f is d / 1024, and the guess is by it.
fn root_nearest(d: u64, f: f64) -> u64
    requires { d % 1024 ≡ 0 }
    ensures { (result ≡ (root_in 54 (d * 2 ^ 44) + 1) / 2) × (result < 2 ^ 54) }
{
    let r = guess(f);
    if r > 0 && r < 0x20_0000_0000_0000 {
        if let Some(q) = settled(d / 1024, r) {
            return q;
        }
    }
    (root_digits(d) + 1) / 2
}

// The pattern of the root of c * 2^(x - 2150). The guess is by c or 2c as a double.
fn root_at(c: u64, x: u64) -> u64
    requires { (c < 2 ^ 53) × (54 ≤ x) × (x < 6000) }
    ensures { result ≡ root_at c x }
{
    let f = float::from_bits(0x4320_0000_0000_0000 + x % 2 * 0x10_0000_0000_0000 + c);
    let r = root_nearest(aligned(c, x), f);
    (x / 2 - 27) * 0x10_0000_0000_0000 + r
}

// The pattern of the root of a subnormal, which is doubled until it has 53 digits.
fn root_small(b: u64) -> u64
    requires { (0 < b) × (b < 2 ^ 52) }
    ensures { result ≡ root_bits b }
{
    let mut c: u64 = b;
    let mut x: u64 = 1076;
    while c < 0x10_0000_0000_0000 {
        c *= 2;
        x -= 1;
    }
    root_at(c, x)
}

fn root_bits(b: u64) -> u64
    requires { 0 < b }
    ensures { result ≡ root_bits b }
{
    if b < 0x10_0000_0000_0000 {
        return root_small(b);
    }
    root_at(
        b % 0x10_0000_0000_0000 + 0x10_0000_0000_0000,
        b / 0x10_0000_0000_0000 + 1075,
    )
}

// f64::sqrt; of a positive finite double it is the nearest double to the root.
pub fn sqrt(x: f64) -> f64
    ensures value { result ≡ root_of x }
    ensures nearest { lt (lit 0) x ≡ true → is_finite x ≡ true → Nearest x result }
{
    if x != x {
        return x;
    }
    if x == 0.0 {
        return x;
    }
    if x < 0.0 {
        return 0.0 / 0.0;
    }
    let b = float::bits(x);
    if b >= 0x7ff0_0000_0000_0000 {
        return x;
    }
    float::from_bits(root_bits(b))
}
