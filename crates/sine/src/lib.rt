// fdlibm 5.3's sin and cos, with the argument reduction up to 524,288. Each function is one file or one branch of the C and
// equal to its definition in specs/, operation by operation (docs/FDLIBM.md).
#![tactic(auto)]

ghost use Rattle.std.specs.Prelude.{◌≡◌, ◌≤◌, ◌<◌, eqb, pos};
ghost use Rattle.std.specs.Float.{binary64};
ghost use Rattle.std.specs.Float.Ieee.{of_int, to_bits};
ghost use Rattle.float.specs.Double.{lit, mag, high, sign};
ghost use Rattle.sine.specs.Kernel.{kernel_sin, kernel_cos, quarter};
ghost use Rattle.sine.specs.Sine.{is_clear, less, rem_near, rem_deep, rem_medium, rem_pio2, sin_switch, sin_of, cos_of};
ghost use Rattle.sine.specs.Taken.{taken, switched, pair_switch, sin_cos_of};

const S1: f64 = -1.66666666666666324348e-01;

const S2: f64 = 8.33333333332248946124e-03;

const S3: f64 = -1.98412698298579493134e-04;

const S4: f64 = 2.75573137070700676789e-06;

const S5: f64 = -2.50507602534068634195e-08;

const S6: f64 = 1.58969099521155010221e-10;

const C1: f64 = 4.16666666666666019037e-02;

const C2: f64 = -1.38888888888741095749e-03;

const C3: f64 = 2.48015872894767294178e-05;

const C4: f64 = -2.75573143513906633035e-07;

const C5: f64 = 2.08757232129817482790e-09;

const C6: f64 = -1.13596475577881948265e-11;

const INVPIO2: f64 = 6.36619772367581382433e-01;

const PIO2_1: f64 = 1.57079632673412561417e+00;

const PIO2_1T: f64 = 6.07710050650619224932e-11;

const PIO2_2: f64 = 6.07710050630396597660e-11;

const PIO2_2T: f64 = 2.02226624879595063154e-21;

const PIO2_3: f64 = 2.02226624871116645580e-21;

const PIO2_3T: f64 = 8.47842766036889956997e-32;

// __kernel_sin(x, 0, 0).
// Kept: a function for each value of iy, since k_sin.c has two formulas, which share no more than the polynomial.
fn kernel_sin_alone(x: f64) -> f64
    ensures { result ≡ kernel_sin x (lit 0) 0 }
{
    if float::high_word(x) < 0x3e40_0000 {
        return x;
    }
    let z = x * x;
    let v = z * x;
    let r = S2 + z * (S3 + z * (S4 + z * (S5 + z * S6)));
    x + v * (S1 + z * r)
}

// __kernel_sin(x, y, 1).
fn kernel_sin(x: f64, y: f64) -> f64
    ensures { result ≡ kernel_sin x y 1 }
{
    if float::high_word(x) < 0x3e40_0000 {
        return x;
    }
    let z = x * x;
    let v = z * x;
    let r = S2 + z * (S3 + z * (S4 + z * (S5 + z * S6)));
    x - ((z * (0.5 * y - v * r) - y) - v * S1)
}

// qx of k_cos.c, for an x whose upper word is ix.
fn quarter_of(ix: u64) -> f64
    requires { 0x20_0000 ≤ ix }
    ensures { result ≡ quarter ix }
{
    if ix > 0x3fe9_0000 {
        return 0.28125;
    }
    float::from_bits((ix - 0x20_0000) * 0x1_0000_0000)
}

// __kernel_cos(x, y).
fn kernel_cos(x: f64, y: f64) -> f64
    ensures { result ≡ kernel_cos x y }
{
    let ix = float::high_word(x);
    if ix < 0x3e40_0000 {
        return 1.0;
    }
    let z = x * x;
    let r = z * (C1 + z * (C2 + z * (C3 + z * (C4 + z * (C5 + z * C6)))));
    if ix < 0x3fd3_3333 {
        return 1.0 - (0.5 * z - (z * r - x * y));
    }
    let qx = quarter_of(ix);
    let hz = 0.5 * z - qx;
    let a = 1.0 - qx;
    a - (hz - (z * r - x * y))
}

// What the reduction hands on: n & 3, y[0] and y[1].
#[derive(Clone, Copy)]
struct Reduced {
    n: u64,
    hi: f64,
    lo: f64,
}

// n < 32 && ix != npio2_hw[n-1], where f is n as a double. Each word of the table is the upper word of the product here.
fn is_clear(n: u64, f: f64, ix: u64) -> bool
    requires { f ≡ of_int binary64 (pos n) }
    ensures { result ≡ is_clear n ix }
{
    if n < 32 {
        return ix != float::high_word(f * float::FRAC_PI_2);
    }
    false
}

// r - w in two parts.
fn split(n: u64, r: f64, w: f64) -> Reduced
    ensures { result ≡ taken (less (pos n) r w) }
{
    let hi = r - w;
    Reduced {
        n: n % 4,
        hi,
        lo: r - hi - w,
    }
}

// |x| < 3pi/4. -1 & 3 is 3.
fn rem_near(x: f64, positive: bool, ix: u64) -> Reduced
    requires { positive ≡ eqb (sign x) 0 }
    ensures { result ≡ taken (rem_near x ix) }
{
    if positive {
        if ix != 0x3ff9_21fb {
            return split(1, x - PIO2_1, PIO2_1T);
        }
        return split(1, x - PIO2_1 - PIO2_2, PIO2_2T);
    }
    if ix != 0x3ff9_21fb {
        let z = x + PIO2_1;
        let hi = z + PIO2_1T;
        return Reduced {
            n: 3,
            hi,
            lo: z - hi + PIO2_1T,
        };
    }
    let z = x + PIO2_1 + PIO2_2;
    let hi = z + PIO2_2T;
    Reduced {
        n: 3,
        hi,
        lo: z - hi + PIO2_2T,
    }
}

// The second and the third iteration.
fn rem_deep(n: u64, j: u64, f: f64, t: f64) -> Reduced
    ensures { result ≡ taken (rem_deep (pos n) j f t) }
{
    let w2 = f * PIO2_2;
    let r2 = t - w2;
    let v2 = f * PIO2_2T - (t - r2 - w2);
    if float::exponent(r2 - v2) + 49 < j {
        let w3 = f * PIO2_3;
        let r3 = r2 - w3;
        return split(n, r3, f * PIO2_3T - (r2 - r3 - w3));
    }
    split(n, r2, v2)
}

// 3pi/4 <= t = |x|.
fn rem_medium(t: f64, ix: u64) -> Reduced
    ensures { result ≡ taken (rem_medium t ix) }
{
    let n = float::whole(t * INVPIO2 + 0.5);
    let f = float::from_whole(n);
    let r = t - f * PIO2_1;
    let w = f * PIO2_1T;
    if is_clear(n, f, ix) {
        return split(n, r, w);
    }
    let j = ix / 0x10_0000;
    if float::exponent(r - w) + 16 < j {
        return rem_deep(n, j, f, r);
    }
    split(n, r, w)
}

// __ieee754_rem_pio2, where t is |x| and b the pattern of x. -n & 3 is 4 less n & 3, and 0 for 0.
fn rem_pio2(x: f64, t: f64, b: u64) -> Reduced
    requires fact_1 { (t ≡ mag x) × (b ≡ to_bits binary64 x) }
    requires fact_2 { 0x3fe9_21fb < high x }
    ensures { result ≡ taken (rem_pio2 x) }
{
    let ix = b % 0x8000_0000_0000_0000 / 0x1_0000_0000;
    let positive = b / 0x8000_0000_0000_0000 == 0;
    if ix < 0x4002_d97c {
        return rem_near(x, positive, ix);
    }
    let p = rem_medium(t, ix);
    if positive {
        return p;
    }
    Reduced {
        n: (4 - p.n % 4) % 4,
        hi: -p.hi,
        lo: -p.lo,
    }
}

// sin's switch.
// Kept: n & 3 is a number and no enum, since it is negated and added to.
#[tactic(auto, unfolding(crate::specs::Sine::sin_switch))]
fn sin_switch(q: u64, hi: f64, lo: f64) -> f64
    ensures { result ≡ sin_switch q hi lo }
{
    match q {
        0 => kernel_sin(hi, lo),
        1 => kernel_cos(hi, lo),
        2 => -kernel_sin(hi, lo),
        _ => -kernel_cos(hi, lo),
    }
}

// A sine and a cosine.
#[derive(Clone, Copy)]
pub struct SinCos {
    pub sin: f64,
    pub cos: f64,
}

// Both switches, over the sine and the cosine of what the reduction leaves.
#[tactic(auto, unfolding(crate::specs::Taken::pair_switch))]
fn pair_switch(q: u64, s: f64, c: f64) -> SinCos
    ensures { result ≡ pair_switch q s c }
{
    match q {
        0 => SinCos { sin: s, cos: c },
        1 => SinCos { sin: c, cos: -s },
        2 => SinCos { sin: -s, cos: -c },
        _ => SinCos { sin: -c, cos: s },
    }
}

// What is asked of an angle.
#[derive(Clone, Copy)]
enum Asked {
    Sin,
    Cos,
    Both,
}

// The sine or the cosine in both parts, or each in its own. cos's switch is sin's, one quarter turn on. One function, so that the reduction is compiled into it.
fn switched(asked: Asked, x: f64, t: f64, b: u64) -> SinCos
    requires fact_1 { (t ≡ mag x) × (b ≡ to_bits binary64 x) }
    requires fact_2 { 0x3fe9_21fb < high x }
    ensures { result ≡ switched asked (rem_pio2 x) }
{
    let p = rem_pio2(x, t, b);
    let quarter = match asked {
        Asked::Sin => p.n,
        Asked::Cos => (p.n % 4 + 1) % 4,
        Asked::Both => return pair_switch(p.n, kernel_sin(p.hi, p.lo), kernel_cos(p.hi, p.lo)),
    };
    let r = sin_switch(quarter, p.hi, p.lo);
    SinCos { sin: r, cos: r }
}

// The sine, and NaN for infinities, NaN and |x| above 524,288.
pub fn sin(x: f64) -> f64
    ensures { result ≡ sin_of x }
{
    let b = float::bits(x);
    if b % 0x8000_0000_0000_0000 / 0x1_0000_0000 <= 0x3fe9_21fb {
        return kernel_sin_alone(x);
    }
    let t = float::abs(x);
    if t <= 524288.0 {
        return switched(Asked::Sin, x, t, b).sin;
    }
    0.0 / 0.0
}

// The cosine, likewise.
pub fn cos(x: f64) -> f64
    ensures { result ≡ cos_of x }
{
    let b = float::bits(x);
    if b % 0x8000_0000_0000_0000 / 0x1_0000_0000 <= 0x3fe9_21fb {
        return kernel_cos(x, 0.0);
    }
    let t = float::abs(x);
    if t <= 524288.0 {
        return switched(Asked::Cos, x, t, b).cos;
    }
    0.0 / 0.0
}

// The sine and the cosine of one angle, by one reduction.
pub fn sin_cos(x: f64) -> SinCos
    ensures { result ≡ sin_cos_of x }
{
    let b = float::bits(x);
    if b % 0x8000_0000_0000_0000 / 0x1_0000_0000 <= 0x3fe9_21fb {
        return SinCos {
            sin: kernel_sin_alone(x),
            cos: kernel_cos(x, 0.0),
        };
    }
    let t = float::abs(x);
    if t <= 524288.0 {
        return switched(Asked::Both, x, t, b);
    }
    SinCos {
        sin: 0.0 / 0.0,
        cos: 0.0 / 0.0,
    }
}
