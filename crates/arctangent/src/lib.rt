// fdlibm 5.3's atan and atan2. Each function is one part of the C and equal to its definition in specs/, operation by
// operation (docs/FDLIBM.md).
#![tactic(auto)]

ghost use Rattle.std.specs.Prelude.{◌≡◌, ◌+◌, ◌*◌};
ghost use Rattle.arctangent.specs.Arc.{is_nan, is_zero, is_one, atan_tail, atan_near, atan_size, atan_of, quadrant, switch, atan_ratio, in_quadrant, at_infinity, upright, atan2_of};

const ATANHI0: f64 = 4.63647609000806093515e-01;

const ATANHI1: f64 = 7.85398163397448278999e-01;

const ATANHI2: f64 = 9.82793723247329054082e-01;

const ATANHI3: f64 = 1.57079632679489655800e+00;

const ATANLO0: f64 = 2.26987774529616870924e-17;

const ATANLO1: f64 = 3.06161699786838301793e-17;

const ATANLO2: f64 = 1.39033110312309984516e-17;

const ATANLO3: f64 = 6.12323399573676603587e-17;

const AT0: f64 = 3.33333333333329318027e-01;

const AT1: f64 = -1.99999999998764832476e-01;

const AT2: f64 = 1.42857142725034663711e-01;

const AT3: f64 = -1.11111104054623557880e-01;

const AT4: f64 = 9.09088713343650656196e-02;

const AT5: f64 = -7.69187620504482999495e-02;

const AT6: f64 = 6.66107313738753120669e-02;

const AT7: f64 = -5.83357013379057348645e-02;

const AT8: f64 = 4.97687799461593236017e-02;

const AT9: f64 = -3.65315727442169155270e-02;

const AT10: f64 = 1.62858201153657823623e-02;

const PI_O_4: f64 = 7.8539816339744827900E-01;

const PI_O_2: f64 = 1.5707963267948965580E+00;

const PI: f64 = 3.1415926535897931160E+00;

const PI_LO: f64 = 1.2246467991473531772E-16;

const TINY: f64 = 1.0e-300;

// x * (s1 + s2).
fn atan_tail(x: f64) -> f64
    ensures { result ≡ atan_tail x }
{
    let z = x * x;
    let w = z * z;
    let s1 = z * (AT0 + w * (AT2 + w * (AT4 + w * (AT6 + w * (AT8 + w * AT10)))));
    let s2 = w * (AT1 + w * (AT3 + w * (AT5 + w * (AT7 + w * AT9))));
    x * (s1 + s2)
}

// atanhi[id] - ((x * (s1 + s2) - atanlo[id]) - x).
fn atan_near(hi: f64, lo: f64, x: f64) -> f64
    ensures { result ≡ atan_near hi lo x }
{
    hi - (atan_tail(x) - lo - x)
}

// The arc of an x from 7/16 up.
fn atan_size(x: f64, ix: u64) -> f64
    ensures { result ≡ atan_size x ix }
{
    if ix < 0x3fe6_0000 {
        return atan_near(ATANHI0, ATANLO0, (2.0 * x - 1.0) / (2.0 + x));
    }
    if ix < 0x3ff3_0000 {
        return atan_near(ATANHI1, ATANLO1, (x - 1.0) / (x + 1.0));
    }
    if ix < 0x4003_8000 {
        return atan_near(ATANHI2, ATANLO2, (x - 1.5) / (1.0 + 1.5 * x));
    }
    atan_near(ATANHI3, ATANLO3, -1.0 / x)
}

// (ix | ((lx | -lx) >> 31)) > 0x7ff00000
fn is_nan(x: f64) -> bool
    ensures { result ≡ is_nan x }
{
    float::bits(x) % 0x8000_0000_0000_0000 > 0x7ff0_0000_0000_0000
}

// (ix | lx) == 0
fn is_zero(x: f64) -> bool
    ensures { result ≡ is_zero x }
{
    float::bits(x) % 0x8000_0000_0000_0000 == 0
}

// ((hx - 0x3ff00000) | lx) == 0
fn is_one(x: f64) -> bool
    ensures { result ≡ is_one x }
{
    float::bits(x) == 0x3ff0_0000_0000_0000
}

// The arctangent.
pub fn atan(x: f64) -> f64
    ensures { result ≡ atan_of x }
{
    let ix = float::high_word(x);
    if ix >= 0x4410_0000 {
        if is_nan(x) {
            return x + x;
        }
        if float::is_sign_positive(x) {
            return ATANHI3 + ATANLO3;
        }
        return -ATANHI3 - ATANLO3;
    }
    if ix < 0x3fdc_0000 {
        if ix < 0x3e20_0000 {
            return x;
        }
        return x - atan_tail(x);
    }
    let z = atan_size(float::abs(x), ix);
    if float::is_sign_positive(x) {
        return z;
    }
    -z
}

// m: the sign of y, and twice that of x.
// Kept: m is a number and no enum, since the C's m is what the definition says, and switch_of chooses by it.
fn quadrant_of(y: f64, x: f64) -> u64
    ensures { result ≡ quadrant y x }
{
    float::bits(y) / 0x8000_0000_0000_0000 + 2 * (float::bits(x) / 0x8000_0000_0000_0000)
}

fn switch_of(m: u64, a: f64, b: f64, c: f64, d: f64) -> f64
    ensures { result ≡ switch m a b c d }
{
    match m {
        0 => a,
        1 => b,
        2 => c,
        _ => d,
    }
}

// z: the arc of |y / x|. k > 60 is ix + 61 * 2^20 <= iy, and k < -60 is iy + 60 * 2^20 < ix.
fn atan_ratio(y: f64, x: f64) -> f64
    ensures { result ≡ atan_ratio y x }
{
    let ix = float::high_word(x);
    let iy = float::high_word(y);
    if ix + 0x3d0_0000 <= iy {
        return PI_O_2 + 0.5 * PI_LO;
    }
    if iy + 0x3c0_0000 < ix {
        if float::is_sign_positive(x) {
            return atan(float::abs(y / x));
        }
        return 0.0;
    }
    atan(float::abs(y / x))
}

// The last switch. Turning the sign's bit of z is -z.
fn in_quadrant(m: u64, z: f64) -> f64
    ensures { result ≡ in_quadrant m z }
{
    switch_of(m, z, -z, PI - (z - PI_LO), z - PI_LO - PI)
}

fn at_infinity(m: u64, iy: u64) -> f64
    ensures { result ≡ at_infinity m iy }
{
    if iy == 0x7ff0_0000 {
        return switch_of(
            m,
            PI_O_4 + TINY,
            -PI_O_4 - TINY,
            3.0 * PI_O_4 + TINY,
            -3.0 * PI_O_4 - TINY,
        );
    }
    switch_of(m, 0.0, -1.0 * 0.0, PI + TINY, -PI - TINY)
}

fn upright_of(y: f64) -> f64
    ensures { result ≡ upright y }
{
    if float::is_sign_positive(y) {
        return PI_O_2 + TINY;
    }
    -PI_O_2 - TINY
}

// The arc of the point (x, y), from -pi to pi.
pub fn atan2(y: f64, x: f64) -> f64
    ensures { result ≡ atan2_of y x }
{
    if is_nan(x) || is_nan(y) {
        return x + y;
    }
    if is_one(x) {
        return atan(y);
    }
    let m = quadrant_of(y, x);
    if is_zero(y) {
        return switch_of(m, y, y, PI + TINY, -PI - TINY);
    }
    if is_zero(x) {
        return upright_of(y);
    }
    let iy = float::high_word(y);
    if float::high_word(x) == 0x7ff0_0000 {
        return at_infinity(m, iy);
    }
    if iy == 0x7ff0_0000 {
        return upright_of(y);
    }
    in_quadrant(m, atan_ratio(y, x))
}
