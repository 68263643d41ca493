// One lent slice as regions of reals and of complex numbers. A complex vector of n cells at `base` is split:
// its n real parts, and then its n imaginary parts. Loads and stores of one cell, and what fills, copies and zeroes. A lent slice of numbers has regions too.
#![tactic(auto)]

ghost use Rattle.std.specs.Prelude.{◌≡◌, ◌+◌, ◌^◌, ◌<◌, ◌≤◌, length, get_or, set, replicate};
ghost use Rattle.std.specs.Float.{nan};
ghost use Rattle.float.specs.Double.{lit};
ghost use Rattle.linear_cells.specs.Region.{region, put, Apart};
ghost use Rattle.linear_cells.specs.Cell.{get_c, set_c};

use complex::Complex;

// Element i of the region at `base`. The part of the slice that begins there is taken first, and then indexed: so the sum of
// both is left to the processor's address, where a loop keeps the base and loads i.
fn element<T: Copy>(slice: &[T], base: usize, i: usize) -> T
    requires { base + i < length slice.now }
    ensures { (d : T) → result ≡ get_or slice.now (base + i) d }
{
    let part = &slice[base..];
    part[i]
}

fn set_element<T: Copy>(slice: &mut [T], base: usize, i: usize, value: T)
    requires { base + i < length slice.old }
    ensures { slice.new ≡ set slice.old (base + i) value }
{
    let part = &mut slice[base..];
    part[i] = value;
}

// Real i of the region at `base`.
pub fn load_real(work: &[f64], base: usize, i: usize) -> f64
    requires { base + i < length work.now }
    ensures { result ≡ get_or work.now (base + i) nan }
{
    element(work, base, i)
}

pub fn store_real(work: &mut [f64], base: usize, i: usize, value: f64)
    requires { base + i < length work.old }
    ensures { work.new ≡ set work.old (base + i) value }
{
    set_element(work, base, i, value);
}

// Cell i of the vector of n cells at `base`.
pub fn load(work: &[f64], base: usize, n: usize, i: usize) -> Complex
    requires { (i < n) × (base + n + i < length work.now) }
    ensures { result ≡ get_c work.now base n i }
{
    Complex {
        re: load_real(work, base, i),
        im: load_real(work, base + n, i),
    }
}

pub fn store(work: &mut [f64], base: usize, n: usize, i: usize, z: Complex)
    requires { (i < n) × (base + n + i < length work.old) }
    ensures { work.new ≡ set_c work.old base n i z }
{
    store_real(work, base, i, z.re);
    store_real(work, base + n, i, z.im);
}

// A number as an index.
pub fn wide(x: u32) -> usize
    ensures { result ≡ x }
{
    x as usize
}

// Number i of the region at `base`.
pub fn load_number(numbers: &[u32], base: usize, i: usize) -> usize
    requires { base + i < length numbers.now }
    ensures { result ≡ get_or numbers.now (base + i) 0 }
{
    wide(element(numbers, base, i))
}

pub fn store_number(numbers: &mut [u32], base: usize, i: usize, value: usize)
    requires { (base + i < length numbers.old) × (value < 2 ^ 32) }
    ensures { numbers.new ≡ set numbers.old (base + i) value }
{
    set_element(numbers, base, i, value as u32);
}

// `value` n times from `base`.
pub fn fill(work: &mut [f64], base: usize, n: usize, value: f64)
    requires { base + n ≤ length work.old }
    ensures { work.new ≡ put work.old base (replicate n value) }
{
    work[base..base + n].fill(value);
}

// The n elements at `from`, to `to`. A complex vector is copied as its 2 n doubles.
pub fn copy(work: &mut [f64], to: usize, from: usize, n: usize)
    requires { (to + n ≤ length work.old) × (from + n ≤ length work.old) × Apart to n from n }
    ensures { work.new ≡ put work.old to (region nan work.old from n) }
{
    work.copy_within(from..from + n, to);
}
