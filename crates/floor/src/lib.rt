// What is wrong with a floor, by document 01's table: rows 1 and 3 to 8, tested in table order, the lowest index first.
#![tactic(auto)]

ghost use Rattle.std.specs.Prelude.{◌≡◌, ◌+◌, ◌*◌, ◌/◌, ◌≤◌, length, get_or};
ghost use Rattle.std.specs.Float.{nan};
ghost use Rattle.floor.specs.Checks.{found_below, well_formed, bad_point, bad_size, bad_corner, not_finite_or_below_zero, check_floor};

use refusals::{Refusal, refused};

// The most that row 1 lets through.
pub const MOST_POINTS: usize = 16384;

pub const MOST_TRIANGLES: usize = 32768;

// The number at i, and a NaN past the end.
pub fn read(s: &[f64], i: usize) -> f64
    ensures { result ≡ get_or s.now i nan }
{
    if i < s.len() {
        return s[i];
    }
    0.0 / 0.0
}

// Row 1, of the lengths of the point and the triangle slice.
pub fn well_formed(numbers: usize, corners: usize) -> bool
    ensures { result ≡ well_formed numbers corners }
{
    if numbers % 3 != 0 {
        return false;
    }
    if corners % 3 != 0 {
        return false;
    }
    numbers / 3 <= MOST_POINTS && corners / 3 <= MOST_TRIANGLES
}

// Rows 12, 13 and 14.
pub fn not_finite_or_below_zero(x: f64) -> bool
    ensures { result ≡ not_finite_or_below_zero x }
{
    !float::is_finite(x) || x < 0.0
}

fn bad_point(points: &[f64], i: usize) -> bool
    requires { 3 * i + 1 ≤ length points.now }
    ensures { result ≡ bad_point points.now i }
{
    !float::is_finite(read(points, 3 * i)) || !float::is_finite(read(points, 3 * i + 1))
}

fn bad_size(sizes: &[f64], i: usize) -> bool
    ensures { result ≡ bad_size sizes.now i }
{
    float::not_positive(read(sizes, i))
}

fn bad_corner(triangles: &[u32], n: usize, i: usize) -> bool
    requires { 3 * i + 3 ≤ length triangles.now }
    ensures { result ≡ bad_corner triangles.now n i }
{
    let c = mesh::corners(triangles, 3 * i);
    if n <= mesh::index(c.a) {
        return true;
    }
    n <= mesh::index(c.b) || n <= mesh::index(c.c)
}

// Row 6: the lowest point that is not finite.
pub fn first_bad_point(points: &[f64], n: usize) -> Option<usize>
    requires { 3 * n ≤ length points.now }
    ensures { result ≡ found_below (bad_point points.now) n }
{
    (0..n).find(|&i| bad_point(points, i))
}

// Row 7: the lowest size that is not finite and positive.
pub fn first_bad_size(sizes: &[f64]) -> Option<usize>
    ensures { result ≡ found_below (bad_size sizes.now) (length sizes.now) }
{
    (0..sizes.len()).find(|&i| bad_size(sizes, i))
}

// Row 8: the lowest triangle with a corner at or above n, among the first t.
pub fn first_bad_corner(triangles: &[u32], t: usize, n: usize) -> Option<usize>
    requires { 3 * t ≤ length triangles.now }
    ensures { result ≡ found_below (bad_corner triangles.now n) t }
{
    (0..t).find(|&i| bad_corner(triangles, n, i))
}

// Rows 3 to 8.
pub fn check_floor(points: &[f64], triangles: &[u32], sizes: &[f64]) -> Result<(), Refusal>
    ensures { result ≡ check_floor points.now triangles.now sizes.now }
{
    let n = points.len() / 3;
    let t = triangles.len() / 3;
    if n == 0 {
        return Err(refused(3, 0));
    }
    if t == 0 {
        return Err(refused(4, 0));
    }
    if sizes.len() != n {
        return Err(refused(5, 0));
    }
    if let Some(i) = first_bad_point(points, n) {
        return Err(refused(6, i));
    }
    if let Some(i) = first_bad_size(sizes) {
        return Err(refused(7, i));
    }
    if let Some(i) = first_bad_corner(triangles, t, n) {
        return Err(refused(8, i));
    }
    Ok(())
}
