// Rows of numbers: the arguments of one call, then what the reference answered.
ghost use Rattle.std.specs.Prelude.{◌≡◌, ◌<◌};
ghost use Rattle.replay_scalars.specs.Numbers.{same_complex, same_pair, same_triangle, same_geometry, same_transport, pair_at};
ghost use Rattle.replay_scalars.specs.Numbers.{mass_row, dirichlet_row, diagonal_row, cross_row, wrap_row, weight_row, triangle_row, transport_row};

use complex::Complex;
use geometry::{Degenerate, End, MeanSize, TriangleGeometry};
use plane::Pair;
use replay::rows::{double, same};

fn same_complex(answer: Complex, re: f64, im: f64) -> bool
    ensures { result ≡ same_complex answer re im }
{
    same(answer.re, re) && same(answer.im, im)
}

fn same_pair(answer: Pair, x: f64, y: f64) -> bool
    ensures { result ≡ same_pair answer x y }
{
    same(answer.x, x) && same(answer.y, y)
}

fn pair(row: &[u8], k: usize) -> Pair
    requires { k < 63 }
    ensures { result ≡ pair_at row.now k }
{
    Pair {
        x: double(row, k),
        y: double(row, k + 1),
    }
}

// omega; re, im
pub fn mass(row: &[u8]) -> bool
    ensures { result ≡ mass_row row.now }
{
    let answer = integrals::mass_integral(double(row, 0));
    same_complex(answer, double(row, 1), double(row, 2))
}

// omega, g11, g12, g22; re, im
pub fn dirichlet(row: &[u8]) -> bool
    ensures { result ≡ dirichlet_row row.now }
{
    let g11 = double(row, 1);
    let g12 = double(row, 2);
    let g22 = double(row, 3);
    let answer = integrals::dirichlet_integral(double(row, 0), g11, g12, g22);
    same_complex(answer, double(row, 4), double(row, 5))
}

// omega, area, three positions; the entry
pub fn diagonal(row: &[u8]) -> bool
    ensures { result ≡ diagonal_row row.now }
{
    let positions = [pair(row, 2), pair(row, 4), pair(row, 6)];
    let answer = integrals::dirichlet_diagonal(double(row, 0), double(row, 1), positions);
    same(answer, double(row, 8))
}

// re, im; the angle
pub fn cross(row: &[u8]) -> bool
    ensures { result ≡ cross_row row.now }
{
    let value = Complex {
        re: double(row, 0),
        im: double(row, 1),
    };
    same(complex::cross_angle(value), double(row, 2))
}

// the angle; the angle wrapped
pub fn wrap(row: &[u8]) -> bool
    ensures { result ≡ wrap_row row.now }
{
    same(complex::wrap_to_pi(double(row, 0)), double(row, 1))
}

// the ratio; the weight
pub fn weight(row: &[u8]) -> bool
    ensures { result ≡ weight_row row.now }
{
    same(
        geometry::anisotropy_alignment_weight(double(row, 0)),
        double(row, 1),
    )
}

// Whether the area and the gradient for these sizes are those recorded.
fn same_triangle(row: &[u8], g: TriangleGeometry, sigma: [f64; 3]) -> bool
    ensures { result ≡ same_triangle row.now g sigma }
{
    let p = g.p;
    let q = g.q;
    let r = g.r;
    let gradient = geometry::triangle_gradient([p, q, r], sigma, g.area);
    same(g.area, double(row, 11)) && same_pair(gradient, double(row, 12), double(row, 13))
}

// 0, the second corner, the area and the gradient, or 19
fn same_geometry(row: &[u8], answer: Result<TriangleGeometry, Degenerate>, sigma: [f64; 3]) -> bool
    ensures { result ≡ same_geometry row.now sigma answer }
{
    let number = replay::word(row, 9);
    let second = replay::word(row, 10);
    match answer {
        Ok(g) => number == 0 && g.j as u64 == second && same_triangle(row, g, sigma),
        Err(_) => number == 19,
    }
}

// three positions, three sizes; what is found
pub fn triangle(row: &[u8]) -> bool
    ensures { result ≡ triangle_row row.now }
{
    let positions = [pair(row, 0), pair(row, 2), pair(row, 4)];
    let sigma = [double(row, 6), double(row, 7), double(row, 8)];
    let answer = geometry::triangle_geometry([0, 1, 2], positions, 0);
    same_geometry(row, answer, sigma)
}

// 0 and re, im, or 22
fn same_transport(row: &[u8], answer: Result<Complex, MeanSize>) -> bool
    ensures { result ≡ same_transport row.now answer }
{
    let number = replay::word(row, 10);
    match answer {
        Ok(z) => number == 0 && same_complex(z, double(row, 11), double(row, 12)),
        Err(_) => number == 22,
    }
}

// two positions, two sizes, two gradients; what is found
pub fn transport(row: &[u8]) -> bool
    ensures { result ≡ transport_row row.now }
{
    let a = End {
        vertex: 0,
        position: pair(row, 0),
        size: double(row, 4),
        gradient: pair(row, 6),
    };
    let b = End {
        vertex: 1,
        position: pair(row, 2),
        size: double(row, 5),
        gradient: pair(row, 8),
    };
    same_transport(row, geometry::transport_coefficient(a, b))
}
