// The geometry of one triangle and one edge of a pass: corners put counter-clockwise, area, size gradient, transport
// along an edge; and the weight of an anisotropic metric. Positions are pairs x, y: no z is ever read.
#![tactic(auto)]

ghost use Rattle.std.specs.Prelude.{◌≡◌};
ghost use Rattle.refusals.specs.Refusal.{row_at, between};
ghost use Rattle.geometry.specs.Triangle.{side2, longest_of, placed_of, geometry_of, hat_gradient, gradient_of};
ghost use Rattle.geometry.specs.Edge.{transport_angle, transport_of, alignment_weight};

use complex::Complex;
use plane::Pair;
use refusals::Refusal;

// A triangle whose corners i, j, k at p, q, r turn counter-clockwise.
#[derive(Clone, Copy)]
pub struct TriangleGeometry {
    pub i: usize,
    pub j: usize,
    pub k: usize,
    pub p: Pair,
    pub q: Pair,
    pub r: Pair,
    pub area: f64,
}

// Refusal 19, with the triangle's number.
#[derive(Clone, Copy, Debug, PartialEq, Eq)]
pub struct Degenerate {
    pub triangle: usize,
}

impl From<Degenerate> for Refusal {
    ghost from_gives = { λ e r. r ≡ row_at 19 e.triangle };

    fn from(e: Degenerate) -> Refusal {
        refusals::refused(19, e.triangle)
    }
}

fn squared_side(from: Pair, to: Pair) -> f64
    ensures { result ≡ side2 from to }
{
    let s = plane::sub2(to, from);
    plane::dot2(s, s)
}

// The longest squared side.
fn longest_squared_side(positions: [Pair; 3]) -> f64
    ensures { result ≡ longest_of positions }
{
    let a = positions[0];
    let b = positions[1];
    let c = positions[2];
    float::max(
        float::max(squared_side(a, b), squared_side(b, c)),
        squared_side(c, a),
    )
}

// Refusal 19, or the triangle in the order given.
fn judge(
    vertices: [usize; 3],
    positions: [Pair; 3],
    area: f64,
    index: usize,
) -> Result<TriangleGeometry, Degenerate>
    ensures { result ≡ placed_of vertices positions area index }
{
    let longest = longest_squared_side(positions);
    if !float::is_finite(area) || area <= 1e-14 * longest {
        return Err(Degenerate { triangle: index });
    }
    Ok(TriangleGeometry {
        i: vertices[0],
        j: vertices[1],
        k: vertices[2],
        p: positions[0],
        q: positions[1],
        r: positions[2],
        area,
    })
}

// Triangle `index`: where its area is negative, corners 1 and 2 are exchanged together with their positions.
pub fn triangle_geometry(
    vertices: [usize; 3],
    positions: [Pair; 3],
    index: usize,
) -> Result<TriangleGeometry, Degenerate>
    ensures { result ≡ geometry_of vertices positions index }
{
    let twice = plane::twice_signed_area(positions);
    let area = 0.5 * float::abs(twice);
    if twice < 0.0 {
        return judge(
            [vertices[0], vertices[2], vertices[1]],
            [positions[0], positions[2], positions[1]],
            area,
            index,
        );
    }
    judge(vertices, positions, area, index)
}

// The gradient of the function that is 1 at a corner and 0 along the side that goes from `from` to `to`.
fn hat_gradient(from: Pair, to: Pair, inverse: f64) -> Pair
    ensures { result ≡ hat_gradient from to inverse }
{
    plane::scale2(plane::rotate_90(plane::sub2(to, from)), inverse)
}

// The gradient of the linear interpolation of sigma over a counter-clockwise triangle.
pub fn triangle_gradient(positions: [Pair; 3], sigma: [f64; 3], area: f64) -> Pair
    ensures { result ≡ gradient_of positions sigma area }
{
    let inverse_two_area = float::recip(2.0 * area);
    let g0 = hat_gradient(positions[1], positions[2], inverse_two_area);
    let g1 = hat_gradient(positions[2], positions[0], inverse_two_area);
    let g2 = hat_gradient(positions[0], positions[1], inverse_two_area);
    Pair {
        x: sigma[0] * g0.x + sigma[1] * g1.x + sigma[2] * g2.x,
        y: sigma[0] * g0.y + sigma[1] * g1.y + sigma[2] * g2.y,
    }
}

// One end of an edge: its vertex, position, size and size gradient.
#[derive(Clone, Copy)]
pub struct End {
    pub vertex: usize,
    pub position: Pair,
    pub size: f64,
    pub gradient: Pair,
}

// Refusal 22, with the edge's lower and upper end.
#[derive(Clone, Copy, Debug, PartialEq, Eq)]
pub struct MeanSize {
    pub from: usize,
    pub to: usize,
}

impl From<MeanSize> for Refusal {
    ghost from_gives = { λ e r. r ≡ between e.from e.to };

    fn from(e: MeanSize) -> Refusal {
        refusals::between(e.from, e.to)
    }
}

// The angle by which the frame turns from a to b where the edge's mean size is sigma.
fn transport_angle(a: End, b: End, sigma: f64) -> f64
    ensures { result ≡ transport_angle a b sigma }
{
    let ga = a.gradient;
    let gb = b.gradient;
    let gx = 0.5 * (ga.x + gb.x);
    let gy = 0.5 * (ga.y + gb.y);
    let s = plane::sub2(b.position, a.position);
    let dvx = (gx * s.x + gy * s.y) / sigma;
    let dvy = (gy * s.x - gx * s.y) / sigma;
    arctangent::atan2(dvy, 1.0 + dvx)
}

// The transport coefficient of the edge from its lower end a to its upper end b.
pub fn transport_coefficient(a: End, b: End) -> Result<Complex, MeanSize>
    ensures { result ≡ transport_of a b }
{
    let sigma = 0.5 * (a.size + b.size);
    if !float::is_finite(sigma) || sigma <= 0.0 {
        return Err(MeanSize {
            from: a.vertex,
            to: b.vertex,
        });
    }
    let rho = -complex::FIELD_SYMMETRY * transport_angle(a, b, sigma);
    Ok(Complex::from_angle(rho))
}

// The soft weight of an anisotropic metric of the ratio `anisotropy`: exactly 0 at ratio 1.
pub fn anisotropy_alignment_weight(anisotropy: f64) -> f64
    ensures { result ≡ alignment_weight anisotropy }
{
    if anisotropy == 1.0 {
        return 0.0;
    }
    let measure = anisotropy + float::recip(anisotropy) - 2.0;
    measure * measure
}
