// What one triangle adds to the mass and the energy matrix, with no slices: the holonomy, the terms at its corners, and the entries along its sides,
// flat or by the accurate integrals, with or without the holomorphic correction. specs/Terms.antt says what they are.
#![tactic(auto)]

ghost use Rattle.std.specs.Prelude.{◌≡◌, is_some};
ghost use Rattle.pass_terms.specs.Terms.{holonomy_of, mass_corner, flat_corner, correction_in, mass_scalar, mass_entry, scale_in, accurate_entry, flat_entry, energy_entry, corrected_entry, holomorphic_entry, entry_with};
ghost use Rattle.pass_terms.specs.Terms.{sides_of, parts_of, corner_in, corners_in, terms_by, terms_in};
ghost use Rattle.pass_terms.specs.Flat.{flat_entries, flat_terms_in};
ghost use Rattle.pass_terms.specs.Factors.{factors_in, FactorsOf};
ghost use Rattle.integrals.specs.Factors.{factors_of};

use complex::Complex;
use integrals::Factors;
use plane::Pair;

// The options that assembly reads: by the accurate integrals or flat, and the holomorphic weight.
#[derive(Clone, Copy)]
pub struct Mode {
    pub accurate: bool,
    pub holomorphic: f64,
}

// A value for each corner of a triangle.
#[derive(Clone, Copy)]
pub struct Corners {
    pub i: f64,
    pub j: f64,
    pub k: f64,
}

// A value for each side of a triangle, from its first corner to its second.
#[derive(Clone, Copy)]
pub struct Sides {
    pub ij: Complex,
    pub jk: Complex,
    pub ki: Complex,
}

// One side's entries in the two matrices.
#[derive(Clone, Copy)]
pub struct Entry {
    pub mass: Complex,
    pub energy: Complex,
}

// What a triangle adds to a matrix: along its sides, and at its corners. In this order, so that it is copied in the pieces in which it was stored.
#[derive(Clone, Copy)]
pub struct Part {
    pub sides: Sides,
    pub corners: Corners,
}

// What it adds to both. Where the holomorphic weight is not 0, the correction is added to the energy at each corner besides.
#[derive(Clone, Copy)]
pub struct Terms {
    pub mass: Part,
    pub energy: Part,
    pub correction: f64,
}

// The angle of the product of the transports around the triangle.
fn holonomy(z: Sides) -> f64
    ensures { result ≡ holonomy_of z }
{
    Complex::ONE.mul(z.ij).mul(z.jk).mul(z.ki).argument()
}

fn mass_corner(area: f64) -> f64
    ensures { result ≡ mass_corner area }
{
    area / 6.0
}

// The flat energy at a corner, from the side opposite to it.
fn flat_corner(area: f64, next: Pair, previous: Pair) -> f64
    ensures { result ≡ flat_corner area next previous }
{
    let side = plane::sub2(previous, next);
    plane::dot2(side, side) * float::recip(4.0 * area)
}

// The energy at the first of three corners in counter-clockwise order.
fn energy_corner(accurate: bool, omega: f64, area: f64, p: [Pair; 3]) -> f64
    ensures { result ≡ corner_in accurate omega area p }
{
    if accurate {
        return integrals::dirichlet_diagonal(omega, area, p);
    }
    flat_corner(area, p[1], p[2])
}

fn energy_corners(accurate: bool, omega: f64, area: f64, p: [Pair; 3]) -> Corners
    ensures { result ≡ corners_in accurate omega area p }
{
    Corners {
        i: energy_corner(accurate, omega, area, p),
        j: energy_corner(accurate, omega, area, [p[1], p[2], p[0]]),
        k: energy_corner(accurate, omega, area, [p[2], p[0], p[1]]),
    }
}

fn correction(holomorphic: f64, omega: f64) -> f64
    ensures { result ≡ correction_in holomorphic omega }
{
    if holomorphic == 0.0 {
        return 0.0;
    }
    -holomorphic * omega / 6.0
}

// What the accurate integrals take of the holonomy alone: none where the entries are flat.
#[tactic(auto, unfolding(crate::specs::Factors::factors_in))]
fn factors_in(accurate: bool, omega: f64) -> Option<Factors>
    ensures { result ≡ factors_in accurate omega }
{
    if accurate {
        Some(integrals::factors_of(omega))
    } else {
        None
    }
}

fn mass_scalar(omega: f64, f: Option<Factors>) -> Complex
    requires { FactorsOf omega f }
    ensures { result ≡ mass_scalar (is_some f) omega }
{
    match f {
        Some(f) => integrals::mass_by(omega, f),
        None => Complex::new(1.0 / 12.0, 0.0),
    }
}

fn mass_entry(scalar: Complex, area: f64, z: Complex) -> Complex
    ensures { result ≡ mass_entry scalar area z }
{
    z.conj().mul(scalar).scale(area)
}

// What the energy of an entry is scaled by.
fn scale_in(accurate: bool, area: f64) -> f64
    ensures { result ≡ scale_in accurate area }
{
    if accurate {
        return float::recip(area);
    }
    float::recip(4.0 * area)
}

// Along the side from p to q, whose third corner is at o.
fn accurate_entry(
    omega: f64,
    f: Factors,
    scale: f64,
    z: Complex,
    p: Pair,
    q: Pair,
    o: Pair,
) -> Complex
    requires { f ≡ factors_of omega }
    ensures { result ≡ accurate_entry omega scale z p q o }
{
    let a = plane::sub2(p, o);
    let b = plane::sub2(q, o);
    let integral = integrals::dirichlet_by(
        omega,
        f,
        plane::dot2(a, a),
        plane::dot2(a, b),
        plane::dot2(b, b),
    );
    z.conj().mul(integral).scale(scale)
}

fn flat_entry(scale: f64, z: Complex, p: Pair, q: Pair, o: Pair) -> Complex
    ensures { result ≡ flat_entry scale z p q o }
{
    let a = plane::sub2(p, o);
    let b = plane::sub2(q, o);
    z.conj().scale(-plane::dot2(a, b) * scale)
}

#[tactic(auto, unfolding(crate::specs::Terms::energy_entry))]
fn energy_entry(
    omega: f64,
    f: Option<Factors>,
    scale: f64,
    z: Complex,
    p: Pair,
    q: Pair,
    o: Pair,
) -> Complex
    requires { FactorsOf omega f }
    ensures { result ≡ energy_entry (is_some f) omega scale z p q o }
{
    match f {
        Some(f) => accurate_entry(omega, f, scale, z, p, q, o),
        None => flat_entry(scale, z, p, q, o),
    }
}

fn corrected_entry(
    h: f64,
    omega: f64,
    area: f64,
    z: Complex,
    mass: Complex,
    energy: Complex,
) -> Complex
    ensures { result ≡ corrected_entry h omega area z mass energy }
{
    let less = energy.sub(mass.scale(h * omega / area));
    less.add(Complex::new(0.0, 0.5 * h).mul(z.conj()))
}

fn holomorphic_entry(
    h: f64,
    omega: f64,
    area: f64,
    z: Complex,
    mass: Complex,
    energy: Complex,
) -> Complex
    ensures { result ≡ holomorphic_entry h omega area z mass energy }
{
    if h == 0.0 {
        return energy;
    }
    corrected_entry(h, omega, area, z, mass, energy)
}

// The entries of a side, from the scalar of the triangle's mass, the transport along the side and the energy there.
fn entry_with(h: f64, omega: f64, scalar: Complex, area: f64, z: Complex, energy: Complex) -> Entry
    ensures { result ≡ entry_with h omega scalar area z energy }
{
    let mass = mass_entry(scalar, area, z);
    Entry {
        mass,
        energy: holomorphic_entry(h, omega, area, z, mass, energy),
    }
}

fn three_sides(ij: Complex, jk: Complex, ki: Complex) -> Sides
    ensures { result ≡ sides_of ij jk ki }
{
    Sides { ij, jk, ki }
}

fn parts(mass: f64, energy: Corners, correction: f64, a: Entry, b: Entry, c: Entry) -> Terms
    ensures { result ≡ parts_of mass energy correction a b c }
{
    let masses = Corners {
        i: mass,
        j: mass,
        k: mass,
    };
    let mass_sides = three_sides(a.mass, b.mass, c.mass);
    let energy_sides = three_sides(a.energy, b.energy, c.energy);
    Terms {
        mass: Part {
            corners: masses,
            sides: mass_sides,
        },
        energy: Part {
            corners: energy,
            sides: energy_sides,
        },
        correction,
    }
}

// The entries of a side, flat and without the correction.
fn flat_entries(area: f64, scale: f64, z: Complex, p: Pair, q: Pair, o: Pair) -> Entry
    ensures { result ≡ flat_entries area scale z p q o }
{
    let mass = mass_entry(Complex::new(1.0 / 12.0, 0.0), area, z);
    Entry {
        mass,
        energy: flat_entry(scale, z, p, q, o),
    }
}

// All that a triangle adds, flat and without the correction: nothing depends on its holonomy.
// Kept: terms_by does the same, but takes 45 ns for such a triangle where this takes 14.
fn flat_terms(area: f64, z: Sides, p: [Pair; 3]) -> Terms
    ensures { result ≡ flat_terms_in area z p }
{
    let i = p[0];
    let j = p[1];
    let k = p[2];
    let scale = scale_in(false, area);
    let ij = flat_entries(area, scale, z.ij, i, j, k);
    let jk = flat_entries(area, scale, z.jk, j, k, i);
    let ki = flat_entries(area, scale, z.ki, k, i, j);
    let energy = energy_corners(false, 0.0, area, p);
    parts(mass_corner(area), energy, 0.0, ij, jk, ki)
}

// The same by its holonomy.
fn terms_by(m: Mode, omega: f64, area: f64, z: Sides, p: [Pair; 3]) -> Terms
    ensures { result ≡ terms_by m omega area z p }
{
    let f = factors_in(m.accurate, omega);
    let scalar = mass_scalar(omega, f);
    let scale = scale_in(m.accurate, area);
    let i = p[0];
    let j = p[1];
    let k = p[2];
    let ij = energy_entry(omega, f, scale, z.ij, i, j, k);
    let jk = energy_entry(omega, f, scale, z.jk, j, k, i);
    let ki = energy_entry(omega, f, scale, z.ki, k, i, j);
    let a = entry_with(m.holomorphic, omega, scalar, area, z.ij, ij);
    let b = entry_with(m.holomorphic, omega, scalar, area, z.jk, jk);
    let c = entry_with(m.holomorphic, omega, scalar, area, z.ki, ki);
    let energy = energy_corners(m.accurate, omega, area, p);
    parts(
        mass_corner(area),
        energy,
        correction(m.holomorphic, omega),
        a,
        b,
        c,
    )
}

// All that a triangle adds, from its area, the transports along its sides and the positions of its corners.
pub fn of_triangle(m: Mode, area: f64, z: Sides, p: [Pair; 3]) -> Terms
    ensures { result ≡ terms_in m area z p }
{
    if m.accurate {
        return terms_by(m, holonomy(z), area, z, p);
    }
    if m.holomorphic == 0.0 {
        return flat_terms(area, z, p);
    }
    terms_by(m, holonomy(z), area, z, p)
}
