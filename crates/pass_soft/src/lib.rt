// The soft terms of a pass, guidance and alignment, in regions of one lent slice: their targets, and what each adds to the linear system.
#![tactic(auto)]

ghost use Rattle.std.specs.Prelude.{◌≡◌, ◌+◌, ◌*◌, ◌<◌, ◌≤◌, length, get_or, replicate};
ghost use Rattle.std.specs.Float.{nan};
ghost use Rattle.linear_cells.specs.Region.{region};
ghost use Rattle.linear_cells.specs.Cell.{set_c, region_c, put_c};
ghost use Rattle.linear_hermitian.specs.Work.{Graph};
ghost use Rattle.complex.specs.Guidance.{fourfold};
ghost use Rattle.pass_soft.specs.Soft.{guided_targets, aligned_targets, term_of};
ghost use Rattle.pass_soft.specs.Work.{GuideRoom, SoftRoom, guided_in, aligned_in, terms_in, Softens};

use complex::Complex;
use linear_cells::{load_real, store};
use linear_conjugate_gradient::Vectors;
use linear_hermitian::Hermitian;

fn target_at(angle: f64) -> Complex
    ensures { result ≡ fourfold angle }
{
    Complex::from_angle(complex::FIELD_SYMMETRY * angle)
}

fn guide_at(work: &mut [f64], guidance: usize, target: usize, n: usize, i: usize)
    requires { (i < n) × (target + n + i < length work.old) × (guidance + i < length work.old) }
    ensures { work.new ≡ set_c work.old target n i (fourfold (get_or work.old (guidance + i) nan)) }
{
    let z = target_at(load_real(work, guidance, i));
    store(work, target, n, i, z);
}

// The targets of the n guidance angles from `guidance` on.
pub fn guide(work: &mut [f64], guidance: usize, target: usize, n: usize)
    requires { GuideRoom (length work.old) guidance target n }
    ensures { work.new ≡ put_c work.old target (guided_targets (region nan work.old guidance n)) }
{
    for i in 0..n {
        guide_at(work, guidance, target, n, i);
    }
}

fn repeat(work: &mut [f64], target: usize, n: usize, z: Complex)
    requires { target + 2 * n ≤ length work.old }
    ensures { work.new ≡ put_c work.old target (replicate n z) }
{
    for i in 0..n {
        store(work, target, n, i, z);
    }
}

// The target of one angle, n times.
pub fn align(work: &mut [f64], target: usize, n: usize, angle: f64)
    requires { target + 2 * n ≤ length work.old }
    ensures { work.new ≡ put_c work.old target (aligned_targets angle n) }
{
    repeat(work, target, n, target_at(angle));
}

// The term of the target in the direction's region, where its weight acts: the mass matrix times the target, by the weight, goes to the right-hand side
// in the residual's region, and the mass matrix, by the weight, to the matrix at h.
pub fn add_term(
    work: &mut [f64],
    h: Hermitian,
    mass: Hermitian,
    l: Vectors,
    weight: f64,
    from: &[u32],
    to: &[u32],
)
    requires soft_room { SoftRoom (length work.old) h mass l }
    requires graph { Graph mass from.now to.now }
    ensures { Softens work.old work.new h mass l from.now to.now (term_of weight (region_c work.old l.direction h.size)) }
{
    if !(weight > 0.0) {
        return;
    }
    linear_hermitian::apply(work, l.applied, l.direction, mass, from, to);
    linear_vectors::advance(work, l.residual, l.applied, h.size, weight);
    linear_hermitian::shifted(work, h, weight, mass);
}

// Whether guidance is given, its weight and where its angles stand; the weight of the alignment with an anisotropic metric, and its angle.
#[derive(Clone, Copy)]
pub struct Terms {
    pub guided: bool,
    pub weight: f64,
    pub guidance: usize,
    pub alignment: f64,
    pub angle: f64,
}

fn guided_term(
    work: &mut [f64],
    h: Hermitian,
    mass: Hermitian,
    l: Vectors,
    from: &[u32],
    to: &[u32],
    t: Terms,
)
    requires soft_room { SoftRoom (length work.old) h mass l × (t.guidance + h.size ≤ l.x) }
    requires graph { Graph mass from.now to.now }
    ensures { Softens work.old work.new h mass l from.now to.now (guided_in work.old h t) }
{
    if !t.guided {
        return;
    }
    guide(work, t.guidance, l.direction, h.size);
    add_term(work, h, mass, l, t.weight, from, to);
}

fn aligned_term(
    work: &mut [f64],
    h: Hermitian,
    mass: Hermitian,
    l: Vectors,
    from: &[u32],
    to: &[u32],
    t: Terms,
)
    requires soft_room { SoftRoom (length work.old) h mass l }
    requires graph { Graph mass from.now to.now }
    ensures { Softens work.old work.new h mass l from.now to.now (aligned_in h t) }
{
    align(work, l.direction, h.size, t.angle);
    add_term(work, h, mass, l, t.alignment, from, to);
}

// Every soft term that acts: guidance, and then the alignment.
pub fn soften(
    work: &mut [f64],
    h: Hermitian,
    mass: Hermitian,
    l: Vectors,
    from: &[u32],
    to: &[u32],
    t: Terms,
)
    requires soft_room { SoftRoom (length work.old) h mass l × (t.guidance + h.size ≤ l.x) }
    requires graph { Graph mass from.now to.now }
    ensures { Softens work.old work.new h mass l from.now to.now (terms_in work.old h t) }
{
    guided_term(work, h, mass, l, from, to, t);
    aligned_term(work, h, mass, l, from, to, t);
}
