// The linear systems of a pass's branches, in regions of one lent slice: the energy matrix becomes the system's, and the right-hand side is left in the
// solver's residual. specs/Systems.antt says what each system is, and specs/Work.antt where it is.
// `flag` has a flag for each point, 1 where it lies on the boundary, and `from` and `to` the ends of the edges.
#![tactic(auto)]

ghost use Rattle.std.specs.Prelude.{◌≡◌, length};
ghost use Rattle.linear_hermitian.specs.Work.{Graph};
ghost use Rattle.pass_constraints.specs.Constraints.{boundary_data};
ghost use Rattle.pass_soft.specs.Work.{SoftRoom, guided_in, aligned_in};
ghost use Rattle.pass_systems.specs.Work.{SystemRoom, TargetRoom, targets_at, soft_in, blanked_terms, MakesSoft, MakesWeak, SoftensBy, SoftensInside, Fixes, MakesTangent};

use linear_conjugate_gradient::Vectors;
use linear_hermitian::Hermitian;
use pass_constraints::{Penalty, Tangents};
use pass_soft::Terms;

// Where the parts of a system are in the slice: the energy matrix, with its shift; the mass matrix; the vectors of the linear solver; and the boundary's
// targets. `terms` has the soft terms.
#[derive(Clone, Copy)]
pub struct SystemPlan {
    pub energy: Hermitian,
    pub mass: Hermitian,
    pub vectors: Vectors,
    pub targets: usize,
    pub terms: Terms,
}

// The energy and its soft terms.
pub fn soft_system(work: &mut [f64], s: SystemPlan, from: &[u32], to: &[u32])
    requires system_room { SystemRoom (length work.old) s }
    requires graph { Graph s.mass from.now to.now }
    ensures { MakesSoft work.old work.new s from.now to.now }
{
    linear_cells::fill(work, s.vectors.residual, 2 * s.energy.size, 0.0); // no right-hand side but the soft terms'
    pass_soft::soften(work, s.energy, s.mass, s.vectors, from, to, s.terms);
}

// A penalty of that weight on the boundary, and then the soft terms.
pub fn weak_system(
    work: &mut [f64],
    s: SystemPlan,
    weight: f64,
    flag: &[u32],
    from: &[u32],
    to: &[u32],
)
    requires system_room { SystemRoom (length work.old) s × TargetRoom (length work.old) s }
    requires graph { Graph s.mass from.now to.now × (length flag.now ≡ s.energy.size) }
    ensures { MakesWeak work.old work.new s weight flag.now from.now to.now }
{
    let p = Penalty {
        weight,
        diagonal: s.energy.diagonal,
        mass: s.mass.diagonal,
        targets: s.targets,
        rhs: s.vectors.residual,
    };
    pass_constraints::penalise(work, p, s.energy.size, flag);
    pass_soft::soften(work, s.energy, s.mass, s.vectors, from, to, s.terms);
}

// The term of the target in the direction's region, blanked on the boundary, where its weight acts.
fn add_inside(work: &mut [f64], s: SystemPlan, weight: f64, flag: &[u32], from: &[u32], to: &[u32])
    requires soft_room { SoftRoom (length work.old) s.energy s.mass s.vectors }
    requires graph { Graph s.mass from.now to.now × (length flag.now ≡ s.energy.size) }
    ensures { SoftensInside work.old work.new s weight flag.now from.now to.now }
{
    pass_constraints::blank(work, s.vectors.direction, s.energy.size, flag);
    pass_soft::add_term(work, s.energy, s.mass, s.vectors, weight, from, to);
}

fn guided_inside(work: &mut [f64], s: SystemPlan, flag: &[u32], from: &[u32], to: &[u32])
    requires system_room { SystemRoom (length work.old) s }
    requires graph { Graph s.mass from.now to.now × (length flag.now ≡ s.energy.size) }
    ensures { SoftensBy work.old work.new s from.now to.now
        (blanked_terms flag.now (guided_in work.old s.energy s.terms)) }
{
    if !s.terms.guided {
        return;
    }
    pass_soft::guide(work, s.terms.guidance, s.vectors.direction, s.energy.size);
    add_inside(work, s, s.terms.weight, flag, from, to);
}

fn aligned_inside(work: &mut [f64], s: SystemPlan, flag: &[u32], from: &[u32], to: &[u32])
    requires system_room { SystemRoom (length work.old) s }
    requires graph { Graph s.mass from.now to.now × (length flag.now ≡ s.energy.size) }
    ensures { SoftensBy work.old work.new s from.now to.now
        (blanked_terms flag.now (aligned_in s.energy s.terms)) }
{
    pass_soft::align(work, s.vectors.direction, s.energy.size, s.terms.angle);
    add_inside(work, s, s.terms.alignment, flag, from, to);
}

// Every soft term that acts, with its target blanked on the boundary: guidance, and then the alignment.
fn soften_inside(work: &mut [f64], s: SystemPlan, flag: &[u32], from: &[u32], to: &[u32])
    requires system_room { SystemRoom (length work.old) s }
    requires graph { Graph s.mass from.now to.now × (length flag.now ≡ s.energy.size) }
    ensures { SoftensBy work.old work.new s from.now to.now
        (blanked_terms flag.now (soft_in work.old s)) }
{
    guided_inside(work, s, flag, from, to);
    aligned_inside(work, s, flag, from, to);
}

// The targets hold on the boundary: the right-hand side there, and elsewhere less the coupling, which stands in the solver's x; and the boundary's rows.
fn fix_boundary(work: &mut [f64], s: SystemPlan, flag: &[u32], from: &[u32], to: &[u32])
    requires target_room { TargetRoom (length work.old) s }
    requires graph { Graph s.energy from.now to.now × (length flag.now ≡ s.energy.size) }
    ensures { Fixes work.old work.new s flag.now from.now to.now }
{
    let vectors = Tangents {
        rhs: s.vectors.residual,
        coupling: s.vectors.x,
        targets: s.targets,
    };
    pass_constraints::couple(work, vectors, s.energy.size, flag);
    pass_constraints::dirichlet_rows(work, s.energy, flag, from, to);
}

// The targets hold exactly on the boundary, and the soft terms act off it.
pub fn tangent_system(work: &mut [f64], s: SystemPlan, flag: &[u32], from: &[u32], to: &[u32])
    requires system_room { SystemRoom (length work.old) s × TargetRoom (length work.old) s }
    requires graph { (Graph s.energy from.now to.now × Graph s.mass from.now to.now) × (length flag.now ≡ s.energy.size) }
    requires s_value { boundary_data flag.now (targets_at work.old s) ≡ targets_at work.old s }
    ensures { MakesTangent work.old work.new s flag.now from.now to.now }
{
    linear_hermitian::apply(work, s.vectors.x, s.targets, s.energy, from, to);
    linear_cells::fill(work, s.vectors.residual, 2 * s.energy.size, 0.0);
    soften_inside(work, s, flag, from, to);
    fix_boundary(work, s, flag, from, to);
}
