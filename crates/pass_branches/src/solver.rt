// The two ways from a matrix to the angles of a field: the solution of a linear system, and the eigenvector of the smallest eigenvalue. Either way makes the
// entries of the packed copy from the matrix, and solves by it; what depends on the edges alone of the copy is ready (specs/Work.antt).
ghost use Rattle.std.specs.Prelude.{length};
ghost use Rattle.linear_hermitian.specs.Work.{Graph};
ghost use Rattle.pass_inverse_iteration.specs.Work.{Graphs};
ghost use Rattle.pass_branches.specs.Work.{pencil_at, BranchRoom, CopyRoom, CopyBehind, Copies, LeavesLinear, LeavesVector};

use linear_packing::{Packing, Source};
use pass_inverse_iteration::{Outer, PencilPlan};
use pass_systems::SystemPlan;
use refusals::Refusal;

// Where a branch works: its system; the packed copy of the energy matrix, which the linear solver multiplies by, and what the copy is made from; where the
// angles are left; and what the inverse iteration starts from, with the most iterations.
#[derive(Clone, Copy)]
pub struct BranchPlan {
    pub system: SystemPlan,
    pub copy: Packing,
    pub source: Source,
    pub angles: usize,
    pub outer: Outer,
}

// The angles of the solution of the system of the energy matrix and the right-hand side in the solver's residual.
pub fn solve_system(
    work: &mut [f64],
    b: BranchPlan,
    from: &[u32],
    to: &[u32],
    words: &[u32],
) -> Result<(), Refusal>
    requires branch_room { BranchRoom (length work.old) b }
    requires graph { Graph b.system.energy from.now to.now }
    requires copy_room { CopyRoom b × Copies words.now from.now to.now b }
    ensures { LeavesLinear work.old work.new b from.now to.now result }
{
    let energy = b.system.energy;
    let vectors = b.system.vectors;
    let most = pass_solution::linear_most(energy.size, b.outer.iterations);
    let copy = b.copy;
    linear_packing::entries(work, words, energy, copy, b.source);
    pass_solution::solve(work, energy, vectors, from, to, words, copy, most)?;
    pass_field::angles_from(work, vectors.x, b.angles, energy.size)
}

// The eigenvector of the smallest eigenvalue.
pub fn vector_field(
    work: &mut [f64],
    b: BranchPlan,
    from: &[u32],
    to: &[u32],
    words: &[u32],
) -> Result<(), Refusal>
    requires branch_room { BranchRoom (length work.old) b }
    requires graphs { Graphs (pencil_at b) from.now to.now }
    requires copy_room { (CopyRoom b × CopyBehind b) × Copies words.now from.now to.now b }
    ensures { LeavesVector work.old work.new b from.now to.now result }
{
    let mass = b.system.mass;
    let energy = b.system.energy;
    let vectors = b.system.vectors;
    let copy = b.copy;
    let pencil = PencilPlan {
        mass,
        energy,
        vectors,
        copy,
    };
    linear_packing::entries(work, words, energy, b.copy, b.source);
    pass_inverse_iteration::inverse_iteration(work, pencil, from, to, words, b.outer)?;
    pass_field::angles_from(work, vectors.x, b.angles, energy.size)
}
