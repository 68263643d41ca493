// The linear solve and the normalisation of a pass, each as a stage of it: what stands at the solver's x, or refusal 24.
#![tactic(auto)]

ghost use Rattle.std.specs.Prelude.{◌≡◌, length};
ghost use Rattle.linear_hermitian.specs.Work.{Graph};
ghost use Rattle.linear_conjugate_gradient.specs.Work.{SolverRoom, Engine};
ghost use Rattle.pass_solution.specs.Solution.{inner_most, linear_most};
ghost use Rattle.pass_solution.specs.Work.{refusal_of, Solves, Normalizes};

use linear_conjugate_gradient::{Reason, Vectors, conjugate_gradient};
use linear_hermitian::Hermitian;
use linear_packing::Packing;
use refusals::Refusal;

const INNER_TOLERANCE: f64 = 1e-9;

// A count of iterations over n vertices: 400 + 8 n, and at most 6000, which 700 vertices reach.
const LEAST_COUNT: usize = 400;

const COUNT_PER_VERTEX: usize = 8;

const COUNT_BOUND: usize = 6000;

const BOUND_FROM: usize = (COUNT_BOUND - LEAST_COUNT) / COUNT_PER_VERTEX;

// The most iterations of a solve over n vertices: in the inverse iteration, and otherwise.
pub fn inner_most(n: usize) -> usize
    ensures { result ≡ inner_most n }
{
    if n < BOUND_FROM {
        return LEAST_COUNT + COUNT_PER_VERTEX * n;
    }
    COUNT_BOUND
}

pub fn linear_most(n: usize, iterations: usize) -> usize
    ensures { result ≡ linear_most n iterations }
{
    let most = inner_most(n);
    if iterations < most {
        return most;
    }
    if iterations < COUNT_BOUND {
        return iterations;
    }
    COUNT_BOUND
}

// The refusal that a reason of the linear solver stands for.
fn refusal_of(r: Reason) -> Refusal
    ensures { result ≡ refusal_of r }
{
    match r {
        Reason::RightHandNorm => refusals::gave_up(3, 0),
        Reason::Diagonal(vertex) => refusals::gave_up(4, vertex as u64),
        Reason::FirstResidual => refusals::gave_up(5, 0),
        Reason::Denominator => refusals::gave_up(6, 0),
        Reason::LostDefiniteness => refusals::gave_up(7, 0),
        Reason::CountSpent => refusals::gave_up(8, 0),
        Reason::MassOfIterate => refusals::gave_up(9, 0),
    }
}

// Solves the system of the matrix and the right-hand side in the residual's region, by at most `most` iterations. `copy` is where the packed
// copy of the matrix stands.
pub fn solve(
    work: &mut [f64],
    h: Hermitian,
    l: Vectors,
    from: &[u32],
    to: &[u32],
    u: &[u32],
    copy: Packing,
    most: usize,
) -> Result<(), Refusal>
    requires solver_room { SolverRoom (length work.old) h l }
    requires graph { Graph h from.now to.now }
    requires engine { Engine work.old h l from.now to.now u.now copy }
    ensures { Solves work.old work.new h l from.now to.now most result }
{
    match conjugate_gradient(work, h, l, from, to, u, copy, INNER_TOLERANCE, most) {
        Ok(_) => Ok(()),
        Err(reason) => Err(refusal_of(reason)),
    }
}

// x divided by its norm in the mass matrix. The direction's region is left with the matrix times the old x.
pub fn normalize(
    work: &mut [f64],
    mass: Hermitian,
    l: Vectors,
    from: &[u32],
    to: &[u32],
) -> Result<(), Refusal>
    requires solver_room { SolverRoom (length work.old) mass l }
    requires graph { Graph mass from.now to.now }
    ensures { Normalizes work.old work.new mass l from.now to.now result }
{
    match linear_conjugate_gradient::normalize_in_mass(work, l.x, l.direction, mass, from, to) {
        Ok(()) => Ok(()),
        Err(reason) => Err(refusal_of(reason)),
    }
}
