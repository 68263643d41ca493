// Inverse iteration for the smallest eigenpair of the shifted pencil, in regions of one lent slice: the Rust's steps. The iterate stands at the solver's x.
#![tactic(auto)]

mod start;

ghost use Rattle.std.specs.Prelude.{◌≡◌, length};
ghost use Rattle.linear_conjugate_gradient.specs.Work.{SolverRoom, VectorRoom, Engine};
ghost use Rattle.linear_hermitian.specs.Work.{Graph};
ghost use Rattle.pass_inverse_iteration.specs.Inverse.{average_of};
ghost use Rattle.pass_inverse_iteration.specs.Work.{PencilRoom, PlanesBelow, Graphs};
ghost use Rattle.pass_inverse_iteration.specs.Work.{Quotients, Relative, Judges, TakesNext, IteratesOnce, Iterates, Starts, Inverts};

use linear_conjugate_gradient::Vectors;
use linear_hermitian::Hermitian;
use linear_packing::Packing;
use refusals::Refusal;

const OUTER_TOLERANCE: f64 = 1e-8;

// Where the pencil is in the slices: both matrices, the vectors of the linear solver, and the packed copy of the energy matrix, which the solver multiplies by.
#[derive(Clone, Copy)]
pub struct PencilPlan {
    pub mass: Hermitian,
    pub energy: Hermitian,
    pub vectors: Vectors,
    pub copy: Packing,
}

// Where the points' coordinates are, x and y; the trace of the energy before its shift; and the most iterations.
#[derive(Clone, Copy)]
pub struct Outer {
    pub x: usize,
    pub y: usize,
    pub trace: f64,
    pub iterations: usize,
}

// What each iteration is told: the average of the diagonal, and the most iterations of an inner solve.
#[derive(Clone, Copy)]
struct Limits {
    average: f64,
    most: usize,
}

// The Rayleigh quotient of the iterate.
#[derive(Clone, Copy)]
struct Quotient {
    numerator: f64,
    denominator: f64,
}

fn rayleigh(work: &mut [f64], p: PencilPlan, from: &[u32], to: &[u32]) -> Quotient
    requires pencil_room { PencilRoom (length work.old) p }
    requires graphs { Graphs p from.now to.now }
    ensures { Quotients work.old work.new p from.now to.now result }
{
    let l = p.vectors;
    let n = p.energy.size;
    linear_hermitian::apply(work, l.direction, l.x, p.mass, from, to);
    linear_hermitian::apply(work, l.applied, l.x, p.energy, from, to);
    Quotient {
        numerator: linear_hermitian::dot_re(work, l.x, l.applied, n),
        denominator: linear_hermitian::dot_re(work, l.x, l.direction, n),
    }
}

// The norm of the energy times x minus lambda times the mass times x, over the average.
fn relative(work: &mut [f64], n: usize, l: Vectors, lambda: f64, average: f64) -> f64
    requires { VectorRoom (length work.old) n l }
    ensures { Relative work.old work.new n l lambda average result }
{
    let sums = linear_vectors::residual::reduce(work, l.applied, l.direction, l.inverse, n, lambda);
    root::sqrt(float::max(sums.square, 0.0)) / average
}

// Whether the method ends with the iterate, which is normalised.
fn judge(
    work: &mut [f64],
    p: PencilPlan,
    from: &[u32],
    to: &[u32],
    o: Limits,
) -> Result<bool, Refusal>
    requires pencil_room { PencilRoom (length work.old) p }
    requires graphs { Graphs p from.now to.now }
    ensures { Judges work.old work.new p from.now to.now o result }
{
    let q = rayleigh(work, p, from, to);
    if float::not_positive(q.denominator) {
        return Err(refusals::gave_up(10, 0));
    }
    let lambda = q.numerator / q.denominator;
    if !float::is_finite(lambda) {
        return Err(refusals::gave_up(11, 0));
    }
    Ok(relative(work, p.energy.size, p.vectors, lambda, o.average) <= OUTER_TOLERANCE)
}

// The solution of the system whose right-hand side is the mass times x, normalised.
fn next(
    work: &mut [f64],
    p: PencilPlan,
    from: &[u32],
    to: &[u32],
    words: &[u32],
    o: Limits,
) -> Result<(), Refusal>
    requires pencil_room { PencilRoom (length work.old) p }
    requires graphs { Graphs p from.now to.now }
    requires engine { Engine work.old p.energy p.vectors from.now to.now words.now p.copy }
    ensures { TakesNext work.old work.new p from.now to.now o result }
{
    linear_hermitian::apply(work, p.vectors.residual, p.vectors.x, p.mass, from, to);
    pass_solution::solve(work, p.energy, p.vectors, from, to, words, p.copy, o.most)?;
    pass_solution::normalize(work, p.mass, p.vectors, from, to)
}

// Whether the method ends with this iteration.
fn iterate_once(
    work: &mut [f64],
    p: PencilPlan,
    from: &[u32],
    to: &[u32],
    words: &[u32],
    o: Limits,
) -> Result<bool, Refusal>
    requires pencil_room { PencilRoom (length work.old) p }
    requires graphs { Graphs p from.now to.now }
    requires engine { Engine work.old p.energy p.vectors from.now to.now words.now p.copy }
    ensures { IteratesOnce work.old work.new p from.now to.now o result }
{
    next(work, p, from, to, words, o)?;
    judge(work, p, from, to, o)
}

fn iterate(
    work: &mut [f64],
    p: PencilPlan,
    from: &[u32],
    to: &[u32],
    words: &[u32],
    o: Limits,
    iterations: usize,
) -> Result<(), Refusal>
    requires pencil_room { PencilRoom (length work.old) p }
    requires graphs { Graphs p from.now to.now }
    requires engine { Engine work.old p.energy p.vectors from.now to.now words.now p.copy }
    ensures { Iterates work.old work.new p from.now to.now o iterations result }
{
    for i in 0..iterations {
        let converged = iterate_once(work, p, from, to, words, o)?;
        if converged {
            return Ok(());
        }
    }
    Err(refusals::gave_up(12, 0))
}

// The start vector, normalised.
fn begin(work: &mut [f64], p: PencilPlan, from: &[u32], to: &[u32], o: Outer) -> Result<(), Refusal>
    requires solver_room { SolverRoom (length work.old) p.mass p.vectors × PlanesBelow p.mass.size p.vectors o }
    requires graph { Graph p.mass from.now to.now }
    ensures { Starts work.old work.new p from.now to.now o result }
{
    start::start(work, o.x, o.y, p.vectors.x, p.mass.size);
    pass_solution::normalize(work, p.mass, p.vectors, from, to)
}

fn average(trace: f64, n: usize) -> f64
    ensures { result ≡ average_of trace n }
{
    trace / float::from_whole(n as u64)
}

// The eigenvector of the smallest eigenvalue is left at the solver's x, where the iteration finds it.
pub fn inverse_iteration(
    work: &mut [f64],
    p: PencilPlan,
    from: &[u32],
    to: &[u32],
    words: &[u32],
    o: Outer,
) -> Result<(), Refusal>
    requires pencil_room { PencilRoom (length work.old) p × PlanesBelow p.energy.size p.vectors o }
    requires graphs { Graphs p from.now to.now }
    requires engine { Engine work.old p.energy p.vectors from.now to.now words.now p.copy }
    ensures { Inverts work.old work.new p from.now to.now o result }
{
    begin(work, p, from, to, o)?;
    let limits = Limits {
        average: average(o.trace, p.energy.size),
        most: pass_solution::inner_most(p.energy.size),
    };
    iterate(work, p, from, to, words, limits, o.iterations)
}
