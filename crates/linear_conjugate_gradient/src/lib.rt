// Jacobi-preconditioned conjugate gradients for a Hermitian system, in regions of one lent slice, and `normalize_in_mass`:
// the Rust's steps.
#![tactic(auto)]

ghost use Rattle.std.specs.Prelude.{◌≡◌, ◌+◌, ◌*◌, ◌<◌, ◌≤◌, length};
ghost use Rattle.std.specs.Float.{nan};
ghost use Rattle.float.specs.Double.{lit, max_of};
ghost use Rattle.root.specs.Root.{root_of};
ghost use Rattle.linear_cells.specs.Region.{region};
ghost use Rattle.linear_hermitian.specs.Work.{matrix, Graph, ApplyRoom};
ghost use Rattle.linear_conjugate_gradient.specs.Method.{first_not_positive};
ghost use Rattle.linear_conjugate_gradient.specs.Solve.{reduced, advanced, directed, judged, iteration_of, run, solved};
ghost use Rattle.linear_conjugate_gradient.specs.Work.{read, lay, VectorRoom, SolverRoom, Engine, Begun, Multiplied, Updated, Ended, Solved, InMass};

use linear_hermitian::Hermitian;
use linear_packing::Packing;
use linear_vectors::residual::Sums;

// Why the solver gave up: number 24's reasons 3 to 9, in their order.
#[derive(Clone, Copy, Debug, PartialEq, Eq)]
pub enum Reason {
    RightHandNorm,
    Diagonal(usize),
    FirstResidual,
    Denominator,
    LostDefiniteness,
    CountSpent,
    MassOfIterate,
}

// Where each vector begins. On entry the residual's region holds the right-hand side.
#[derive(Clone, Copy)]
pub struct Vectors {
    pub x: usize,
    pub residual: usize,
    pub direction: usize,
    pub applied: usize,
    pub inverse: usize,
}

// The first of n values that is not positive.
fn first_not_positive(work: &[f64], d: usize, n: usize) -> Option<usize>
    requires { d + n ≤ length work.now }
    ensures { result ≡ first_not_positive (region nan work.now d n) }
{
    let end = d + n;
    work[d..end].iter().position(|v| float::not_positive(*v))
}

fn begin(work: &mut [f64], h: Hermitian, l: Vectors) -> f64
    requires { SolverRoom (length work.old) h l }
    ensures { Begun work.old work.new h l result }
{
    linear_vectors::invert(work, l.inverse, h.diagonal, h.size);
    linear_cells::fill(work, l.x, 2 * h.size, 0.0);
    linear_hermitian::scale(work, l.direction, l.residual, l.inverse, h.size);
    linear_hermitian::dot_re(work, l.direction, l.residual, h.size)
}

// applied = the matrix times the direction, and the direction's product with it.
fn multiply(
    work: &mut [f64],
    h: Hermitian,
    l: Vectors,
    from: &[u32],
    to: &[u32],
    u: &[u32],
    copy: Packing,
) -> f64
    requires solver_room { SolverRoom (length work.old) h l }
    requires graph { Graph h from.now to.now }
    requires engine { Engine work.old h l from.now to.now u.now copy }
    ensures { Multiplied work.old work.new h l from.now to.now result }
{
    linear_pairs::multiply(work, l.applied, l.direction, h, from, to, u, copy)
}

// residual = residual - applied * alpha, with both sums. Their terms are left where the matrix times the direction stood.
fn update(work: &mut [f64], n: usize, l: Vectors, alpha: f64) -> Sums
    requires { VectorRoom (length work.old) n l }
    ensures { Updated work.old work.new n l alpha result }
{
    linear_vectors::residual::reduce(work, l.residual, l.applied, l.inverse, n, alpha)
}

// x = x + direction * alpha.
fn advance(work: &mut [f64], n: usize, l: Vectors, alpha: f64)
    requires { VectorRoom (length work.old) n l }
    ensures { work.new ≡ lay work.old n l (advanced alpha (read work.old n l)) }
{
    linear_vectors::advance(work, l.x, l.direction, n, alpha);
}

// x = x + direction * alpha and direction = preconditioned residual + direction * beta, in one pass.
fn direct(work: &mut [f64], n: usize, l: Vectors, alpha: f64, beta: f64)
    requires { VectorRoom (length work.old) n l }
    ensures { work.new ≡ lay work.old n l (directed beta (advanced alpha (read work.old n l))) }
{
    linear_vectors::direct(
        work,
        l.x,
        l.direction,
        l.residual,
        l.inverse,
        n,
        alpha,
        beta,
    );
}

// The norm of a vector whose product with itself is `square`.
fn norm(square: f64) -> f64
    ensures { result ≡ root_of (max_of square (lit 0)) }
{
    root::sqrt(float::max(square, 0.0))
}

// An iteration after its product, by the step alpha. `dot` is the residual dot before it. It answers with the next residual dot, or with
// none where the residual is within the limit.
fn step(
    work: &mut [f64],
    n: usize,
    l: Vectors,
    alpha: f64,
    dot: f64,
    limit: f64,
) -> Result<Option<f64>, Reason>
    requires { VectorRoom (length work.old) n l }
    ensures { Ended work.old work.new n l (judged limit dot (advanced alpha (reduced alpha (read work.old n l)))) result }
{
    let sums = update(work, n, l, alpha);
    if norm(sums.square) <= limit {
        advance(work, n, l, alpha);
        return Ok(None);
    }
    if float::not_positive(sums.next) {
        advance(work, n, l, alpha);
        return Err(Reason::LostDefiniteness);
    }
    direct(work, n, l, alpha, sums.next / dot);
    Ok(Some(sums.next))
}

fn iterate_once(
    work: &mut [f64],
    h: Hermitian,
    l: Vectors,
    from: &[u32],
    to: &[u32],
    u: &[u32],
    copy: Packing,
    limit: f64,
    dot: f64,
) -> Result<Option<f64>, Reason>
    requires solver_room { SolverRoom (length work.old) h l }
    requires graph { Graph h from.now to.now }
    requires engine { Engine work.old h l from.now to.now u.now copy }
    ensures { Ended work.old work.new h.size l
        (iteration_of (matrix work.old h from.now to.now) limit dot (read work.old h.size l)) result }
{
    let denominator = multiply(work, h, l, from, to, u, copy);
    if float::not_positive(denominator) {
        return Err(Reason::Denominator);
    }
    step(work, h.size, l, dot / denominator, dot, limit)
}

fn iterate(
    work: &mut [f64],
    h: Hermitian,
    l: Vectors,
    from: &[u32],
    to: &[u32],
    u: &[u32],
    copy: Packing,
    limit: f64,
    first: f64,
    most: usize,
) -> Result<usize, Reason>
    requires solver_room { SolverRoom (length work.old) h l }
    requires graph { Graph h from.now to.now }
    requires engine { Engine work.old h l from.now to.now u.now copy }
    ensures { Solved work.old work.new h.size l
        (run (matrix work.old h from.now to.now) limit most 0 first (read work.old h.size l)) result }
{
    let mut dot = first;
    for i in 0..most {
        let Some(next) = iterate_once(work, h, l, from, to, u, copy, limit, dot)? else {
            return Ok(i + 1);
        };
        dot = next;
    }
    Err(Reason::CountSpent)
}

// Solves the system of the matrix and the right-hand side in the residual's region, by at most `most` iterations: how many were made.
pub fn conjugate_gradient(
    work: &mut [f64],
    h: Hermitian,
    l: Vectors,
    from: &[u32],
    to: &[u32],
    u: &[u32],
    copy: Packing,
    tolerance: f64,
    most: usize,
) -> Result<usize, Reason>
    requires solver_room { SolverRoom (length work.old) h l }
    requires graph { Graph h from.now to.now }
    requires engine { Engine work.old h l from.now to.now u.now copy }
    ensures { Solved work.old work.new h.size l
        (solved (matrix work.old h from.now to.now) tolerance most (read work.old h.size l)) result }
{
    let norm = linear_hermitian::euclidean_norm(work, l.residual, h.size);
    if float::not_positive(norm) {
        return Err(Reason::RightHandNorm);
    }
    if let Some(vertex) = first_not_positive(work, h.diagonal, h.size) {
        return Err(Reason::Diagonal(vertex));
    }
    let first = begin(work, h, l);
    if float::not_positive(first) {
        return Err(Reason::FirstResidual);
    }
    iterate(work, h, l, from, to, u, copy, tolerance * norm, first, most)
}

// x divided by its norm in the mass matrix. The region at y is left with the matrix times x.
pub fn normalize_in_mass(
    work: &mut [f64],
    x: usize,
    y: usize,
    mass: Hermitian,
    from: &[u32],
    to: &[u32],
) -> Result<(), Reason>
    requires apply_room { ApplyRoom (length work.old) mass x y }
    requires graph { Graph mass from.now to.now }
    ensures { InMass work.old work.new x y mass.size (matrix work.old mass from.now to.now) result }
{
    linear_hermitian::apply(work, y, x, mass, from, to);
    let squared = linear_hermitian::dot_re(work, x, y, mass.size);
    if float::not_positive(squared) {
        return Err(Reason::MassOfIterate);
    }
    linear_vectors::scale_by(work, x, mass.size, float::recip(root::sqrt(squared)));
    Ok(())
}
