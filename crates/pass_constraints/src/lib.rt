// What the boundary modes make of a system, in regions of one lent slice: rows fixed for an exact condition, the right-hand side of the tangent
// branch, the penalty of the weak one. specs/Constraints.antt says what is made of the lists, specs/Work.antt where it stands.
// `flag` has a flag for each point, 1 where it lies on the boundary, and `from` and `to` the ends of the edges.
#![tactic(auto)]

ghost use Rattle.std.specs.Prelude.{◌≡◌, cond, ◌||◌, ◌+◌, ◌*◌, ◌<◌, ◌≤◌, length, get_or};
ghost use Rattle.linear_hermitian.specs.Work.{Graph, PairRoom};
ghost use Rattle.pass_constraints.specs.Constraints.{on};
ghost use Rattle.pass_constraints.specs.Work.{MatrixRoom, TangentRoom, PenaltyRoom, drop_c, fix_c, blank_c, couple_c, penalise_c, penalty_c, dropped_in, fixed_in, rows_in, blanked_in, coupled_in, penalised_in, penalties_in, weak_in};

use complex::Complex;
use linear_cells::{load, load_real, store, store_real};
use linear_hermitian::Hermitian;

// Where the vectors of the tangent branch begin.
#[derive(Clone, Copy)]
pub struct Tangents {
    pub rhs: usize,
    pub coupling: usize,
    pub targets: usize,
}

// The weight of the weak branch, and where its diagonals and vectors begin: the system's and the mass matrix's diagonal, the targets, and the
// right-hand side.
#[derive(Clone, Copy)]
pub struct Penalty {
    pub weight: f64,
    pub diagonal: usize,
    pub mass: usize,
    pub targets: usize,
    pub rhs: usize,
}

fn is_on(flag: &[u32], i: usize) -> bool
    requires { i < length flag.now }
    ensures { result ≡ on flag.now i }
{
    flag[i] == 1
}

fn pick(yes: bool, a: Complex, b: Complex) -> Complex
    ensures { result ≡ cond yes a b }
{
    if yes {
        return a;
    }
    b
}

fn pick_real(yes: bool, a: f64, b: f64) -> f64
    ensures { result ≡ cond yes a b }
{
    if yes {
        return a;
    }
    b
}

// Whether an end of edge e lies on the boundary.
fn touches(flag: &[u32], from: &[u32], to: &[u32], e: usize) -> bool
    requires { ((e < length from.now) × (e < length to.now)) × ((get_or from.now e 0 < length flag.now) × (get_or to.now e 0 < length flag.now)) }
    ensures { result ≡ (on flag.now (get_or from.now e 0) || on flag.now (get_or to.now e 0)) }
{
    if is_on(flag, mesh::index(from[e])) {
        return true;
    }
    is_on(flag, mesh::index(to[e]))
}

fn drop_at(work: &mut [f64], h: Hermitian, flag: &[u32], from: &[u32], to: &[u32], e: usize)
    requires e_lt_edges { (e < h.edges) × (h.off + 2 * h.edges ≤ length work.old) }
    requires graph { Graph h from.now to.now × (length flag.now ≡ h.size) }
    ensures { work.new ≡ drop_c h flag.now from.now to.now e work.old }
{
    let yes = touches(flag, from, to, e);
    let z = load(work, h.off, h.edges, e);
    store(work, h.off, h.edges, e, pick(yes, Complex::ZERO, z));
}

// The entries of edges with an end on the boundary become 0.
fn drop_entries(work: &mut [f64], h: Hermitian, flag: &[u32], from: &[u32], to: &[u32])
    requires edges_in_bounds { h.off + 2 * h.edges ≤ length work.old }
    requires graph { Graph h from.now to.now × (length flag.now ≡ h.size) }
    ensures { work.new ≡ dropped_in h flag.now from.now to.now work.old }
{
    let m = h.edges;
    for e in 0..m {
        drop_at(work, h, flag, from, to, e);
    }
}

fn fix_at(work: &mut [f64], diagonal: usize, flag: &[u32], i: usize)
    requires { (i < length flag.now) × (diagonal + i < length work.old) }
    ensures { work.new ≡ fix_c diagonal flag.now i work.old }
{
    let yes = is_on(flag, i);
    let d = load_real(work, diagonal, i);
    store_real(work, diagonal, i, pick_real(yes, 1.0, d));
}

// The diagonal becomes 1 on the boundary.
fn fix_diagonal(work: &mut [f64], diagonal: usize, n: usize, flag: &[u32])
    requires { (length flag.now ≡ n) × (diagonal + n ≤ length work.old) }
    ensures { work.new ≡ fixed_in diagonal n flag.now work.old }
{
    for i in 0..n {
        fix_at(work, diagonal, flag, i);
    }
}

// The rows of the boundary become those of the identity.
pub fn dirichlet_rows(work: &mut [f64], h: Hermitian, flag: &[u32], from: &[u32], to: &[u32])
    requires matrix_room { MatrixRoom (length work.old) h }
    requires graph { Graph h from.now to.now × (length flag.now ≡ h.size) }
    ensures { work.new ≡ rows_in h flag.now from.now to.now work.old }
{
    drop_entries(work, h, flag, from, to);
    fix_diagonal(work, h.diagonal, h.size, flag);
}

fn blank_at(work: &mut [f64], target: usize, n: usize, flag: &[u32], i: usize)
    requires { (i < n) × ((length flag.now ≡ n) × (target + 2 * n ≤ length work.old)) }
    ensures { work.new ≡ blank_c target n flag.now i work.old }
{
    let yes = is_on(flag, i);
    let z = load(work, target, n, i);
    store(work, target, n, i, pick(yes, Complex::ZERO, z));
}

// A soft target becomes 0 on the boundary.
pub fn blank(work: &mut [f64], target: usize, n: usize, flag: &[u32])
    requires { (length flag.now ≡ n) × (target + 2 * n ≤ length work.old) }
    ensures { work.new ≡ blanked_in target n flag.now work.old }
{
    for i in 0..n {
        blank_at(work, target, n, flag, i);
    }
}

fn couple_at(work: &mut [f64], l: Tangents, n: usize, flag: &[u32], i: usize)
    requires { (i < n) × ((length flag.now ≡ n) × TangentRoom (length work.old) n l) }
    ensures { work.new ≡ couple_c l n flag.now i work.old }
{
    let yes = is_on(flag, i);
    let target = load(work, l.targets, n, i);
    let z = load(work, l.rhs, n, i).sub(load(work, l.coupling, n, i));
    store(work, l.rhs, n, i, pick(yes, target, z));
}

// The right-hand side of the tangent branch: the targets on the boundary, and elsewhere what stood there less the coupling.
pub fn couple(work: &mut [f64], l: Tangents, n: usize, flag: &[u32])
    requires { (length flag.now ≡ n) × TangentRoom (length work.old) n l }
    ensures { work.new ≡ coupled_in l n flag.now work.old }
{
    for i in 0..n {
        couple_at(work, l, n, flag, i);
    }
}

fn penalise_at(work: &mut [f64], l: Penalty, flag: &[u32], i: usize)
    requires { (i < length flag.now) × ((l.diagonal + i < length work.old) × (l.mass + i < length work.old)) }
    ensures { work.new ≡ penalise_c l flag.now i work.old }
{
    let yes = is_on(flag, i);
    let d = load_real(work, l.diagonal, i);
    let penalty = l.weight * load_real(work, l.mass, i);
    store_real(work, l.diagonal, i, pick_real(yes, d + penalty, d));
}

// The penalty on the diagonal.
fn penalise_diagonal(work: &mut [f64], l: Penalty, n: usize, flag: &[u32])
    requires { (length flag.now ≡ n) × PairRoom (length work.old) l.mass l.diagonal n }
    ensures { work.new ≡ penalised_in l n flag.now work.old }
{
    for i in 0..n {
        penalise_at(work, l, flag, i);
    }
}

fn penalty_at(work: &mut [f64], l: Penalty, n: usize, flag: &[u32], i: usize)
    requires { (i < n) × ((length flag.now ≡ n) × PenaltyRoom (length work.old) n l) }
    ensures { work.new ≡ penalty_c l n flag.now i work.old }
{
    let yes = is_on(flag, i);
    let penalty = l.weight * load_real(work, l.mass, i);
    let z = load(work, l.targets, n, i).scale(penalty);
    store(work, l.rhs, n, i, pick(yes, z, Complex::ZERO));
}

// The penalty's right-hand side, 0 off the boundary.
fn penalise_rhs(work: &mut [f64], l: Penalty, n: usize, flag: &[u32])
    requires { (length flag.now ≡ n) × PenaltyRoom (length work.old) n l }
    ensures { work.new ≡ penalties_in l n flag.now work.old }
{
    for i in 0..n {
        penalty_at(work, l, n, flag, i);
    }
}

// The weak branch: weight * M_ii is added to the diagonal on the boundary, and the right-hand side is that times the target.
pub fn penalise(work: &mut [f64], l: Penalty, n: usize, flag: &[u32])
    requires { (length flag.now ≡ n) × PenaltyRoom (length work.old) n l }
    ensures { work.new ≡ weak_in l n flag.now work.old }
{
    penalise_diagonal(work, l, n, flag);
    penalise_rhs(work, l, n, flag);
}
