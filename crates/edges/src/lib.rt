// Sides of triangles, numbered in the order first met, lower end first: the Rust's HashMap of sides, and its list of them, in lent numbers.
// The table stands in one slice of numbers: its buckets, then four numbers for each of its sides (specs/Table.antt). No numbers are mixed to choose a bucket:
// the sides of a bucket, which share their lower end, stand in a tree by the digits of their upper end. Why searches are short is argued in docs/DECISIONS.md.
#![tactic(auto)]

pub mod numbers;
pub mod two_slices;

ghost use Rattle.std.specs.Prelude.{◌≡◌, ◌&&◌, ◌+◌, ◌*◌, ◌<◌, ◌≤◌, ◌^◌, length, replicate, eqb, IfSome};
ghost use Rattle.std.proofs.lemmas.List.Edits.{sets};
ghost use Rattle.mesh.specs.Mesh.{side, key, tri, index_in};
ghost use Rattle.edges.specs.Table.{slot_of, path_of, sides_in, row_of, end_of, Held, WalkedIn, Met, MetTri, place, one_more};

// Where a table stands, of how many buckets, and how many sides it has.
#[derive(Clone, Copy)]
pub struct Table {
    pub base: usize,
    pub buckets: usize,
    pub sides: usize,
}

#[derive(Clone, Copy)]
pub struct Meeting {
    // How many sides there are now.
    pub sides: usize,
    // The number of the side that was met.
    pub number: usize,
}

#[derive(Clone, Copy)]
pub struct Meetings {
    pub sides: usize,
    // The numbers of the sides a b, b c and c a.
    pub ab: usize,
    pub bc: usize,
    pub ca: usize,
}

// The bucket of a side, of n.
#[tactic(auto, unfolding(crate::specs::Table::slot_of))]
fn slot(n: usize, a: u32, b: u32) -> usize
    requires { 0 < n }
    ensures { (result ≡ slot_of n a b) × (result < n) }
{
    let low = mesh::index(a);
    if low < n {
        return low;
    }
    low % n
}

// Above every point of a refined floor, so that the upper end's digits come first in a path.
const PATH_BASE: usize = 0x2_0000;

// The path of a side.
#[tactic(auto, unfolding(crate::specs::Table::path_of))]
fn path(a: u32, b: u32) -> usize
    ensures { result ≡ path_of a b }
{
    mesh::index(a) * PATH_BASE + mesh::index(b)
}

// Where the row of side k begins: its lower end, its upper end, two links.
pub fn row(t: Table, k: usize) -> usize
    requires { row_of t k < 2 ^ 64 }
    ensures { result ≡ row_of t k }
{
    t.base + t.buckets + 4 * k
}

fn same_side(a: u32, b: u32, c: u32, d: u32) -> bool
    ensures { result ≡ (eqb a c && eqb b d) }
{
    a == c && b == d
}

// A table of n buckets with no sides.
pub fn clear(w: &mut [u32], base: usize, n: usize)
    requires { ((0 < n) × (n ≤ 2 ^ 32)) × (base + n ≤ length w.old) }
    ensures { (w.new ≡ sets w.old base (replicate n 0)) × Held base n w.new 0 }
{
    slices::fill(w, base, n, 0);
}

// Kept: a position is an index into one slice of numbers, in fixed memory.
// Where the walk to a side ends: at the side, by its number, or at an empty position.
#[derive(Clone, Copy)]
struct Spot {
    at: Option<usize>,
    position: usize,
}

// The side that a position holds: one more than its number stands there, or 0 for none.
fn held(x: u32) -> Option<usize>
    ensures { one_more (place result) ≡ x }
{
    mesh::index(x).checked_sub(1)
}

// The walk to the side a b.
fn walk(w: &[u32], t: Table, a: u32, b: u32) -> Spot
    requires { Held t.base t.buckets w.now t.sides }
    ensures { WalkedIn t.base t.buckets w.now t.sides a b result.at result.position }
{
    let mut position = t.base + slot(t.buckets, a, b);
    let mut rest = path(a, b);
    let mut at = held(w[position]);
    while let Some(number) = at {
        let k = t.base + t.buckets + 4 * number;
        if same_side(w[k], w[k + 1], a, b) {
            return Spot { at, position };
        }
        position = k + 2 + rest % 2;
        rest = rest / 2;
        at = held(w[position]);
    }
    Spot { at, position }
}

// The number of the side of u and v, if it is there.
pub fn find_side(w: &[u32], t: Table, u: u32, v: u32) -> Option<usize>
    requires { Held t.base t.buckets w.now t.sides }
    ensures { (place result ≡ index_in (key u v) (sides_in t.base t.buckets w.now t.sides)) × IfSome result (λ k. k < t.sides) }
{
    if u < v {
        let s = walk(w, t, u, v);
        return s.at;
    }
    let s = walk(w, t, v, u);
    s.at
}

// The side a b, lower end first, is found or put into the table.
fn find_or_insert(w: &mut [u32], t: Table, a: u32, b: u32) -> Meeting
    requires held { Held t.base t.buckets w.old t.sides }
    requires t_in_bounds { (end_of t + 4 ≤ length w.old) × (t.sides + 1 < 2 ^ 32) }
    ensures { Met t.base t.buckets w.old t.sides w.new result.sides result.number (side a b) }
{
    let s = walk(w, t, a, b);
    let m = t.sides;
    if let Some(number) = s.at {
        return Meeting { sides: m, number };
    }
    let position = s.position;
    let k = t.base + t.buckets + 4 * m;
    w[k] = a;
    w[k + 1] = b;
    w[k + 2] = 0;
    w[k + 3] = 0;
    w[position] = (m + 1) as u32;
    Meeting {
        sides: m + 1,
        number: m,
    }
}

// The side of u and v is met.
pub fn meet_side(w: &mut [u32], t: Table, u: u32, v: u32) -> Meeting
    requires held { Held t.base t.buckets w.old t.sides }
    requires t_in_bounds { (end_of t + 4 ≤ length w.old) × (t.sides + 1 < 2 ^ 32) }
    ensures { Met t.base t.buckets w.old t.sides w.new result.sides result.number (key u v) }
{
    if u < v {
        return find_or_insert(w, t, u, v);
    }
    find_or_insert(w, t, v, u)
}

// The sides a b, b c and c a of a triangle are met.
pub fn meet_triangle(w: &mut [u32], t: Table, a: u32, b: u32, c: u32) -> Meetings
    requires held { Held t.base t.buckets w.old t.sides }
    requires t_in_bounds { (end_of t + 12 ≤ length w.old) × (t.sides + 3 < 2 ^ 32) }
    ensures { MetTri t.base t.buckets w.old t.sides w.new result.sides result.ab result.bc result.ca (tri a b c) }
{
    let p = meet_side(w, t, a, b);
    let after = Table {
        sides: p.sides,
        ..t
    };
    let q = meet_side(w, after, b, c);
    let last = Table {
        sides: q.sides,
        ..t
    };
    let r = meet_side(w, last, c, a);
    Meetings {
        sides: r.sides,
        ab: p.number,
        bc: q.number,
        ca: r.number,
    }
}
