// The same lists where the ends of the edges are lent in slices of their own. `vertex_lists` takes any slices: it tests them first.
ghost use Rattle.std.specs.Prelude.{◌≡◌, ◌+◌, ◌<◌, length, replicate};
ghost use Rattle.linear_cells.specs.Region.{region, put};
ghost use Rattle.linear_adjacency.specs.Adjacency.{Ends, adjacency};
ghost use Rattle.linear_adjacency.specs.Build.{degrees, cursors, ListRoom};
ghost use Rattle.linear_adjacency.specs.Incidence.{is_edge, are_edges, has_room, VertexLists};

use linear_cells::wide;

// With this many edges their two ends each cannot be counted by a u32.
const TOO_MANY_EDGES: usize = 0x8000_0000;

// Kept: tests one by one, here and in has_room, as in linear_rows::lent::is_inside.
// Whether an edge's ends a and b differ and are below n.
fn is_edge(n: usize, a: usize, b: usize) -> bool
    ensures { result ≡ is_edge n a b }
{
    if a >= n {
        return false;
    }
    if b >= n {
        return false;
    }
    a != b
}

// Whether those of every edge do.
pub fn are_edges(n: usize, from: &[u32], to: &[u32]) -> bool
    ensures { result ≡ are_edges n from.now to.now }
{
    if to.len() != from.len() {
        return false;
    }
    for e in 0..from.len() {
        if !is_edge(n, wide(from[e]), wide(to[e])) {
            return false;
        }
    }
    true
}

// Whether the lists of n vertices and of so many edges fit into `room` numbers, each a u32.
fn has_room(n: usize, edges: usize, room: usize) -> bool
    ensures { result ≡ has_room n edges room }
{
    if edges >= TOO_MANY_EDGES {
        return false;
    }
    if room <= n {
        return false;
    }
    2 * edges < room - n
}

// How many edges each vertex has.
fn count(w: &mut [u32], at: usize, n: usize, from: &[u32], to: &[u32])
    requires list_room { ListRoom (length w.old) at n (length from.now) }
    requires ends { Ends n from.now to.now }
    requires n_value { region 0 w.old at (n + 1) ≡ replicate (n + 1) 0 }
    ensures { w.new ≡ put w.old at (degrees from.now to.now n (length from.now)) }
{
    for e in 0..from.len() {
        let a = wide(from[e]);
        let b = wide(to[e]);
        crate::count_edge(w, at + a, at + b);
    }
}

// Puts every edge into the lists of its ends, from the last to the first.
fn fill(w: &mut [u32], at: usize, n: usize, from: &[u32], to: &[u32])
    requires list_room { ListRoom (length w.old) at n (length from.now) }
    requires ends { Ends n from.now to.now }
    requires n_value { region 0 w.old at (n + 1) ≡ cursors from.now to.now n (length from.now) }
    ensures { w.new ≡ put w.old at (adjacency from.now to.now n) }
{
    for e in (0..from.len()).rev() {
        let a = wide(from[e]);
        let b = wide(to[e]);
        crate::place_edge(w, at, n, a, b, e);
    }
}

// The lists of the edges at n vertices, from `at` on.
pub(crate) fn build(w: &mut [u32], at: usize, n: usize, from: &[u32], to: &[u32])
    requires list_room { ListRoom (length w.old) at n (length from.now) }
    requires ends { Ends n from.now to.now }
    ensures { w.new ≡ put w.old at (adjacency from.now to.now n) }
{
    w[at..at + n + 1].fill(0);
    count(w, at, n, from, to);
    crate::sums(w, at, n + 1);
    fill(w, at, n, from, to);
}

// The lists of the edges at n vertices, in the first numbers of `lists`, and true; or false, and nothing is written.
pub fn vertex_lists(n: usize, from: &[u32], to: &[u32], lists: &mut [u32]) -> bool
    ensures { VertexLists n from.now to.now lists.old lists.new result }
{
    if !are_edges(n, from, to) {
        return false;
    }
    if !has_room(n, from.len(), lists.len()) {
        return false;
    }
    build(lists, 0, n, from, to);
    true
}
