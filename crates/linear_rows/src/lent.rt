// The product at one vertex, where matrix, lists and vector are lent in slices of their own. It takes any slices and tests each index before it reads, and it
// only reads: so that several threads can share the slices, a vertex each. A complex number is a pair re, im.
ghost use Rattle.std.specs.Prelude.{◌≡◌, true, ◌+◌, ◌/◌, ◌<◌, ◌≤◌, length, get_or};
ghost use Rattle.complex.specs.Complex.{cnan};
ghost use Rattle.linear_cells.specs.Region.{region};
ghost use Rattle.linear_rows.specs.Rows.{other_end};
ghost use Rattle.linear_rows.specs.Vertex.{pairs_of, lent_matrix, is_inside, entry_of, term_of, has_list, product_over, vertex_product};

use complex::Complex;
use linear_cells::wide;

// Complex number i of a slice of pairs.
fn pair_at(z: &[f64], i: usize) -> Complex
    requires { i < length z.now / 2 }
    ensures { result ≡ get_or (pairs_of z.now) i cnan }
{
    Complex {
        re: z[2 * i],
        im: z[2 * i + 1],
    }
}

// The other end of edge e, seen from v.
fn other_end(from: &[u32], to: &[u32], v: usize, e: usize) -> usize
    requires { (e < length from.now) × (e < length to.now) }
    ensures { result ≡ other_end from.now to.now v e }
{
    let a = wide(from[e]);
    if a == v {
        return wide(to[e]);
    }
    a
}

// The entry of edge e in v's row.
fn entry_at(off: &[f64], from: &[u32], v: usize, e: usize) -> Complex
    requires { (e < length off.now / 2) × (e < length from.now) }
    ensures { result ≡ entry_of (pairs_of off.now) from.now v e }
{
    let z = pair_at(off, e);
    if wide(from[e]) == v {
        return z;
    }
    z.conj()
}

// Whether e is an edge, and its other end, seen from v, is within the vector.
// Kept: tests one by one, here and in has_list. A chain of `&&` joins its parts as values, and its proof is a tree of cases in place of a line for each test.
fn is_inside(off: &[f64], from: &[u32], to: &[u32], x: &[f64], v: usize, e: usize) -> bool
    ensures { result ≡ is_inside (pairs_of off.now) from.now to.now (pairs_of x.now) v e }
{
    if e >= from.len() {
        return false;
    }
    if e >= to.len() {
        return false;
    }
    if e >= off.len() / 2 {
        return false;
    }
    other_end(from, to, v, e) < x.len() / 2
}

// What edge e adds in v's row.
fn term(off: &[f64], from: &[u32], to: &[u32], x: &[f64], v: usize, e: usize) -> Complex
    requires { is_inside (pairs_of off.now) from.now to.now (pairs_of x.now) v e ≡ true }
    ensures { result ≡ term_of (pairs_of off.now) from.now to.now (pairs_of x.now) v e }
{
    let z = entry_at(off, from, v, e);
    let j = other_end(from, to, v, e);
    z.mul(pair_at(x, j))
}

// Row v times x, over the `count` edges whose numbers stand in `lists` from `at` on. None where an index lies outside its slice.
fn product_over(
    diagonal: &[f64],
    off: &[f64],
    from: &[u32],
    to: &[u32],
    lists: &[u32],
    x: &[f64],
    v: usize,
    at: usize,
    count: usize,
) -> Option<Complex>
    requires { (at + count ≤ length lists.now) × (v < length diagonal.now) × (v < length x.now / 2) }
    ensures { result ≡ product_over (lent_matrix diagonal.now off.now from.now to.now) (pairs_of x.now) v
        (region 0 lists.now at count) }
{
    let mut sum = pair_at(x, v).scale(diagonal[v]);
    for k in 0..count {
        let e = wide(lists[at + k]);
        if !is_inside(off, from, to, x, v, e) {
            return None;
        }
        sum = sum.add(term(off, from, to, x, v, e));
    }
    Some(sum)
}

// Whether v is one of n vertices, and its list lies within the slice.
fn has_list(lists: &[u32], n: usize, v: usize) -> bool
    ensures { result ≡ has_list lists.now n v }
{
    if v >= n {
        return false;
    }
    if lists.len() <= n {
        return false;
    }
    let begin = wide(lists[v]);
    let end = wide(lists[v + 1]);
    if end < begin {
        return false;
    }
    end < lists.len() - n
}

// The product at vertex v, over the lists that linear_adjacency::lent::vertex_lists makes. None where an index lies outside its slice.
pub fn vertex_product(
    diagonal: &[f64],
    off: &[f64],
    from: &[u32],
    to: &[u32],
    lists: &[u32],
    x: &[f64],
    v: usize,
) -> Option<Complex>
    ensures { result ≡ vertex_product (lent_matrix diagonal.now off.now from.now to.now) (pairs_of x.now)
        lists.now v }
{
    let n = diagonal.len();
    if !has_list(lists, n, v) {
        return None;
    }
    if v >= x.len() / 2 {
        return None;
    }
    let begin = wide(lists[v]);
    let end = wide(lists[v + 1]);
    product_over(
        diagonal,
        off,
        from,
        to,
        lists,
        x,
        v,
        n + 1 + begin,
        end - begin,
    )
}
