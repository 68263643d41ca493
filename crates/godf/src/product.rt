// The product of a Hermitian matrix and a vector, one vertex at a time, for callers that spread it over threads. A complex number is two doubles, re and im.
ghost use Rattle.linear_rows.specs.Vertex.{pairs_of, lent_matrix, vertex_product};
ghost use Rattle.godf.specs.Product.{ListsTold, ProductTold};

// 0: `lists` has the edges at each of n vertices; 1: an edge does not have two different ends below n, or a slice is too short; then nothing is written.
#[unsafe(no_mangle)]
pub extern "C" fn godf_vertex_lists(n: usize, from: &[u32], to: &[u32], lists: &mut [u32]) -> u32
    ensures { ListsTold n from.now to.now lists.old result lists.new }
{
    if linear_adjacency::lent::vertex_lists(n, from, to, lists) {
        return 0;
    }
    1
}

// 0: `re` and `im` are the product at `vertex`; 1: an index is outside of its slice; then nothing is written.
#[unsafe(no_mangle)]
pub extern "C" fn godf_vertex_product(
    diagonal: &[f64],
    off: &[f64],
    from: &[u32],
    to: &[u32],
    lists: &[u32],
    x: &[f64],
    vertex: usize,
    re: &mut f64,
    im: &mut f64,
) -> u32
    ensures { ProductTold
        (vertex_product (lent_matrix diagonal.now off.now from.now to.now) (pairs_of x.now) lists.now vertex)
        re.old im.old result re.new im.new }
{
    let product = linear_rows::lent::vertex_product(diagonal, off, from, to, lists, x, vertex);
    let Some(z) = product else {
        return 1;
    };
    *re = z.re;
    *im = z.im;
    0
}
