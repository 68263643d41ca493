// The sides of a whole list of triangles, numbered once for all that asks for them: for each triangle the numbers of its three sides, and for each
// side in how many triangles it lies. All stands in one slice (specs/Numbering.antt).
ghost use Rattle.std.specs.Prelude.{◌≡◌, ◌+◌, ◌*◌, ◌<◌, ◌≤◌, ◌^◌, [], ◌∷◌, length, get_or, set};
ghost use Rattle.std.proofs.lemmas.List.Edits.{sets};
ghost use Rattle.edges.specs.Table.{Held, end_of, fourths, split};
ghost use Rattle.edges.specs.Numbering.{NumberingRoom, NumberStep, NumberedTo, Below, Counted};

// Three numbers in a row.
pub fn put_three(w: &mut [u32], at: usize, p: u32, q: u32, r: u32)
    requires { at + 3 ≤ length w.old }
    ensures { w.new ≡ sets w.old at (p ∷ q ∷ r ∷ []) }
{
    slices::copy(&[p, q, r], w, at);
}

// How many triangles there are, where their corners stand and where the numbers of their sides go, three each; and the table behind both.
#[derive(Clone, Copy)]
pub struct NumberingPlan {
    pub triangles: usize,
    pub corners: usize,
    pub numbers: usize,
    pub table: usize,
    pub buckets: usize,
}

// The sides of triangle i are met, and their numbers stored. How many sides there are then.
fn number_triangle(w: &mut [u32], p: NumberingPlan, i: usize, m: usize) -> usize
    requires numbering_room { NumberingRoom p.corners p.numbers p.table p.buckets p.triangles (length w.old) }
    requires held { Held p.table p.buckets w.old m }
    requires i_lt_triangles { (i < p.triangles) × (m ≤ 3 * i) }
    ensures { NumberStep p.corners p.numbers p.table p.buckets i w.old m w.new result }
{
    let c = mesh::corners(w, p.corners + 3 * i);
    let t = crate::Table {
        base: p.table,
        buckets: p.buckets,
        sides: m,
    };
    let met = crate::meet_triangle(w, t, c.a, c.b, c.c);
    put_three(
        w,
        p.numbers + 3 * i,
        met.ab as u32,
        met.bc as u32,
        met.ca as u32,
    );
    met.sides
}

// The sides of all triangles are met in an empty table, and their numbers stored. How many sides there are.
fn number_all(w: &mut [u32], p: NumberingPlan) -> usize
    requires numbering_room { NumberingRoom p.corners p.numbers p.table p.buckets p.triangles (length w.old) }
    requires held { Held p.table p.buckets w.old 0 }
    ensures { NumberedTo p.corners p.numbers p.table p.buckets p.triangles w.old w.new result }
{
    let mut m = 0;
    for i in 0..p.triangles {
        m = number_triangle(w, p, i, m);
    }
    m
}

// The same, in a table that it clears itself.
pub fn number_triangles(w: &mut [u32], p: NumberingPlan) -> usize
    requires { NumberingRoom p.corners p.numbers p.table p.buckets p.triangles (length w.old) }
    ensures { NumberedTo p.corners p.numbers p.table p.buckets p.triangles w.old w.new result }
{
    crate::clear(w, p.table, p.buckets);
    number_all(w, p)
}

// Every fourth of the numbers from `at` on, m of them, copied to `to`.
fn copy_fourths(w: &mut [u32], at: usize, m: usize, to: usize)
    requires { (at + 4 * m ≤ to + 3) × (to + m ≤ length w.old) }
    ensures { w.new ≡ sets w.old to (fourths at w.old m) }
{
    for k in 0..m {
        w[to + k] = w[at + 4 * k];
    }
}

// The lower ends of a table's sides, copied to `from`, and their upper ends to `to`.
pub fn split_ends(w: &mut [u32], t: crate::Table, from: usize, to: usize)
    requires { (end_of t ≤ from) × (from + t.sides ≤ to) × (to + t.sides ≤ length w.old) }
    ensures { w.new ≡ split t.base t.buckets t.sides from to w.old }
{
    copy_fourths(w, t.base + t.buckets, t.sides, from);
    copy_fourths(w, t.base + t.buckets + 1, t.sides, to);
}

// One more of number j from e on, among the counts from a on.
fn count_number(w: &mut [u32], e: usize, j: usize, a: usize, m: usize)
    requires j_bound { (e + j < a) × (a + m ≤ length w.old) }
    requires j_bound_2 { (get_or w.old (e + j) 0 < m) × (get_or w.old (a + get_or w.old (e + j) 0) 0 + 1 < 2 ^ 32) }
    ensures { w.new ≡ set w.old (a + get_or w.old (e + j) 0) (get_or w.old (a + get_or w.old (e + j) 0) 0 + 1) }
{
    let at = a + mesh::index(w[e + j]);
    w[at] = w[at] + 1;
}

// The k numbers from e on are counted, from a on, over counts of 0.
fn count_all(w: &mut [u32], e: usize, k: usize, a: usize, m: usize)
    requires k_bound { ((e + k ≤ a) × (a + m ≤ length w.old)) × (k < 2 ^ 32) }
    requires below { Below m e w.old k }
    requires counted { Counted e 0 a m w.old w.old }
    ensures { Counted e k a m w.old w.new }
{
    for j in 0..k {
        count_number(w, e, j, a, m);
    }
}

// How often each of m numbers stands among the k from e on, counted from a on.
pub fn count_numbers(w: &mut [u32], e: usize, k: usize, a: usize, m: usize)
    requires k_bound { ((e + k ≤ a) × (a + m ≤ length w.old)) × (k < 2 ^ 32) }
    requires below { Below m e w.old k }
    ensures { Counted e k a m w.old w.new }
{
    slices::fill(w, a, m, 0);
    count_all(w, e, k, a, m);
}
