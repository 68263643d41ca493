// The first part of a pass: triangles put counter-clockwise and their areas, size gradients, numbered edges, transports. It refuses by rows 19 to 22.
// specs/Setup.antt says what they are, and specs/Work.antt where they are. Each `set_up..` function does the stage that it is named for and all after it:
// `set_up`, then `set_up_from_gradients`, `set_up_from_edges` and `set_up_transports`.
#![tactic(auto)]

ghost use Rattle.std.specs.Prelude.{◌≡◌, ◌*◌, length};
ghost use Rattle.edges.specs.Numbering.{Below};
ghost use Rattle.refusals.specs.Refusal.{row_at, between};
ghost use Rattle.pass_layout.specs.Layout.{Ordered};
ghost use Rattle.pass_layout.specs.Work.{floor_in};
ghost use Rattle.pass_setup.specs.Work.{Wound, Averaged, Joined, SetUp};

use pass_layout::Layout;
use refusals::Refusal;

// The last stage: the transports of the m edges, up to the first that row 22 refuses. How many edges the floor has.
fn set_up_transports(work: &mut [f64], words: &[u32], l: Layout, m: usize) -> Result<usize, Refusal>
    requires ordered { Ordered l (length work.old) (length words.now) }
    requires joined { Joined l m (floor_in l work.old words.now) work.old words.now }
    ensures { SetUp l work.old words.now work.new words.now result }
{
    let p = pass_transports::TransportsPlan {
        points: l.points,
        x: l.x,
        y: l.y,
        sizes: l.sizes,
        gradients: l.gradients,
        transports: l.transports,
    };
    let lowers = l.from;
    let lowers_end = lowers + m;
    let from = &words[lowers..lowers_end];
    let uppers = l.to;
    let uppers_end = uppers + m;
    let to = &words[uppers..uppers_end];
    pass_transports::transports(work, p, from, to)?;
    Ok(m)
}

// From the edges on: they are numbered in the order first met; then the transports.
fn set_up_from_edges(work: &mut [f64], words: &mut [u32], l: Layout) -> Result<usize, Refusal>
    requires ordered { Ordered l (length work.old) (length words.old) }
    requires averaged { Averaged l (floor_in l work.old words.old) work.old words.old }
    ensures { SetUp l work.old words.old work.new words.new result }
{
    let p = edges::numbers::NumberingPlan {
        triangles: l.triangles,
        corners: l.wound,
        numbers: l.numbers,
        table: l.table,
        buckets: l.buckets,
    };
    let m = edges::numbers::number_triangles(words, p);
    let t = edges::Table {
        base: l.table,
        buckets: l.buckets,
        sides: m,
    };
    edges::numbers::split_ends(words, t, l.from, l.to);
    set_up_transports(work, words, l, m)
}

// From the size gradients on, up to the first point that row 20 or 21 refuses; then the edges and transports.
fn set_up_from_gradients(work: &mut [f64], words: &mut [u32], l: Layout) -> Result<usize, Refusal>
    requires ordered { Ordered l (length work.old) (length words.old) }
    requires wound { Wound l (floor_in l work.old words.old) work.old words.old }
    ensures { SetUp l work.old words.old work.new words.new result }
{
    let p = pass_gradients::GradientsPlan {
        points: l.points,
        triangles: l.triangles,
        x: l.x,
        y: l.y,
        sizes: l.sizes,
        areas: l.areas,
        gradients: l.gradients,
        wound: l.wound,
    };
    pass_gradients::gather(work, words, p);
    pass_gradients::divide(work, l.gradients, l.points)?;
    set_up_from_edges(work, words, l)
}

// All of set-up: the corners counter-clockwise and the areas, up to the first triangle that row 19 refuses; then the gradients, edges and transports.
pub fn set_up(work: &mut [f64], words: &mut [u32], l: Layout) -> Result<usize, Refusal>
    requires ordered { Ordered l (length work.old) (length words.old) }
    requires below { Below l.points l.given words.old (3 * l.triangles) }
    ensures { SetUp l work.old words.old work.new words.new result }
{
    let p = pass_geometries::GeometriesPlan {
        points: l.points,
        triangles: l.triangles,
        x: l.x,
        y: l.y,
        areas: l.areas,
        given: l.given,
        wound: l.wound,
    };
    pass_geometries::geometries(work, words, p)?;
    set_up_from_gradients(work, words, l)
}
