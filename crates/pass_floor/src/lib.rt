// A pass over a floor that is given in lent slices: its points, sizes and guidance are laid out in the work slice, the midpoints of cut sides behind the points,
// and passed over. Both passes of a solve are made so; the first has no cut sides. specs/Lay.antt says what is laid out, and what is found.
#![tactic(auto)]

mod inputs;

ghost use Rattle.std.specs.Prelude.{◌≡◌, ◌*◌, ◌/◌, length};
ghost use Rattle.edges.specs.Numbering.{Below};
ghost use Rattle.edges.specs.Table.{cuts_in};
ghost use Rattle.pass_floor.specs.Lay.{points_laid, guidance_laid, pass_at, LayRoom, GuidanceRoom, LaidRoom, Made};
ghost use Rattle.pass_floor.specs.First.{first_base, first_over, FirstRoom};

use edges::Table;
use inputs::Mean;
use pass::Asked;
use pass_layout::{Base, Layout};
use pass_options::Options;
use refusals::Refusal;

// The planes of the points' coordinates and sizes.
fn lay_points(
    points: &[f64],
    sizes: &[f64],
    words: &[u32],
    table: Table,
    work: &mut [f64],
    l: Layout,
)
    requires { LayRoom (length points.now) (length sizes.now) table (length words.now) l (length work.old) }
    ensures { work.new ≡ points_laid points.now sizes.now (cuts_in table words.now) l work.old }
{
    inputs::put_plane(points, words, table, 0, work, l.x);
    inputs::put_plane(points, words, table, 1, work, l.y);
    inputs::put_values(sizes, words, table, Mean::Half, work, l.sizes);
}

// The plane of the guidance, where there is any.
fn lay_guidance(
    guidance: &[f64],
    guided: bool,
    words: &[u32],
    table: Table,
    work: &mut [f64],
    l: Layout,
)
    requires { GuidanceRoom guided (length guidance.now) table (length words.now) l (length work.old) }
    ensures { work.new ≡ guidance_laid guided guidance.now (cuts_in table words.now) l work.old }
{
    if guided {
        inputs::put_values(guidance, words, table, Mean::Angle, work, l.guidance);
    }
}

// Lays the floor of the points as given and the midpoints out behind its triangles, which stand already, and passes over it.
pub fn pass_over(
    points: &[f64],
    sizes: &[f64],
    guidance: &[f64],
    table: Table,
    work: &mut [f64],
    words: &mut [u32],
    at: Base,
    o: Options,
    a: Asked,
) -> Result<(), Refusal>
    requires laid_room { LaidRoom at a.guided (length points.now) (length sizes.now) (length guidance.now) table (length work.old) (length words.old) }
    requires below { Below at.points at.words words.old (3 * at.triangles) }
    ensures { Made at (pass_at at o a table points.now sizes.now guidance.now words.old)
        work.old work.new words.old words.new result }
{
    let l = pass_layout::layout_at(at);
    lay_points(points, sizes, words, table, work, l);
    lay_guidance(guidance, a.guided, words, table, work, l);
    pass::pass(work, words, at, o, a)
}

// The pass over the floor as given, which begins at 0 in both work slices: its triangles are laid out first, and there are no cut sides.
pub fn first_pass(
    points: &[f64],
    triangles: &[u32],
    sizes: &[f64],
    guidance: &[f64],
    work: &mut [f64],
    words: &mut [u32],
    o: Options,
    a: Asked,
) -> Result<(), Refusal>
    requires first_room { FirstRoom a.guided (length points.now) (length triangles.now) (length sizes.now) (length guidance.now) (length work.old) (length words.old) }
    requires below { Below (length points.now / 3) 0 triangles.now (length triangles.now) }
    ensures { Made (first_base (length points.now) (length triangles.now))
        (first_over o a points.now triangles.now sizes.now guidance.now)
        work.old work.new words.old words.new result }
{
    let at = Base {
        reals: 0,
        words: 0,
        points: points.len() / 3,
        triangles: triangles.len() / 3,
    };
    let none = Table {
        base: 0,
        buckets: 0,
        sides: 0,
    };
    slices::copy(triangles, words, 0);
    pass_over(points, sizes, guidance, none, work, words, at, o, a)
}
