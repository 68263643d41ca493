// One pass: the Rust's solve_mesh, from a floor in the work slices to the angles of its field, or a refusal by rows 19 to 24.
// specs/Pass.antt says what it finds, as one function of lists, and specs/Work.antt where it reads and writes.
#![tactic(auto)]

ghost use Rattle.std.specs.Prelude.{◌≡◌, ◌*◌, ◌≤◌, length};
ghost use Rattle.edges.specs.Numbering.{Below};
ghost use Rattle.pass_assembly.specs.Work.{Indexed};
ghost use Rattle.linear_hermitian.specs.Work.{shift_matrix, ShiftRoom};
ghost use Rattle.pass_assembly.specs.Shift.{shift_of};
ghost use Rattle.pass_layout.specs.Layout.{Fits, Ordered, layout_of};
ghost use Rattle.pass_layout.specs.Matrices.{mass_at, energy_at};
ghost use Rattle.pass_layout.specs.Work.{floor_in};
ghost use Rattle.pass_setup.specs.Work.{Stands};
ghost use Rattle.pass_branches.specs.Work.{Finds};
ghost use Rattle.pass.specs.Work.{pass_in, field_in, plan_at, Builds};

use pass_assembly::AssemblyPlan;
use pass_assembly::shift::Traces;
use pass_branches::Search;
use pass_layout::{Base, Layout};
use pass_options::Options;
use pass_terms::Mode;
use refusals::Refusal;

// What is asked beside the floor and the options: whether guidance is given, and its weight; how many outer iterations there may be.
#[derive(Clone, Copy)]
pub struct Asked {
    pub guided: bool,
    pub weight: f64,
    pub iterations: usize,
}

fn plan_at(l: Layout) -> AssemblyPlan
    ensures { result ≡ plan_at l }
{
    AssemblyPlan {
        x: l.x,
        y: l.y,
        areas: l.areas,
        transports: l.transports,
        corners: l.wound,
        numbers: l.numbers,
        triangles: l.triangles,
    }
}

// Both matrices before any shift. Their traces.
fn build(work: &mut [f64], words: &[u32], l: Layout, edges: usize, m: Mode) -> Traces
    requires ordered { Ordered l (length work.old) (length words.now) }
    requires indexed { Indexed words.now (plan_at l) l.points edges × (edges ≤ 3 * l.triangles) }
    ensures { Builds l edges m work.old words.now work.new result }
{
    let mass = pass_layout::mass_at(l, edges);
    let energy = pass_layout::energy_at(l, edges);
    pass_assembly::assemble(work, words, plan_at(l), mass, energy, m);
    pass_assembly::shift::traces_of(work, mass, energy)
}

// The energy matrix gets its shift.
fn shift_energy(work: &mut [f64], l: Layout, edges: usize, t: Traces)
    requires { ShiftRoom (length work.old) (energy_at l edges) (mass_at l edges) }
    ensures { work.new ≡ shift_matrix work.old (energy_at l edges) (shift_of t) (mass_at l edges) }
{
    let mass = pass_layout::mass_at(l, edges);
    let energy = pass_layout::energy_at(l, edges);
    pass_assembly::shift::shift_energy(work, energy, mass, t);
}

// The rest of a pass, once its floor is set up.
fn field_over(
    work: &mut [f64],
    words: &mut [u32],
    l: Layout,
    edges: usize,
    o: Options,
    a: Asked,
) -> Result<(), Refusal>
    requires ordered { Ordered l (length work.old) (length words.old) }
    requires stands { Stands l edges (floor_in l work.old words.old) work.old words.old }
    ensures { Finds l l.mass l.table (field_in l o a work.old words.old)
        work.old words.old work.new words.new result }
{
    let mode = Mode {
        accurate: o.accurate,
        holomorphic: o.holomorphic,
    };
    let t = build(work, words, l, edges, mode);
    pass_assembly::shift::check(t)?;
    shift_energy(work, l, edges, t);
    let search = Search {
        guided: a.guided,
        weight: a.weight,
        trace: t.energy,
        iterations: a.iterations,
    };
    pass_branches::find_field(work, words, l, edges, o, search)
}

// The pass over the floor that begins at `at`.
pub fn pass(
    work: &mut [f64],
    words: &mut [u32],
    at: Base,
    o: Options,
    a: Asked,
) -> Result<(), Refusal>
    requires fits { Fits at (length work.old) (length words.old) }
    requires below { Below at.points at.words words.old (3 * at.triangles) }
    ensures { Finds (layout_of at) (layout_of at).areas (layout_of at).wound (pass_in (layout_of at) o a work.old words.old)
        work.old words.old work.new words.new result }
{
    let l = pass_layout::layout_at(at);
    let edges = pass_setup::set_up(work, words, l)?;
    field_over(work, words, l, edges, o, a)
}
