// The second part of a pass: from the two matrices to the field, by the branch that the options choose. It refuses by rows 23 and 24.
// specs/Branches.antt says what each branch finds, and specs/Work.antt where it stands. `flag` has a flag for each point, 1 where it lies on the boundary,
// and `from` and `to` the ends of the edges. The linear solver multiplies by a packed copy of its matrix. `pack_edges` makes what depends
// on the edges alone, once in a pass; module `solver` makes the entries, once for each system.
#![tactic(auto)]

mod solver;

ghost use Rattle.std.specs.Prelude.{◌≡◌, true, length};
ghost use Rattle.linear_adjacency.specs.Adjacency.{Ends};
ghost use Rattle.linear_packing.specs.Pack.{PackRoom, packed_in};
ghost use Rattle.pass_inverse_iteration.specs.Work.{Graphs};
ghost use Rattle.pass_constraints.specs.Constraints.{boundary_data};
ghost use Rattle.pass_systems.specs.Work.{TargetRoom, targets_at};
ghost use Rattle.pass_options.specs.declared.BoundaryMode.TheVariants.{Tangent};
ghost use Rattle.pass_layout.specs.Layout.{Ordered};
ghost use Rattle.pass_layout.specs.Matrices.{packing_at, source_at, Countable};
ghost use Rattle.pass_layout.specs.Work.{from_list, to_list, Edged};
ghost use Rattle.pass_branches.specs.Branches.{acts};
ghost use Rattle.pass_branches.specs.Work.{sought_in, Finds, pencil_at, BranchRoom, CopyRoom, CopyBehind, Copies, Packs, terms_at, none_acts};
ghost use Rattle.pass_branches.specs.Work.{LeavesSoft, LeavesFree, LeavesWeak, LeavesTangent, LeavesBy, LeavesAt, LeavesPacked, Bounds};

use pass_boundary::{Listing, Planes};
use pass_inverse_iteration::Outer;
use pass_layout::Layout;
use pass_options::{BoundaryMode, Options};
use pass_soft::Terms;
use pass_systems::SystemPlan;
use refusals::Refusal;
use solver::{BranchPlan, solve_system, vector_field};

// What else the field depends on: whether guidance is given, and its weight; the trace of the energy matrix before its shift; how many outer iterations
// there may be.
#[derive(Clone, Copy)]
pub struct Search {
    pub guided: bool,
    pub weight: f64,
    pub trace: f64,
    pub iterations: usize,
}

// The soft terms alone.
fn soft_field(
    work: &mut [f64],
    b: BranchPlan,
    from: &[u32],
    to: &[u32],
    words: &[u32],
) -> Result<(), Refusal>
    requires branch_room { BranchRoom (length work.old) b }
    requires graphs { Graphs (pencil_at b) from.now to.now }
    requires copy_room { CopyRoom b × Copies words.now from.now to.now b }
    ensures { LeavesSoft work.old work.new b from.now to.now result }
{
    pass_systems::soft_system(work, b.system, from, to);
    solve_system(work, b, from, to, words)
}

// The boundary held by a penalty.
fn weak_field(
    work: &mut [f64],
    b: BranchPlan,
    weight: f64,
    flag: &[u32],
    from: &[u32],
    to: &[u32],
    words: &[u32],
) -> Result<(), Refusal>
    requires branch_room { BranchRoom (length work.old) b × TargetRoom (length work.old) b.system }
    requires graphs { Graphs (pencil_at b) from.now to.now × (length flag.now ≡ b.system.energy.size) }
    requires copy_room { CopyRoom b × Copies words.now from.now to.now b }
    ensures { LeavesWeak work.old work.new b weight flag.now from.now to.now result }
{
    pass_systems::weak_system(work, b.system, weight, flag, from, to);
    solve_system(work, b, from, to, words)
}

// The boundary held exactly.
fn tangent_field(
    work: &mut [f64],
    b: BranchPlan,
    flag: &[u32],
    from: &[u32],
    to: &[u32],
    words: &[u32],
) -> Result<(), Refusal>
    requires branch_room { BranchRoom (length work.old) b × TargetRoom (length work.old) b.system }
    requires graphs { Graphs (pencil_at b) from.now to.now × (length flag.now ≡ b.system.energy.size) }
    requires system_value { boundary_data flag.now (targets_at work.old b.system) ≡ targets_at work.old b.system }
    requires copy_room { CopyRoom b × Copies words.now from.now to.now b }
    ensures { LeavesTangent work.old work.new b flag.now from.now to.now result }
{
    pass_systems::tangent_system(work, b.system, flag, from, to);
    solve_system(work, b, from, to, words)
}

// Whether no soft term acts.
fn none_acts(t: Terms) -> bool
    ensures { result ≡ none_acts t }
{
    if t.alignment > 0.0 {
        return false;
    }
    if t.guided {
        return !(t.weight > 0.0);
    }
    true
}

// No boundary mode acts.
fn free_field(
    work: &mut [f64],
    b: BranchPlan,
    from: &[u32],
    to: &[u32],
    words: &[u32],
) -> Result<(), Refusal>
    requires branch_room { BranchRoom (length work.old) b }
    requires graphs { Graphs (pencil_at b) from.now to.now }
    requires copy_room { (CopyRoom b × CopyBehind b) × Copies words.now from.now to.now b }
    ensures { LeavesFree work.old work.new b from.now to.now result }
{
    if none_acts(b.system.terms) {
        return vector_field(work, b, from, to, words);
    }
    soft_field(work, b, from, to, words)
}

// The branch of a boundary mode.
fn field_by(
    mode: BoundaryMode,
    work: &mut [f64],
    b: BranchPlan,
    flag: &[u32],
    from: &[u32],
    to: &[u32],
    words: &[u32],
) -> Result<(), Refusal>
    requires branch_room { BranchRoom (length work.old) b × TargetRoom (length work.old) b.system }
    requires graphs { Graphs (pencil_at b) from.now to.now × (length flag.now ≡ b.system.energy.size) }
    requires system_value { mode ≡ Tangent → boundary_data flag.now (targets_at work.old b.system) ≡ targets_at work.old b.system }
    requires copy_room { (CopyRoom b × CopyBehind b) × Copies words.now from.now to.now b }
    ensures { LeavesBy mode work.old work.new b flag.now from.now to.now result }
{
    match mode {
        BoundaryMode::None => free_field(work, b, from, to, words),
        BoundaryMode::Tangent => tangent_field(work, b, flag, from, to, words),
        BoundaryMode::Weak(weight) => {
            if weight > 0.0 {
                return weak_field(work, b, weight, flag, from, to, words);
            }
            free_field(work, b, from, to, words)
        }
    }
}

// Whether a boundary mode acts.
fn acts_on(mode: BoundaryMode) -> bool
    ensures { result ≡ acts mode }
{
    match mode {
        BoundaryMode::None => false,
        BoundaryMode::Tangent => true,
        BoundaryMode::Weak(weight) => weight > 0.0,
    }
}

fn terms_of(l: Layout, o: Options, s: Search) -> Terms
    ensures { result ≡ terms_at l o s }
{
    Terms {
        guided: s.guided,
        weight: s.weight,
        guidance: l.guidance,
        alignment: geometry::anisotropy_alignment_weight(o.anisotropy),
        angle: o.anisotropy_angle,
    }
}

// The field of what stands at l, with the flags and the targets there. `pack_edges` has run.
fn field_at(
    work: &mut [f64],
    words: &[u32],
    l: Layout,
    edges: usize,
    o: Options,
    s: Search,
) -> Result<(), Refusal>
    requires ordered { Ordered l (length work.old) (length words.now) }
    requires packs { Packs l edges words.now × (o.boundary ≡ Tangent → Bounds l work.old words.now) }
    ensures { LeavesAt l edges o s work.old work.new words.now result }
{
    let flags = l.flags;
    let flags_end = flags + l.points;
    let flag = &words[flags..flags_end];
    let lower = l.from;
    let lower_end = lower + edges;
    let from = &words[lower..lower_end];
    let upper = l.to;
    let upper_end = upper + edges;
    let to = &words[upper..upper_end];
    let terms = terms_of(l, o, s);
    let outer = Outer {
        x: l.x,
        y: l.y,
        trace: s.trace,
        iterations: s.iterations,
    };
    let energy = pass_layout::energy_at(l, edges);
    let mass = pass_layout::mass_at(l, edges);
    let vectors = pass_layout::vectors_at(l);
    let mode = o.boundary;
    let copy = pass_layout::packing_at(l, edges);
    let source = pass_layout::source_at(l, edges);
    let system = SystemPlan {
        energy,
        mass,
        vectors,
        targets: l.targets,
        terms,
    };
    let plan = BranchPlan {
        system,
        copy,
        source,
        angles: l.angles,
        outer,
    };
    field_by(mode, work, plan, flag, from, to, words)
}

// What depends on the edges alone of the packed copy. It overwrites the table of sides, which is no longer read.
fn pack_edges(words: &mut [u32], l: Layout, edges: usize)
    requires countable { Countable l edges × PackRoom (length words.old) (packing_at l edges) (source_at l edges) }
    requires ends { Ends l.points (from_list l edges words.old) (to_list l edges words.old) }
    ensures { words.new ≡ packed_in (packing_at l edges) (source_at l edges) words.old }
{
    linear_packing::pack(
        words,
        pass_layout::packing_at(l, edges),
        pass_layout::source_at(l, edges),
    );
}

// `pack_edges`, and then the field.
fn packed_field(
    work: &mut [f64],
    words: &mut [u32],
    l: Layout,
    edges: usize,
    o: Options,
    s: Search,
) -> Result<(), Refusal>
    requires ordered { Ordered l (length work.old) (length words.old) }
    requires edged { Edged l edges words.old × (o.boundary ≡ Tangent → Bounds l work.old words.old) }
    ensures { LeavesPacked l edges o s work.old work.new words.old words.new result }
{
    pack_edges(words, l, edges);
    field_at(work, words, l, edges, o, s)
}

// A boundary mode acts: row 23, or the field with its flags and targets.
fn held_field(
    work: &mut [f64],
    words: &mut [u32],
    l: Layout,
    edges: usize,
    o: Options,
    s: Search,
) -> Result<(), Refusal>
    requires ordered { Ordered l (length work.old) (length words.old) }
    requires edged { Edged l edges words.old × (acts o.boundary ≡ true) }
    ensures { Finds l l.energy l.table (sought_in l edges o s work.old words.old)
        work.old words.old work.new words.new result }
{
    let listing = Listing {
        triangles: l.triangles,
        sides: edges,
        buckets: l.buckets,
        corners: l.given,
        numbers: l.numbers,
        table: l.table,
        counts: l.counts,
        flags: l.flags,
    };
    let planes = Planes {
        points: l.points,
        x: l.x,
        y: l.y,
        targets: l.targets,
        first: l.direction,
    };
    let sides = pass_boundary::boundary_targets(work, words, listing, planes);
    if sides == 0 {
        return Err(refusals::refused(23, 0));
    }
    packed_field(work, words, l, edges, o, s)
}

// The angles of the field over the floor with so many edges, whose matrices stand at l.
pub fn find_field(
    work: &mut [f64],
    words: &mut [u32],
    l: Layout,
    edges: usize,
    o: Options,
    s: Search,
) -> Result<(), Refusal>
    requires ordered { Ordered l (length work.old) (length words.old) }
    requires edged { Edged l edges words.old }
    ensures { Finds l l.energy l.table (sought_in l edges o s work.old words.old)
        work.old words.old work.new words.new result }
{
    let mode = o.boundary;
    if acts_on(mode) {
        return held_field(work, words, l, edges, o, s);
    }
    packed_field(work, words, l, edges, o, s)
}
