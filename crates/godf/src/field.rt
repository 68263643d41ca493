// The two calls that read a field: the probe and the count of singularities. They return a code. Numbers are written through the caller's
// references, which keep their value if the answer has none.
ghost use Rattle.probe.specs.Probe.{probe_of};
ghost use Rattle.singularities.specs.Count.{singularities};
ghost use Rattle.godf.specs.Answers.{Probed, CountedIn};

// 0: `angle` is the angle at (x, y); 1: a length is not a multiple of 3; 2: no angle; 3: an angle of `alpha` is over 131,072 in absolute value.
#[unsafe(no_mangle)]
pub extern "C" fn godf_interp_angle(
    alpha: &[f64],
    points: &[f64],
    tris: &[u32],
    x: f64,
    y: f64,
    angle: &mut f64,
) -> u32
    ensures { Probed (probe_of alpha.now points.now tris.now (record { x = x; y = y })) angle.old result angle.new }
{
    match probe::interp_angle(alpha, points, tris, x, y) {
        Ok(a) => {
            *angle = a;
            0
        }
        Err(error) => u32::from(error),
    }
}

// 0: `valence_3` and `valence_5` count the triangles of positive and of negative charge; 1: the number of corners is not a multiple of 3.
#[unsafe(no_mangle)]
pub extern "C" fn godf_count_singularities(
    alpha: &[f64],
    tris: &[u32],
    valence_3: &mut usize,
    valence_5: &mut usize,
) -> u32
    ensures { CountedIn (singularities alpha.now tris.now)
        valence_3.old valence_5.old result valence_3.new valence_5.new }
{
    let Ok(counts) = singularities::count_singularities(alpha, tris) else {
        return 1;
    };
    *valence_3 = counts.valence_3;
    *valence_5 = counts.valence_5;
    0
}
