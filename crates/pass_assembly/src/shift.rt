// The traces of the mass and the energy matrix, refusal 24 by reasons 1 and 2, and the shift of the energy in place.
ghost use Rattle.std.specs.Prelude.{◌≡◌, length};
ghost use Rattle.std.specs.Float.{nan};
ghost use Rattle.linear_cells.specs.Region.{region};
ghost use Rattle.linear_hermitian.specs.Work.{ShiftRoom, shift_matrix};
ghost use Rattle.pass_assembly.specs.Shift.{traces_of, shift_of};
ghost use Rattle.pass_assembly.specs.Work.{traces_stage, TraceRoom};

use linear_hermitian::Hermitian;
use refusals::Refusal;

const ENERGY_SHIFT: f64 = 1e-8;

#[derive(Clone, Copy)]
pub struct Traces {
    pub energy: f64,
    pub mass: f64,
}

pub fn traces_of(work: &[f64], mass: Hermitian, energy: Hermitian) -> Traces
    requires { TraceRoom (length work.now) mass energy }
    ensures { result ≡ traces_of (region nan work.now mass.diagonal mass.size) (region nan work.now energy.diagonal energy.size) }
{
    Traces {
        energy: linear_hermitian::trace(work, energy.diagonal, energy.size),
        mass: linear_hermitian::trace(work, mass.diagonal, mass.size),
    }
}

// Whether both traces are finite and positive.
pub fn check(t: Traces) -> Result<(), Refusal>
    ensures { result ≡ traces_stage t }
{
    if float::not_positive(t.energy) {
        return Err(refusals::gave_up(1, 0));
    }
    if float::not_positive(t.mass) {
        return Err(refusals::gave_up(2, 0));
    }
    Ok(())
}

// The energy becomes the energy plus the shift times the mass.
pub fn shift_energy(work: &mut [f64], energy: Hermitian, mass: Hermitian, t: Traces)
    requires { ShiftRoom (length work.old) energy mass }
    ensures { work.new ≡ shift_matrix work.old energy (shift_of t) mass }
{
    linear_hermitian::shifted(work, energy, ENERGY_SHIFT * t.energy / t.mass, mass);
}
