// Refusals: one record for all of document 01's table. A check, or a stage of a pass, returns nothing or a refusal, which `?` passes up unaltered. Which of the
// two passes refused is added above the pass, by the solve: the pass is one function.
#![tactic(auto)]

ghost use Rattle.std.specs.Prelude.{◌≡◌};
ghost use Rattle.refusals.specs.Refusal.{row_at, between, gave_up};

// A row of the table with its place, for row 22 the edge's other end, for rows 19 to 24 the pass that found it, and for row 24 the reason: each 0 where the
// table says "none". The pass is 0 until the solve sets it.
// Kept: rows and reasons are numbers, not an enum, since `refused` and `gave_up` promise `row_at number place` and `gave_up reason place` of every number, and C
// gets the number.
#[derive(Clone, Copy)]
pub struct Refusal {
    pub number: u64,
    pub place: u64,
    pub other: u64,
    pub pass: u64,
    pub reason: u64,
}

// A row with a triangle or a point for its place, or with none, which is 0.
pub fn refused(number: u64, place: usize) -> Refusal
    ensures { result ≡ row_at number place }
{
    Refusal {
        number,
        place: place as u64,
        other: 0,
        pass: 0,
        reason: 0,
    }
}

// Row 22, of the edge with these ends.
pub fn between(lower: usize, upper: usize) -> Refusal
    ensures { result ≡ between lower upper }
{
    Refusal {
        other: upper as u64,
        ..refused(22, lower)
    }
}

// Row 24: the solver gave up, at a vertex for reason 4.
pub fn gave_up(reason: u64, place: u64) -> Refusal
    ensures { result ≡ gave_up reason place }
{
    Refusal {
        place,
        reason,
        ..refused(24, 0)
    }
}
