// Copies and fills of a part of a slice. proofs/Runs.antt has the laws of runs of stores (`sets` of the library), which many crates use.
#![tactic(auto)]

ghost use Rattle.std.specs.Prelude.{◌≡◌, ◌+◌, ◌≤◌, length, replicate};
ghost use Rattle.std.proofs.lemmas.List.Edits.{sets};

// All of `from`, to the places of `to` from `at` on. A loop, since the library's `copy_from_slice` would have libgodf.a take `memmove` from outside.
#[tactic(auto, using(crate::proofs::Runs::copy_more))]
pub fn copy<T: Copy>(from: &[T], to: &mut [T], at: usize)
    requires { at + length from.now ≤ length to.old }
    ensures { to.new ≡ sets to.old at from.now }
{
    for i in 0..from.len() {
        to[at + i] = from[i];
    }
}

// `value` at n places from `at` on.
pub fn fill<T: Copy>(to: &mut [T], at: usize, n: usize, value: T)
    requires { at + n ≤ length to.old }
    ensures { to.new ≡ sets to.old at (replicate n value) }
{
    for place in &mut to[at..at + n] {
        *place = value;
    }
}
