// The head: the routine's own name, address and type, then its parameters and locals.
ghost use Rattle.std.specs.Prelude.{◌≡◌, ◌+◌, ◌*◌, ◌<◌, ◌≤◌, length};
ghost use Rattle.files.specs.Head.{variable_ok, fixed_ok, head_ok};

use crate::kinds::Bounds;

// The bytes before the variables, and those of a variable.
pub const FIXED: usize = 13;

pub const VARIABLE: usize = 4;

// The most parameters.
const PARAMETERS: u8 = 16;

// Whether variable k has a name and a type.
#[tactic(auto, unfolding(crate::specs::Head::variable_ok))]
fn check_variable(b: &[u8], k: usize, bounds: Bounds) -> bool
    requires { k * 4 + 17 ≤ length b.now }
    ensures { result ≡ variable_ok b.now bounds.names bounds.types k }
{
    let name = layout::get::<2>(b, k * VARIABLE + FIXED) as usize;
    let kind = layout::get::<2>(b, k * VARIABLE + FIXED + 2) as usize;
    (name < bounds.names) & (kind < bounds.types)
}

// Whether what stands before the variables is as it must be.
#[tactic(auto, unfolding(crate::specs::Head::fixed_ok))]
fn check_fixed(b: &[u8], bounds: Bounds) -> bool
    requires { 13 ≤ length b.now }
    ensures { result ≡ fixed_ok b.now bounds.names bounds.types }
{
    let rest = b.len() - FIXED;
    let name = layout::get::<2>(b, 0) as usize;
    let kind = layout::get::<2>(b, 10) as usize;
    let parameters = b[12];
    (rest % VARIABLE == 0)
        & (name < bounds.names)
        & (kind < bounds.types)
        & (parameters <= PARAMETERS)
        & (parameters as usize <= rest / VARIABLE)
}

#[tactic(auto, using(crate::proofs::HeadLaws::head_short, crate::proofs::HeadLaws::head_odd))]
pub fn check(b: &[u8], bounds: Bounds) -> bool
    ensures { result ≡ head_ok b.now bounds.names bounds.types }
{
    if b.len() < FIXED {
        return false;
    }
    if !check_fixed(b, bounds) {
        return false;
    }
    let count = (b.len() - FIXED) / VARIABLE;
    (0..count).all(|k| check_variable(b, k, bounds))
}
