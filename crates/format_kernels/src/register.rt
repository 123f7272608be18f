//! A shift register, from which the data come that are timed.

ghost use Rattle.std.specs.Prelude.{◌≡◌};
ghost use Rattle.format_kernels.specs.Register as spec;

/// The state before the first step.
pub const FIRST_STATE: u64 = 0x9e37_79b9_7f4a_7c15;

/// The state after one step more (xorshift, with the shifts 13, 7 and 17).
#[tactic(auto, unfolding(crate::specs::Register::next_state))]
pub fn next_state(state: u64) -> u64
    ensures { result ≡ spec.next_state state }
{
    let up = state ^ (state << 13);
    let down = up ^ (up >> 7);
    down ^ (down << 17)
}
