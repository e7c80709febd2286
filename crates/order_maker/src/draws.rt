//! Draws of pseudo-random numbers, as the sample `rand` of the C standard makes them.
ghost use Rattle.std.specs.Prelude.{◌≡◌, ◌<◌, ◌≤◌};
ghost use Rattle.order_maker.specs.Draws.{next_state, drawn};

/// A draw leaves out the low 16 bits of a state, which repeat too soon: it divides by this.
const LOW_PART: u32 = 65_536;

/// Draws a number below `limit`.
#[tactic(auto, unfolding(crate::specs::Draws::next_state, crate::specs::Draws::drawn))]
pub(crate) fn draw(state: &mut u32, limit: u32) -> u32
    requires { 1 ≤ limit }
    ensures state { state.new ≡ next_state state.old }
    ensures number { result ≡ drawn limit state.new }
    ensures below { result < limit }
{
    let next = (u64::from(*state) * 1_103_515_245 + 12_345) % (1 << 31);
    *state = next as u32;
    *state / LOW_PART % limit
}
