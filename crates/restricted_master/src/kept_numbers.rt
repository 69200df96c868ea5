//! Numbers of aircraft and routes, in the 32 bits in which they are kept.

ghost use Rattle.std.specs.Prelude.{◌≡◌, ◌<◌, ◌^◌};

/// The number of what stands at an index; there are never more of them than 32 bits count.
pub fn number_of(index: usize) -> u32
    ensures { index < 2 ^ 32 → result ≡ index }
{
    (index % (1 << 32)) as u32
}
