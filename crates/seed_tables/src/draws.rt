//! Numbers that look like chance, the same ones for the same seed.
//!
//! A step multiplies and adds in 64 bits. A draw takes the upper 31 bits alone, since the low ones repeat soon.

ghost use Rattle.std.specs.Prelude.{◌≡◌, ◌<◌};
ghost use Rattle.seed_tables.specs.Draws.{drawn, next};

#[tactic(auto, unfolding(crate::specs::Draws::next))]
pub(crate) fn next(x: u64) -> u64
    ensures { result ≡ next x }
{
    x.wrapping_mul(6_364_136_223_846_793_005)
        .wrapping_add(1_442_695_040_888_963_407)
}

#[tactic(auto, unfolding(crate::specs::Draws::drawn))]
pub(crate) fn drawn(x: u64, q: u64) -> u64
    requires { 0 < q }
    ensures exact { result ≡ drawn x q }
    ensures below { result < q }
{
    (x >> 33) % q
}
