//! Lines in flight that go over in parts: whether one has begun to go, and whether some bytes complete it.

ghost use Rattle.std.specs.Prelude.{◌≡◌, ◌↔◌, ◌<◌, ◌≤◌, IsTrue};
ghost use Rattle.gc_world.specs.Streams.{is_begun};

/// Whether the first byte of line k of a queue has gone, where `gone` bytes of the front line have. Lines are counted from 0, at the
/// front.
#[inline(always)]
pub fn is_begun(k: usize, gone: usize) -> bool
    ensures { result ≡ is_begun k gone }
{
    k == 0 && gone > 0
}

/// Whether `n` bytes complete the front line, of which `remaining` bytes are still to go; not if none are.
#[inline(always)]
pub fn completes(remaining: usize, n: usize) -> bool
    ensures { IsTrue result ↔ ((0 < remaining) × (remaining ≤ n)) }
{
    0 < remaining && remaining <= n
}
