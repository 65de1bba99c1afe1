//! Which targets a station's text leaves unwatched.

ghost use Rattle.std.specs.Prelude.{◌≡◌};
ghost use Rattle.gc_texts.specs.Watching.{is_unwatched};

/// Whether one of `unwatched` is this target.
pub(crate) fn is_unwatched(target: u32, unwatched: &[u32]) -> bool
    ensures { result ≡ is_unwatched target unwatched.now }
{
    unwatched.iter().any(|other| *other == target)
}
