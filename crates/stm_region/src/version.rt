//! Versions of numbers that are known to be in range.

ghost use Rattle.std.specs.Prelude.{◌≡◌, ◌<◌};
ghost use Rattle.stm_core.specs.declared.version.TheConstants.{VERSION_LIMIT};

use stm_core::Version;

/// Returns the version of a number that is in range.
#[inline]
pub(crate) fn as_version(number: u64) -> Version
    requires { number < VERSION_LIMIT }
    ensures { result ≡ number }
{
    let Some(version) = Version::new(number) else {
        unreachable!()
    };
    version
}
