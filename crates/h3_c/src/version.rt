//! Which version of the library this is.

ghost use Rattle.std.specs.Prelude.{◌≡◌, pos};

/// The version as a number: 10,000 times the major one, and 100 times the minor one, and the patch.
#[unsafe(no_mangle)]
pub extern "C" fn h3w_version() -> i32
    ensures { result ≡ pos 10300 }
{
    10_300
}
