// The version of the library.

ghost use Rattle.std.specs.Prelude.{◌≡◌};
ghost use Rattle.he_c.specs.declared.version.TheConstants.{VERSION};

/// 10,000 times the major version, plus 100 times the minor version, plus the patch level: 1.0.0.
pub const VERSION: u32 = 10_000;

/// Returns the version of the loaded library; `HE_VERSION` of `he.h` is that of the header.
#[unsafe(no_mangle)]
pub extern "C" fn he_version() -> u32
    ensures { result ≡ VERSION }
{
    VERSION
}
