// The version of the calls, so that a program can compare its header with the archive that it is linked with.
ghost use Rattle.std.specs.Prelude.{◌≡◌};
ghost use Rattle.godf.specs.Version as Version;

// 0.2.0: 10,000 times the major number, 100 times the minor one, and the patch.
const VERSION: u32 = 200;

// The version of this archive: GODF_VERSION of the header that belongs to it.
#[unsafe(no_mangle)]
pub extern "C" fn godf_version() -> u32
    ensures { result ≡ Version.VERSION }
{
    VERSION
}
