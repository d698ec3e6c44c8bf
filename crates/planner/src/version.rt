// The version of the layout of what is lent, for a caller to read and to link by.
ghost use Rattle.std.specs.Prelude.{◌≡◌};
ghost use Rattle.planner.specs.Layout.{layout_version};

// The version, as specs/Layout.antt says it and include/planner.h (PLANNER_VERSION).
const VERSION: u32 = 5;

// The version of this library.
#[unsafe(no_mangle)]
pub extern "C" fn planner_version() -> u32
    ensures { result ≡ layout_version }
{
    VERSION
}

// The same, under a name that has the version in it: a program that refers to it does not link with
// a library of another version.
#[unsafe(no_mangle)]
pub extern "C" fn planner_layout_5() -> u32
    ensures { result ≡ layout_version }
{
    VERSION
}
