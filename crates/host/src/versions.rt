//! Which version of the library this is, and which format of stored words it has.
#![tactic(auto)]

ghost use Rattle.std.specs.Prelude.{◌≡◌};

use storing::stored;

/// Version 0.15.0, as 1,000,000 × major + 1,000 × minor + patch.
const VERSION: u32 = 15000;

/// The version of the library, as one number: 1,000,000 × major + 1,000 × minor + patch.
#[unsafe(no_mangle)]
pub extern "C" fn forgelilac_version() -> u32
    ensures { result ≡ 15000 }
{
    VERSION
}

/// The format of the words that the library reads and writes, the one that `forgelilac_store` writes. docs/TABLES.md, "Format".
#[unsafe(no_mangle)]
pub extern "C" fn forgelilac_format() -> u32
    ensures { result ≡ 3 }
{
    stored::FORMAT
}

/// The format, by a name that only a library of this format has: what names it does not link with another one.
#[unsafe(no_mangle)]
pub extern "C" fn forgelilac_format_3() -> u32
    ensures { result ≡ 3 }
{
    forgelilac_format()
}
