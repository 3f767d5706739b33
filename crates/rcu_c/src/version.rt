//! Which version of the library this is.

ghost use Rattle.std.specs.Prelude.{◌≡◌};
ghost use Rattle.rcu_c.specs.Words.{version_number};

/// `rcuo_version`: the number of version 0.1.0, which `RCUO_VERSION_NUMBER` of `include/rcuo.h` is too.
#[unsafe(no_mangle)]
pub extern "C" fn rcuo_version() -> u32
    ensures is { result ≡ version_number 0 1 0 }
{
    1000
}
