//! Look-ups in the constant pool, whose numbers count from 1 (4.4).

ghost use Rattle.std.specs.Prelude.{◌≡◌};
ghost use Rattle.std.specs.Option.{option_copied};
ghost use Rattle.class_file.specs.Pools.{constant_of, text_of};

use crate::class::Constant;
use crate::name::Name;

/// The entry of a number of the pool; none exactly where the number is 0, past the pool or the second number
/// of a long or double.
pub fn constant_of(pool: &[Option<Constant>], number: u16) -> Option<&Constant>
    ensures { option_copied result ≡ constant_of pool.now number }
{
    if number == 0 {
        return None;
    }
    match pool.get(number as usize - 1) {
        Some(Some(constant)) => Some(constant),
        _ => None,
    }
}

/// The text of a Utf8; none exactly where the number isn't that of one.
pub fn text_of(pool: &[Option<Constant>], number: u16) -> Option<&Name>
    ensures { option_copied result ≡ text_of pool.now number }
{
    match constant_of(pool, number) {
        Some(Constant::Utf8(text)) => Some(text),
        _ => None,
    }
}
