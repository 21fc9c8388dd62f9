ghost use Rattle.std.specs.Prelude.{◌≡◌, ◌<◌, ◌^◌, ℕ, slice_get, Option};
ghost use Rattle.std.specs.Int.{w32, cast_unsigned};
ghost use Rattle.jvm_meaning.specs.Words.{increment};
ghost use Rattle.jvm_state.specs.Stops.{Gives};

use bv_words::plus;
use jvm_state::{Halt, Locals, Sort, Value, inside, int_held};

/// iinc: adds a number to a local variable.
pub fn increment(local: u16, amount: i32, locals: &mut Locals) -> Result<(), Halt>
    ensures { Gives (λ _. locals.new) result (increment local amount locals.old) }
{
    inside(Sort::Int, local, locals)?;
    let number = int_held(locals.get(usize::from(local)))?;
    let sum = plus(32, u64::from(number), u64::from(amount.cast_unsigned())) as u32;
    locals.set(usize::from(local), Some(Value::Int(sum)));
    Ok(())
}
