ghost use Rattle.std.specs.Prelude.{◌≡◌, Some, None};
ghost use Rattle.jvm_meaning.specs.Constants.{load_constant};
ghost use Rattle.jvm_state.specs.Stops.{Gives};

use class_file::ClassFile;
use jvm_meaning::number_in;
use jvm_state::{Halt, Reason, Stack, Width, refuse};

/// ldc, ldc_w, ldc2_w: pushes an Integer or a Long.
pub fn load_constant(
    op: u8,
    width: Width,
    number: u16,
    class: &ClassFile,
    depth: u16,
    stack: &mut Stack,
) -> Result<(), Halt>
    ensures { Gives (λ _. stack.new) result (load_constant op width number class.now depth stack.old) }
{
    match number_in(width, class.constant(number)) {
        Some(value) => stack.push(value, depth),
        None => refuse(Reason::OutsideProfile { op }),
    }
}
