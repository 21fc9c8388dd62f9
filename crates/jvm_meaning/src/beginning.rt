ghost use Rattle.std.specs.Prelude.{◌≡◌, ◌≤◌, ◌<◌, ◌*◌, ◌↔◌, ℕ, List, length, option_map, IsTrue};
ghost use Rattle.std.specs.Option.{option_copied};
ghost use Rattle.jvm_meaning.specs.Runs.{initialiser_of, locals_for, locals_taken, has_room, begins, start, IsState};

use crate::calls::code_of;
use axe_io::{Kind, Param, Shape};
use class_file::{ClassFile, Code, MethodId};

/// The initialiser of a class, a static `<clinit>` of `()V` with Code (JVM Specification SE 8, section 2.9); none
/// exactly where it has none.
pub fn initialiser_of(class: &ClassFile) -> Option<MethodId>
    ensures { option_map (λ id. id.0) result ≡ initialiser_of class.now }
{
    class.find(b"<clinit>", Some(b"()V")).first
}

/// Whether the runs of a method on inputs of its shape have a first state, whatever the input: the method, or the
/// initialiser where there is one, has Code with room for its arguments among its local variables. Where a run has
/// none, it is refused as bad code at 0.
pub fn begins(class: &ClassFile, method: MethodId, shape: &Shape) -> bool
    ensures told { result ≡ begins class.now method shape.now }
    ensures exactly { (leaves : List ℕ) → IsTrue result ↔ IsState (start class.now method shape.now leaves) }
{
    has_first(class, method, shape)
}

fn has_first(class: &ClassFile, method: MethodId, shape: &Shape) -> bool
    ensures { result ≡ begins class.now method shape.now }
{
    match initialiser_of(class) {
        Some(initialiser) => has_room(code_of(class, initialiser), 0),
        None => has_room(code_of(class, method), locals_taken(shape.params())),
    }
}

fn has_room(code: Option<&Code>, taken: u64) -> bool
    ensures { result ≡ has_room (option_copied code.entry) taken }
{
    match code {
        Some(code) => taken <= u64::from(code.max_locals),
        None => false,
    }
}

/// How many local variables arguments of these parameters take.
fn locals_taken(params: &[Param]) -> u64
    ensures { result ≡ locals_taken params.now }
{
    let _count = params.len(); // for the proof: twice a length doesn't wrap
    let mut taken = 0u64;
    for param in params {
        taken += locals_for(param);
    }
    taken
}

fn locals_for(param: &Param) -> u64
    ensures count { result ≡ locals_for param.now.len param.now.kind }
    ensures few { result ≤ 2 }
{
    match (param.len, param.kind) {
        (None, Kind::Long) => 2,
        _ => 1,
    }
}
