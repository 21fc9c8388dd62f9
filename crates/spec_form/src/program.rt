ghost use Rattle.std.specs.Prelude.{◌≡◌, ◌<◌, length, option_map, Some, slice_get};
ghost use Rattle.spec_form.specs.Names.{same_name, function_named};

use crate::form::Form;
use sqlite_items::Items;

/// A function by its place among those of a program.
#[derive(Clone, Copy, Debug, PartialEq, Eq)]
pub struct FunId(pub usize);

/// A named constant by its place among those of a program.
#[derive(Clone, Copy, Debug, PartialEq, Eq)]
pub struct ConstId(pub usize);

/// A function: its name in lower case, the number of its formals, and its body.
#[derive(Drop)]
pub struct Function {
    pub name: Items<u8>,
    pub formals: u32,
    pub body: Form,
}

/// A named constant: its name in lower case, and the expression that is evaluated at each use.
#[derive(Drop)]
pub struct NamedConstant {
    pub name: Items<u8>,
    pub value: Form,
}

/// The functions and the constants that a text defines, each in its order.
#[derive(Drop)]
pub struct Program {
    pub functions: Items<Function>,
    pub constants: Items<NamedConstant>,
}

impl Program {
    /// The function of a name, which is read without regard to case; None exactly where no function has it.
    pub fn function(&self, name: &[u8]) -> Option<FunId>
        ensures { option_map (λ f. f.0) result ≡ function_named self.now.functions name.now }
    {
        position(self.functions.as_slice(), name).map(FunId)
    }

    /// How many formals a function has.
    pub fn formals(&self, function: FunId) -> u32
        requires { function.0 < length self.now.functions }
        ensures { option_map (λ f. f.formals) (slice_get self.now.functions function.0) ≡ Some result }
    {
        self.functions.as_slice()[function.0].formals
    }

    /// A function's body.
    pub fn body(&self, function: FunId) -> &Form
        requires { function.0 < length self.now.functions }
        ensures { option_map (λ f. f.body) (slice_get self.now.functions function.0) ≡ Some result.now }
    {
        &self.functions.as_slice()[function.0].body
    }

    /// The expression of a named constant.
    pub fn value_of(&self, constant: ConstId) -> &Form
        requires { constant.0 < length self.now.constants }
        ensures { option_map (λ c. c.value) (slice_get self.now.constants constant.0) ≡ Some result.now }
    {
        &self.constants.as_slice()[constant.0].value
    }
}

/// The place of the first function of a name.
fn position(functions: &[Function], name: &[u8]) -> Option<usize>
    ensures { result ≡ function_named functions.now name.now }
{
    functions
        .iter()
        .position(|function| same_name(function.name.as_slice(), name))
}

/// Whether two names are one without regard to case.
fn same_name(first: &[u8], second: &[u8]) -> bool
    ensures { result ≡ same_name first.now second.now }
{
    first.eq_ignore_ascii_case(second)
}
