ghost use Rattle.std.specs.Prelude.{◌≡◌};
ghost use Rattle.spec_reader.specs.Calls.{call_in, word_calls, array_calls, number_calls, list_calls, call_named, takes};

use spec_form::Builtin;

/// A function of the language with the numbers of arguments that it takes.
#[derive(Clone, Copy, Debug, PartialEq, Eq)]
pub struct Call {
    /// The function.
    pub builtin: Builtin,
    /// The least number of arguments.
    pub least: usize,
    /// The greatest number of arguments, if there is one.
    pub most: Option<usize>,
}

/// The row of a name: a line is a name, its function, and the least and the greatest number of arguments.
macro_rules! row_of {
    ($name:expr; $($text:literal => $builtin:ident $least:literal $most:expr;)+) => {
        $(
            if $name == $text.as_slice() {
                return Some(Call { builtin: Builtin::$builtin, least: $least, most: $most });
            }
        )+
    };
}

/// The function on words that a name in lower case means.
fn word_call(name: &[u8]) -> Option<Call>
    ensures { result ≡ call_in word_calls name.now }
{
    row_of! { name;
        b"bvchop" => BvChop 2 Some(2);
        b"slice" => Slice 3 Some(3);
        b"getbit" => GetBit 2 Some(2);
        b"bvcat" => BvCat 4 Some(4);
        b"bvplus" => BvPlus 3 Some(3);
        b"bvminus" => BvMinus 3 Some(3);
        b"bvmult" => BvMult 3 Some(3);
        b"bvdiv" => BvDiv 3 Some(3);
        b"bvmod" => BvMod 3 Some(3);
        b"bvuminus" => BvUMinus 2 Some(2);
        b"bvand" => BvAnd 3 Some(3);
        b"bvor" => BvOr 3 Some(3);
        b"bvxor" => BvXor 3 Some(3);
        b"bvnot" => BvNot 2 Some(2);
        b"bvlt" => BvLt 3 Some(3);
        b"bvif" => BvIf 4 Some(4);
        b"bvsx" => BvSx 3 Some(3);
    }
    None
}

/// The rotation, the shift, or the function on arrays of words that a name means.
fn array_call(name: &[u8]) -> Option<Call>
    ensures { result ≡ call_in array_calls name.now }
{
    row_of! { name;
        b"leftrotate" => LeftRotate 3 Some(3);
        b"rightrotate" => RightRotate 3 Some(3);
        b"leftrotate32" => LeftRotate32 2 Some(2);
        b"rightrotate32" => RightRotate32 2 Some(2);
        b"bvshl" => BvShl 3 Some(3);
        b"bvshr" => BvShr 3 Some(3);
        b"bv-array-read" => BvArrayRead 4 Some(4);
        b"bv-array-write" => BvArrayWrite 5 Some(5);
    }
    None
}

/// The function on whole numbers, the comparison or the equality that a name means.
fn number_call(name: &[u8]) -> Option<Call>
    ensures { result ≡ call_in number_calls name.now }
{
    row_of! { name;
        b"+" => Sum 2 None;
        b"-" => Minus 1 Some(2);
        b"1+" => Increment 1 Some(1);
        b"1-" => Decrement 1 Some(1);
        b"<" => Less 2 Some(2);
        b"<=" => LessOrEqual 2 Some(2);
        b">" => Greater 2 Some(2);
        b">=" => GreaterOrEqual 2 Some(2);
        b"zp" => Zp 1 Some(1);
        b"=" => SameNumber 2 Some(2);
        b"equal" => Equal 2 Some(2);
        b"not" => Not 1 Some(1);
    }
    None
}

/// The function on lists that a name means.
fn list_call(name: &[u8]) -> Option<Call>
    ensures { result ≡ call_in list_calls name.now }
{
    row_of! { name;
        b"list" => List 1 None;
        b"cons" => Cons 2 Some(2);
        b"append" => Append 2 None;
        b"cdr" => Cdr 1 Some(1);
        b"car" => Car 1 Some(1);
        b"nth" => Nth 2 Some(2);
        b"update-nth" => UpdateNth 3 Some(3);
        b"len" => Len 1 Some(1);
        b"endp" => Endp 1 Some(1);
        b"consp" => Consp 1 Some(1);
    }
    None
}

/// The function of the language that a name in lower case means.
pub fn call_named(name: &[u8]) -> Option<Call>
    ensures { result ≡ call_named name.now }
{
    if let Some(call) = word_call(name) {
        return Some(call);
    }
    if let Some(call) = array_call(name) {
        return Some(call);
    }
    if let Some(call) = number_call(name) {
        return Some(call);
    }
    list_call(name)
}

impl Call {
    /// Whether the function takes so many arguments.
    pub fn takes(&self, count: usize) -> bool
        ensures { result ≡ takes self.now count }
    {
        self.least <= count && self.most.is_none_or(|most| count <= most)
    }
}
