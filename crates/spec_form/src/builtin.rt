/// A function of the language, with bit-vector operations named after Kestrel's and the others after ACL2's.
///
/// Numbers may be negative; an operand of width w is taken modulo 2^w.
#[derive(Clone, Copy, Debug, PartialEq, Eq)]
pub enum Builtin {
    /// `(bvchop w x)`: the lowest w bits.
    BvChop,
    /// `(slice high low x)`: the bits from low to high.
    Slice,
    /// `(getbit b x)`: bit b.
    GetBit,
    /// `(bvcat hs h ls l)`: h of width hs above l of width ls.
    BvCat,
    /// `(bvplus w x y)`: the sum modulo 2^w.
    BvPlus,
    /// `(bvminus w x y)`: the difference modulo 2^w.
    BvMinus,
    /// `(bvmult w x y)`: the product modulo 2^w.
    BvMult,
    /// `(bvdiv w x y)`: the quotient rounded down, without signs; 0 where y is 0.
    BvDiv,
    /// `(bvmod w x y)`: the remainder, without signs; x where y is 0.
    BvMod,
    /// `(bvuminus w x)`: the negation modulo 2^w.
    BvUMinus,
    /// `(bvand w x y)`: bitwise and.
    BvAnd,
    /// `(bvor w x y)`: bitwise or.
    BvOr,
    /// `(bvxor w x y)`: bitwise exclusive or.
    BvXor,
    /// `(bvnot w x)`: bitwise complement.
    BvNot,
    /// `(bvlt w x y)`: whether x is less than y, without signs.
    BvLt,
    /// `(bvif w test x y)`: x where the test isn't nil, else y.
    BvIf,
    /// `(bvsx new old x)`: sign extension from width old to width new.
    BvSx,
    /// `(leftrotate w amt x)`: rotation to the left.
    LeftRotate,
    /// `(rightrotate w amt x)`: rotation to the right.
    RightRotate,
    /// `(leftrotate32 amt x)`: rotation of 32 bits to the left.
    LeftRotate32,
    /// `(rightrotate32 amt x)`: rotation of 32 bits to the right.
    RightRotate32,
    /// `(bvshl w x b)`: shift to the left by b bits.
    BvShl,
    /// `(bvshr w x b)`: shift to the right by b bits, without sign.
    BvShr,
    /// `(bv-array-read es len i a)`: an element of an array of words.
    BvArrayRead,
    /// `(bv-array-write es len i v a)`: an array of words with one element replaced.
    BvArrayWrite,
    /// `(+ x y ..)`: the sum.
    Sum,
    /// `(- x y)`: the difference; `(- x)`: the negation.
    Minus,
    /// `(1+ x)`.
    Increment,
    /// `(1- x)`.
    Decrement,
    /// `(< x y)`.
    Less,
    /// `(<= x y)`.
    LessOrEqual,
    /// `(> x y)`.
    Greater,
    /// `(>= x y)`.
    GreaterOrEqual,
    /// `(zp x)`: whether x is at most 0.
    Zp,
    /// `(= x y)`: equality of numbers.
    SameNumber,
    /// `(equal a b)`: equality of values.
    Equal,
    /// `(not a)`: t where a is nil.
    Not,
    /// `(list x ..)`: the list of the numbers.
    List,
    /// `(cons x a)`: the list with x before a.
    Cons,
    /// `(append a b ..)`: the lists joined.
    Append,
    /// `(cdr a)`: the list without its first element.
    Cdr,
    /// `(car a)`: the first element.
    Car,
    /// `(nth i a)`: element i, counted from 0.
    Nth,
    /// `(update-nth i v a)`: the list with element i replaced.
    UpdateNth,
    /// `(len a)`: the number of elements.
    Len,
    /// `(endp a)`: whether a list is empty.
    Endp,
    /// `(consp a)`: whether a value is a list that isn't empty.
    Consp,
}
