ghost use Rattle.std.specs.Prelude.{◌≡◌, ℕ};
ghost use Rattle.std.specs.Option.{option_copied};
ghost use Rattle.jvm_code.specs.Opcodes.{opcode_table, wide_table, row_of};

use case_tables::{Row, Table};

/// The shape of an instruction's operands: what its bytes behind the opcode say.
#[derive(Clone, Copy, Debug, PartialEq, Eq)]
pub enum Operands {
    /// There are none.
    Nothing,
    /// A signed byte.
    SignedByte,
    /// A signed number of two bytes: a value, or the offset of a branch.
    SignedShort,
    /// A signed number of four bytes: the offset of a branch.
    SignedInt,
    /// A byte: a local, a constant's number or an element's kind.
    UnsignedByte,
    /// A number of two bytes: a local or a constant's number.
    UnsignedShort,
    /// A local in a byte, and a signed byte.
    LocalAndByte,
    /// A local in two bytes, and a signed number of two bytes.
    LocalAndShort,
    /// A constant's number in two bytes, and a byte.
    ConstantAndByte,
    /// An opcode and its operands.
    Wide,
}

/// A row of the opcode table.
#[derive(Clone, Copy, Debug, PartialEq, Eq)]
pub struct OpRow {
    /// The opcode.
    pub op: u8,
    /// The shape of its operands.
    pub operands: Operands,
}

impl Row for OpRow {
    ghost key_of = { λ r. r.op };

    fn key(&self) -> u16 {
        u16::from(self.op)
    }
}

macro_rules! rows {
    ($($op:literal => $operands:ident),+ $(,)?) => {
        [$(OpRow { op: $op, operands: Operands::$operands }),+]
    };
}

static OPCODES: [OpRow; 128] = rows![
    0 => Nothing, // nop
    1 => Nothing, // aconst_null
    2 => Nothing, // iconst_m1
    3 => Nothing, // iconst_0
    4 => Nothing, // iconst_1
    5 => Nothing, // iconst_2
    6 => Nothing, // iconst_3
    7 => Nothing, // iconst_4
    8 => Nothing, // iconst_5
    9 => Nothing, // lconst_0
    10 => Nothing, // lconst_1
    16 => SignedByte, // bipush
    17 => SignedShort, // sipush
    18 => UnsignedByte, // ldc
    19 => UnsignedShort, // ldc_w
    20 => UnsignedShort, // ldc2_w
    21 => UnsignedByte, // iload
    22 => UnsignedByte, // lload
    25 => UnsignedByte, // aload
    26 => Nothing, // iload_0
    27 => Nothing, // iload_1
    28 => Nothing, // iload_2
    29 => Nothing, // iload_3
    30 => Nothing, // lload_0
    31 => Nothing, // lload_1
    32 => Nothing, // lload_2
    33 => Nothing, // lload_3
    42 => Nothing, // aload_0
    43 => Nothing, // aload_1
    44 => Nothing, // aload_2
    45 => Nothing, // aload_3
    46 => Nothing, // iaload
    47 => Nothing, // laload
    50 => Nothing, // aaload
    51 => Nothing, // baload
    52 => Nothing, // caload
    53 => Nothing, // saload
    54 => UnsignedByte, // istore
    55 => UnsignedByte, // lstore
    58 => UnsignedByte, // astore
    59 => Nothing, // istore_0
    60 => Nothing, // istore_1
    61 => Nothing, // istore_2
    62 => Nothing, // istore_3
    63 => Nothing, // lstore_0
    64 => Nothing, // lstore_1
    65 => Nothing, // lstore_2
    66 => Nothing, // lstore_3
    75 => Nothing, // astore_0
    76 => Nothing, // astore_1
    77 => Nothing, // astore_2
    78 => Nothing, // astore_3
    79 => Nothing, // iastore
    80 => Nothing, // lastore
    83 => Nothing, // aastore
    84 => Nothing, // bastore
    85 => Nothing, // castore
    86 => Nothing, // sastore
    87 => Nothing, // pop
    88 => Nothing, // pop2
    89 => Nothing, // dup
    90 => Nothing, // dup_x1
    91 => Nothing, // dup_x2
    92 => Nothing, // dup2
    93 => Nothing, // dup2_x1
    94 => Nothing, // dup2_x2
    95 => Nothing, // swap
    96 => Nothing, // iadd
    97 => Nothing, // ladd
    100 => Nothing, // isub
    101 => Nothing, // lsub
    104 => Nothing, // imul
    105 => Nothing, // lmul
    108 => Nothing, // idiv
    109 => Nothing, // ldiv
    112 => Nothing, // irem
    113 => Nothing, // lrem
    116 => Nothing, // ineg
    117 => Nothing, // lneg
    120 => Nothing, // ishl
    121 => Nothing, // lshl
    122 => Nothing, // ishr
    123 => Nothing, // lshr
    124 => Nothing, // iushr
    125 => Nothing, // lushr
    126 => Nothing, // iand
    127 => Nothing, // land
    128 => Nothing, // ior
    129 => Nothing, // lor
    130 => Nothing, // ixor
    131 => Nothing, // lxor
    132 => LocalAndByte, // iinc
    133 => Nothing, // i2l
    136 => Nothing, // l2i
    145 => Nothing, // i2b
    146 => Nothing, // i2c
    147 => Nothing, // i2s
    148 => Nothing, // lcmp
    153 => SignedShort, // ifeq
    154 => SignedShort, // ifne
    155 => SignedShort, // iflt
    156 => SignedShort, // ifge
    157 => SignedShort, // ifgt
    158 => SignedShort, // ifle
    159 => SignedShort, // if_icmpeq
    160 => SignedShort, // if_icmpne
    161 => SignedShort, // if_icmplt
    162 => SignedShort, // if_icmpge
    163 => SignedShort, // if_icmpgt
    164 => SignedShort, // if_icmple
    165 => SignedShort, // if_acmpeq
    166 => SignedShort, // if_acmpne
    167 => SignedShort, // goto
    172 => Nothing, // ireturn
    173 => Nothing, // lreturn
    176 => Nothing, // areturn
    177 => Nothing, // return
    178 => UnsignedShort, // getstatic
    179 => UnsignedShort, // putstatic
    184 => UnsignedShort, // invokestatic
    188 => UnsignedByte, // newarray
    189 => UnsignedShort, // anewarray
    190 => Nothing, // arraylength
    196 => Wide, // wide
    197 => ConstantAndByte, // multianewarray
    198 => SignedShort, // ifnull
    199 => SignedShort, // ifnonnull
    200 => SignedInt, // goto_w
];

static BEHIND_WIDE: [OpRow; 7] = rows![
    21 => UnsignedShort, // iload
    22 => UnsignedShort, // lload
    25 => UnsignedShort, // aload
    54 => UnsignedShort, // istore
    55 => UnsignedShort, // lstore
    58 => UnsignedShort, // astore
    132 => LocalAndShort, // iinc
];

/// The row of an opcode.
pub fn row_of(op: u8) -> Option<OpRow>
    ensures { result ≡ row_of opcode_table op }
{
    Table::of(&OPCODES).find(u16::from(op)).copied()
}

/// The row of an opcode behind `wide`.
pub fn wide_row_of(op: u8) -> Option<OpRow>
    ensures { result ≡ row_of wide_table op }
{
    Table::of(&BEHIND_WIDE).find(u16::from(op)).copied()
}
