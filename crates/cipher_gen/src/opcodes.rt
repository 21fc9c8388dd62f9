//! Opcodes, of the Java Virtual Machine Specification, section 6.5.

pub const BIPUSH: u8 = 16;

pub const LDC: u8 = 18;

pub const ILOAD_0: u8 = 26;

pub const ILOAD_1: u8 = 27;

pub const ILOAD_2: u8 = 28;

pub const ISTORE_0: u8 = 59;

pub const ISTORE_1: u8 = 60;

pub const ISTORE_2: u8 = 61;

pub const IADD: u8 = 96;

pub const ISUB: u8 = 100;

pub const ISHL: u8 = 120;

pub const IUSHR: u8 = 124;

pub const IAND: u8 = 126;

pub const IOR: u8 = 128;

pub const IXOR: u8 = 130;

pub const IRETURN: u8 = 172;
