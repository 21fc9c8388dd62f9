ghost use Rattle.std.specs.Prelude.{◌≡◌, ◌<◌, length, count_by, position, option_map, slice_get, find, IfSome, vec_len};
ghost use Rattle.std.specs.Option.{option_copied};
ghost use Rattle.class_file.specs.Members.{answers_to, is_named};
ghost use Rattle.class_file.specs.Pools.{constant_of};

use crate::name::Name;
use crate::pool::constant_of;
use sqlite_items::Items;
use std::marker::Model;

/// ACC_STATIC, the flag of a static field or method (4.5, 4.6).
const STATIC: u16 = 0x0008;

/// An entry of the constant pool, with the numbers or bytes of the entry in their order (4.4).
#[derive(Drop)]
pub enum Constant {
    /// Bytes of a text.
    Utf8(Name),
    /// An int.
    Integer(i32),
    /// The bits of a float.
    Float(u32),
    /// A long, which takes two numbers.
    Long(i64),
    /// The bits of a double, which takes two numbers.
    Double(u64),
    /// The number of a class's name.
    Class(u16),
    /// The number of a string's text.
    Str(u16),
    /// The numbers of a field's Class and NameAndType.
    Fieldref(u16, u16),
    /// The numbers of a method's Class and NameAndType.
    Methodref(u16, u16),
    /// The numbers of an interface method's Class and NameAndType.
    InterfaceMethodref(u16, u16),
    /// The numbers of a name and of a descriptor.
    NameAndType(u16, u16),
    /// A kind and the number of what it refers to, both unread.
    MethodHandle(u8, u16),
    /// The number of a descriptor, unread.
    MethodType(u16),
    /// The numbers of a bootstrap method and of a NameAndType, both unread.
    InvokeDynamic(u16, u16),
}

/// A row of an exception table (4.7.3): the handler stands at `handler` for the code from `start` up to
/// `end`, and `catch` is the number of the class that it catches, or 0. None of them is checked.
#[derive(Clone, Copy, Debug, PartialEq, Eq)]
pub struct ExceptionRow {
    /// The offset of the first instruction that is covered.
    pub start: u16,
    /// The offset behind the last instruction that is covered.
    pub end: u16,
    /// The offset of the handler.
    pub handler: u16,
    /// The number of the Class that is caught, 0 where all are.
    pub catch: u16,
}

/// The Code of a method (4.7.3).
#[derive(Drop)]
pub struct Code {
    /// How deep the operand stack may be.
    pub max_stack: u16,
    /// How many local variables there are.
    pub max_locals: u16,
    /// The instructions, from 1 to 65,535 bytes.
    pub bytes: Items<u8>,
    /// The exception table, in its order.
    pub rows: Items<ExceptionRow>,
}

/// A method (4.6). Its Code is that of its first attribute of that name.
#[derive(Drop)]
pub struct Method {
    /// The access flags (4.6, table 4.6-A).
    pub flags: u16,
    /// The name.
    pub name: Name,
    /// The descriptor (4.3.3), which isn't checked.
    pub desc: Name,
    /// The Code, where there is one.
    pub code: Option<Code>,
}

/// A field (4.5). Its value is the number of the entry that its first ConstantValue names.
#[derive(Drop)]
pub struct Field {
    /// The access flags (4.5, table 4.5-A).
    pub flags: u16,
    /// The name.
    pub name: Name,
    /// The descriptor (4.3.2), which isn't checked.
    pub desc: Name,
    /// The number that its ConstantValue names: that of an Integer, Float, Long, Double or String.
    pub value: Option<u16>,
}

/// A method of a class, by its place among the class's methods, which counts from 0.
#[derive(Clone, Copy, Debug, PartialEq, Eq)]
pub struct MethodId(pub u32);

/// How many methods were found, and the first of them.
#[derive(Clone, Copy, Debug, PartialEq, Eq)]
pub struct Found {
    /// How many were found.
    pub count: u32,
    /// The first of them, in the class's order.
    pub first: Option<MethodId>,
}

/// A class file that was read (4.1).
#[derive(Drop)]
pub struct ClassFile {
    pool: Items<Option<Constant>>,
    this_class: u16,
    fields: Items<Field>,
    methods: Items<Method>,
}

impl Model for ClassFile {
    ghost use Rattle.std.specs.Prelude.{◌<◌, ◌^◌, length};
    ghost use Rattle.class_file.specs.Contents.{Contents};

    ghost Value = { Contents };

    ghost view = { λ c. record { pool = c.pool; this_class = c.this_class; fields = c.fields; methods = c.methods } };

    ghost invariant = { λ c. length c.methods < 65536 };
}

impl ClassFile {
    ghost use Rattle.class_file.specs.Contents.{contents};

    /// The class of these parts, which has fewer than 65,536 methods.
    pub fn new(
        pool: Vec<Option<Constant>>,
        this_class: u16,
        fields: Vec<Field>,
        methods: Vec<Method>,
    ) -> ClassFile
        requires { vec_len methods < 65536 }
        ensures { result ≡ contents pool.items this_class fields.items methods.items }
    {
        ClassFile {
            pool: Items::from_vec(pool),
            this_class,
            fields: Items::from_vec(fields),
            methods: Items::from_vec(methods),
        }
    }

    /// The static methods with Code of this name and, where one is given, of this descriptor.
    pub fn find(&self, name: &[u8], desc: Option<&[u8]>) -> Found
        ensures count { result.count ≡ count_by (answers_to name.now (option_map (λ d. d.now) desc.entry)) self.now.methods }
        ensures first { option_map (λ id. id.0) result.first ≡ position (answers_to name.now (option_map (λ d. d.now) desc.entry)) self.now.methods }
        ensures within { IfSome result.first (λ id. id.0 < length self.now.methods) }
    {
        let methods = self.methods.as_slice();
        let count = methods.iter().filter(|m| answers_to(m, name, desc)).count();
        Found {
            count: count as u32,
            first: place_of(methods, name, desc).map(|at| MethodId(at as u32)),
        }
    }

    /// The method of this id, which has to be one of this class.
    pub fn method(&self, id: MethodId) -> &Method
        requires { id.0 < length self.now.methods }
        ensures { slice_get self.now.methods id.0 ≡ Some result.now }
    {
        &self.methods.as_slice()[id.0 as usize]
    }

    /// The method of any id, or None where the class has none of it.
    pub fn method_at(&self, id: MethodId) -> Option<&Method>
        ensures { option_copied result ≡ slice_get self.now.methods id.0 }
    {
        self.methods.as_slice().get(id.0 as usize)
    }

    /// The number of this class's own Class entry.
    pub fn this_class(&self) -> u16
        ensures { result ≡ self.now.this_class }
    {
        self.this_class
    }

    /// The first field of this name and descriptor.
    pub fn field(&self, name: &[u8], desc: &[u8]) -> Option<&Field>
        ensures { option_copied result ≡ find (λ f. is_named name.now desc.now f) self.now.fields }
    {
        self.fields
            .as_slice()
            .iter()
            .find(|f| is_named(f, name, desc))
    }

    /// All fields, in their order.
    pub fn fields(&self) -> &[Field]
        ensures { result.now ≡ self.now.fields }
    {
        self.fields.as_slice()
    }

    /// The entry of this number of the constant pool; none exactly where the number is 0, past the pool or
    /// the second number of a long or double.
    pub fn constant(&self, number: u16) -> Option<&Constant>
        ensures { option_copied result ≡ constant_of self.now.pool number }
    {
        constant_of(self.pool.as_slice(), number)
    }
}

/// The place of the first such method.
fn place_of(methods: &[Method], name: &[u8], desc: Option<&[u8]>) -> Option<usize>
    ensures place { result ≡ position (answers_to name.now (option_map (λ d. d.now) desc.entry)) methods.now }
    ensures within { IfSome result (λ at. at < length methods.now) }
{
    methods.iter().position(|m| answers_to(m, name, desc))
}

/// Whether a method is static, has Code and has this name and, where one is given, this descriptor.
fn answers_to(method: &Method, name: &[u8], desc: Option<&[u8]>) -> bool
    ensures { result ≡ answers_to name.now (option_map (λ d. d.now) desc.entry) method.now }
{
    method.flags & STATIC != 0
        && method.code.is_some()
        && method.name.as_slice() == name
        && desc.is_none_or(|d| method.desc.as_slice() == d)
}

/// Whether a field has this name and descriptor.
fn is_named(field: &Field, name: &[u8], desc: &[u8]) -> bool
    ensures { result ≡ is_named name.now desc.now field.now }
{
    field.name.as_slice() == name && field.desc.as_slice() == desc
}
