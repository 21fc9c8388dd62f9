use class_file::{ClassError, ClassFile, Code, Constant, Field, Method};
use class_reader::read_class;
use std::alloc::{AllocError, Global};

/// The listing of a class, or its first fault. More than 1,048,576 bytes are no class.
pub fn of(alloc: Global, bytes: &[u8]) -> Result<Vec<u8>, ClassError> {
    if bytes.len() > 1048576 {
        return Err(ClassError::Trailing { at: 1048576 });
    }
    let class = read_class(alloc, bytes)?;
    Ok(class_listing(alloc, &class)?)
}

fn class_listing(alloc: Global, class: &ClassFile) -> Result<Vec<u8>, AllocError> {
    let mut out = Vec::new(alloc);
    let this_class = class.this_class();
    let line = format!(in alloc; "this {this_class}\n")?;
    out.extend_from_slice(line.as_bytes())?;
    for number in 1..65535u16 {
        if let Some(constant) = class.constant(number) {
            constant_line(alloc, &mut out, number, constant)?;
        }
    }
    for field in class.fields() {
        field_line(alloc, &mut out, field)?;
    }
    for number in 1..65535u16 {
        if let Some(Constant::Utf8(name)) = class.constant(number) {
            methods_of_name(alloc, &mut out, class, name.as_slice())?;
        }
    }
    Ok(out)
}

fn constant_line(
    alloc: Global,
    out: &mut Vec<u8>,
    number: u16,
    constant: &Constant,
) -> Result<(), AllocError> {
    let line = match constant {
        Constant::Utf8(text) => {
            let line = format!(in alloc; "{number} Utf8 ")?;
            out.extend_from_slice(line.as_bytes())?;
            out.extend_from_slice(text.as_slice())?;
            format!(in alloc; "\n")?
        }
        Constant::Integer(value) => format!(in alloc; "{number} Integer {value}\n")?,
        Constant::Float(bits) => format!(in alloc; "{number} Float {bits:08x}\n")?,
        Constant::Long(value) => format!(in alloc; "{number} Long {value}\n")?,
        Constant::Double(bits) => format!(in alloc; "{number} Double {bits:016x}\n")?,
        Constant::Class(name) => format!(in alloc; "{number} Class {name}\n")?,
        Constant::Str(text) => format!(in alloc; "{number} String {text}\n")?,
        Constant::Fieldref(a, b) => format!(in alloc; "{number} Fieldref {a} {b}\n")?,
        Constant::Methodref(a, b) => format!(in alloc; "{number} Methodref {a} {b}\n")?,
        Constant::InterfaceMethodref(a, b) => {
            format!(in alloc; "{number} InterfaceMethodref {a} {b}\n")?
        }
        Constant::NameAndType(a, b) => format!(in alloc; "{number} NameAndType {a} {b}\n")?,
        Constant::MethodHandle(a, b) => format!(in alloc; "{number} MethodHandle {a} {b}\n")?,
        Constant::MethodType(a) => format!(in alloc; "{number} MethodType {a}\n")?,
        Constant::InvokeDynamic(a, b) => format!(in alloc; "{number} InvokeDynamic {a} {b}\n")?,
    };
    out.extend_from_slice(line.as_bytes())
}

fn field_line(alloc: Global, out: &mut Vec<u8>, field: &Field) -> Result<(), AllocError> {
    let flags = field.flags;
    let line = format!(in alloc; "field {flags:04x} ")?;
    out.extend_from_slice(line.as_bytes())?;
    named(out, field.name.as_slice(), field.desc.as_slice())?;
    let line = match field.value {
        Some(number) => format!(in alloc; " {number}\n")?,
        None => format!(in alloc; "\n")?,
    };
    out.extend_from_slice(line.as_bytes())
}

fn named(out: &mut Vec<u8>, name: &[u8], desc: &[u8]) -> Result<(), AllocError> {
    out.extend_from_slice(name)?;
    out.extend_from_slice(b" ")?;
    out.extend_from_slice(desc)
}

/// The static methods of a name, by each text of the pool that is a descriptor of one.
fn methods_of_name(
    alloc: Global,
    out: &mut Vec<u8>,
    class: &ClassFile,
    name: &[u8],
) -> Result<(), AllocError> {
    if class.find(name, None).count == 0 {
        return Ok(());
    }
    for number in 1..65535u16 {
        if let Some(Constant::Utf8(desc)) = class.constant(number) {
            if let Some(id) = class.find(name, Some(desc.as_slice())).first {
                method_lines(alloc, out, class.method(id))?;
            }
        }
    }
    Ok(())
}

fn method_lines(alloc: Global, out: &mut Vec<u8>, method: &Method) -> Result<(), AllocError> {
    let flags = method.flags;
    let line = format!(in alloc; "method {flags:04x} ")?;
    out.extend_from_slice(line.as_bytes())?;
    named(out, method.name.as_slice(), method.desc.as_slice())?;
    match &method.code {
        Some(code) => code_lines(alloc, out, code),
        None => out.extend_from_slice(b"\n"),
    }
}

fn code_lines(alloc: Global, out: &mut Vec<u8>, code: &Code) -> Result<(), AllocError> {
    let (stack, locals, len) = (code.max_stack, code.max_locals, code.bytes.len());
    let line = format!(in alloc; " stack {stack} locals {locals} bytes {len}\n")?;
    out.extend_from_slice(line.as_bytes())?;
    for row in code.rows.as_slice() {
        let (start, end, handler, catch) = (row.start, row.end, row.handler, row.catch);
        let line = format!(in alloc; "row {start} {end} {handler} {catch}\n")?;
        out.extend_from_slice(line.as_bytes())?;
    }
    Ok(())
}
