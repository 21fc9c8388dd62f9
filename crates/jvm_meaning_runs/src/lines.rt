ghost use Rattle.std.specs.Prelude.{◌<◌, length};

use axe_io::{Input, OutPlace, Shape};
use class_file::{ClassFile, MethodId};
use class_reader::read_class;
use jvm_run::{Machine, shape_of};
use jvm_state::{End, Reason, Seen, Throw};
use std::alloc::{AllocError, Global};

/// Instructions, open frames and made elements of one run.
const STEPS: u64 = 200_000;

const FRAMES: u32 = 64;

const ELEMENTS: u64 = 65_536;

/// A method, the sizes of its arrays, and where its result is observed.
#[derive(Drop)]
pub struct Job<'a> {
    pub name: &'a [u8],
    pub desc: &'a [u8],
    pub sizes: [u16; 2],
    pub out: OutPlace,
}

/// A line for each input that the bytes of its leaves give; nothing where there is no such method.
pub fn of(
    alloc: Global,
    bytes: &[u8],
    job: &Job<'_>,
    leaves: &[u8],
) -> Result<Vec<u8>, AllocError> {
    let mut out = Vec::new(alloc);
    if bytes.len() > 1_048_576 {
        return Ok(out);
    }
    let Ok(class) = read_class(alloc, bytes) else {
        return Ok(out);
    };
    let Some(method) = class.find(job.name, Some(job.desc)).first else {
        return Ok(out);
    };
    let Some(shape) = shape(alloc, &class, method, job) else {
        return Ok(out);
    };
    let width = shape.leaves() as usize * 8;
    let mut machine = Machine::new(alloc);
    if width == 0 {
        line(alloc, &mut out, &mut machine, &class, method, &shape, &[])?;
        return Ok(out);
    }
    for input in leaves.chunks_exact(width) {
        line(alloc, &mut out, &mut machine, &class, method, &shape, input)?;
    }
    Ok(out)
}

/// The shape with no size, with the first, or with both, whichever there is.
fn shape(alloc: Global, class: &ClassFile, method: MethodId, job: &Job<'_>) -> Option<Shape>
    requires { method.0 < length class.now.methods }
{
    let first = u32::from(job.sizes[0] % 8192);
    let second = u32::from(job.sizes[1] % 8192);
    if let Ok(shape) = shape_of(alloc, class, method, &[], job.out) {
        return Some(shape);
    }
    if let Ok(shape) = shape_of(alloc, class, method, &[first], job.out) {
        return Some(shape);
    }
    shape_of(alloc, class, method, &[first, second], job.out).ok()
}

fn line(
    alloc: Global,
    out: &mut Vec<u8>,
    machine: &mut Machine,
    class: &ClassFile,
    method: MethodId,
    shape: &Shape,
    bytes: &[u8],
) -> Result<(), AllocError>
    requires { method.0 < length class.now.methods }
{
    let mut leaves = Vec::new(alloc);
    for leaf in bytes.chunks_exact(8) {
        if let [a, b, c, d, e, f, g, h] = leaf {
            leaves.push(u64::from_be_bytes([*a, *b, *c, *d, *e, *f, *g, *h]))?;
        }
    }
    let input = Input::of(leaves);
    match machine.run(class, method, shape, &input, STEPS, FRAMES, ELEMENTS) {
        Ok(end) => ended(alloc, out, &end),
        Err(_) => Err(AllocError),
    }
}

fn ended(alloc: Global, out: &mut Vec<u8>, end: &End) -> Result<(), AllocError> {
    match end {
        End::Returned { seen } => observed(alloc, out, seen),
        End::Threw { kind, .. } => out.extend_from_slice(thrown(*kind)),
        End::Refused { reason, pc, .. } => refused(alloc, out, *reason, *pc),
        End::MoreSteps => out.extend_from_slice(b"more steps\n"),
        End::MoreFrames => out.extend_from_slice(b"more frames\n"),
        End::MoreElements => out.extend_from_slice(b"more elements\n"),
    }
}

fn thrown(kind: Throw) -> &'static [u8] {
    match kind {
        Throw::NullPointer => b"java.lang.NullPointerException\n",
        Throw::ArrayIndex => b"java.lang.ArrayIndexOutOfBoundsException\n",
        Throw::NegativeSize => b"java.lang.NegativeArraySizeException\n",
        Throw::Arithmetic => b"java.lang.ArithmeticException\n",
    }
}

fn refused(alloc: Global, out: &mut Vec<u8>, reason: Reason, pc: u32) -> Result<(), AllocError> {
    let text: &[u8] = match reason {
        Reason::OutsideProfile { .. } => b"refused: opcode",
        Reason::WrongOperand => b"refused: wrong operand",
        Reason::BadCode => b"refused: bad code",
        Reason::Handler => b"refused: handler",
        Reason::UnknownCallee => b"refused: unknown callee",
        Reason::UnknownField => b"refused: unknown field",
        Reason::InitThrew { .. } => b"refused: initialiser threw",
    };
    out.extend_from_slice(text)?;
    let at = format!(in alloc; " at {pc}\n")?;
    out.extend_from_slice(at.as_bytes())
}

fn observed(alloc: Global, out: &mut Vec<u8>, seen: &Seen) -> Result<(), AllocError> {
    match seen {
        Seen::Word(_, word) => number(alloc, out, *word)?,
        Seen::Items(_, words) => {
            for word in words.as_slice() {
                number(alloc, out, *word)?;
            }
        }
        Seen::Null => out.extend_from_slice(b"null ")?,
    }
    out.extend_from_slice(b"\n")
}

fn number(alloc: Global, out: &mut Vec<u8>, word: u64) -> Result<(), AllocError> {
    let text = format!(in alloc; "{word} ")?;
    out.extend_from_slice(text.as_bytes())
}
