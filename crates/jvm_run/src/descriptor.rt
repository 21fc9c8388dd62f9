ghost use Rattle.std.specs.Prelude.{◌≡◌, ℕ, ◌<◌, ◌≤◌, ◌+◌, ◌^◌, length, drop, slice_index, false, IfOk, Ok};
ghost use Rattle.jvm_run.specs.declared.descriptor.ShapeError.TheVariants.{Memory};
ghost use Rattle.jvm_meaning.specs.Types.{types_seen, method_type};
ghost use Rattle.jvm_run.specs.Descriptors.{GivesPart, GivesShape, one_if, kind_letters, result_letters, letters_by, types_letters, descriptor_letters, total, is_array, sizes_fit, param_of, sizes_behind, params_of, observed_type, returned_type, parameter_type, out_type, spelled, read_letters, shape_with, shape_end};

use crate::arguments::split;
use axe_io::{Kind, OutPlace, Param, Shape};
use class_file::{ClassFile, MethodId};
use jvm_meaning::{Letter, MethodType, desc_of, kind_of, letter_of, method_type};
use jvm_state::FieldType;
use std::alloc::{AllocError, AllocFailed, Global};

/// Why a method has no shape.
#[derive(Clone, Copy, Debug, PartialEq, Eq)]
pub enum ShapeError {
    /// The descriptor isn't one whose parameters and result are of the profile.
    BadType {
        /// The length of its longest beginning that also begins such a descriptor.
        at: u32,
    },
    /// There isn't one size for each array parameter.
    Sizes {
        /// How many array parameters there are.
        wanted: u32,
        /// How many sizes were given.
        given: u64,
    },
    /// The result is to be observed in what is returned, which is nothing, or in a parameter that is no array.
    Out,
    /// Memory ran out.
    Memory,
}

impl From<AllocError> for ShapeError {
    ghost from_gives = { λ _ e. e ≡ Memory };

    fn from(_error: AllocError) -> ShapeError {
        ShapeError::Memory
    }
}

impl<T: Drop> From<AllocFailed<T>> for ShapeError {
    ghost from_gives = { λ _ e. e ≡ Memory };

    fn from(_error: AllocFailed<T>) -> ShapeError {
        ShapeError::Memory
    }
}

/// How many brackets a parameter or result of a job's method may have.
const JOB_DEPTH: u8 = 1;

/// How many letters of a descriptor are read, which is as many as one may have.
const MOST_LETTERS: usize = 65_535;

/// The shape of a method: its parameters, with a size for each array in their order, and its result observed at a
/// place. The sizes are at most 16,384 in sum. Of several faults BadType is named first, then Sizes, then Out.
#[tactic(auto, unfolding(crate::specs::Descriptors::shape_end))]
pub fn shape_of(
    alloc: Global,
    class: &ClassFile,
    method: MethodId,
    sizes: &[u32],
    out: OutPlace,
) -> Result<Shape, ShapeError>
    requires method { method.0 < length class.now.methods }
    requires few { total sizes.now ≤ 16384 }
    ensures { GivesShape result (shape_end class.now method sizes.now out) }
{
    let letters = read_letters(desc_of(class, method));
    let types = spelled(alloc, letters)?;
    sizes_fit(types.params.as_slice(), sizes)?;
    let seen = out_type(&types, out)?;
    shape_with(alloc, types.params.as_slice(), sizes, out, seen)
}

/// The shape of parameters of these types, and of a result of this kind, which may be an array.
#[tactic(auto, using(crate::proofs::ShapeLemmas::few_leaves))]
fn shape_with(
    alloc: Global,
    types: &[FieldType],
    sizes: &[u32],
    out: OutPlace,
    seen: (Kind, bool),
) -> Result<Shape, ShapeError>
    requires types { length types.now ≤ 65535 }
    requires sizes { total sizes.now ≤ 16384 }
    ensures { GivesPart (λ shape. shape) result (Ok (shape_with types.now sizes.now out seen)) }
{
    let params = params_of(alloc, types, sizes)?;
    Ok(Shape::of(params, out, seen.0, seen.1))
}

fn read_letters(desc: &[u8]) -> &[u8]
    ensures letters { result.now ≡ read_letters desc.now }
    ensures few { length result.now ≤ 65535 }
{
    split(MOST_LETTERS, desc).0
}

/// The types that a descriptor spells.
#[tactic(auto, using(crate::proofs::ShapeLemmas::few_types))]
fn spelled(alloc: Global, letters: &[u8]) -> Result<MethodType, ShapeError>
    requires { length letters.now ≤ 65535 }
    ensures types { GivesPart types_seen result (spelled letters.now (method_type 1 letters.now)) }
    ensures few { IfOk result (λ t. length t.params.items ≤ 65535) }
{
    match method_type(alloc, JOB_DEPTH, letters)? {
        Some(types) => Ok(types),
        None => Err(ShapeError::BadType {
            at: descriptor_letters(letters),
        }),
    }
}

/// One size for each array is needed.
fn sizes_fit(types: &[FieldType], sizes: &[u32]) -> Result<(), ShapeError>
    requires { length types.now ≤ 65535 }
    ensures { GivesPart (λ x. x) result (sizes_fit types.now (length sizes.now)) }
{
    let wanted = types.iter().filter(|t| is_array(**t)).count();
    if wanted == sizes.len() {
        return Ok(());
    }
    Err(ShapeError::Sizes {
        wanted: wanted as u32,
        given: sizes.len() as u64,
    })
}

fn is_array(field_type: FieldType) -> bool
    ensures { result ≡ is_array field_type }
{
    match field_type {
        FieldType::Scalar(_) => false,
        FieldType::Array(_) => true,
    }
}

/// The kind of the observed result, and whether it is an array.
fn out_type(types: &MethodType, out: OutPlace) -> Result<(Kind, bool), ShapeError>
    ensures { GivesPart (λ x. x) result (out_type (types_seen types.now) out) }
{
    match out {
        OutPlace::Returned => returned_type(types.result),
        OutPlace::Param(number) => {
            parameter_type(types.params.get(usize::from(number)).copied())
        }
    }
}

fn returned_type(field_type: Option<FieldType>) -> Result<(Kind, bool), ShapeError>
    ensures { GivesPart (λ x. x) result (returned_type field_type) }
{
    match field_type {
        Some(FieldType::Scalar(kind)) => Ok((kind, false)),
        Some(FieldType::Array(found)) => Ok((found.kind, true)),
        None => Err(ShapeError::Out),
    }
}

fn parameter_type(field_type: Option<FieldType>) -> Result<(Kind, bool), ShapeError>
    ensures { GivesPart (λ x. x) result (parameter_type field_type) }
{
    match field_type {
        Some(FieldType::Array(found)) => Ok((found.kind, true)),
        _ => Err(ShapeError::Out),
    }
}

/// The parameters with their sizes, each array with the next one.
fn params_of(alloc: Global, types: &[FieldType], sizes: &[u32]) -> Result<Vec<Param>, AllocError>
    ensures { IfOk result (λ params. params.items ≡ params_of types.now sizes.now) }
{
    let mut params = Vec::new(alloc);
    let mut rest = sizes;
    for field_type in types {
        params.push(param_of(*field_type, rest))?;
        rest = sizes_behind(*field_type, rest);
    }
    Ok(params)
}

/// A parameter of a type, an array with the first of the sizes.
fn param_of(field_type: FieldType, sizes: &[u32]) -> Param
    ensures { result ≡ param_of field_type sizes.now }
{
    match field_type {
        FieldType::Scalar(kind) => Param { kind, len: None },
        FieldType::Array(found) => Param {
            kind: found.kind,
            len: Some(first_size(sizes)),
        },
    }
}

/// The sizes behind that of a parameter.
fn sizes_behind(field_type: FieldType, sizes: &[u32]) -> &[u32]
    ensures { result.now ≡ sizes_behind field_type sizes.now }
{
    match field_type {
        FieldType::Scalar(_) => sizes,
        FieldType::Array(_) => behind_first(sizes),
    }
}

fn first_size(sizes: &[u32]) -> u32
    ensures { result ≡ slice_index sizes.now 0 }
{
    match sizes.first() {
        Some(size) => *size,
        None => 0,
    }
}

fn behind_first(sizes: &[u32]) -> &[u32]
    ensures { result.now ≡ drop 1 sizes.now }
{
    match sizes.split_first() {
        Some((_, rest)) => rest,
        None => sizes,
    }
}

/// How many letters begin a kind: one or none.
fn kind_letters(letters: &[u8]) -> u32
    ensures { result ≡ kind_letters letters.now }
{
    match letters.split_first() {
        Some((letter, _)) if kind_of(*letter).is_some() => 1,
        _ => 0,
    }
}

/// How many letters begin a result.
fn result_letters(letters: &[u8]) -> u32
    ensures letters { result ≡ result_letters letters.now }
    ensures few { result ≤ 2 }
{
    match letters.split_first() {
        Some((b'V', _)) => 1,
        Some((b'[', rest)) => 1 + kind_letters(rest),
        _ => kind_letters(letters),
    }
}

/// How many letters begin parameters and a result.
fn types_letters(letters: &[u8]) -> u32
    requires { length letters.now ≤ 65535 }
    ensures letters { result ≡ types_letters 0 letters.now }
    ensures few { result ≤ 65537 }
{
    let mut depth = 0u8;
    let mut rest = letters;
    let mut count = 0;
    while let Some((first, after)) = rest.split_first() {
        match letter_of(JOB_DEPTH, depth, *first) {
            Letter::Closes => return count + 1 + result_letters(after),
            Letter::Opens => depth += 1,
            Letter::Names(_) => depth = 0,
            Letter::Unknown => return count,
        }
        count += 1;
        rest = after;
    }
    count
}

/// How many letters begin a descriptor of the profile.
fn descriptor_letters(letters: &[u8]) -> u32
    requires { length letters.now ≤ 65535 }
    ensures { result ≡ descriptor_letters letters.now }
{
    match letters.split_first() {
        Some((b'(', rest)) => 1 + types_letters(rest),
        _ => 0,
    }
}
