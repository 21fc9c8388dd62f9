ghost use Rattle.std.specs.Prelude.{◌≡◌, ℕ, ◌+◌, ◌*◌, ◌^◌, ◌<◌, ◌≤◌, length, slice_get, vec_len};
ghost use Rattle.axe_io.specs.Shapes.{leaf_widths, ShapeParts};
ghost use Rattle.axe_io.specs.Inputs.{bits_of};

use crate::parameters::{Kind, OutPlace, Param};
use sqlite_items::Items;
use std::marker::Model;

/// The parameters of a method with their sizes, and where and as what its result is observed.
///
/// An input of a shape has one leaf for each scalar parameter and one for each element of an array parameter, in
/// order; each leaf is an unsigned number of its parameter's width.
#[derive(Debug, Drop)]
pub struct Shape {
    params: Items<Param>,
    out: OutPlace,
    kind: Kind,
    is_array: bool,
}

impl Model for Shape {
    ghost use Rattle.std.specs.Prelude.{◌^◌, ◌<◌, length};
    ghost use Rattle.axe_io.specs.Shapes.{leaf_widths, ShapeParts};

    ghost Value = { ShapeParts };

    ghost view = { λ s. record { params = s.params; out = s.out; kind = s.kind; is_array = s.is_array } };

    ghost invariant = { λ s. length (leaf_widths s.params) < 2 ^ 31 };
}

impl Shape {
    /// The shape of these parts; `kind` and `is_array` are those of the observed result.
    pub fn of(params: Vec<Param>, out: OutPlace, kind: Kind, is_array: bool) -> Shape
        requires { length (leaf_widths params.items) < 2 ^ 31 }
        ensures { result ≡ record { params = params.items; out = out; kind = kind; is_array = is_array } }
    {
        Shape {
            params: Items::from_vec(params),
            out,
            kind,
            is_array,
        }
    }

    /// The parameters in order.
    pub fn params(&self) -> &[Param]
        ensures { result.now ≡ self.now.params }
    {
        self.params.as_slice()
    }

    /// Where the result is observed.
    pub fn out(&self) -> OutPlace
        ensures { result ≡ self.now.out }
    {
        self.out
    }

    /// The kind of the observed number, or of the elements of the observed array.
    pub fn kind(&self) -> Kind
        ensures { result ≡ self.now.kind }
    {
        self.kind
    }

    /// Whether the observed result is an array.
    pub fn is_array(&self) -> bool
        ensures { result ≡ self.now.is_array }
    {
        self.is_array
    }

    /// The number of leaves of an input.
    pub fn leaves(&self) -> u32
        ensures count { result ≡ length (leaf_widths self.now.params) }
        ensures few { result < 2 ^ 31 }
    {
        leaves_of(self.params.as_slice())
    }

    /// The number of bits of an input.
    pub fn bits(&self) -> u64
        ensures { result ≡ bits_of (leaf_widths self.now.params) }
    {
        bits_of_params(self.params.as_slice())
    }

    /// The width of a leaf in bits, or None past the last leaf.
    pub fn width_at(&self, leaf: u32) -> Option<u32>
        ensures { result ≡ slice_get (leaf_widths self.now.params) leaf }
    {
        width_of_leaf(self.params.as_slice(), leaf)
    }

    /// The width of a leaf in bits, from 8 to 64.
    pub fn leaf_width(&self, leaf: u32) -> u32
        requires { leaf < length (leaf_widths self.now.params) }
        ensures { slice_get (leaf_widths self.now.params) leaf ≡ Some result }
    {
        self.width_at(leaf).unwrap()
    }
}

fn leaves_of(params: &[Param]) -> u32
    requires { length (leaf_widths params.now) < 2 ^ 31 }
    ensures { result ≡ length (leaf_widths params.now) }
{
    let mut count = 0;
    for param in params {
        count += param.leaves();
    }
    count
}

fn bits_of_params(params: &[Param]) -> u64
    requires { length (leaf_widths params.now) < 2 ^ 31 }
    ensures { result ≡ bits_of (leaf_widths params.now) }
{
    let mut bits = 0;
    for param in params {
        bits += param.leaves() as u64 * param.kind.width() as u64;
    }
    bits
}

fn width_of_leaf(params: &[Param], leaf: u32) -> Option<u32>
    ensures { result ≡ slice_get (leaf_widths params.now) leaf }
{
    let mut left = leaf;
    for param in params {
        let count = param.leaves();
        if left < count {
            return Some(param.kind.width());
        }
        left -= count;
    }
    None
}
