//! Which widths go together.

ghost use Rattle.std.specs.Prelude.{◌≡◌, ℕ, slice_get};
ghost use Rattle.axe_io.specs.Shapes.{leaf_widths};
ghost use Rattle.dag.specs.Node.{width_by as width_by_of, is_width as is_width_of, leaf_width as leaf_width_of, constant_width as constant_width_of, same_width as same_width_of, test_width as test_width_of, choice_width as choice_width_of, cut_width as cut_width_of, joined_width as joined_width_of, widened_width as widened_width_of, shifted_width as shifted_width_of};

use crate::node::Form;
use axe_io::Shape;

/// The width of a node of a form over children of the widths `x`, `y` and `z`, or None where these don't fit. What is
/// past the form's children isn't looked at.
pub fn width_by(
    shape: &Shape,
    form: Form,
    x: Option<u32>,
    y: Option<u32>,
    z: Option<u32>,
) -> Option<u32>
    ensures { result ≡ width_by_of (leaf_widths shape.now.params) form x y z }
{
    match form {
        Form::Input { width, index } => leaf_width(shape.width_at(index), width),
        Form::Constant { width, value } => constant_width(width, value),
        Form::Unary => x,
        Form::Binary => same_width(x, y),
        Form::Test => test_width(same_width(x, y)),
        Form::Choice => choice_width(x, same_width(y, z)),
        Form::Cut { high, low } => cut_width(high, low, x),
        Form::Joined => joined_width(x, y),
        Form::Widened { width } => widened_width(width, x),
        Form::Shifted => shifted_width(x, y),
    }
}

fn is_width(width: u32) -> bool
    ensures { result ≡ is_width_of width }
{
    0 < width && width <= 64
}

fn leaf_width(found: Option<u32>, width: u32) -> Option<u32>
    ensures { result ≡ leaf_width_of found width }
{
    match found {
        Some(leaf) if leaf == width && is_width(width) => Some(width),
        _ => None,
    }
}

fn constant_width(width: u32, value: u64) -> Option<u32>
    ensures { result ≡ constant_width_of width value }
{
    if is_width(width) && value <= bv_words::mask(width) {
        Some(width)
    } else {
        None
    }
}

fn same_width(first: Option<u32>, second: Option<u32>) -> Option<u32>
    ensures { result ≡ same_width_of first second }
{
    match (first, second) {
        (Some(x), Some(y)) if x == y => Some(x),
        _ => None,
    }
}

fn test_width(same: Option<u32>) -> Option<u32>
    ensures { result ≡ test_width_of same }
{
    match same {
        Some(_) => Some(1),
        None => None,
    }
}

fn choice_width(first: Option<u32>, same: Option<u32>) -> Option<u32>
    ensures { result ≡ choice_width_of first same }
{
    match first {
        Some(1) => same,
        _ => None,
    }
}

fn cut_width(high: u32, low: u32, first: Option<u32>) -> Option<u32>
    ensures { result ≡ cut_width_of high low first }
{
    match first {
        Some(x) if low <= high && high < x => Some(high - low + 1),
        _ => None,
    }
}

fn joined_width(first: Option<u32>, second: Option<u32>) -> Option<u32>
    ensures { result ≡ joined_width_of first second }
{
    match (first, second) {
        (Some(x), Some(y)) if x <= 64 && y <= 64 - x => Some(x + y),
        _ => None,
    }
}

fn widened_width(width: u32, first: Option<u32>) -> Option<u32>
    ensures { result ≡ widened_width_of width first }
{
    match first {
        Some(x) if x <= width && width <= 64 => Some(width),
        _ => None,
    }
}

fn shifted_width(first: Option<u32>, second: Option<u32>) -> Option<u32>
    ensures { result ≡ shifted_width_of first second }
{
    match second {
        Some(_) => first,
        None => None,
    }
}
