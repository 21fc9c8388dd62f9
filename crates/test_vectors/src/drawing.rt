//! Drawing the inputs.

ghost use Rattle.std.specs.Prelude.{◌≡◌, ℕ, ◌-◌, ◌^◌, ◌<◌, ◌≤◌, ◌++◌, ◌∷◌, [], List, All, IfOk, OnOk, Some, length, slice_get, map, replicate};
ghost use Rattle.axe_io.specs.Shapes.{leaf_widths, leaf_count, width_of};
ghost use Rattle.axe_io.specs.Inputs.{IsInput};
ghost use Rattle.test_vectors.specs.TestInputs.{seeded, drawn, after_drawn, drawn_inputs, greatest, test_inputs};

use axe_io::{Input, Param, Shape};
use bv_words::{chop, mask};
use memory::Memory;
use rand_core::SeedableRng;
use rand_core::utils::next_u64_via_u32;
use rand_pcg::Lcg64Xsh32;
use std::alloc::Global;

/// The first `n` test inputs of a shape: every leaf 0; every leaf the greatest number of its width; then inputs drawn by
/// the generator of a seed, PCG XSH RR 64/32 (O'Neill, "PCG: a family of simple fast space-efficient statistically good
/// algorithms for random number generation"). For each leaf in order two words of it are drawn, the low half and the
/// high half of a number of 64 bits, and the leaf has the lowest bits of that number.
#[tactic(auto, using(crate::proofs::InputLemmas::at_least_two))]
pub fn draw(alloc: Global, seed: u64, n: u32, shape: &Shape) -> Result<Vec<Input>, Memory>
    requires some { 1 ≤ n }
    ensures inputs { IfOk result (λ inputs. inputs.items ≡ test_inputs seed n (leaf_widths shape.now.params)) }
    ensures fit { IfOk result (λ inputs. All (IsInput (leaf_widths shape.now.params)) inputs.items) }
{
    let widths = widths_of(alloc, shape.params())?;
    let mut inputs = Vec::new(alloc);
    inputs.push(Input::first(alloc, shape)?)?;
    if n == 1 {
        return Ok(inputs);
    }
    inputs.push(Input::of(greatest_of(alloc, &widths)?))?;
    draw_more(alloc, seed, n - 2, &widths, &mut inputs)?;
    Ok(inputs)
}

/// The widths of the leaves of parameters.
fn widths_of(alloc: Global, params: &[Param]) -> Result<Vec<u32>, Memory>
    ensures widths { IfOk result (λ widths. widths.items ≡ leaf_widths params.now) }
{
    let mut widths = Vec::new(alloc);
    for param in params {
        let leaves = vec![in alloc; param.kind.width(); param.leaves() as usize]?;
        widths.extend_from_slice(&leaves)?;
    }
    Ok(widths)
}

/// The greatest number of each width.
fn greatest_of(alloc: Global, widths: &[u32]) -> Result<Vec<u64>, Memory>
    requires { All (λ w. (1 ≤ w) × (w ≤ 64)) widths.now }
    ensures { IfOk result (λ leaves. leaves.items ≡ greatest widths.now) }
{
    let mut leaves = Vec::new(alloc);
    for width in widths {
        leaves.push(mask(*width))?;
    }
    Ok(leaves)
}

/// Draws so many inputs.
fn draw_more(
    alloc: Global,
    seed: u64,
    count: u32,
    widths: &[u32],
    inputs: &mut Vec<Input>,
) -> Result<(), Memory>
    requires { All (λ w. (1 ≤ w) × (w ≤ 64)) widths.now }
    ensures { OnOk result (inputs.new.items ≡ inputs.old.items ++ drawn_inputs widths.now count (seeded seed)) }
{
    let mut generator = Lcg64Xsh32::seed_from_u64(seed);
    for _ in 0..count {
        inputs.push(Input::of(draw_one(alloc, widths, &mut generator)?))?;
    }
    Ok(())
}

/// Draws one input's leaves.
fn draw_one(alloc: Global, widths: &[u32], generator: &mut Lcg64Xsh32) -> Result<Vec<u64>, Memory>
    requires { All (λ w. (1 ≤ w) × (w ≤ 64)) widths.now }
    ensures leaves { IfOk result (λ leaves. leaves.items ≡ drawn widths.now generator.old) }
    ensures after { OnOk result (generator.new ≡ after_drawn widths.now generator.old) }
{
    let mut leaves = Vec::new(alloc);
    for width in widths {
        leaves.push(chop(*width, next_u64_via_u32(generator)))?;
    }
    Ok(leaves)
}
