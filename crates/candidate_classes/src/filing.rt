//! The least place of each key, in one pass over chains of filed places.

ghost use Rattle.std.specs.Prelude.{◌≡◌, ℕ, ◌+◌, ◌^◌, ◌<◌, ◌≤◌, List, All, length, slice_index};
ghost use Rattle.std.specs.Bool.{OnTrue, OnFalse};
ghost use Rattle.candidate_classes.specs.Filing.{SameKey, IsLeast, IsLast, AreFiled, slot, spread, of_places};

/// Fills `finer` with the least place of each key: a member's key is its leader and its value.
pub(crate) fn refine(
    leaders: &[u32],
    values: &[u64],
    members: &[u32],
    finer: &mut [u32],
    nexts: &mut [u32],
    heads: &mut [u64],
)
    requires few { length members.now < 2 ^ 32 }
    requires values { length values.now ≡ length leaders.now }
    requires inside { All (λ k. k < length leaders.now) members.now }
    requires finer { length members.now ≤ length finer.old }
    requires nexts { length members.now ≤ length nexts.old }
    requires heads { length members.now ≤ length heads.old }
    ensures least { (k : ℕ) → k < length members.now → IsLeast (of_places leaders.now members.now) (of_places values.now members.now) (slice_index finer.new k) k }
    ensures finer { length finer.new ≡ length finer.old }
    ensures nexts { length nexts.new ≡ length nexts.old }
    ensures heads { length heads.new ≡ length heads.old }
{
    clear(heads, members.len());
    for k in 0..members.len() {
        file(leaders, values, members, finer, nexts, heads, k);
    }
}

/// Makes 0 of the first `count` numbers.
fn clear(heads: &mut [u64], count: usize)
    requires { count ≤ length heads.old }
    ensures zeros { (s : ℕ) → s < count → slice_index heads.new s ≡ 0 }
    ensures size { length heads.new ≡ length heads.old }
{
    for s in 0..count {
        heads[s] = 0;
    }
}

/// Finds the new leader of a place, and files the place if it is one itself.
fn file(
    leaders: &[u32],
    values: &[u64],
    members: &[u32],
    finer: &mut [u32],
    nexts: &mut [u32],
    heads: &mut [u64],
    k: usize,
)
    requires few { length members.now < 2 ^ 32 }
    requires values { length values.now ≡ length leaders.now }
    requires members { All (λ k. k < length leaders.now) members.now }
    requires inside { k < length members.now }
    requires filed { AreFiled (of_places leaders.now members.now) (of_places values.now members.now) finer.old heads.old nexts.old k }
    ensures filed { AreFiled (of_places leaders.now members.now) (of_places values.now members.now) finer.new heads.new nexts.new (k + 1) }
    ensures finer { length finer.new ≡ length finer.old }
    ensures nexts { length nexts.new ≡ length nexts.old }
    ensures heads { length heads.new ≡ length heads.old }
{
    let slot = slot_of(leaders, values, members, k);
    let first = head_of(heads, slot, k);
    let leader = found(leaders, values, members, finer, nexts, first, k);
    finer[k] = leader;
    nexts[k] = first;
    if leader == k as u32 {
        heads[slot] = k as u64 + 1;
    }
}

/// The slot of a place.
fn slot_of(leaders: &[u32], values: &[u64], members: &[u32], k: usize) -> usize
    requires members { All (λ k. k < length leaders.now) members.now }
    requires inside { k < length members.now }
    requires values { length values.now ≡ length leaders.now }
    ensures is { result ≡ slot (of_places leaders.now members.now) (of_places values.now members.now) k }
    ensures inside { result < length members.now }
{
    let node = members[k] as usize;
    (spread(leaders[node] as u64 ^ values[node]) % members.len() as u64) as usize
}

/// A number of 32 bits in which each bit of a number of 64 bits counts.
#[tactic(auto, unfolding(crate::specs::Filing::spread))]
fn spread(n: u64) -> u64
    ensures { result ≡ spread n }
{
    n.wrapping_mul(11400714819323198485) >> 32
}

fn head_of(heads: &[u64], slot: usize, k: usize) -> u32
    requires inside { slot < length heads.now }
    requires low { slice_index heads.now slot ≤ k }
    requires few { k < 2 ^ 32 }
    ensures { result ≡ slice_index heads.now slot }
{
    heads[slot] as u32
}

/// The least place with the key of a place: a filed leader of the slot's chain, or the place itself.
fn found(
    leaders: &[u32],
    values: &[u64],
    members: &[u32],
    finer: &[u32],
    nexts: &[u32],
    first: u32,
    k: usize,
) -> u32
    requires few { length members.now < 2 ^ 32 }
    requires values { length values.now ≡ length leaders.now }
    requires members { All (λ k. k < length leaders.now) members.now }
    requires inside { k < length members.now }
    requires sizes { (length members.now ≤ length finer.now) × (length members.now ≤ length nexts.now) }
    requires each { (j : ℕ) → j < k → IsLeast (of_places leaders.now members.now) (of_places values.now members.now) (slice_index finer.now j) j }
    requires nexts { (i : ℕ) → i < k → IsLast (of_places leaders.now members.now) (of_places values.now members.now) finer.now (slot (of_places leaders.now members.now) (of_places values.now members.now) i) i (slice_index nexts.now i) }
    requires first { IsLast (of_places leaders.now members.now) (of_places values.now members.now) finer.now (slot (of_places leaders.now members.now) (of_places values.now members.now) k) k first }
    ensures { IsLeast (of_places leaders.now members.now) (of_places values.now members.now) result k }
{
    let mut at = first;
    while at != 0 {
        let j = at as usize - 1;
        if same_key(leaders, values, members, j, k) {
            return j as u32;
        }
        at = nexts[j];
    }
    k as u32
}

/// Whether two places have the same key.
fn same_key(leaders: &[u32], values: &[u64], members: &[u32], j: usize, k: usize) -> bool
    requires values { length values.now ≡ length leaders.now }
    requires members { All (λ k. k < length leaders.now) members.now }
    requires first { j < length members.now }
    requires second { k < length members.now }
    ensures same { OnTrue result (SameKey (of_places leaders.now members.now) (of_places values.now members.now) j k) }
    ensures other { OnFalse result (SameKey (of_places leaders.now members.now) (of_places values.now members.now) j k → ⊥) }
{
    let one = members[j] as usize;
    let other = members[k] as usize;
    leaders[one] == leaders[other] && values[one] == values[other]
}
