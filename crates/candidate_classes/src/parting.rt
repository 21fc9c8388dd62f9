//! Which nodes may still be parted.

ghost use Rattle.std.specs.Prelude.{◌≡◌, ℕ, ◌+◌, ◌^◌, ◌<◌, ◌≤◌, List, All, length, filter, slice_index};
ghost use Rattle.std.specs.List.{Contains, AllPairs};
ghost use Rattle.candidate_classes.specs.Partition.{AreParting};
ghost use Rattle.candidate_classes.specs.Marks.{is_marked};

/// Makes each member's leader the member at the place that `finer` has for it.
pub(crate) fn lead(leaders: &mut [u32], members: &[u32], finer: &[u32])
    requires inside { All (λ k. k < length leaders.old) members.now }
    requires rising { AllPairs (λ a b. a < b) members.now }
    requires finer { length members.now ≤ length finer.now }
    requires places { (i : ℕ) → i < length members.now → slice_index finer.now i ≤ i }
    ensures led { (i : ℕ) → i < length members.now → slice_index leaders.new (slice_index members.now i) ≡ slice_index members.now (slice_index finer.now i) }
    ensures others { (k : ℕ) → (Contains members.now k → ⊥) → slice_index leaders.new k ≡ slice_index leaders.old k }
    ensures size { length leaders.new ≡ length leaders.old }
{
    for i in 0..members.len() {
        leaders[members[i] as usize] = members[finer[i] as usize];
    }
}

/// Drops the members that are a class of their own. `marks` has a place for each node.
pub(crate) fn drop_alone(leaders: &[u32], members: &mut Vec<u32>, marks: &mut [u64])
    requires marks { length marks.old ≡ length leaders.now }
    requires leaders { All (λ l. l < length leaders.now) leaders.now }
    requires parting { AreParting leaders.now members.old.items }
    ensures parting { AreParting leaders.now members.new.items }
    ensures marks { length marks.new ≡ length marks.old }
{
    unmark(marks, members);
    mark(leaders, members, marks);
    keep_marked(members, marks);
}

/// Makes 0 of the marks of members.
fn unmark(marks: &mut [u64], members: &[u32])
    requires { All (λ k. k < length marks.old) members.now }
    ensures { length marks.new ≡ length marks.old }
{
    for k in members {
        marks[*k as usize] = 0;
    }
}

/// Marks each member that another one leads, and the one that leads it.
fn mark(leaders: &[u32], members: &[u32], marks: &mut [u64])
    requires inside { All (λ k. k < length leaders.now) members.now }
    requires leaders { All (λ l. l < length leaders.now) leaders.now }
    requires marks { length marks.old ≡ length leaders.now }
    ensures led { (k : ℕ) → Contains members.now k → (slice_index leaders.now k ≡ k → ⊥) → (slice_index marks.new k ≡ 1) × (slice_index marks.new (slice_index leaders.now k) ≡ 1) }
    ensures size { length marks.new ≡ length marks.old }
{
    for i in 0..members.len() {
        let node = members[i];
        let leader = leaders[node as usize];
        if leader != node {
            marks[node as usize] = 1;
            marks[leader as usize] = 1;
        }
    }
}

fn keep_marked(members: &mut Vec<u32>, marks: &[u64])
    ensures { members.new.items ≡ filter (is_marked marks.now) members.old.items }
{
    members.retain(|k| is_marked(marks, *k));
}

fn is_marked(marks: &[u64], k: u32) -> bool
    ensures { result ≡ is_marked marks.now k }
{
    let k = k as usize;
    k < marks.len() && marks[k] == 1
}
