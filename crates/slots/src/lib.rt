//! Slots of a mesh as numbers in a slice: searched, cleared, one made four and four made one. Nothing here knows of triangles. C lends
//! one slice, leaves first and then zeros: so what changes or reads the rest of it is told how many slots are in use, `n`. That leaves
//! ascend is asked: a search takes any slice that does.

#![tactic(auto)]

ghost use Rattle.std.specs.Prelude.{◌≡◌, ◌+◌, ◌/◌, ◌^◌, ◌<◌, ◌≤◌, length, slice_index};
ghost use Rattle.refusals.specs.Answers.{Tells};
ghost use Rattle.soundness.specs.Leaves.{Ascends};
ghost use Rattle.soundness.specs.Inner.{Below};
ghost use Rattle.slots.specs.Slots.{Less, ZerosFrom, cleared_from, split_slot, join_at};

// 1 where half of a slot, rounded down, is less than the bound, else 0, by the sign of their difference: no processor guesses the
// way of a branch on such a comparison in a search. The difference of whole slots has no sign to read. A cast makes an index
// of the sign, which is no test.
fn less(slot: u64, bound: u64) -> usize
    requires { bound ≤ 2 ^ 63 }
    ensures { Less (slot / 2) bound result }
{
    ((slot / 2).wrapping_sub(bound) >> 63) as usize
}

/// How many of the leaves, which ascend, are less than the key.
// A search by hand: the slice's `partition_point` takes 83 ns for 36 among 8,192 leaves, and 45 for 15 among 128, since it
// branches on each comparison.
pub fn below(leaves: &[u64], key: u64) -> usize
    requires { Ascends leaves.now }
    ensures { Below leaves.now key result }
{
    if leaves.is_empty() {
        return 0;
    }
    // Half of the key, rounded up: a slot whose half is less is at most the key, any other is not less than the key. Rounded down
    // it would be seen to be below 2^63: then the compiler makes a comparison of the sign, and a branch of the comparison.
    let bound = key / 2 + key % 2;
    let mut at = 0;
    let mut rest = leaves.len();
    while 1 < rest {
        let half = rest / 2;
        at += half * less(leaves[at + half], bound);
        rest -= half;
    }
    if leaves[at] < key {
        return at + 1;
    }
    at
}

// How far on each side of a guess the search looks first.
const NEAR: usize = 64;

/// As `below`, in less time where the answer is near the guess. A wrong guess costs a little time and nothing else.
pub fn below_near(leaves: &[u64], key: u64, guess: usize) -> usize
    requires { Ascends leaves.now }
    ensures { Below leaves.now key result }
{
    if guess < NEAR || leaves.len() < NEAR || leaves.len() - NEAR < guess {
        return below(leaves, key);
    }
    let near = &leaves[guess - NEAR..guess + NEAR];
    if near[0] < key && key <= near[2 * NEAR - 1] {
        return guess - NEAR + below(near, key);
    }
    below(leaves, key)
}

/// Whether every slot from `n` on is zero; yes if there is none.
// They are joined, which the compiler does with several at a time, and compared once; `all` takes 3.8 times as long.
pub fn zeros_from(slots: &[u64], n: usize) -> bool
    requires { n ≤ length slots.now }
    ensures { Tells result (ZerosFrom slots.now n) }
{
    slots[n..].iter().fold(0, |joined, &slot| joined | slot) == 0
}

/// Makes every slot from `n` on zero.
pub fn clear_from(slots: &mut [u64], n: usize)
    requires { n ≤ length slots.old }
    ensures { slots.new ≡ cleared_from slots.old n }
{
    slots[n..].fill(0);
}

/// Of `n` slots in use, makes the one at `at` four; the later ones move up three.
pub fn split(slots: &mut [u64], at: usize, n: usize, four: [u64; 4])
    requires at { at < n }
    requires room { n + 3 ≤ length slots.old }
    ensures { slots.new ≡ split_slot slots.old at n (slice_index four 0) (slice_index four 1) (slice_index four 2) (slice_index four 3) }
{
    slots.copy_within(at + 1..n, at + 4);
    slots[at..at + 4].copy_from_slice(&four);
}

/// Of `n` slots in use, makes the four from `at` on one; the later ones move down three, and the three that are freed become
/// zero.
pub fn join(slots: &mut [u64], at: usize, n: usize, code: u64)
    requires four { at + 4 ≤ n }
    requires room { n ≤ length slots.old }
    ensures { slots.new ≡ join_at slots.old at n code }
{
    slots[at] = code;
    slots.copy_within(at + 4..n, at + 1);
    slots[n - 3..n].fill(0);
}
