// Which slot of a track each sector has.
#![tactic(auto)]

ghost use Rattle.std.specs.Prelude.{◌≡◌, ◌+◌, ◌-◌, ◌%◌, ◌≤◌, ◌<◌, ◌++◌, length, replicate};
ghost use Rattle.interleave.specs.Layout.{empty_from, layout_of};

// (slot + step) mod n, without a division. The slot itself is compared, so that a walk of such steps waits for one sum at each
// and not for two.
fn wrapped(slot: usize, step: usize, n: usize) -> usize
    requires { (slot < n) × (step ≤ n) }
    ensures { result ≡ (slot + step) % n }
{
    let rest = n - step;
    if slot < rest {
        return slot + step;
    }
    slot - rest
}

// The first empty slot from `from` on, going upward and round. The entry n says that a slot is empty.
fn next_empty(map: &[u8], n: usize, from: usize) -> usize
    requires { (n ≤ length map.now) × (from < n) × (n ≤ 32) }
    ensures { (result ≡ empty_from map.now n n from) × (result < n) }
{
    let mut slot = from;
    for _ in 0..n {
        if usize::from(map[slot]) == n {
            return slot;
        }
        slot = wrapped(slot, 1, n);
    }
    slot
}

// The sector in each slot of a track of n, for interleave f. The entries past slot n are not used: the array has 32 for any n, since
// there is no heap, and n for a slot that is empty, since the contract says what every entry is.
pub fn layout(n: usize, f: usize) -> [u8; 32]
    requires { (f < n) × (n ≤ 32) }
    ensures { result ≡ layout_of n f ++ replicate (32 - n) n }
{
    let empty = n as u8;
    let mut map = [empty; 32];
    map[0] = 0;
    let mut slot = 0;
    for s in 1..n {
        slot = next_empty(&map, n, wrapped(slot, f, n));
        map[slot] = s as u8;
    }
    map
}
