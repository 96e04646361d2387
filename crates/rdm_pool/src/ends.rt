//! The ends of numbers, in a tree that finds the first end above a number.
ghost use Rattle.std.specs.Prelude.{◌≡◌, ◌*◌, ◌≤◌, ◌<◌, length, set, drop, replicate, IfOk, IfSome};
ghost use Rattle.std.specs.Int.{IsPowerOfTwo};
ghost use Rattle.rdm_pool.specs.Ends.{IsTree, first_above};
ghost use Rattle.rdm_pool.specs.Ends as Ends;

use std::alloc::{AllocError, Global};
use std::marker::Model;

/// More ends than this don't fit into memory.
const MOST: usize = 1 << 62;

/// Ends of numbers, at least as many as `new` is asked for: the end of a number is one more than
/// it, and 0 stands where there is none.
#[derive(Drop)]
pub struct Ends {
    // A node `n` stands above the nodes `2 * n` and `2 * n + 1` and has the greater of the two.
    // Node 1 is above all others. The ends are the last `leaves` nodes.
    tree: Vec<u32>,
    leaves: usize,
}

impl Model for Ends {
    ghost use Rattle.std.specs.Prelude.{ℕ, List, drop};

    ghost Value = { List ℕ };

    ghost use Rattle.rdm_pool.specs.Ends.{IsRooted};

    ghost view = { λ e. drop e.leaves e.tree.items };

    ghost invariant = { λ e. IsRooted e.leaves e.tree.items };
}

/// Sets a leaf, and the nodes above it.
fn set_leaf(tree: &mut [u32], leaves: usize, at: usize, end: u32)
    requires nodes { length tree.old ≡ 2 * leaves }
    requires at_in { at < leaves }
    requires tree { IsTree leaves tree.old }
    ensures leaves { drop leaves tree.new ≡ set (drop leaves tree.old) at end }
    ensures tree { IsTree leaves tree.new }
{
    let mut node = leaves + at;
    tree[node] = end;
    while node > 1 {
        node /= 2;
        tree[node] = tree[2 * node].max(tree[2 * node + 1]);
    }
}

/// The first leaf above a number: the way down keeps to the left where a greater node is there.
fn first_leaf(tree: &[u32], leaves: usize, number: u32) -> Option<u32>
    requires nodes { length tree.now ≡ 2 * leaves }
    requires leaves { IsPowerOfTwo leaves }
    requires tree { IsTree leaves tree.now }
    ensures answer { result ≡ first_above (drop leaves tree.now) number }
    ensures above { IfSome result (λ end. number < end) }
{
    if tree[1] <= number {
        return None;
    }
    let mut node = 1;
    while node < leaves {
        node *= 2;
        if tree[node] <= number {
            node += 1;
        }
    }
    Some(tree[node])
}

impl Ends {
    /// Takes the memory for so many ends, which are all 0.
    pub fn new(alloc: Global, room: usize) -> Result<Ends, AllocError>
        ensures zero { IfOk result (λ ends. ends ≡ replicate (length ends) 0) }
        ensures room { IfOk result (λ ends. room ≤ length ends) }
    {
        if room > MOST {
            return Err(AllocError);
        }
        let leaves = room.next_power_of_two();
        let tree = vec![in alloc; 0; 2 * leaves]?;
        Ok(Ends { tree, leaves })
    }

    /// Sets one end.
    pub fn set(&mut self, at: usize, end: u32)
        requires { at < length self.old }
        ensures { self.new ≡ set self.old at end }
    {
        set_leaf(&mut self.tree, self.leaves, at, end);
    }

    /// Sets all ends to 0.
    pub fn clear(&mut self)
        ensures { self.new ≡ replicate (length self.old) 0 }
    {
        self.tree.fill(0);
    }

    /// The first end above a number.
    pub fn first_above(&self, number: u32) -> Option<u32>
        ensures answer { result ≡ first_above self.now number }
        ensures above { IfSome result (λ end. number < end) }
    {
        first_leaf(&self.tree, self.leaves, number)
    }
}
