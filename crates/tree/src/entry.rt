// Which entries of a tree are in rule.
ghost use Rattle.std.specs.Prelude.{◌≡◌, ◌≤◌, length, ltb, eqb};
ghost use Rattle.tree.specs.inner.Places.{from};
ghost use Rattle.tree.specs.Every.{every};
ghost use Rattle.tree.specs.Parents.{parent, place_in_rule, in_rule};

use crate::Tree;

impl Tree {
    // Whether the tree is in rule: 1 to 256 nodes, each parent smaller than its child, and entries
    // not used zero.
    #[tactic(auto, using(crate::proofs::InRule::by_count))]
    pub fn in_rule(&self) -> bool
        ensures { result ≡ in_rule self.now.parents self.now.count }
    {
        (1..=256).contains(&self.count) && self.entries_in_rule()
    }

    // Whether all entries are in rule: the root's and those from the count on are zero, and each
    // parent is smaller than its child. A pass goes over all its places, whatever it finds, so that
    // many are taken at once.
    fn entries_in_rule(&self) -> bool
        requires some { 1 ≤ self.now.count }
        requires few { self.now.count ≤ 256 }
        ensures { result ≡ every (place_in_rule self.now.parents self.now.count) 256 }
    {
        let (used, unused) = self.parents.split_at(usize::from(self.count));
        (used[0] == 0) & grown(used) & all_zero(unused)
    }
}

// Whether every node but the root has a smaller parent.
#[tactic(auto, using(crate::proofs::Every::from_none, crate::proofs::Every::from_more))]
fn grown(parents: &[u8]) -> bool
    requires { 1 ≤ length parents.now }
    ensures { result ≡ every (from 1 (λ i. ltb (parent parents.now i) i)) (length parents.now) }
{
    let mut good = true;
    for node in 1..parents.len() {
        good &= usize::from(parents[node]) < node;
    }
    good
}

// Whether every entry is zero.
#[tactic(auto, using(crate::proofs::Every::every_none, crate::proofs::Every::every_next))]
fn all_zero(entries: &[u8]) -> bool
    ensures { result ≡ every (λ i. eqb (parent entries.now i) 0) (length entries.now) }
{
    let mut good = true;
    for entry in entries {
        good &= *entry == 0;
    }
    good
}
