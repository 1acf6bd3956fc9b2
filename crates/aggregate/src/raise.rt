// A combine raises every pair that points to its node.
ghost use Rattle.std.specs.Prelude.{◌≡◌};
ghost use Rattle.mechanism.specs.Requests.{links_of};
ghost use Rattle.mechanism.specs.Applying.{up_raised, down_raised, raised};
ghost use Rattle.aggregate.specs.inner.Afters.{Climbing, Raisable, paired};

use rule::Rule;
use session::Session;

// Every pair that points to x gets the number that a combine gives it.
pub fn raise(session: &mut Session, x: usize)
    requires { Raisable session.old x }
    ensures { session.new ≡ paired session.old (raised session.old.tree.parents session.old.tree.count 2 x (links_of session.old)) }
{
    let count = usize::from(session.tree.count);
    climb(
        count,
        &session.tree.parents,
        x,
        &mut session.up.lease,
        &mut session.down.lease,
    );
}

// The same of the numbers from child to parent and from parent to child. `at` is the next node on the way
// from x to the root: below it lies x, and below no other node of its number or more. The arrays are lent
// one by one and the function is not inlined: the loop is most of what a free combine in a list takes, and
// written through the session it took up to half as long again (docs/DESIGN-PASS.md).
#[inline(never)]
fn climb(count: usize, parents: &[u8; 256], x: usize, up: &mut [u8; 256], down: &mut [u8; 256])
    requires { Climbing parents.now count x up.old down.old }
    ensures { (up.new ≡ up_raised parents.now count 2 x up.old) × (down.new ≡ down_raised parents.now count 2 x down.old) }
{
    let mut at = x;
    for i in (1..count).rev() {
        if i == at {
            down[i] = Rule::after_combines(down[i], 1);
            at = usize::from(parents[i]);
        } else {
            up[i] = Rule::after_combines(up[i], 1);
        }
    }
}
