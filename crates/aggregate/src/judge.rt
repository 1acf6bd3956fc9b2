// Whether a request is refused before its walk.
ghost use Rattle.std.specs.Prelude.{◌≡◌};
ghost use Rattle.refusal.specs.Numbers.{refusal_in};
ghost use Rattle.aggregate.specs.inner.Acts.{early_refusal};

use refusal::Refusal;
use session::Session;

// Refusals: 7 and 8. 9 is known after the walk.
#[tactic(auto, unfolding(crate::specs::inner::Acts::early_refusal))]
pub fn early(session: &Session, x: usize) -> Result<(), Refusal>
    ensures { refusal_in result ≡ early_refusal session.now.tree.count session.now.accepted x }
{
    if usize::from(session.tree.count) <= x {
        return Err(Refusal::NoNode);
    }
    if Session::LIMIT <= session.accepted {
        return Err(Refusal::Limit);
    }
    Ok(())
}
