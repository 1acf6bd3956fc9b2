// The requests of a list, one by one.
ghost use Rattle.std.specs.Prelude.{◌≡◌};
ghost use Rattle.requests.specs.Format.{Counted};
ghost use Rattle.requests.specs.Reading.{judged_of};
ghost use Rattle.requests.specs.Told.{told_judged};

use crate::{Judged, Request};
use refusal::Refusal;

// The requests of a list whose count is in rule, then its end.
#[tactic(auto, using(crate::proofs::Walk::went_few, crate::proofs::Walk::went_short, crate::proofs::Walk::went_left_over, crate::proofs::Walk::went_whole))]
pub fn requests(list: &[u8], count: usize) -> Result<Judged, Refusal>
    requires { Counted list.now count }
    ensures { told_judged result ≡ judged_of list.now }
{
    let mut place: usize = 13;
    let mut combines: usize = 0;
    for _ in 0..count {
        let (request, next) = crate::request_at(list, place)?;
        combines += usize::from(matches!(request, Request::Combine(_)));
        place = next;
    }
    if !packed::ends(list, place) {
        return Err(Refusal::LeftOver);
    }
    Ok(Judged {
        requests: count,
        combines,
        first: 13,
    })
}
