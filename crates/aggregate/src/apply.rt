// What messages make of a session's pairs: each counts at its pair, a response or an update becomes the
// cache, and an update lowers the number.
ghost use Rattle.std.specs.Prelude.{◌≡◌, ◌<◌};
ghost use Rattle.mechanism.specs.Requests.{links_of};
ghost use Rattle.mechanism.specs.Applying as spec;
ghost use Rattle.trace.specs.inner.Traces.{messages_of};
ghost use Rattle.aggregate.specs.inner.Afters.{Counts, paired};

use messages::Message;
use rule::Rule;
use session::{Pairs, Session};
use trace::Trace;

// The messages of a trace, each at its pair.
pub fn apply(session: &mut Session, trace: &Trace)
    requires { Counts 2097152 (links_of session.old) }
    ensures { session.new ≡ paired session.old (spec.applied (messages_of trace.now.numbers trace.now.len) (links_of session.old)) }
{
    // `Trace::used` of `trace` is the same slice, and private: the contract of a public function could
    // not say which borrow it answers, so that it would have more than one outcome.
    let used = &trace.numbers[..trace.len.min(510)];
    for number in used {
        let message = messages::decode(*number);
        let (u, v) = ends(message);
        if v < u {
            hit(&mut session.up, u, message);
        } else {
            hit(&mut session.down, v, message);
        }
    }
}

// What a message makes of the entry of its pair.
fn hit(pairs: &mut Pairs, i: usize, message: Message)
    requires { (i < 256) × ((spec.read_at pairs.old i).sent < 4294967295) }
    ensures { pairs.new ≡ spec.store_at pairs.old i (spec.hit message (spec.read_at pairs.old i)) }
{
    pairs.messages[i] += 1;
    match message {
        Message::Probe(_, _) | Message::Release(_, _) => {}
        Message::Response(_, _, z) => pairs.cache[i] = z,
        Message::Update(_, _, z) => {
            pairs.cache[i] = z;
            pairs.lease[i] = Rule::after_writes(pairs.lease[i], 1);
        }
    }
}

// The pair that owns a message: its near end, and its far end.
fn ends(message: Message) -> (usize, usize)
    ensures { ((result.0 ≡ spec.from_of message) × (result.0 < 256)) × ((result.1 ≡ spec.to_of message) × (result.1 < 256)) }
{
    match message {
        Message::Probe(a, b) | Message::Release(a, b) => (usize::from(b), usize::from(a)),
        Message::Response(a, b, _) | Message::Update(a, b, _) => (usize::from(a), usize::from(b)),
    }
}
