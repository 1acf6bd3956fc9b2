// A message's kind, with which its record begins.
ghost use Rattle.std.specs.Prelude.{◌≡◌};
ghost use Rattle.messages.specs.Records.{kind_of, width_of};
ghost use Rattle.messages.specs.inner.Kinds.{number, kind_at};

use crate::Message;

#[derive(Clone, Copy, Debug, PartialEq, Eq)]
pub enum Kind {
    Probe = 0,
    Response = 1,
    Update = 2,
    Release = 3,
}

impl Kind {
    // How many bits a record of the kind has.
    #[tactic(auto, unfolding(crate::specs::Records::width_of))]
    pub fn width(self) -> usize
        ensures { result ≡ width_of (number self) }
    {
        match self {
            Kind::Probe | Kind::Release => 18,
            Kind::Response | Kind::Update => 58,
        }
    }
}

// The kind of a message.
impl From<Message> for Kind {
    ghost from_gives = { λ m k. number k ≡ kind_of m };

    #[tactic(auto, unfolding(crate::specs::Records::kind_of))]
    fn from(message: Message) -> Kind {
        match message {
            Message::Probe(_, _) => Kind::Probe,
            Message::Response(_, _, _) => Kind::Response,
            Message::Update(_, _, _) => Kind::Update,
            Message::Release(_, _) => Kind::Release,
        }
    }
}

// The kind's number, 2 bits.
impl From<Kind> for u64 {
    ghost from_gives = { λ k n. n ≡ number k };

    fn from(kind: Kind) -> u64 {
        kind as u64
    }
}

// The kind of a number; 3 and all above it are a release.
impl From<u64> for Kind {
    ghost from_gives = { λ n k. k ≡ kind_at n };

    #[tactic(auto, unfolding(crate::specs::inner::Kinds::kind_at))]
    fn from(number: u64) -> Kind {
        match number {
            0 => Kind::Probe,
            1 => Kind::Response,
            2 => Kind::Update,
            _ => Kind::Release,
        }
    }
}
