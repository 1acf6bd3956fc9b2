// The trace of a request: its messages before they are logged, each as a number.
//
// Every public function is total: it takes whatever it is handed and has one outcome. A trace has room
// for 510 messages, and of a length above that only 510 are ever used.
#![tactic(auto)]

ghost use Rattle.std.specs.Prelude.{◌≡◌, min, length, take};
ghost use Rattle.messages.specs.Writing.{bits_of_all};
ghost use Rattle.trace.specs.inner.Traces as spec;

use messages::Message;
use refusal::Refusal;

// Room for the numbers of 510 messages, and how many of them count. No list of a type of its own: there
// is no heap, and any array and any length may be handed in.
#[derive(Clone, Copy)]
pub struct Trace {
    pub numbers: [u64; 510],
    pub len: usize,
}

impl Trace {
    // A trace of no message.
    pub fn new() -> Trace
        ensures { result ≡ spec.empty }
    {
        Trace {
            numbers: [0; 510],
            len: 0,
        }
    }

    // Adds a message. Where its value does not fit 40 bits, or the trace is full, nothing is added.
    pub fn push(&mut self, message: Message)
        ensures { self.new ≡ spec.pushed message self.old }
    {
        let Ok(number) = messages::code(message) else {
            return;
        };
        if self.len < 510 {
            self.numbers[self.len] = number;
            self.len += 1;
        }
    }

    // The numbers that count.
    fn used(&self) -> &[u64]
        ensures { (result.now ≡ take (min self.now.len 510) self.now.numbers) × (length result.now ≡ min self.now.len 510) }
    {
        &self.numbers[..self.len.min(510)]
    }

    // Logs the messages from a place on, all of them or none, and answers the place after them. Refusal:
    // 9 the place is past the usable log, or there are too few bits for all records.
    pub fn log(&self, log: &mut [u8], place: usize) -> Result<usize, Refusal>
        ensures { (result ≡ spec.logged_of (length log.old) place (spec.messages_of self.now.numbers self.now.len)) × (log.new ≡ spec.log_after_all log.old place (spec.messages_of self.now.numbers self.now.len)) }
    {
        let end = fields::usable_bits(log.len());
        if end < place {
            return Err(Refusal::NoRoom);
        }
        if end - place < self.bits() {
            return Err(Refusal::NoRoom);
        }
        Ok(self.record(log, place))
    }

    // How many bits the records of the messages have.
    fn bits(&self) -> usize
        ensures { result ≡ bits_of_all (spec.messages_of self.now.numbers self.now.len) }
    {
        let used = self.used();
        let mut bits = 0;
        for number in used {
            bits += messages::bits(messages::decode(*number));
        }
        bits
    }

    // Logs the messages from a place on, and answers the place after them. A message that is refused is
    // left out.
    fn record(&self, log: &mut [u8], place: usize) -> usize
        ensures { spec.writing log.new result ≡ spec.noted_all (spec.messages_of self.now.numbers self.now.len) (spec.writing log.old place) }
    {
        let used = self.used();
        let mut at = place;
        for number in used {
            at = messages::write(log, at, messages::decode(*number)).unwrap_or(at);
        }
        at
    }
}
