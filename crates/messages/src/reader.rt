// The log's reader that carries the lent log and its bit place along from message to message.
ghost use Rattle.std.specs.Prelude.{◌≡◌};
ghost use Rattle.messages.specs.Reading.{entry_at, place_after};

use crate::Message;
use refusal::Refusal;

// A lent log and the place in it.
#[derive(Clone, Copy)]
pub struct LogReader<'a> {
    pub log: &'a [u8],
    pub place: usize,
}

impl<'a> LogReader<'a> {
    // A reader at a place of a log.
    pub fn new(log: &'a [u8], place: usize) -> LogReader<'a>
        ensures { (result.log ≡ log.entry) × (result.place ≡ place) }
    {
        LogReader { log, place }
    }

    // What stands at the reader's place, before end. The reader is past it if it is a message, and
    // stays where it is if not.
    pub fn read(&mut self, end: usize) -> Result<Option<(Message, usize)>, Refusal>
        ensures { (result ≡ entry_at self.old.log.now self.old.place end) × (self.new.log ≡ self.old.log) × (self.new.place ≡ place_after result self.old.place) }
    {
        let entry = crate::read(self.log, self.place, end)?;
        if let Some((_, next)) = entry {
            self.place = next;
        }
        Ok(entry)
    }
}
