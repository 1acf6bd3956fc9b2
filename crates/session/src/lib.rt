// Sessions: what they hold, when they are sound, how they start, and their table.
//
// Every function takes any session, also one that no call of this library returned, and has one
// outcome.
#![tactic(auto)]

mod entry; // the entries of pairs
mod order; // the inequality between neighbouring pairs
mod parts; // a session handed in by its parts
mod pass; // passes over all of a list

ghost use Rattle.std.specs.Prelude.{◌≡◌, length};
ghost use Rattle.session.specs.Soundness.{sound};
ghost use Rattle.session.specs.Starting.{zeros, started_of, loaded_of};
ghost use Rattle.session.specs.Tables.{written_of, output_of};
ghost use Rattle.session.specs.Told.{told_started};
ghost use Rattle.table.specs.Told.{told_written};

pub use parts::parts_are_sound;
use refusal::Refusal;
use tree::Tree;

// What is held of one ordered pair for each edge, at the place of the child: the lease number, the
// cache for the near side, and the messages sent so far. An array for each, as document 01 names the form.
#[repr(C)]
#[derive(Clone, Copy)]
pub struct Pairs {
    pub lease: [u8; 256],
    pub cache: [i64; 256],
    pub messages: [u32; 256],
}

// A tree, the value of each node, the pairs from child to parent, those from parent to child, and
// how many requests were accepted. Entries not used are zero.
#[repr(C)]
#[derive(Clone, Copy)]
pub struct Session {
    pub tree: Tree,
    pub values: [i32; 256],
    pub up: Pairs,
    pub down: Pairs,
    pub accepted: u32,
}

impl Session {
    // The most requests that a session accepts.
    pub const LIMIT: u32 = 1048576;

    // A session that has zeros in all but the tree. Refusal: 6 the tree is out of rule.
    #[tactic(auto, unfolding(crate::specs::Starting::started_of))]
    pub fn fresh(tree: Tree) -> Result<Session, Refusal>
        ensures { told_started zeros result ≡ started_of tree }
    {
        if !tree.in_rule() {
            return Err(Refusal::Unsound);
        }
        Ok(Session {
            tree,
            values: [0; 256],
            up: Pairs::none(),
            down: Pairs::none(),
            accepted: 0,
        })
    }

    // A fresh session of the tree of a table, in place of this one. Refusals: those of the table; this
    // session is then kept.
    #[tactic(auto, using(crate::proofs::Starts::loads_as, crate::proofs::Starts::loads_not))]
    pub fn load(&self, bytes: &[u8]) -> Result<Session, Refusal>
        ensures { told_started self.now result ≡ loaded_of self.now bytes.now }
    {
        Session::fresh(table::read(bytes)?)
    }

    // Whether the session is sound.
    pub fn is_sound(&self) -> bool
        ensures { result ≡ sound 2 self.now }
    {
        parts_are_sound(
            self.tree.count,
            &self.tree.parents,
            &self.values,
            &self.up.lease,
            &self.up.cache,
            &self.up.messages,
            &self.down.lease,
            &self.down.cache,
            &self.down.messages,
            self.accepted,
        )
    }

    // Writes the table of the session's tree into the first bytes, answers how many, and leaves later
    // ones as they are. Refusals: 6 the session is unsound, 9 the output is too short. Where writing is
    // refused, nothing is changed.
    #[tactic(auto, unfolding(crate::specs::Tables::written_of, crate::specs::Tables::output_of))]
    pub fn write_table(&self, out: &mut [u8]) -> Result<usize, Refusal>
        ensures { (told_written result ≡ written_of self.now (length out.old)) × (out.new ≡ output_of self.now out.old) }
    {
        if !self.is_sound() {
            return Err(Refusal::Unsound);
        }
        table::write(self.tree, out)
    }
}

impl Pairs {
    // Nothing held of any pair.
    fn none() -> Pairs
        ensures { result ≡ Rattle.session.specs.Starting.empty }
    {
        Pairs {
            lease: [0; 256],
            cache: [0; 256],
            messages: [0; 256],
        }
    }
}
