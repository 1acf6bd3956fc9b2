// The rule of one ordered pair of neighbours (u,v), RWW: a combine on v's side grants a lease, and
// two writes in a row on u's side break it.
//
// A pair's lease number is 0 where there is no lease, and else how many writes in a row break it.
// What the rule sends and what that costs at most is mathematics: it stands in specs/ and proofs/.
#![tactic(auto)]

ghost use Rattle.std.specs.Prelude.{◌≡◌, replicate};
ghost use Rattle.rule.specs.Pair.{combine, write, number_after};

#[derive(Clone, Copy)]
pub struct Rule;

impl Rule {
    // A lease is granted after so many combines in a row.
    pub const GRANT: u32 = 1;
    // A lease is broken after so many writes in a row.
    pub const BREAK: u8 = 2;

    // The lease number after so many combines in a row: one is enough.
    #[tactic(auto, using(crate::proofs::Runs::granted, crate::proofs::Runs::none_changes))]
    pub fn after_combines(number: u8, combines: u32) -> u8
        ensures { result ≡ number_after 2 number (replicate combines combine) }
    {
        if Self::GRANT <= combines {
            Self::BREAK
        } else {
            number
        }
    }

    // The lease number after so many writes in a row: each lowers it by one, down to 0.
    #[tactic(auto, using(crate::proofs::Runs::number_writes))]
    pub fn after_writes(number: u8, writes: u32) -> u8
        ensures { result ≡ number_after 2 number (replicate writes write) }
    {
        u32::from(number).saturating_sub(writes) as u8
    }
}
