// The filling of a template: which of its holes are owed.
ghost use Rattle.std.specs.Prelude.{◌≡◌, ℕ, ◌+◌, ◌-◌, ◌^◌, ◌<◌, ◌≤◌, true, false, length, Ok, count_ones};
ghost use Rattle.fault.specs.Refusal.{told};
ghost use Rattle.template.specs.Ends.{places_of};
ghost use Rattle.template.specs.Lexing.{ends_in, lexed_from};
ghost use Rattle.printer.specs.Held.{Marks, owed_bit, lowest_bit, judged_finish};
ghost use Rattle.printer.specs.Slate.{Slate, owed_at, how_many, lowest, judge_finish_lem};

use crate::finished::Finished;
use fault::Fault;
use template::checked::Checked;
use template::ends::Ends;
use template::survey::MAX_HOLES;

// A template that is being filled. A hole is owed until it has a value: hole k is owed where bit k of the map is 1, and
// the bits from the hole count on are 0.
#[derive(Drop)]
pub struct Filling<'t> {
    pub(crate) template: &'t [u8],
    pub(crate) holes: usize,
    ends: Ends,
    owed: u64,
    ghost few: { holes ≤ 64 },
    ghost within: { owed < 2 ^ holes },
    ghost ended: { places_of ends ≡ ends_in (lexed_from template.now 0) },
}

// The map with a bit for each hole.
fn all(holes: usize) -> u64
    requires { holes ≤ 64 }
    ensures { result ≡ 2 ^ holes - 1 }
{
    if holes == MAX_HOLES {
        u64::MAX
    } else {
        (1 << holes) - 1
    }
}

impl<'t> Filling<'t> {
    // Every hole is owed.
    pub(crate) fn new(checked: &Checked<'t>) -> Filling<'t>
        ensures template { result.template.now ≡ checked.now.template.now }
        ensures holes { result.holes ≡ checked.now.holes }
        ensures owed { result.owed ≡ 2 ^ checked.now.holes - 1 }
    {
        let holes = checked.holes();
        Filling {
            template: checked.template(),
            holes,
            ends: checked.ends(),
            owed: all(holes),
        }
    }

    pub(crate) fn owes(&self, hole: usize) -> bool
        requires { hole < self.now.holes }
        ensures { result ≡ owed_bit self.now.owed hole }
    {
        (self.owed >> hole) & 1 == 1
    }

    // The hole has its value.
    #[tactic(auto, using(crate::proofs::Flips::cleared, crate::proofs::Flips::cleared_within))]
    pub(crate) fn settle(&mut self, hole: usize)
        requires within { hole < self.old.holes }
        requires owes { owed_bit self.old.owed hole ≡ true }
        ensures owed { self.new.owed ≡ self.old.owed - 2 ^ hole }
        ensures holes { self.new.holes ≡ self.old.holes }
        ensures template { self.new.template ≡ self.old.template }
    {
        self.owed ^= 1 << hole;
    }

    // The hole is owed again.
    #[tactic(auto, using(crate::proofs::Flips::raised, crate::proofs::Flips::raised_within))]
    pub(crate) fn reopen(&mut self, hole: usize)
        requires within { hole < self.old.holes }
        requires settled { owed_bit self.old.owed hole ≡ false }
        ensures owed { self.new.owed ≡ self.old.owed + 2 ^ hole }
        ensures holes { self.new.holes ≡ self.old.holes }
        ensures template { self.new.template ≡ self.old.template }
    {
        self.owed |= 1 << hole;
    }

    // How many holes are owed, and the lowest.
    pub fn owed(&self) -> (usize, Option<usize>)
        ensures value { result ≡ (count_ones self.now.owed, lowest_bit self.now.owed) }
        ensures slate { (ss : Slate) → Marks self.now.holes self.now.owed ss → result ≡ (how_many ss, lowest ss) }
    {
        let count = self.owed.count_ones() as usize;
        let lowest = (self.owed > 0).then_some(self.owed.trailing_zeros() as usize);
        (count, lowest)
    }

    // Whether the filling can be finished: the count of its holes, or 15 with the lowest hole that is owed.
    pub fn judge_finish(&self) -> Result<usize, Fault>
        ensures value { told result ≡ judged_finish self.now.holes self.now.owed }
        ensures slate { (ss : Slate) → Marks self.now.holes self.now.owed ss → told result ≡ judge_finish_lem (length ss) (lowest ss) }
    {
        let (_, lowest) = self.owed();
        if let Some(hole) = lowest {
            return Err(Fault::StillOwed { hole });
        }
        Ok(self.holes)
    }

    // Ends a filling that `judge_finish` accepts: every hole has its value.
    #[tactic(auto, using(crate::proofs::Linked::none_owed, crate::proofs::Linked::finished_none))]
    pub fn finish(self) -> Finished<'t>
        requires { judged_finish self.holes self.owed ≡ Ok self.holes }
        ensures template { result.template ≡ self.entry.template }
        ensures holes { result.holes ≡ self.entry.holes }
        ensures slate { (ss : Slate) (k : ℕ) → Marks self.entry.holes self.entry.owed ss → owed_at ss k ≡ false }
    {
        Finished::new(self.template, self.holes, self.ends)
    }
}
