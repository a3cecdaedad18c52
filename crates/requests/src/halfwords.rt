// The halfwords of a line: four hexadecimal digits each, a comma between two, or a dash where there are none.
ghost use Rattle.std.specs.Prelude.{◌≡◌, [], length};
ghost use Rattle.requests.specs.Fields.{Passes};
ghost use Rattle.requests.specs.Halfwords.{halfword_at, list_at, is_dash, run_at, Reads};

use crate::fields::Fields;

impl<'a> Fields<'a> {
    // Four digits.
    #[tactic(auto, unfolding(crate::specs::Halfwords::halfword_at))]
    fn halfword(&mut self) -> Option<u16>
        ensures { Passes halfword_at self.old self.new result }
    {
        let from = self.at;
        let number = self.number(16)?;
        (self.at - from == 4).then_some((number % 65536) as u16)
    }

    // A list of more halfwords than are lent is no list.
    #[tactic(auto, using(crate::proofs::HalfwordLaws::list_steps))]
    fn list(mut self, lent: &mut [u16]) -> Option<usize>
        ensures { Reads (list_at (length lent.old) self.entry.line.now self.entry.at []) lent.new result }
    {
        for (i, halfword) in lent.iter_mut().enumerate() {
            *halfword = self.halfword()?;
            if self.at >= self.line.len() {
                return Some(i + 1);
            }
            self.pass(b",")?;
        }
        None
    }

    #[tactic(auto, unfolding(crate::specs::Halfwords::is_dash))]
    fn is_dash(&self) -> bool
        ensures { result ≡ is_dash self.now.line.now self.now.at }
    {
        self.at < self.line.len() && self.line[self.at] == b'-' && self.at + 1 == self.line.len()
    }

    // The halfwords up to the line's end, and how many there are.
    #[tactic(auto, unfolding(crate::specs::Halfwords::run_at))]
    pub fn halfwords(self, lent: &mut [u16]) -> Option<usize>
        ensures { Reads (run_at (length lent.old) self.entry.line.now self.entry.at) lent.new result }
    {
        if self.is_dash() {
            Some(0)
        } else {
            self.list(lent)
        }
    }
}
