// The fields of a request line: numbers, a space before each but the first.
ghost use Rattle.std.specs.Prelude.{◌≡◌, ◌<◌, ◌≤◌, ◌-◌, ◌^◌, length, get_or, IfSome, IsSome, SomeIff};
ghost use Rattle.requests.specs.Fields.{digit_of, Passes, number_at, word_at, next_number, next_at_most, end_at};

// A line, and the place from which on it is read.
#[derive(Clone, Copy)]
pub struct Fields<'a> {
    pub line: &'a [u8],
    pub at: usize,
}

impl<'a> Fields<'a> {
    // The digit at the place.
    #[tactic(auto, unfolding(crate::specs::Fields::digit_of))]
    fn digit(&self, base: u32) -> Option<u32>
        requires low { 2 ≤ base }
        requires high { base ≤ 16 }
        ensures digit { let d = digit_of (get_or self.now.line.now self.now.at 0) in SomeIff result (d < base) d }
        ensures within { IsSome result → self.now.at < length self.now.line.now }
    {
        let b = *self.line.get(self.at)?;
        (b as char).to_digit(base)
    }

    // Digits are read as long as there are any; at the digit with which the number would have over 64 bits there is no number.
    #[tactic(auto, using(crate::proofs::DigitLaws::number_steps))]
    pub fn number(&mut self, base: u32) -> Option<u64>
        requires low { 2 ≤ base }
        requires high { base ≤ 16 }
        ensures number { Passes (number_at base) self.old self.new result }
        ensures behind { IfSome result (λ _. self.old.at < self.new.at) }
    {
        let from = self.at;
        let mut value = 0u64;
        while let Some(d) = self.digit(base) {
            value = value.checked_mul(base as u64)?.checked_add(d as u64)?;
            self.at += 1;
        }
        (from < self.at).then_some(value)
    }

    // Passes the word, where it stands at the place.
    #[tactic(auto, unfolding(crate::specs::Fields::word_at))]
    pub fn pass(&mut self, word: &[u8]) -> Option<()>
        ensures { Passes (word_at word.now) self.old self.new result }
    {
        if !self.line.get(self.at..)?.starts_with(word) {
            return None;
        }
        self.at += word.len();
        Some(())
    }

    // A space and a number.
    #[tactic(auto, unfolding(crate::specs::Fields::next_number))]
    pub fn next_number(&mut self, base: u32) -> Option<u64>
        requires low { 2 ≤ base }
        requires high { base ≤ 16 }
        ensures { Passes (next_number base) self.old self.new result }
    {
        self.pass(b" ")?;
        self.number(base)
    }

    // A space and a decimal number that is not above the greatest.
    #[tactic(auto, unfolding(crate::specs::Fields::next_at_most))]
    pub fn next_at_most(&mut self, greatest: u64) -> Option<u64>
        ensures number { Passes (next_at_most greatest) self.old self.new result }
        ensures fits { IfSome result (λ n. n ≤ greatest) }
    {
        let number = self.next_number(10)?;
        (number <= greatest).then_some(number)
    }

    // A space and a decimal number of 32 bits.
    #[tactic(auto, unfolding(crate::specs::Fields::next_at_most))]
    pub fn next_u32(&mut self) -> Option<u32>
        ensures { Passes (next_at_most (2 ^ 32 - 1)) self.old self.new result }
    {
        u32::try_from(self.next_number(10)?).ok()
    }

    // The line's end.
    #[tactic(auto, unfolding(crate::specs::Fields::end_at))]
    pub fn end(&self) -> Option<()>
        ensures { result ≡ end_at self.now.line.now self.now.at }
    {
        (self.at == self.line.len()).then_some(())
    }
}
