// What holds of one operation on any entries, in use or not.

ghost use Rattle.entry.specs.Laws.{RefusesWhenFull, EmptyTouchesNothing};

// An insert is refused, with number 8, where its key shows nothing and every entry is in use, and nowhere else.
#[tactic(auto, using(crate::proofs::Refusing::refuses_when_full))]
pub fn refuses_when_full()
    ensures { RefusesWhenFull }
{}

// A write of no bytes touches no block, and a block that spans no bytes is touched by no write.
#[tactic(auto, using(crate::proofs::Touching::empty_touches_nothing))]
pub fn empty_touches_nothing()
    ensures { EmptyTouchesNothing }
{}
