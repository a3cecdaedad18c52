// How a block ends, and its last instructions: the helper ends inside the Rust's loop and what it emits behind the loop.
ghost use Rattle.std.specs.Prelude.{◌≡◌, ◌≤◌};
ghost use Rattle.agreement.specs.Common.{most_steps};
ghost use Rattle.agreement.specs.X86.Encode.{bytes};
ghost use Rattle.agreement.specs.Translation.Walk.{ending, goes_on, jumped, helper_at, size_of};
ghost use Rattle.emitter.specs.Written.{Writes, HasRoom};
ghost use Rattle.walk.specs.Walks.{end_as, helper_as, most, Closes};
ghost use Rattle.words.specs.Word.{end_size};

use emitter::X64Emitter;

// Which helper a block's end calls: that of a compressed halfword that is not in line, or that of a load or store.
#[derive(Clone, Copy)]
pub enum Helper {
    Halfword,
    Access,
}

// The helpers' addresses.
#[derive(Clone, Copy)]
pub struct Helpers {
    pub helper16: u64,
    pub helper_mem: u64,
}

impl Helpers {
    fn address(self, helper: Helper) -> u64
        ensures { result ≡ helper_at (helper_as helper) self.helper16 self.helper_mem }
    {
        match helper {
            Helper::Halfword => self.helper16,
            Helper::Access => self.helper_mem,
        }
    }
}

// It goes on at a pc, which the end puts into RAX; or an ending word has set RAX; or a helper is called with an instruction and its pc.
#[derive(Clone, Copy)]
pub enum End {
    GoesOn(u64),
    Jumped,
    Calls { helper: Helper, instr: u32, pc: u64 },
}

impl Helper {
    // How many bytes the instruction has that the helper executes.
    fn size(self) -> u64
        ensures { result ≡ size_of (helper_as self) }
    {
        match self {
            Helper::Halfword => 2,
            Helper::Access => 4,
        }
    }
}

impl End {
    // How many bytes the instruction has that a helper executes; none without a helper.
    pub fn size(self) -> u64
        ensures size { result ≡ end_size (end_as self) }
        ensures at_most_4 { result ≤ 4 }
    {
        match self {
            End::GoesOn(_) | End::Jumped => 0,
            End::Calls { helper, .. } => helper.size(),
        }
    }
}

#[tactic(auto, unfolding(agreement::specs::Translation::Walk::ending))]
#[inline(always)]
fn close_jumped(em: &mut X64Emitter<&mut [u8]>, emitted: u32)
    requires { HasRoom em.old 25 }
    ensures { Writes em.old (bytes (ending 0 0 jumped emitted)) em.new }
{
    em.mov_r64_imm64(X64Emitter::RDX, emitted as u64);
    words::x64_emit_epilogue(em);
}

#[tactic(auto, unfolding(agreement::specs::Translation::Walk::ending))]
#[inline(always)]
fn close_at(em: &mut X64Emitter<&mut [u8]>, pc: u64, emitted: u32)
    requires { HasRoom em.old 35 }
    ensures { Writes em.old (bytes (ending 0 0 (goes_on pc) emitted)) em.new }
{
    em.mov_r64_imm64(X64Emitter::RAX, pc);
    close_jumped(em, emitted);
}

// The last instructions, and the block's count. A helper end is an instruction of its own, and counts.
#[tactic(auto, unfolding(agreement::specs::Translation::Walk::ending, agreement::specs::Translation::Walk::counted))]
#[inline(always)]
pub fn close(em: &mut X64Emitter<&mut [u8]>, end: End, emitted: u32, helpers: Helpers) -> u32
    requires { (emitted ≤ most_steps) × HasRoom em.old (most (end_as end)) }
    ensures { Closes em.old helpers.helper16 helpers.helper_mem (end_as end) emitted em.new result }
{
    match end {
        End::GoesOn(pc) => {
            close_at(em, pc, emitted);
            emitted
        }
        End::Jumped => {
            close_jumped(em, emitted);
            emitted
        }
        End::Calls { helper, instr, pc } => {
            let address = helpers.address(helper);
            words::emit_native_term_helper_x64(em, instr as u64, pc, address, emitted);
            emitted + 1
        }
    }
}
