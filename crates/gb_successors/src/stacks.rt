//! What an instruction does to the stack.

ghost use Rattle.std.specs.Prelude.{◌≡◌, ◌≤◌, Some, None, length};
ghost use Rattle.gb_domain.specs.declared.rules.Rules.TheVariants.{Extended};
ghost use Rattle.gb_product.specs.Below.gb_abs.Bytes as Bytes;
ghost use Rattle.gb_product.specs.Below.gb_abs.Meaning as Located;
ghost use Rattle.gb_product.specs.Below.gb_abs.Origins as Origins;
ghost use Rattle.gb_product.specs.Held.{stack_held};
ghost use Rattle.gb_successors.specs.Stacks as Stacks;

use arrayvec::ArrayVec;
use gb_domain::pairs::{ANY_BOUNDS, Bounds};
use gb_domain::places::StackBytes;
use gb_domain::summary::Summary;
use gb_domain::types::{Abs, Core, Halves, ImeSet, Origin, Rules, Setting, Val};
use gb_ops::machine::Region;
use gb_ops::op::{Op, Pair};
use gb_ops::registers::Registers;
use gb_product::{
    AbsWrite, append_bytes, cells_without_origins, core_without_origins, is_own, resize, stack_held,
};

/// Where the states of a procedure stand, and how much it may have on the stack.
#[derive(Clone, Copy)]
pub struct Stack {
    pub setting: Setting,
    /// The declared stack region; main's base is the address behind it.
    pub region: Region,
    /// The bytes that the procedure may have on the stack.
    pub need: u16,
    /// The bytes that main may have there.
    pub main_need: u16,
    /// How many bytes below its base the procedure puts its stack aside (version 4).
    pub mark: u8,
}

/// What an instruction does to the stack.
#[derive(Clone, Copy)]
pub enum StackMove {
    /// Nothing.
    Stay,
    /// A word is put on, its high byte first.
    Push(Halves),
    /// So many bytes are taken off.
    Take(u8),
    /// So many bytes of any value are put on.
    Append(u8),
    /// SP is set so that the procedure holds so many bytes.
    Set(u8),
    /// SP is set so that main holds so many bytes, and main begins anew.
    Restart(u8),
    /// SP is put aside, within bounds.
    Aside(Bounds),
    /// SP is set to an address that isn't known, or that is neither the procedure's nor main's.
    Lost,
}

/// Where the stack is put aside in the states before an instruction, and may be behind it.
#[derive(Clone, Copy)]
pub struct Around {
    /// The bounds of SP, where it is put aside.
    pub aside: Option<Bounds>,
    /// Whether SP may be put aside: the stack is set, and interrupts are off (version 4).
    pub may_leave: bool,
    /// How many bytes are held where SP comes back, if HL is the mark's address (version 4).
    pub back: Option<u8>,
}

fn is_off_alone(ime: ImeSet) -> bool
    ensures { result ≡ Stacks.is_off_alone ime }
{
    ime.off && !ime.pending && !ime.on
}

/// Whether SP stands where the items end.
pub fn is_located(state: &Abs) -> bool
    ensures { result ≡ Located.is_located state.now }
{
    match state.summary().aside() {
        None => state.core().stack_set,
        Some(_) => false,
    }
}

/// The stack with the items of states, which may be places.
pub(crate) fn held_of(setting: Setting, region: Region, state: &Abs) -> StackBytes
    ensures { result ≡ stack_held setting region (length state.now.items) }
{
    stack_held(setting, region, state.items().len() as u8)
}

/// Whether HL is the address of the mark.
fn is_mark(registers: &Registers<Val>) -> bool
    ensures { result ≡ Stacks.is_mark registers.now }
{
    is_own(Origin::MarkHigh, registers.h) && is_own(Origin::MarkLow, registers.l)
}

/// How many bytes are held where SP comes back to the mark, by HL: the stack is set, and the procedure may hold them.
fn held_at_mark(stack: Stack, core: &Core) -> Option<u8>
    ensures { result ≡ Stacks.held_at_mark stack core.now }
{
    if core.stack_set && is_mark(&core.registers) && u16::from(stack.mark) <= stack.need {
        Some(stack.mark)
    } else {
        None
    }
}

/// Where the stack is put aside in the states, whether it may be, and whether HL is where SP comes back to: the core is what is
/// known before the instruction.
#[tactic(auto, unfolding(crate::specs::Stacks::around_of))]
pub fn around_of(stack: Stack, state: &Abs, core: &Core) -> Around
    ensures { result ≡ Stacks.around_of stack state.now core.now }
{
    let before = state.core();
    let is_whole = stack.setting.is_whole;
    Around {
        aside: state.summary().aside(),
        may_leave: is_whole && before.stack_set && is_off_alone(before.ime),
        back: if is_whole {
            held_at_mark(stack, core)
        } else {
            None
        },
    }
}

/// Where SP would be lost within bounds, it is put aside there.
fn aside_if(stack_move: StackMove, may_leave: bool, bounds: Bounds) -> StackMove
    ensures { result ≡ Stacks.aside_if stack_move may_leave bounds }
{
    match stack_move {
        StackMove::Lost => {
            if may_leave {
                StackMove::Aside(bounds)
            } else {
                StackMove::Lost
            }
        }
        StackMove::Stay
        | StackMove::Push(_)
        | StackMove::Take(_)
        | StackMove::Append(_)
        | StackMove::Set(_)
        | StackMove::Restart(_)
        | StackMove::Aside(_) => stack_move,
    }
}

fn aside_within(stack_move: StackMove, may_leave: bool, bounds: Option<Bounds>) -> StackMove
    ensures { result ≡ Stacks.aside_within stack_move may_leave bounds }
{
    match bounds {
        None => stack_move,
        Some(bounds) => aside_if(stack_move, may_leave, bounds),
    }
}

/// By the rules of version 4 SP comes back to where so many bytes are held.
fn back_or(rules: Rules, back: Option<u8>, stack_move: StackMove) -> StackMove
    ensures { result ≡ Stacks.back_or rules back stack_move }
{
    match (rules, back) {
        (Rules::Extended, Some(count)) => StackMove::Set(count),
        _ => stack_move,
    }
}

/// Behind a word at an address within bounds.
fn behind_word(bounds: Bounds) -> Bounds
    ensures { result ≡ Stacks.behind_word bounds }
{
    if bounds.first < 0xFFFE && bounds.last < 0xFFFE {
        Bounds {
            first: bounds.first + 2,
            last: bounds.last + 2,
        }
    } else {
        ANY_BOUNDS
    }
}

/// Put aside, SP passes a word; else a word is taken off.
fn popped_by(rules: Rules, aside: Option<Bounds>) -> StackMove
    ensures { result ≡ Stacks.popped_by rules aside }
{
    match (rules, aside) {
        (Rules::Extended, Some(bounds)) => StackMove::Aside(behind_word(bounds)),
        _ => StackMove::Take(2),
    }
}

/// The bytes from an address up to a base, where so many may be held.
fn bytes_to(base: u32, need: u16, address: u16) -> Option<u8>
    ensures { result ≡ Stacks.bytes_to base need address }
{
    let address = u32::from(address);
    if address <= base && base - address <= u32::from(need) && base - address <= 255 {
        Some((base - address) as u8)
    } else {
        None
    }
}

/// How many bytes of its own a procedure holds with SP at an address.
fn own_bytes(stack: Stack, address: u16) -> Option<u8>
    ensures { result ≡ Stacks.own_bytes stack address }
{
    match stack.setting.known_base() {
        None => None,
        Some(base) => bytes_to(u32::from(base), stack.need, address),
    }
}

/// How many bytes main holds with SP at an address, seen from another procedure.
fn main_bytes(stack: Stack, address: u16) -> Option<u8>
    ensures { result ≡ Stacks.main_bytes stack address }
{
    if stack.setting.is_main {
        None
    } else {
        bytes_to(u32::from(stack.region.last) + 1, stack.main_need, address)
    }
}

fn set_by(own: Option<u8>, main: Option<u8>) -> StackMove
    ensures { result ≡ Stacks.set_by own main }
{
    match (own, main) {
        (Some(count), _) => StackMove::Set(count),
        (None, Some(count)) => StackMove::Restart(count),
        (None, None) => StackMove::Lost,
    }
}

/// SP becomes a known address, by the rules of version 3.
#[inline(never)]
fn set_among(stack: Stack, address: u16) -> StackMove
    ensures { result ≡ Stacks.set_to Extended stack address }
{
    set_by(own_bytes(stack, address), main_bytes(stack, address))
}

/// SP becomes a known address.
#[inline(always)]
fn set_to(stack: Stack, address: u16) -> StackMove
    ensures { result ≡ Stacks.set_to stack.setting.rules stack address }
{
    match stack.setting.rules {
        Rules::Simple => StackMove::Set(0),
        Rules::Extended => set_among(stack, address),
    }
}

/// SP becomes an address with these bounds.
fn set_within(stack: Stack, bounds: Option<Bounds>) -> StackMove
    ensures { result ≡ Stacks.set_within stack bounds }
{
    match bounds {
        None => StackMove::Stay,
        Some(bounds) => {
            if bounds.first < bounds.last {
                StackMove::Lost
            } else {
                set_to(stack, bounds.first)
            }
        }
    }
}

/// What the rules of version 3 alone follow.
fn extended(rules: Rules, stack_move: StackMove) -> StackMove
    ensures { result ≡ Stacks.extended rules stack_move }
{
    match rules {
        Rules::Simple => StackMove::Stay,
        Rules::Extended => stack_move,
    }
}

/// A signed number moves SP.
fn displaced_by(e8: u8) -> StackMove
    ensures { result ≡ Stacks.displaced_by e8 }
{
    if e8 < 128 {
        StackMove::Take(e8)
    } else {
        StackMove::Append(255 - e8 + 1)
    }
}

/// A word that is written on the stack.
fn push_of(write: AbsWrite) -> StackMove
    ensures { result ≡ Stacks.push_of write }
{
    match write {
        AbsWrite::Push { high, low } => StackMove::Push(Halves { high, low }),
        AbsWrite::Nothing | AbsWrite::Byte(_, _) | AbsWrite::Word(_, _, _) => StackMove::Stay,
    }
}

/// What an instruction does to the stack that writes so, from states around it; where it takes an address of HL, that has the bounds.
#[inline(always)]
#[tactic(auto, unfolding(crate::specs::Stacks::stack_move))]
pub fn stack_move(
    stack: Stack,
    around: Around,
    op: Op,
    write: AbsWrite,
    hl: Option<Bounds>,
) -> StackMove
    ensures { result ≡ Stacks.stack_move stack around op write hl }
{
    let rules = stack.setting.rules;
    match op {
        Op::LoadPair(Pair::Sp, address) => {
            let bounds = Bounds {
                first: address,
                last: address,
            };
            aside_if(set_to(stack, address), around.may_leave, bounds)
        }
        Op::LoadSpHl => {
            let forward = aside_within(set_within(stack, hl), around.may_leave, hl);
            back_or(rules, around.back, forward)
        }
        Op::Push(_) => push_of(write),
        Op::Pop(_) => popped_by(rules, around.aside),
        Op::IncrementPair(Pair::Sp) => extended(rules, StackMove::Take(1)),
        Op::DecrementPair(Pair::Sp) => extended(rules, StackMove::Append(1)),
        Op::AddSp(e8) => extended(rules, displaced_by(e8)),
        Op::CallIf(_, _) | Op::Call(_) | Op::Restart(_) => extended(rules, push_of(write)),
        Op::ReturnIf(_) | Op::Return | Op::ReturnFromInterrupt => {
            extended(rules, StackMove::Take(2))
        }
        _ => StackMove::Stay,
    }
}

#[tactic(auto, unfolding(gb_domain::specs::Limits::item_room))]
fn in_room(rules: Rules, more: usize, count: usize) -> usize
    requires { count ≤ 255 }
    ensures exact { result ≡ Stacks.in_room rules more count }
    ensures few { result ≤ 255 }
{
    if more > rules.item_room() {
        count
    } else {
        more
    }
}

/// How many of so many items are held behind a move, as far as there is room.
pub(crate) fn count_behind(rules: Rules, stack_move: StackMove, count: usize) -> usize
    requires { count ≤ 255 }
    ensures exact { result ≡ Stacks.count_behind rules stack_move count }
    ensures few { result ≤ 255 }
{
    match stack_move {
        StackMove::Push(_) => in_room(rules, count + 2, count),
        StackMove::Take(less) => count.saturating_sub(usize::from(less)),
        StackMove::Append(more) => in_room(rules, count + usize::from(more), count),
        StackMove::Set(held) => in_room(rules, usize::from(held), count),
        StackMove::Restart(held) => in_room(rules, usize::from(held), 0),
        StackMove::Stay | StackMove::Aside(_) | StackMove::Lost => count,
    }
}

/// A word is pushed, where there is room for it. What pushes more is refused.
#[tactic(auto, unfolding(crate::specs::Stacks::pushed_if_room, crate::specs::Opened::pushed, gb_domain::specs::Limits::item_room))]
fn push_if_room(setting: Setting, word: Halves, state: &mut Abs)
    ensures { state.new ≡ Stacks.pushed_if_room setting word state.old }
{
    if state.items().len() + 2 > setting.rules.item_room() {
        return;
    }
    state.push_item(word.high);
    state.push_item(word.low);
}

/// The states with bytes of any value put on, where there is room for them.
#[tactic(auto, unfolding(crate::specs::Stacks::appended_if_room))]
fn appended_if_room(setting: Setting, count: u8, state: &Abs) -> Abs
    ensures { result ≡ Stacks.appended_if_room setting count state.now }
{
    match append_bytes(setting.rules, state, count) {
        Some(appended) => appended,
        None => state.copied(),
    }
}

/// The newest bytes are taken off. Of fewer none is left.
#[tactic(auto, unfolding(crate::specs::Opened::without_newest))]
fn take_newest(count: u8, state: &mut Abs)
    ensures { state.new ≡ Bytes.without_newest count state.old }
{
    let left = state.items().len().saturating_sub(usize::from(count));
    state.truncate_items(left);
}

/// The states with the stack set and so many bytes held, where there is room for them.
#[tactic(auto, unfolding(crate::specs::Stacks::set_if_room))]
fn set_if_room(setting: Setting, count: u8, state: &Abs) -> Abs
    ensures { result ≡ Stacks.set_if_room setting count state.now }
{
    match resize(setting.rules, state, usize::from(count)) {
        Some(resized) => resized,
        None => state.copied(),
    }
}

/// Nothing is on the stack, and nothing a copy of what a procedure held as it was entered.
fn begun_anew(state: &Abs) -> Abs
    ensures { result ≡ Stacks.begun_anew state.now }
{
    Abs::of_all_parts(
        core_without_origins(state.core()),
        ArrayVec::new(),
        cells_without_origins(state.cells()),
        *state.relations(),
        state.summary().copied(),
    )
}

/// The same is said, but for where SP is put aside.
pub(crate) fn with_aside(summary: &Summary, aside: Option<Bounds>) -> Summary
    ensures { result ≡ record summary.now { aside = aside } }
{
    let mut fills = ArrayVec::new();
    if fills.try_extend_from_slice(summary.fills()).is_err() {
        unreachable!();
    }
    Summary::of_parts(summary.level(), fills, summary.shadows(), aside)
}

/// SP is put aside within bounds, or isn't.
#[inline(never)]
fn put_aside(aside: Option<Bounds>, state: &mut Abs)
    ensures { state.new ≡ Stacks.with_aside aside state.old }
{
    let summary = with_aside(state.summary(), aside);
    state.set_summary(summary);
}

/// Appends bytes of any value to the states where they are. It is out of line, so that the copy is paid only here.
#[inline(never)]
fn append_if_room(setting: Setting, count: u8, state: &mut Abs)
    ensures { state.new ≡ Stacks.appended_if_room setting count state.old }
{
    *state = appended_if_room(setting, count, state);
}

#[inline(never)]
fn resize_if_room(setting: Setting, count: u8, state: &mut Abs)
    ensures { state.new ≡ Stacks.set_if_room setting count (Stacks.with_aside None state.old) }
{
    put_aside(None, state);
    *state = set_if_room(setting, count, state);
}

#[inline(never)]
fn restart_if_room(setting: Setting, count: u8, state: &mut Abs)
    ensures { state.new ≡ Stacks.set_if_room setting count (Stacks.begun_anew (Stacks.with_aside None state.old)) }
{
    put_aside(None, state);
    *state = set_if_room(setting, count, &begun_anew(state));
}

/// The stack and the states that it stands in, moved.
#[tactic(auto, unfolding(crate::specs::Stacks::with_stack_moved))]
pub(crate) fn move_stack(setting: Setting, stack_move: StackMove, state: &mut Abs)
    ensures { state.new ≡ Stacks.with_stack_moved setting stack_move state.old }
{
    match stack_move {
        StackMove::Stay | StackMove::Lost => {}
        StackMove::Push(word) => push_if_room(setting, word, state),
        StackMove::Take(count) => take_newest(count, state),
        StackMove::Append(count) => append_if_room(setting, count, state),
        StackMove::Set(count) => resize_if_room(setting, count, state),
        StackMove::Restart(count) => restart_if_room(setting, count, state),
        StackMove::Aside(bounds) => put_aside(Some(bounds), state),
    }
}

/// Main begins anew: kept out of line, as few instructions do it.
#[inline(never)]
fn restart_core(core: &mut Core)
    ensures { core.new ≡ Stacks.core_set (Origins.core_without_origins core.old) }
{
    *core = core_without_origins(core);
    core.stack_set = true;
}

/// The core behind the stack's move.
#[tactic(auto, unfolding(crate::specs::Stacks::moved_core))]
pub(crate) fn move_core(stack_move: StackMove, core: &mut Core)
    ensures { core.new ≡ Stacks.moved_core stack_move core.old }
{
    match stack_move {
        StackMove::Set(_) => core.stack_set = true,
        StackMove::Restart(_) => restart_core(core),
        StackMove::Stay
        | StackMove::Push(_)
        | StackMove::Take(_)
        | StackMove::Append(_)
        | StackMove::Aside(_)
        | StackMove::Lost => {}
    }
}
