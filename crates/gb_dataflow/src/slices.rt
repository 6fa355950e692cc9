//! Slices: straight-line code backwards, through the stack too, to where the wanted registers come from one register that can be
//! taken value by value.

use crate::loops::read_by;
use crate::plan::{Edit, Plan, split_at, unless_taken_back};
use crate::sources::{count, first, loaded_by, meet, sources, written};
use crate::spots::{has_entry, narrower, op_at, open_at, place_of, points_to_rom, width_at};
use crate::strides::has_known_rounds;
use crate::waiting::{Waiting, may_change_stack};
use crate::ways::{Loop, Ways};
use gb_fixpoint::code_point::CodePoint;
use gb_fixpoint::configuration::TargetPlace;
use gb_fixpoint::gb_ops::op::{AluOp, Op, Operand, Register};
use gb_fixpoint::limits::{ALL_VALUES, FEW_VALUES, LONG_SLICE, PAIRS, SLICE, SOURCES};
use gb_fixpoint::register_set::{REGISTERS, RegisterSet};
use gb_fixpoint::types::{Run, Spot};
use gb_fixpoint::{PADDING, Rules};
use std::alloc::{AllocError, Global};

/// The most instructions that a branch goes past where a slice goes on before it.
const SKIPPED: u32 = 4;

/// What is sought.
#[derive(Clone, Copy, PartialEq, Eq)]
pub struct SliceGoal {
    /// The registers that are to be known.
    pub wanted: RegisterSet,
    /// The most values that a register is split into.
    pub most: u32,
    pub by: SliceBy,
}

/// Which values are told apart.
#[derive(Clone, Copy, PartialEq, Eq)]
pub enum SliceBy {
    /// All.
    Any,
    /// Those by which a table in ROM is read, or that are compared: a jump by others leads into what is no code.
    Table,
    /// These, and those that are added to an address.
    Index,
    /// All of one register alone: of two there are too many for a jump.
    Single,
    /// All, and as early as one register alone isn't known: what is told apart behind a comparison isn't bounded by it.
    First,
    /// All, before a loop that loses what is known.
    Loop,
    /// All, before a branch past a few instructions that change what is known.
    Skip,
    /// All, before the loop around the spot itself.
    Start,
    /// All that may help an access that has to be allowed at each address. Where its pointer is only copied from where it was loaded
    /// from RAM, and nothing is compared, it would be refused for one of the values as for all.
    Bounds,
}

/// A register that may be split at a point, and how many points from there on are to be keyed.
#[derive(Clone, Copy, PartialEq, Eq)]
struct Cut {
    width: u32,
    keyed: usize,
    point: CodePoint,
    register: Register,
}

/// A slice on its way back.
#[derive(Drop)]
struct Walk {
    procedure: usize,
    at: CodePoint,
    wanted: RegisterSet,
    /// The bytes of the stack that are to be known as well.
    waiting: Waiting,
    /// A load from a table in ROM lies behind.
    is_behind_table: bool,
    /// A sum with HL lies behind.
    is_behind_sum: bool,
    /// A number is compared with a wanted register behind, so that each value's way is known there.
    is_compared: bool,
    /// The sides of a comparison in the procedure are told apart, so that what was compared has few values behind it.
    has_sides: bool,
    /// The points so far, the last instruction first.
    chain: Vec<CodePoint>,
    /// Whether it went through a loop by which wanted registers are lost, or past a branch by which they are, where that is sought.
    is_through: bool,
    /// Whether what is wanted here is only copied from here on, and nothing is compared.
    is_copied: bool,
    /// What is called right before, where the wanted registers come from there.
    callee: Option<CodePoint>,
    /// The best register to split alone, and the best of two.
    one: Option<Cut>,
    two: Option<Cut>,
}

impl Walk {
    fn spot(&self) -> Spot {
        Spot {
            procedure: self.procedure,
            point: self.at,
        }
    }

    /// Whether a register is split at a place already.
    fn is_split(run: &Run<'_>, place: TargetPlace, register: Register) -> bool {
        split_at(&run.configuration, place).contains(register)
    }

    /// One register alone is open: it may be split here.
    fn note_one(&mut self, run: &Run<'_>, open: &RegisterSet, most: u32, by: SliceBy) {
        let Some(register) = first(open) else { return };
        let width = width_at(run, self.spot(), register);
        if width > most || Walk::is_split(run, place_of(run, self.spot()), register) {
            return;
        }
        let is_better = match self.one {
            None => true,
            Some(cut) => by == SliceBy::First || width < cut.width,
        };
        // What was told apart beside another register isn't bounded earlier.
        if by == SliceBy::First
            && !split_at(&run.configuration, place_of(run, self.spot())).is_empty()
        {
            return;
        }
        if is_better {
            self.one = Some(Cut {
                width,
                keyed: self.chain.len(),
                point: self.at,
                register,
            });
        }
    }

    /// Two registers are open: one may be split here, and the other one later.
    fn note_two(&mut self, run: &Run<'_>, open: &RegisterSet, by: SliceBy) {
        let Some((register, width)) = narrower(run, self.spot(), open) else {
            return;
        };
        if width > most_pairs(by) || Walk::is_split(run, place_of(run, self.spot()), register) {
            return;
        }
        let is_better = match self.two {
            None => true,
            Some(cut) => width <= cut.width,
        };
        if is_better {
            self.two = Some(Cut {
                width,
                keyed: self.chain.len(),
                point: self.at,
                register,
            });
        }
    }

    /// Looks at the point at hand; whether it is worth while to go on.
    fn look(&mut self, run: &Run<'_>, sought: &SliceGoal) -> bool {
        let spot = self.spot();
        let open = open_at(run, spot, &self.wanted, false);
        if run.nodes_at(spot).is_empty() {
            return false;
        }
        if !self.waiting.is_empty() {
            return true;
        }
        if open.is_empty() {
            return sought.by == SliceBy::First && !self.wanted.is_empty();
        }
        let is_wanted = match sought.by {
            SliceBy::Any | SliceBy::Single | SliceBy::First | SliceBy::Bounds => true,
            SliceBy::Loop | SliceBy::Skip | SliceBy::Start => self.is_through,
            SliceBy::Table => self.is_behind_table || self.has_sides && self.is_behind_sum,
            SliceBy::Index => self.is_behind_table || self.is_behind_sum,
        };
        let may_split = is_wanted && !has_entry(run, spot);
        match count(&open) {
            1 if may_split => self.note_one(run, &open, self.most(sought), sought.by),
            2 if may_split => self.note_two(run, &open, sought.by),
            _ => {}
        }
        true
    }

    /// The most values that a register is split into: a comparison leaves few of all of them.
    fn most(&self, sought: &SliceGoal) -> u32 {
        if self.is_compared {
            ALL_VALUES.max(sought.most)
        } else {
            sought.most
        }
    }

    /// An instruction compares a known number with one of some registers. What was found behind it is of use only where it has
    /// few values.
    fn note_comparison(&mut self, run: &Run<'_>, spot: Spot, op: Op, open: &RegisterSet) {
        let Op::Alu(AluOp::Cp | AluOp::Sub, Operand::Register(register)) = op else {
            return;
        };
        let a = RegisterSet::of(&[Register::A]);
        let has_sides = run
            .configuration
            .compared
            .contains_key(&place_of(run, spot));
        if has_sides || !open.contains(register) || !open_at(run, spot, &a, true).is_empty() {
            return;
        }
        self.is_compared = true;
        self.is_behind_table = true;
        if self.one.is_some_and(|cut| cut.width == ALL_VALUES) {
            self.one = None;
        }
    }

    /// The point before, where there is just one. A loop that leaves the wanted registers as they are, as one that waits, is
    /// passed by where it is entered; so is one that loses them, where that is sought.
    fn point_before(
        &mut self,
        run: &Run<'_>,
        ways: &Ways,
        by: SliceBy,
    ) -> Result<Option<CodePoint>, AllocError> {
        if let Some(before) = ways.only_before(self.at) {
            return Ok(Some(before));
        }
        match self.before_wait(run, ways)? {
            None if by == SliceBy::Loop => self.before_losing_loop(run, ways),
            None if by == SliceBy::Skip || self.is_behind_table => self.before_skip(run, ways, by),
            None if by == SliceBy::Start => self.before_own_loop(run, ways),
            before => Ok(before),
        }
    }

    /// Before a branch past a few instructions that change a wanted register: what these compute from is wanted there as well, and
    /// their addresses are keyed with the others. Where a table lies behind, that is `jr nc` past `inc h`, as its address is computed; else
    /// the register is counted down, as by `dec h`: a pointer that goes forward is mostly compared with its end.
    fn before_skip(
        &mut self,
        run: &Run<'_>,
        ways: &Ways,
        by: SliceBy,
    ) -> Result<Option<CodePoint>, AllocError> {
        let before = ways.before(self.at)?;
        let [one, other] = before.as_slice() else {
            return Ok(None);
        };
        for (branch, last) in [(*one, *other), (*other, *one)] {
            if let Some(skipped) = ways.straight_back(last, branch, SKIPPED)?
                && let Some(wanted) = self.wanted_before(run, &skipped)
                && (by != SliceBy::Skip || self.counts_down(run, &skipped))
                && self.waiting.is_empty()
            {
                self.wanted = self.wanted.union(&wanted);
                self.is_through = true;
                self.is_copied = false;
                for point in &skipped {
                    if !self.chain.contains(point) {
                        self.chain.push(*point)?;
                    }
                }
                return Ok(Some(branch));
            }
        }
        Ok(None)
    }

    /// Whether one of some instructions counts a wanted register down.
    fn counts_down(&self, run: &Run<'_>, points: &[CodePoint]) -> bool {
        points.iter().any(|point| {
            let spot = Spot {
                procedure: self.procedure,
                point: *point,
            };
            match op_at(run, spot) {
                Some(Op::Decrement(Operand::Register(register))) => self.wanted.contains(register),
                _ => false,
            }
        })
    }

    /// The registers from which some instructions, the last one first, compute the wanted ones; none where these come from elsewhere.
    fn wanted_before(&self, run: &Run<'_>, points: &[CodePoint]) -> Option<RegisterSet> {
        let mut wanted = self.wanted;
        for point in points {
            let spot = Spot {
                procedure: self.procedure,
                point: *point,
            };
            wanted = sources(op_at(run, spot)?, &wanted)?;
        }
        Some(wanted)
    }

    /// Before a loop by which a wanted register becomes any byte: what it computes from is wanted there, and its addresses are
    /// keyed with the others.
    fn before_losing_loop(
        &mut self,
        run: &Run<'_>,
        ways: &Ways,
    ) -> Result<Option<CodePoint>, AllocError> {
        let Some((around, before)) = ways.entered_loop(self.at)? else {
            return Ok(None);
        };
        // A loop around the spot itself is refined elsewhere.
        if self
            .chain
            .first()
            .is_some_and(|point| around.contains(point))
        {
            return Ok(None);
        }
        let computed = written_in(run, self.procedure, &around);
        let is_lost = REGISTERS.iter().any(|register| self.wanted.contains(*register)
            && computed.contains(*register)
            && width_at(run, self.spot(), *register) == ALL_VALUES);
        if !is_lost || !self.waiting.is_empty() {
            return Ok(None);
        }
        let Some(wanted) = computed_from(run, self.procedure, &around, &computed) else {
            return Ok(None);
        };
        self.wanted = wanted;
        self.is_through = true;
        self.is_copied = false;
        self.add_loop(&around)?;
        Ok(Some(before))
    }

    /// Before the loop around the spot itself: it begins with too many pointers. Those by which it reads are wanted there too, since
    /// what it reads may end it. Its points are keyed with the others.
    fn before_own_loop(
        &mut self,
        run: &Run<'_>,
        ways: &Ways,
    ) -> Result<Option<CodePoint>, AllocError> {
        let Some((around, before)) = ways.entered_loop(self.at)? else {
            return Ok(None);
        };
        let is_own = self
            .chain
            .first()
            .is_some_and(|point| around.contains(point));
        if !is_own || !self.waiting.is_empty() {
            return Ok(None);
        }
        let pointers = read_by(run, self.procedure, &around);
        self.wanted = self.wanted.union(&pointers);
        self.is_through = true;
        self.is_copied = false;
        self.add_loop(&around)?;
        Ok(Some(before))
    }

    /// A loop's points become part of the chain.
    fn add_loop(&mut self, around: &Loop) -> Result<(), AllocError> {
        for point in around.iter() {
            if !self.chain.contains(point) {
                self.chain.push(*point)?;
            }
        }
        Ok(())
    }

    /// Before a loop that leaves the wanted registers as they are: its addresses are keyed with the others.
    fn before_wait(&mut self, run: &Run<'_>, ways: &Ways) -> Result<Option<CodePoint>, AllocError> {
        let Some((around, before)) = ways.entered_loop(self.at)? else {
            return Ok(None);
        };
        for point in around.iter() {
            let spot = Spot {
                procedure: self.procedure,
                point: *point,
            };
            match op_at(run, spot) {
                Some(op) if self.is_left_by(op) => {}
                _ => return Ok(None),
            }
        }
        self.add_loop(&around)?;
        self.is_copied = false;
        Ok(Some(before))
    }

    /// Whether an instruction leaves the wanted registers as they are, and the bytes of the stack that are sought.
    fn is_left_by(&self, op: Op) -> bool {
        !meet(&written(op), &self.wanted) && (self.waiting.is_empty() || !may_change_stack(op))
    }

    /// Goes back by one instruction; whether that was possible.
    fn step_back(
        &mut self,
        alloc: Global,
        run: &Run<'_>,
        ways: &Ways,
        by: SliceBy,
    ) -> Result<bool, AllocError> {
        let Some(before) = self.point_before(run, ways, by)? else {
            return Ok(false);
        };
        if self.chain.contains(&before) {
            return Ok(false);
        }
        let spot = Spot {
            procedure: self.procedure,
            point: before,
        };
        let Some(op) = op_at(run, spot) else {
            return Ok(false);
        };
        let open = self.open_here(alloc, run, by)?;
        let wanted = if is_inlined_call(op, self.at.address) {
            open
        } else {
            self.pass(run, spot, op, &open, by);
            match self.waiting.before(run, spot, &open)? {
                Some(wanted) => wanted,
                None => {
                    self.callee = callee_at(run, spot, op);
                    return Ok(false);
                }
            }
        };
        if let Some(pointer) = loaded_by(op, &open) {
            self.is_behind_table = self.is_behind_table || points_to_rom(run, spot, pointer);
        }
        if matches!(op, Op::AddHl(_)) && open.contains(Register::L) {
            self.is_behind_sum = true;
        }
        self.note_comparison(run, spot, op, &open);
        self.wanted = wanted;
        self.at = before;
        self.chain.push(before)?;
        Ok(true)
    }

    /// Goes back past an instruction: what was found behind it is of no use where it loads from RAM what is only copied then.
    fn pass(&mut self, run: &Run<'_>, spot: Spot, op: Op, open: &RegisterSet, by: SliceBy) {
        if by == SliceBy::Bounds && self.is_copied && loads_from_ram(run, spot, op, open) {
            self.one = None;
            self.two = None;
        }
        self.is_copied = self.is_copied && is_passed(op, open);
    }

    /// Those of the wanted registers whose source is sought: what is known needs none, but where it may be known too late.
    fn open_here(
        &mut self,
        alloc: Global,
        run: &Run<'_>,
        by: SliceBy,
    ) -> Result<RegisterSet, AllocError> {
        let here = self.spot();
        if by == SliceBy::First {
            return Ok(self.wanted);
        }
        self.waiting.keep_open(alloc, run, here)?;
        Ok(open_at(run, here, &self.wanted, true))
    }

    /// The register is split, and the points from there on are keyed.
    fn plan(&self, alloc: Global, run: &Run<'_>, ways: &Ways) -> Result<Option<Plan>, AllocError> {
        let target = run.target(self.procedure);
        let cut = match (self.one, self.two) {
            (Some(cut), _) | (None, Some(cut)) => cut,
            (None, None) => return Ok(None),
        };
        let mut plan = Plan::new(alloc);
        for point in self.chain.iter().take(cut.keyed) {
            plan.key(
                run,
                ways,
                Spot {
                    procedure: self.procedure,
                    point: *point,
                },
            )?;
        }
        let place = TargetPlace {
            target,
            point: cut.point,
        };
        plan.add(Edit::Split(place, cut.register))?;
        Ok(unless_taken_back(run, plan))
    }

    /// The points are keyed, as far as they aren't yet, and what is called before them is followed here.
    fn plan_of_ways(
        &self,
        alloc: Global,
        run: &Run<'_>,
        ways: &Ways,
    ) -> Result<Option<Plan>, AllocError> {
        let mut plan = Plan::new(alloc);
        let mut is_new = false;
        for point in &self.chain {
            let spot = Spot {
                procedure: self.procedure,
                point: *point,
            };
            if !run.configuration.keyed.contains(&place_of(run, spot)) {
                plan.key(run, ways, spot)?;
                is_new = true;
            }
        }
        if let Some(callee) = self.callee
            && !run.configuration.inlined.contains(&callee)
        {
            plan.add(Edit::Inline(callee))?;
            is_new = true;
        }
        if is_new {
            Ok(unless_taken_back(run, plan))
        } else {
            Ok(None)
        }
    }
}

/// The most pairs of values of two registers, of which one is split: a table that is jumped by has no more than few.
fn most_pairs(by: SliceBy) -> u32 {
    match by {
        SliceBy::Any | SliceBy::Bounds => PAIRS,
        SliceBy::Table | SliceBy::Index => FEW_VALUES,
        SliceBy::First | SliceBy::Loop | SliceBy::Skip | SliceBy::Start | SliceBy::Single => 0,
    }
}

/// The registers that a loop's instructions may change.
fn written_in(run: &Run<'_>, procedure: usize, around: &Loop) -> RegisterSet {
    let mut changed = RegisterSet::empty();
    for point in around.iter() {
        let spot = Spot {
            procedure,
            point: *point,
        };
        if let Some(op) = op_at(run, spot) {
            changed = changed.union(&written(op));
        }
    }
    changed
}

/// The registers from which a loop computes others; none where they come from elsewhere.
fn computed_from(
    run: &Run<'_>,
    procedure: usize,
    around: &Loop,
    computed: &RegisterSet,
) -> Option<RegisterSet> {
    let mut all = *computed;
    for _ in 0..SOURCES {
        for point in around.iter() {
            let spot = Spot {
                procedure,
                point: *point,
            };
            let op = op_at(run, spot)?;
            all = all.union(&sources(op, &all)?);
        }
    }
    Some(all)
}

/// What an instruction calls, but for what RST 38 calls in ROM that is filled with FF.
fn called_by(op: Op) -> Option<u16> {
    match op {
        Op::Call(target) | Op::CallIf(_, target) => Some(target),
        Op::Restart(target) if u16::from(target) != PADDING => Some(u16::from(target)),
        _ => None,
    }
}

/// What an instruction at a spot calls that isn't followed there yet: of several banks the first that its nodes show.
pub(crate) fn callee_at(run: &Run<'_>, spot: Spot, op: Op) -> Option<CodePoint> {
    let address = called_by(op)?;
    let mut callee = None;
    for number in run.nodes_at(spot) {
        let point = run.point_from(*number, address)?;
        if !run.configuration.inlined.contains(&point) {
            return Some(point);
        }
        callee = Some(point);
    }
    callee
}

/// Whether an instruction loads a wanted register from RAM or from a port.
fn loads_from_ram(run: &Run<'_>, spot: Spot, op: Op, wanted: &RegisterSet) -> bool {
    match op {
        Op::LoadHigh(_) | Op::LoadAbsolute(_) | Op::LoadHighC => wanted.contains(Register::A),
        _ => match loaded_by(op, wanted) {
            Some(pointer) => !points_to_rom(run, spot, pointer),
            None => false,
        },
    }
}

/// Whether wanted values pass an instruction as they are, or counted, and it chooses no way by them.
fn is_passed(op: Op, wanted: &RegisterSet) -> bool {
    match op {
        Op::JumpIf(..) | Op::JumpRelativeIf(..) | Op::CallIf(..) | Op::ReturnIf(_) => false,
        Op::Load(Operand::Register(_), Operand::Register(_))
        | Op::IncrementPair(_)
        | Op::DecrementPair(_)
        | Op::StoreA(_)
        | Op::Push(_)
        | Op::Pop(_) => true,
        Op::LoadA(_) => !wanted.contains(Register::A),
        _ => !meet(&written(op), wanted),
    }
}

/// Whether an instruction is a call that leads to an address itself: an inlined call changes no register on its way in.
fn is_inlined_call(op: Op, at: u16) -> bool {
    match op {
        Op::Call(target) | Op::CallIf(_, target) => target == at,
        Op::Restart(target) => u16::from(target) == at,
        _ => false,
    }
}

/// The way back from a spot, as far as it can be followed.
fn walk_back(
    alloc: Global,
    run: &Run<'_>,
    ways: &Ways,
    spot: Spot,
    sought: &SliceGoal,
) -> Result<Walk, AllocError> {
    let mut chain = Vec::new(alloc);
    chain.push(spot.point)?;
    let mut walk = Walk {
        procedure: spot.procedure,
        at: spot.point,
        wanted: sought.wanted,
        waiting: Waiting::new(alloc),
        is_behind_table: false,
        is_behind_sum: false,
        is_compared: false,
        has_sides: has_sides(run, spot),
        is_through: false,
        is_copied: true,
        chain,
        callee: None,
        one: None,
        two: None,
    };
    let most = match sought.by {
        SliceBy::Loop | SliceBy::Skip | SliceBy::Start => LONG_SLICE,
        _ => SLICE,
    };
    for _ in 0..most {
        if !walk.look(run, sought) || !walk.step_back(alloc, run, ways, sought.by)? {
            break;
        }
    }
    Ok(walk)
}

/// Whether the sides of a comparison are told apart in the procedure of a spot.
fn has_sides(run: &Run<'_>, spot: Spot) -> bool {
    let target = run.target(spot.procedure);
    run.configuration
        .compared
        .keys()
        .any(|place| place.target == target)
}

/// A register to be split before a spot, so that the wanted registers are known there.
pub fn slice(
    alloc: Global,
    run: &Run<'_>,
    ways: &Ways,
    spot: Spot,
    sought: &SliceGoal,
) -> Result<Option<Plan>, AllocError> {
    let walk = walk_back(alloc, run, ways, spot, sought)?;
    walk.plan(alloc, run, ways)
}

/// Registers that few values are sought of, by the rules of version 3, if there are any.
fn goal_by(run: &Run<'_>, wanted: &RegisterSet, by: SliceBy) -> Option<SliceGoal> {
    if run.rules() == Rules::Simple || wanted.is_empty() {
        return None;
    }
    Some(SliceGoal {
        wanted: *wanted,
        most: FEW_VALUES,
        by,
    })
}

/// A register to be split before a loop behind which a wanted register is any byte, as one that shifts: its rounds are told apart
/// by what they compute with. By the rules of version 3.
pub fn slice_through_loop(
    alloc: Global,
    run: &Run<'_>,
    ways: &Ways,
    spot: Spot,
    wanted: &RegisterSet,
) -> Result<Option<Plan>, AllocError> {
    let Some(sought) = goal_by(run, wanted, SliceBy::Loop) else {
        return Ok(None);
    };
    slice(alloc, run, ways, spot, &sought)
}

/// A register to be split before a branch past a few instructions, as where a pointer goes back by a row: `sub` on L, and `dec h`
/// where it carries. By the rules of version 3.
pub fn slice_past_skip(
    alloc: Global,
    run: &Run<'_>,
    ways: &Ways,
    spot: Spot,
    wanted: &RegisterSet,
) -> Result<Option<Plan>, AllocError> {
    let Some(sought) = goal_by(run, wanted, SliceBy::Skip) else {
        return Ok(None);
    };
    slice(alloc, run, ways, spot, &sought)
}

/// A register to be split before the loop around a spot, whose rounds are told apart too: a routine that copies one of several texts
/// up to its end. By the rules of version 3.
pub fn slice_to_start(
    alloc: Global,
    run: &Run<'_>,
    ways: &Ways,
    spot: Spot,
    wanted: &RegisterSet,
) -> Result<Option<Plan>, AllocError> {
    let Some(sought) = goal_by(run, wanted, SliceBy::Start) else {
        return Ok(None);
    };
    slice(alloc, run, ways, spot, &sought)
}

/// The rounds of a loop that brings a pointer to a spot are told apart, where it goes through an array from a start that is known up to
/// an end. By the rules of version 3.
pub fn slice_to_strides(
    alloc: Global,
    run: &Run<'_>,
    ways: &Ways,
    spot: Spot,
    wanted: &RegisterSet,
) -> Result<Option<Plan>, AllocError> {
    let Some(sought) = goal_by(run, wanted, SliceBy::Any) else {
        return Ok(None);
    };
    let mut walk = walk_back(alloc, run, ways, spot, &sought)?;
    let Some((around, before)) = ways.entered_loop(walk.at)? else {
        return Ok(None);
    };
    let is_open = !open_at(run, walk.spot(), &walk.wanted, true).is_empty();
    if !is_open || !walk.waiting.is_empty() || ways.is_endless(&around) {
        return Ok(None);
    }
    match computed_from(run, walk.procedure, &around, &walk.wanted) {
        Some(all) if has_known_rounds(run, walk.procedure, &around, before, &all) => {
            walk.add_loop(&around)?;
            walk.plan_of_ways(alloc, run, ways)
        }
        _ => Ok(None),
    }
}

/// What is called before a jump's table is read, where the table's address comes from there, is followed there: a routine that adds A
/// to HL, which several tables share. By the rules of version 3.
pub fn slice_to_adder(
    alloc: Global,
    run: &Run<'_>,
    ways: &Ways,
    spot: Spot,
    wanted: &RegisterSet,
) -> Result<Option<Plan>, AllocError> {
    let Some(sought) = goal_by(run, wanted, SliceBy::Table) else {
        return Ok(None);
    };
    let walk = walk_back(alloc, run, ways, spot, &sought)?;
    if walk.is_behind_table && walk.callee.is_some() {
        walk.plan_of_ways(alloc, run, ways)
    } else {
        Ok(None)
    }
}

/// What is called where the wanted registers come from a call is followed there, and what is known behind it, or where ways meet,
/// is told apart from there on: a function that gives a pointer or 0. By the rules of version 3.
pub fn slice_to_call(
    alloc: Global,
    run: &Run<'_>,
    ways: &Ways,
    spot: Spot,
    sought: &SliceGoal,
) -> Result<Option<Plan>, AllocError> {
    if run.rules() == Rules::Simple || sought.wanted.is_empty() {
        return Ok(None);
    }
    let walk = walk_back(alloc, run, ways, spot, sought)?;
    walk.plan_of_ways(alloc, run, ways)
}
