//! What is asked of a node's state: what comes out must stay within the nodes, exits and entries that it leads to. So the
//! least parts are found with which it does.

use crate::onward::NodeSite;
use crate::parts::{
    BOUNDS, EACH, ORIGINS, TOGETHER, Wanted, bounds_of, cell_bit, cell_number, origin_of,
    parts_of_pair, told_in, weakened,
};
use gb_draft::{
    Abs, AbsRead, AbsWrite, Bounds, Cell, Other, PairBounds, REGISTERS, Resumed, Rules, Span,
    Successor, Successors, WORD_PAIRS, WordPair, covers, enter, facts_of, kept_of, taken_by,
};

/// What has to stand for what comes out on a way.
#[derive(Drop)]
pub(crate) enum Aim {
    /// A node's state, or an exit.
    Covered(Abs),
    /// The entry of a procedure.
    Entered { callee: u16, entry: Abs },
    /// What stands for the state after a procedure with this exit.
    Resumed { callee: u16, exit: Abs, back: Abs },
}

/// An aim, and the way that it is of.
#[derive(Drop)]
pub(crate) struct WayAim {
    pub(crate) way: u8,
    pub(crate) aim: Aim,
}

/// The most items of a state: none has this number.
const ITEMS: usize = 255;

/// The port that begins an OAM transfer.
const TRANSFER: u16 = 0xFF46;

fn may_transfer(span: Span) -> bool {
    span.first <= TRANSFER && TRANSFER <= span.last
}

/// Whether two writes go to the same addresses, and begin the same transfer.
fn are_same_writes(a: AbsWrite, b: AbsWrite) -> bool {
    match (a, b) {
        (AbsWrite::Nothing, AbsWrite::Nothing) => true,
        (AbsWrite::Byte(span, val), AbsWrite::Byte(other, with)) => {
            span == other && (!may_transfer(span) || (val.lo == with.lo && val.hi == with.hi))
        }
        (AbsWrite::Word(at, _, _), AbsWrite::Word(other, _, _)) => at == other,
        (AbsWrite::Push { .. }, AbsWrite::Push { .. }) => true,
        _ => false,
    }
}

/// Whether two successors go on at the same address and access the same ones.
fn are_alike(a: &Option<Successor<'_>>, b: &Option<Successor<'_>>) -> bool {
    match (a, b) {
        (None, None) => true,
        (Some(a), Some(b)) => {
            a.target == b.target && a.read == b.read && are_same_writes(a.write, b.write)
        }
        _ => false,
    }
}

/// Whether the state after a way meets an aim.
fn meets(site: &NodeSite<'_, '_>, after: &Abs, aim: &Aim) -> bool {
    match aim {
        Aim::Covered(state) => covers(&site.program(), after, state),
        Aim::Entered { callee, entry } => covers(
            &site.program(),
            &entered_in(site, *callee, after),
            entry,
        ),
        Aim::Resumed { callee, exit, back } => is_resumed_in(site, *callee, after, exit, back),
    }
}

/// What a procedure begins with that is called in a state.
fn entered_in(site: &NodeSite<'_, '_>, callee: u16, after: &Abs) -> Abs {
    enter(
        &site.program(),
        site.cert.region(),
        Rules::Extended,
        taken_by(site.cert, callee),
        &kept_of(site.cert, callee),
        after,
    )
}

/// Whether a state stands for what is gone on with after a procedure with an exit.
pub(crate) fn is_resumed_in(
    site: &NodeSite<'_, '_>,
    callee: u16,
    after: &Abs,
    exit: &Abs,
    back: &Abs,
) -> bool {
    match site.resumed(callee, after, exit) {
        Resumed::States(resumed) => covers(&site.program(), &resumed, back),
        Resumed::Nothing => true,
        Resumed::TooDeep => false,
    }
}

/// A node's state, what comes out of it, and what that has to keep.
#[derive(Clone, Copy)]
pub(crate) struct Asked<'s> {
    pub(crate) site: &'s NodeSite<'s, 's>,
    pub(crate) state: &'s Abs,
    pub(crate) ways: &'s Successors<'s>,
    pub(crate) aims: &'s [WayAim],
}

impl Asked<'_> {
    /// Whether so much of the state is enough.
    fn is_enough(&self, wanted: Wanted) -> bool {
        let weaker = weakened(self.state, wanted);
        let ways = self.site.step(&weaker);
        are_alike(&self.ways.taken, &ways.taken)
            && are_alike(&self.ways.not_taken, &ways.not_taken)
            && are_alike(&self.ways.stays, &ways.stays)
            && self.aims.iter().all(|aimed| {
                match self.site.state_after(&ways, aimed.way, &weaker) {
                    Some(after) => meets(self.site, &after, &aimed.aim),
                    None => false,
                }
            })
    }

    /// The cells that links read, of the state and of what has to stand for what comes out.
    fn read_by_links(&self) -> u64 {
        let cells = self.state.cells();
        let mut read = read_in_cells(self.state, cells);
        for aimed in self.aims {
            read |= match &aimed.aim {
                Aim::Covered(state) => read_in_cells(state, cells),
                Aim::Entered { entry, .. } => read_in_cells(entry, cells),
                Aim::Resumed { exit, back, .. } => {
                    read_in_cells(exit, cells) | read_in_cells(back, cells)
                }
            };
        }
        read
    }

    /// The cells and items that one instruction may look at: what it loads or pops, the one whose byte is known to be a
    /// register's, and what links read.
    pub(crate) fn at_hand(&self) -> Wanted {
        let mut wanted = Wanted::of_cells(self.read_by_links());
        if let Some(address) = self.state.relations().byte.address {
            wanted.cells |= bit_at(self.state.cells(), address);
        }
        for number in self.items_at_hand() {
            wanted.want_item(number);
        }
        if let Some(address) = self.loaded_from() {
            wanted.cells |= bit_at(self.state.cells(), echoed(address));
        }
        wanted
    }

    /// The one address that the instruction loads from.
    fn loaded_from(&self) -> Option<u16> {
        match &self.ways.taken {
            Some(successor) => match successor.read {
                AbsRead::Byte(span) if span.first == span.last => Some(span.first),
                _ => None,
            },
            None => None,
        }
    }

    /// The number of the item at an address: one that no state has where there is none.
    fn item_number(&self, address: Option<u16>) -> usize {
        match (address, self.site.stack.setting.known_base()) {
            (Some(address), Some(base)) if address < base => usize::from(base - address - 1),
            _ => ITEMS,
        }
    }

    /// The numbers of the newest two items, of the one that is loaded, and of the one among the places of a byte.
    fn items_at_hand(&self) -> [usize; 4] {
        let count = self.state.items().len();
        [
            count.checked_sub(1).unwrap_or(ITEMS),
            count.checked_sub(2).unwrap_or(ITEMS),
            self.item_number(self.loaded_from()),
            self.item_number(self.state.relations().byte.address),
        ]
    }

    /// The least that is enough with what is wanted already.
    pub(crate) fn least(&self, start: Wanted) -> Wanted {
        if self.is_enough(start) {
            return start;
        }
        let candidates = Wanted::of_parts(told_in(self.state))
            .with(self.at_hand())
            .without(start);
        let mut wanted = start.with(candidates);
        for group in [TOGETHER, ORIGINS] {
            self.drop_one(candidates.shared(Wanted::of_parts(group)), &mut wanted);
        }
        for part in EACH {
            self.drop_one(candidates.shared(Wanted::of_parts(part)), &mut wanted);
        }
        for number in 0..self.state.cells().len() {
            let cell = Wanted::of_cells(cell_bit(number));
            self.drop_one(candidates.shared(cell), &mut wanted);
        }
        for number in self.items_at_hand() {
            let item = Wanted::of_item(number);
            self.drop_one(candidates.shared(item), &mut wanted);
        }
        wanted
    }

    /// Whether so much of the state is enough where pairs lay within these bounds as its procedure was entered.
    pub(crate) fn is_enough_within(&self, entered: PairBounds, wanted: Wanted) -> bool {
        let site = self.site.entered_within(entered);
        let asked = Asked {
            site: &site,
            ..*self
        };
        asked.is_enough(wanted)
    }

    /// Bounds at entry that are enough, which are as these where that is enough, and the parts of the entry that say the others.
    pub(crate) fn least_within(&self, left: PairBounds, wanted: Wanted) -> (PairBounds, u32) {
        let full = self.site.stack.setting.entered;
        let (mut entered, mut parts) = (full, 0);
        for pair in WORD_PAIRS {
            let mut less = entered;
            set_bounds_in(pair, bounds_in(pair, &left), &mut less);
            if self.is_enough_within(less, wanted) {
                entered = less;
            } else {
                parts |= parts_of_pair(pair);
            }
        }
        (entered, parts)
    }

    /// Leaves this out if it is wanted and what is left is enough.
    fn drop_one(&self, one: Wanted, wanted: &mut Wanted) {
        let less = wanted.without(one);
        if less != *wanted && self.is_enough(less) {
            *wanted = less;
        }
    }
}

/// A caller's state after its call, and the exit that it goes on by.
#[derive(Clone, Copy)]
pub(crate) struct ReturnAsked<'s> {
    pub(crate) site: &'s NodeSite<'s, 's>,
    pub(crate) callee: u16,
    pub(crate) after: &'s Abs,
    pub(crate) exit: &'s Abs,
    pub(crate) back: &'s Abs,
}

impl ReturnAsked<'_> {
    fn is_enough(&self, wanted: Wanted) -> bool {
        let weaker = weakened(self.exit, wanted);
        is_resumed_in(self.site, self.callee, self.after, &weaker, self.back)
    }

    /// The least of the exit that is enough. Bounds are left out before what is as it was at entry: by that the caller
    /// knows its own bounds.
    pub(crate) fn least(&self, start: Wanted) -> Wanted {
        if self.is_enough(start) {
            return start;
        }
        let candidates = told_in(self.exit);
        let mut wanted = start.with(Wanted::of_parts(candidates));
        for group in [TOGETHER, BOUNDS, ORIGINS] {
            self.drop_all(candidates & group & !start.parts, &mut wanted);
        }
        for group in [TOGETHER, BOUNDS, ORIGINS] {
            for part in EACH {
                self.drop_all(candidates & group & part & !start.parts, &mut wanted);
            }
        }
        wanted
    }

    fn drop_all(&self, parts: u32, wanted: &mut Wanted) {
        let less = wanted.without(Wanted::of_parts(parts));
        if less != *wanted && self.is_enough(less) {
            *wanted = less;
        }
    }
}

/// The bounds of one of the pairs.
fn bounds_in(pair: WordPair, bounds: &PairBounds) -> Bounds {
    match pair {
        WordPair::Bc => bounds.bc,
        WordPair::De => bounds.de,
        WordPair::Hl => bounds.hl,
    }
}

/// Sets the bounds of one of the pairs.
fn set_bounds_in(pair: WordPair, within: Bounds, bounds: &mut PairBounds) {
    match pair {
        WordPair::Bc => bounds.bc = within,
        WordPair::De => bounds.de = within,
        WordPair::Hl => bounds.hl = within,
    }
}

/// The address in work RAM that an address in its echo shows.
fn echoed(address: u16) -> u16 {
    if 0xE000 <= address && address < 0xFE00 {
        address - 0x2000
    } else {
        address
    }
}

/// The address in RAM that a pair's link reads in a state, if it reads one.
pub(crate) fn read_by(pair: WordPair, state: &Abs) -> Option<u16> {
    match facts_of(pair, &state.relations().pairs).link?.other {
        Other::Cell(address) => Some(address),
        Other::Register(_) | Other::Pair(_) | Other::Nothing => None,
    }
}

/// The bits of the cells that the links of a state read.
fn read_in_cells(state: &Abs, cells: &[Cell]) -> u64 {
    let mut read = 0;
    for pair in WORD_PAIRS {
        if let Some(address) = read_by(pair, state) {
            read |= bit_at(cells, address);
        }
    }
    read
}

/// The bit of the cell at an address, if there is one.
fn bit_at(cells: &[Cell], address: u16) -> u64 {
    match cell_number(cells, address) {
        Some(number) => cell_bit(number),
        None => 0,
    }
}

/// Parts that are wanted of what comes out, and that the instruction left as they were.
pub(crate) fn untouched(state: &Abs, after: &Abs, wanted: Wanted) -> u32 {
    let (core, left) = (state.core(), after.core());
    let mut parts = 0;
    for register in &REGISTERS {
        let (val, now) = (core.registers.get(*register), left.registers.get(*register));
        if val.lo == now.lo && val.hi == now.hi {
            parts |= bounds_of(*register);
        }
        if val.origin == now.origin {
            parts |= origin_of(*register);
        }
    }
    parts & wanted.parts
}

/// Whether an address is surely stored to.
pub(crate) fn is_stored(write: AbsWrite, address: u16) -> bool {
    match write {
        AbsWrite::Byte(span, _) => span.first == address && span.last == address,
        AbsWrite::Word(at, _, _) => at == address || at.wrapping_add(1) == address,
        AbsWrite::Nothing | AbsWrite::Push { .. } => false,
    }
}
