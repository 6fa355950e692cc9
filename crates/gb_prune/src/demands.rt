//! What is demanded of each node and each exit of an accepted certificate: it flows from what the rules ask of an
//! instruction back along ways, calls and returns.

use crate::aims::{Aim, Asked, ReturnAsked, WayAim};
use crate::asking::{Asking, Passage};
use crate::onward::{LeadsTo, NodeSite, Onward, state_of, weakened_node};
use crate::parts::{ORIGINS, Wanted, parts_of_pair, weakened};
use crate::standing::{Standby, Standing};
use gb_draft::{
    ANY_PAIRS, Abs, AbsWrite, Cert, PairBounds, Rom, Successors, WORD_PAIRS, exit_of, pair_bounds,
    ranges_of, stack_of, taken_by,
};
use std::alloc::{AllocError, Global};
use std::collections::BTreeSet;

/// How often each node is looked at, on average, before no more is demanded.
const VISITS_A_NODE: u64 = 64;

/// The most nodes that all ways may lead to: value by value each leads to many.
const MOST_WAYS: u64 = 4_000_000;

/// What is demanded so far.
#[derive(Drop)]
pub(crate) struct Demands<'c, 'a> {
    alloc: Global,
    rom: &'c Rom<'c>,
    cert: &'c Cert<'a>,
    pub(crate) nodes: Vec<Wanted>,
    pub(crate) exits: Vec<Wanted>,
    /// Where each node leads.
    pub(crate) onward: Vec<Vec<LeadsTo>>,
    /// The nodes that ask something of each node.
    before: Vec<Vec<u32>>,
    /// The nodes by which each procedure returns.
    returns: Vec<Vec<u32>>,
    queue: BTreeSet<u32>,
}

impl<'c, 'a> Demands<'c, 'a> {
    /// What is demanded of each part of an accepted certificate. None where too much would have to be looked at.
    pub(crate) fn of(
        alloc: Global,
        rom: &'c Rom<'c>,
        cert: &'c Cert<'a>,
    ) -> Result<Option<Demands<'c, 'a>>, AllocError> {
        let mut demands = Demands {
            alloc,
            rom,
            cert,
            nodes: vec![in alloc; Wanted::nothing(); cert.nodes() as usize]?,
            // What a routine gives back as it was is told to its author too.
            exits: vec![in alloc; Wanted::of_parts(ORIGINS); usize::from(cert.procedures())]?,
            onward: Vec::new(alloc),
            before: Vec::new(alloc),
            returns: Vec::new(alloc),
            queue: BTreeSet::new(alloc),
        };
        demands.find_ways()?;
        if demands.count_ways() > MOST_WAYS {
            return Ok(None);
        }
        demands.turn_ways()?;
        let is_settled = demands.settle()?;
        Ok(if is_settled { Some(demands) } else { None })
    }

    /// Finds where each node leads.
    fn find_ways(&mut self) -> Result<(), AllocError> {
        let mut standing = Standing::of(self.alloc, self.cert)?;
        for number in 0..self.cert.nodes() {
            let ways = self.ways_from(number, &mut standing)?;
            self.onward.push(ways)?;
            self.before.push(Vec::new(self.alloc))?;
            self.queue.insert(number)?;
        }
        for _ in 0..self.cert.procedures() {
            self.returns.push(Vec::new(self.alloc))?;
        }
        Ok(())
    }

    fn ways_from(&self, number: u32, standing: &mut Standing) -> Result<Vec<LeadsTo>, AllocError> {
        if let Some(state) = state_of(self.cert, number)
            && let Some(site) = NodeSite::of(self.rom, self.cert, number, &state)
        {
            return site.leads_to(self.alloc, &state, standing);
        }
        Ok(Vec::new(self.alloc))
    }

    /// How many nodes all ways lead to.
    fn count_ways(&self) -> u64 {
        let mut count: u64 = 0;
        for ways in &self.onward {
            for leads in ways {
                let nodes = match leads.onward {
                    Onward::Nodes(nodes)
                    | Onward::Enters {
                        back: Some(nodes),
                        ..
                    } => nodes,
                    Onward::Exit | Onward::Enters { back: None, .. } => continue,
                };
                let (first, after) = nodes.numbers();
                count = count.saturating_add(u64::from(after.saturating_sub(first)));
            }
        }
        count
    }

    /// Finds for each node and exit what asks something of it.
    fn turn_ways(&mut self) -> Result<(), AllocError> {
        for (number, ways) in self.onward.iter().enumerate() {
            let from = u32::try_from(number).unwrap_or(u32::MAX);
            for leads in ways {
                match leads.onward {
                    Onward::Nodes(nodes) => add_before(&mut self.before, nodes, from)?,
                    Onward::Exit => {
                        let procedure = procedure_of(self.cert, from);
                        add_to(&mut self.returns, usize::from(procedure), from)?;
                    }
                    Onward::Enters { callee, back } => {
                        let entry = entry_of(self.cert, callee);
                        add_before(&mut self.before, Standby::One(entry), from)?;
                        if let Some(nodes) = back {
                            add_before(&mut self.before, nodes, from)?;
                        }
                    }
                }
            }
        }
        Ok(())
    }

    /// Looks at nodes until no more is demanded. False where that takes too long.
    pub(crate) fn settle(&mut self) -> Result<bool, AllocError> {
        let most = u64::from(self.cert.nodes()).saturating_mul(VISITS_A_NODE);
        for _ in 0..most {
            match self.queue.pop_last() {
                Some(number) => self.visit(number)?,
                None => return Ok(true),
            }
        }
        Ok(self.queue.is_empty())
    }

    fn wanted_of(&self, number: u32) -> Wanted {
        match self.nodes.get(number as usize) {
            Some(wanted) => *wanted,
            None => Wanted::all(),
        }
    }

    fn wanted_of_exit(&self, procedure: u16) -> Wanted {
        match self.exits.get(usize::from(procedure)) {
            Some(wanted) => *wanted,
            None => Wanted::all(),
        }
    }

    /// More may be wanted of a node: then what leads to it is looked at again.
    fn want(&mut self, number: u32, wanted: Wanted) -> Result<(), AllocError> {
        let Some(now) = self.nodes.get_mut(number as usize) else {
            return Ok(());
        };
        let more = now.with(wanted);
        if more != *now {
            *now = more;
            enqueue(&self.before, number as usize, &mut self.queue)?;
        }
        Ok(())
    }

    /// More may be wanted of an exit, and then of those of all procedures for the same target: if one of them knew less than
    /// another, neither could stand for both.
    fn want_exit(&mut self, procedure: u16, wanted: Wanted) -> Result<(), AllocError> {
        if !self.raise_exit(procedure, wanted)? {
            return Ok(());
        }
        let cert = self.cert;
        let Some(exit) = exit_of(cert, procedure) else {
            return Ok(());
        };
        let address = address_of(cert, entry_of(cert, procedure));
        for other in 1..cert.procedures() {
            if other != procedure
                && address_of(cert, entry_of(cert, other)) == address
                && let Some(like) = exit_of(cert, other)
            {
                self.raise_exit(other, wanted.of_like(&exit, &like))?;
            }
        }
        Ok(())
    }

    /// More may be wanted of an exit: then what returns by it is looked at again. False where it isn't more.
    fn raise_exit(&mut self, procedure: u16, wanted: Wanted) -> Result<bool, AllocError> {
        let Some(now) = self.exits.get_mut(usize::from(procedure)) else {
            return Ok(false);
        };
        let more = now.with(wanted);
        let is_more = more != *now;
        if is_more {
            *now = more;
            enqueue(&self.returns, usize::from(procedure), &mut self.queue)?;
        }
        Ok(is_more)
    }

    /// All of a node is wanted, of the exits that it goes on by, and of all procedures that begin where it enters one. False
    /// where all of it was wanted already.
    pub(crate) fn insist(&mut self, number: u32) -> Result<bool, AllocError> {
        let is_new = self.wanted_of(number) != Wanted::all();
        self.want(number, Wanted::all())?;
        let is_entry_new = self.want_entered(procedure_of(self.cert, number))?;
        let onward = self.onward_of(number)?;
        for leads in &onward {
            if let Onward::Enters { callee, .. } = leads.onward {
                self.want_exit(callee, Wanted::all())?;
                self.want_entries_like(callee)?;
            }
        }
        Ok(is_new || is_entry_new)
    }

    /// Within which bounds pairs lie as a procedure is entered is wanted. False where that was wanted already.
    fn want_entered(&mut self, procedure: u16) -> Result<bool, AllocError> {
        let full = stack_of(self.cert, procedure).setting.entered;
        let entry = entry_of(self.cert, procedure);
        match weakened_node(self.cert, entry, self.wanted_of(entry)) {
            Some(weaker) if procedure != 0 && pair_bounds(&weaker) != full && full != ANY_PAIRS => {
                for pair in WORD_PAIRS {
                    self.want(entry, Wanted::of_parts(parts_of_pair(pair)))?;
                }
                Ok(true)
            }
            _ => Ok(false),
        }
    }

    /// All is wanted of the entries at the address of a procedure's.
    fn want_entries_like(&mut self, callee: u16) -> Result<(), AllocError> {
        let cert = self.cert;
        let address = address_of(cert, entry_of(cert, callee));
        for other in 1..cert.procedures() {
            let entry = entry_of(cert, other);
            if address_of(cert, entry) == address {
                self.want(entry, Wanted::all())?;
            }
        }
        Ok(())
    }

    /// Finds what is wanted of a node, and of the exits that it goes on by.
    fn visit(&mut self, number: u32) -> Result<(), AllocError> {
        let Some(state) = state_of(self.cert, number) else {
            return Ok(());
        };
        let Some(site) = NodeSite::of(self.rom, self.cert, number, &state) else {
            return self.want(number, Wanted::all());
        };
        let ways = site.step(&state);
        let asking = self.asking(number, &site, &state, &ways)?;
        let asked = Asked {
            site: &site,
            state: &state,
            ways: &ways,
            aims: asking.aims.as_slice(),
        };
        let wanted = if asking.is_whole {
            asking
                .wanted
                .with(Wanted::of_parts(u32::MAX))
                .with(asked.at_hand())
        } else {
            asked.least(asking.wanted)
        };
        self.want(number, wanted)?;
        let entered = self.entered_for(&asked, wanted)?;
        let within = site.entered_within(entered);
        let asked = Asked {
            site: &within,
            ..asked
        };
        self.want_exits(&asked, wanted)
    }

    /// Within which bounds pairs have to lie as a node's procedure is entered, where so much of the node is wanted: links with a base go
    /// by them. What of its entry is asked for by that is wanted.
    fn entered_for(&mut self, asked: &Asked<'_>, wanted: Wanted) -> Result<PairBounds, AllocError> {
        let full = asked.site.stack.setting.entered;
        let entry = entry_of(self.cert, asked.site.procedure);
        let Some(weaker) = weakened_node(self.cert, entry, self.wanted_of(entry)) else {
            return Ok(full);
        };
        let left = if asked.site.procedure == 0 {
            full
        } else {
            pair_bounds(&weaker)
        };
        if left == full || asked.is_enough_within(left, wanted) {
            return Ok(left);
        }
        let (entered, parts) = asked.least_within(left, wanted);
        self.want(entry, Wanted::of_parts(parts))?;
        Ok(entered)
    }

    /// What a node's ways ask of it.
    fn asking(
        &mut self,
        number: u32,
        site: &NodeSite<'_, '_>,
        state: &Abs,
        ways: &Successors<'_>,
    ) -> Result<Asking, AllocError> {
        let wanted = self.wanted_of(number);
        let mut asking = Asking::at(self.alloc, site.address, state, wanted);
        let onward = self.onward_of(number)?;
        for leads in &onward {
            if let Some(after) = site.state_after(ways, leads.way, state) {
                let passage = Passage {
                    way: leads.way,
                    write: write_on(ways, leads.way),
                    state,
                    after: &after,
                };
                self.ask(site.procedure, leads.onward, &passage, &mut asking)?;
            }
        }
        Ok(asking)
    }

    /// Where a node leads.
    fn onward_of(&self, number: u32) -> Result<Vec<LeadsTo>, AllocError> {
        match self.onward.get(number as usize) {
            Some(onward) => onward.clone(),
            None => Ok(Vec::new(self.alloc)),
        }
    }

    /// What a way asks that leads there from a procedure.
    fn ask(
        &mut self,
        procedure: u16,
        onward: Onward,
        passage: &Passage<'_>,
        asking: &mut Asking,
    ) -> Result<(), AllocError> {
        match onward {
            Onward::Nodes(Standby::One(number)) => {
                let wanted = self.wanted_of(number);
                match weakened_node(self.cert, number, wanted) {
                    Some(aim) => asking.cover(passage, aim, wanted),
                    None => Ok(()),
                }
            }
            Onward::Nodes(Standby::Several { first, after }) => {
                self.ask_values(first, after, passage, asking);
                Ok(())
            }
            Onward::Exit => match exit_of(self.cert, procedure) {
                Some(exit) => {
                    let wanted = self.wanted_of_exit(procedure);
                    asking.cover(passage, weakened(&exit, wanted), wanted)
                }
                None => Ok(()),
            },
            Onward::Enters { callee, back } => {
                self.ask_entry(callee, passage, asking)?;
                match back {
                    Some(nodes) => self.ask_back(callee, nodes, passage, asking),
                    None => Ok(()),
                }
            }
        }
    }

    /// What nodes ask of a state that they stand for value by value.
    fn ask_values(&self, first: u32, after: u32, passage: &Passage<'_>, asking: &mut Asking) {
        asking.is_whole = true;
        for number in first..after {
            let wanted = self.wanted_of(number);
            if let Some(aim) = weakened_node(self.cert, number, wanted) {
                asking.pass(passage, &aim, wanted);
            }
        }
    }

    /// What a procedure's entry asks of a state that enters it.
    fn ask_entry(
        &self,
        callee: u16,
        passage: &Passage<'_>,
        asking: &mut Asking,
    ) -> Result<(), AllocError> {
        let number = entry_of(self.cert, callee);
        let wanted = self.wanted_of(number);
        match weakened_node(self.cert, number, wanted) {
            Some(entry) => {
                let count = taken_by(self.cert, callee);
                asking.enter(passage, callee, count, entry, wanted)
            }
            None => Ok(()),
        }
    }

    /// What the nodes after a procedure ask of a state that entered it, and of its exit's cells and items.
    fn ask_back(
        &mut self,
        callee: u16,
        nodes: Standby,
        passage: &Passage<'_>,
        asking: &mut Asking,
    ) -> Result<(), AllocError> {
        let Some(exit) = exit_of(self.cert, callee) else {
            return Ok(());
        };
        let (first, after) = nodes.numbers();
        for number in first..after {
            let wanted = self.wanted_of(number);
            let Some(back) = weakened_node(self.cert, number, wanted) else {
                continue;
            };
            let count = taken_by(self.cert, callee);
            let ranges = ranges_of(self.cert, callee);
            let ranges = ranges.as_slice();
            let of_exit = asking.come_back(passage, count, ranges, &exit, &back, wanted);
            self.want_exit(callee, of_exit)?;
            if let Standby::One(_) = nodes {
                let exit = exit.copied();
                asking.aims.push(WayAim {
                    way: passage.way,
                    aim: Aim::Resumed { callee, exit, back },
                })?;
            }
        }
        if let Standby::Several { .. } = nodes {
            asking.is_whole = true;
            self.want_exit(callee, Wanted::of_parts(u32::MAX))?;
        }
        Ok(())
    }

    /// Finds what is wanted of the exits that a node goes on by, where so much of the node is wanted.
    fn want_exits(&mut self, asked: &Asked<'_>, wanted: Wanted) -> Result<(), AllocError> {
        let weaker = weakened(asked.state, wanted);
        let ways = asked.site.step(&weaker);
        for aimed in asked.aims {
            if let Aim::Resumed { callee, exit, back } = &aimed.aim
                && let Some(after) = asked.site.state_after(&ways, aimed.way, &weaker)
            {
                let returned = ReturnAsked {
                    site: asked.site,
                    callee: *callee,
                    after: &after,
                    exit,
                    back,
                };
                let least = returned.least(self.wanted_of_exit(*callee));
                self.want_exit(*callee, least)?;
            }
        }
        Ok(())
    }
}

/// What the instruction writes on a way.
fn write_on(ways: &Successors<'_>, way: u8) -> AbsWrite {
    let successor = match way {
        0 => &ways.taken,
        1 => &ways.not_taken,
        2 => &ways.stays,
        _ => return AbsWrite::Nothing,
    };
    match successor {
        Some(successor) => successor.write,
        None => AbsWrite::Nothing,
    }
}

/// The number of a procedure's first node.
pub(crate) fn entry_of(cert: &Cert<'_>, procedure: u16) -> u32 {
    if procedure < cert.procedures() {
        cert.procedure(procedure).entry()
    } else {
        u32::MAX
    }
}

/// The address of a node.
fn address_of(cert: &Cert<'_>, number: u32) -> Option<u16> {
    if number < cert.nodes() {
        Some(cert.node(number).address())
    } else {
        None
    }
}

/// The procedure of a node.
pub(crate) fn procedure_of(cert: &Cert<'_>, number: u32) -> u16 {
    if number < cert.nodes() {
        cert.node(number).procedure()
    } else {
        u16::MAX
    }
}

fn add_to(lists: &mut Vec<Vec<u32>>, number: usize, from: u32) -> Result<(), AllocError> {
    if let Some(list) = lists.get_mut(number)
        && list.last() != Some(&from)
    {
        list.push(from)?;
    }
    Ok(())
}

/// A node leads to these nodes.
fn add_before(before: &mut Vec<Vec<u32>>, nodes: Standby, from: u32) -> Result<(), AllocError> {
    let (first, after) = nodes.numbers();
    for number in first..after {
        add_to(before, number as usize, from)?;
    }
    Ok(())
}

fn enqueue(lists: &[Vec<u32>], number: usize, queue: &mut BTreeSet<u32>) -> Result<(), AllocError> {
    if let Some(list) = lists.get(number) {
        for node in list {
            queue.insert(*node)?;
        }
    }
    Ok(())
}
