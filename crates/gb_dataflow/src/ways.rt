//! The ways inside one procedure, and the loops that they make.

use gb_fixpoint::code_point::CodePoint;
use gb_fixpoint::limits::NESTING;
use gb_fixpoint::types::Run;
use std::alloc::{AllocError, Global};
use std::collections::BTreeSet;

/// A way on from a point of code to the next.
#[derive(Clone, Copy, PartialEq, Eq)]
struct Way {
    from: CodePoint,
    to: CodePoint,
}

impl Way {
    /// This way, walked backwards.
    fn turned(self) -> Way {
        Way {
            from: self.to,
            to: self.from,
        }
    }
}

/// Along the ways, or against them.
#[derive(Clone, Copy, PartialEq, Eq)]
enum Direction {
    Onwards,
    Back,
}

/// The points of a loop.
pub type Loop = BTreeSet<CodePoint>;

/// The ways inside one procedure, but for those from a point to itself.
#[derive(Drop)]
pub struct Ways {
    alloc: Global,
    /// Where the procedure begins: calls enter it there, and no way says so.
    entry: CodePoint,
    ways: Vec<Way>,
}

impl Ways {
    /// The ways inside a procedure.
    pub fn of(alloc: Global, run: &Run<'_>, procedure: usize) -> Result<Ways, AllocError> {
        let mut ways = Vec::new(alloc);
        for edge in run.edges.iter() {
            if edge.procedure == procedure && edge.from != edge.to {
                ways.push(Way {
                    from: edge.from,
                    to: edge.to,
                })?;
            }
        }
        Ok(Ways {
            alloc,
            entry: run.target(procedure),
            ways,
        })
    }

    /// The point before, where there is just one.
    pub fn only_before(&self, point: CodePoint) -> Option<CodePoint> {
        let mut before = None;
        for way in &self.ways {
            if way.to == point {
                if before.is_some() {
                    return None;
                }
                before = Some(way.from);
            }
        }
        before
    }

    /// The points from one back to another, the last one first and the other left out, where each but that has just one point before
    /// it, and there are at most so many.
    pub fn straight_back(
        &self,
        last: CodePoint,
        other: CodePoint,
        most: u32,
    ) -> Result<Option<Vec<CodePoint>>, AllocError> {
        let mut points = Vec::new(self.alloc);
        let mut at = last;
        for _ in 0..most {
            if at == other {
                break;
            }
            points.push(at)?;
            match self.only_before(at) {
                Some(before) => at = before,
                None => return Ok(None),
            }
        }
        if at == other && !points.is_empty() {
            Ok(Some(points))
        } else {
            Ok(None)
        }
    }

    /// The point behind, where there is just one.
    pub fn only_behind(&self, point: CodePoint) -> Option<CodePoint> {
        let mut behind = None;
        for way in &self.ways {
            if way.from == point {
                if behind.is_some() {
                    return None;
                }
                behind = Some(way.to);
            }
        }
        behind
    }

    /// The points before.
    pub fn before(&self, point: CodePoint) -> Result<Vec<CodePoint>, AllocError> {
        let mut before = Vec::new(self.alloc);
        for way in &self.ways {
            if way.to == point {
                before.push(way.from)?;
            }
        }
        Ok(before)
    }

    /// What is reached from a point in one step or more, inside of some points if they are given.
    fn reached(
        &self,
        from: CodePoint,
        direction: Direction,
        inside: &Option<Loop>,
    ) -> Result<Loop, AllocError> {
        let mut seen = BTreeSet::new(self.alloc);
        let mut left = Vec::new(self.alloc);
        left.push(from)?;
        // Each point is taken once, and all but the first are some way's end.
        for _ in 0..=self.ways.len() {
            let Some(at) = left.pop() else { break };
            for way in &self.ways {
                let way = match direction {
                    Direction::Onwards => *way,
                    Direction::Back => way.turned(),
                };
                let is_inside = match inside {
                    None => true,
                    Some(points) => points.contains(&way.to),
                };
                if way.from == at && is_inside && seen.insert(way.to)? {
                    left.push(way.to)?;
                }
            }
        }
        Ok(seen)
    }

    /// The points from which a point is reached in one step or more.
    pub fn leading_to(&self, point: CodePoint) -> Result<Loop, AllocError> {
        self.reached(point, Direction::Back, &None)
    }

    /// The greatest loop around a point, inside of some points if they are given.
    fn loop_around(
        &self,
        point: CodePoint,
        inside: &Option<Loop>,
    ) -> Result<Option<Loop>, AllocError> {
        let onwards = self.reached(point, Direction::Onwards, inside)?;
        if !onwards.contains(&point) {
            return Ok(None);
        }
        let back = self.reached(point, Direction::Back, inside)?;
        let mut around = BTreeSet::new(self.alloc);
        for reached in onwards.iter() {
            if back.contains(reached) {
                around.insert(*reached)?;
            }
        }
        Ok(Some(around))
    }

    /// Whether a point of a loop is entered from outside of it, by a way or by a call.
    fn is_head(&self, around: &Loop, point: CodePoint) -> bool {
        point == self.entry
            || self
                .ways
                .iter()
                .any(|way| way.to == point && !around.contains(&way.from))
    }

    /// The points of a loop where it is entered.
    pub fn heads(&self, around: &Loop) -> Result<Vec<CodePoint>, AllocError> {
        let mut heads = Vec::new(self.alloc);
        for point in around.iter() {
            if self.is_head(around, *point) {
                heads.push(*point)?;
            }
        }
        Ok(heads)
    }

    /// The points of a loop but for those where it is entered, or but for the first where it is never entered.
    fn without_heads(&self, around: &Loop) -> Result<Loop, AllocError> {
        let mut inner = BTreeSet::new(self.alloc);
        for point in around.iter() {
            if !self.is_head(around, *point) {
                inner.insert(*point)?;
            }
        }
        if inner.len() == around.len() {
            inner.pop_first();
        }
        Ok(inner)
    }

    /// The loops around a point, the innermost first.
    pub fn loops(&self, point: CodePoint) -> Result<Vec<Loop>, AllocError> {
        let mut loops = Vec::new(self.alloc);
        let mut inside: Option<Loop> = None;
        for _ in 0..NESTING {
            let Some(around) = self.loop_around(point, &inside)? else {
                break;
            };
            let inner = self.without_heads(&around)?;
            loops.push(around)?;
            if !inner.contains(&point) {
                break;
            }
            inside = Some(inner);
        }
        loops.reverse();
        Ok(loops)
    }

    /// The only point outside of a loop from which a point is reached.
    fn only_entry(&self, around: &Loop, point: CodePoint) -> Option<CodePoint> {
        let mut outside = None;
        for way in &self.ways {
            if way.to == point && !around.contains(&way.from) {
                if outside.is_some() {
                    return None;
                }
                outside = Some(way.from);
            }
        }
        outside
    }

    /// The innermost loop around a point, where that is its only head and is entered from one point alone; and that one.
    pub fn entered_loop(&self, point: CodePoint) -> Result<Option<(Loop, CodePoint)>, AllocError> {
        let mut loops = self.loops(point)?;
        loops.truncate(1);
        let Some(around) = loops.pop() else {
            return Ok(None);
        };
        let heads = self.heads(&around)?;
        Ok(match self.only_entry(&around, point) {
            Some(before) if heads.len() == 1 => Some((around, before)),
            _ => None,
        })
    }

    /// Whether a loop leads round past one of its points: from where it is entered back there.
    pub fn is_passed_by(&self, around: &Loop, point: CodePoint) -> Result<bool, AllocError> {
        let mut others = around.clone()?;
        others.remove(&point);
        let inside = Some(others);
        for head in &self.heads(around)? {
            if *head != point
                && self
                    .reached(*head, Direction::Onwards, &inside)?
                    .contains(head)
            {
                return Ok(true);
            }
        }
        Ok(false)
    }

    /// Whether nothing leads out of a loop.
    pub fn is_endless(&self, around: &Loop) -> bool {
        self.ways.iter().all(|way| !around.contains(&way.from) || around.contains(&way.to))
    }
}
