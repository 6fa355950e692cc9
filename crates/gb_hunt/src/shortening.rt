//! Scripts made shorter, while the same fault stays.

use crate::hunt::HuntProgress;
use crate::play::{Find, play_again};
use gb_ops::machine::Region;
use gb_trace::Rom;
use std::alloc::{AllocError, Global};

/// The fewest frames that are cut at once.
const LEAST_CUT: usize = 4;

/// A script that is made shorter.
#[derive(Drop)]
struct Shorter<'r, 'a> {
    alloc: Global,
    rom: &'r Rom<'a>,
    region: Region,
    wanted: Find,
    best: Vec<u8>,
    /// The frames that may still be played.
    left: u64,
}

/// Whether two faults are the same kind at the same place.
fn is_same(one: &Find, other: &Find) -> bool {
    let (one, other) = (&one.sighting, &other.sighting);
    one.faults == other.faults
        && one.place.address == other.place.address
        && one.place.bank == other.place.bank
}

impl Shorter<'_, '_> {
    /// Takes a script, up to its fault, if that is the wanted one; answers whether it is.
    fn offer<P: HuntProgress>(
        &mut self,
        mut script: Vec<u8>,
        progress: &mut P,
    ) -> Result<bool, AllocError> {
        let frames = script.len() as u64;
        if frames > self.left || !progress.goes_on(frames) {
            self.left = 0;
            return Ok(false);
        }
        self.left -= frames;
        let Some(find) = play_again(self.alloc, self.rom, &script, self.region)? else {
            return Ok(false);
        };
        if !is_same(&find, &self.wanted) {
            return Ok(false);
        }
        script.truncate(find.frame.saturating_add(1));
        self.best = script;
        Ok(true)
    }

    /// The best script without these frames.
    fn without(&self, from: usize, to: usize) -> Result<Vec<u8>, AllocError> {
        let mut script = Vec::new(self.alloc);
        for (number, keys) in self.best.iter().enumerate() {
            if number < from || to <= number {
                script.push(*keys)?;
            }
        }
        Ok(script)
    }

    /// The best script with none of these keys in these frames.
    fn released(&self, from: usize, to: usize, keys: u8) -> Result<Vec<u8>, AllocError> {
        let mut script = Vec::new(self.alloc);
        for (number, held) in self.best.iter().enumerate() {
            let is_within = from <= number && number < to;
            script.push(if is_within { *held & !keys } else { *held })?;
        }
        Ok(script)
    }

    /// Cuts so many frames wherever that can be.
    fn cut<P: HuntProgress>(&mut self, count: usize, progress: &mut P) -> Result<(), AllocError> {
        let mut at = 0usize;
        for _ in 0..self.best.len() {
            if at >= self.best.len() || self.left == 0 {
                break;
            }
            let shorter = self.without(at, at.saturating_add(count))?;
            if !self.offer(shorter, progress)? {
                at = at.saturating_add(count);
            }
        }
        Ok(())
    }

    /// The first frame from this one on that has other keys.
    fn change_after(&self, at: usize) -> usize {
        let keys = self.best.get(at).copied();
        let mut end = at;
        for held in self.best.iter().skip(at) {
            if Some(*held) != keys {
                break;
            }
            end = end.saturating_add(1);
        }
        end
    }

    /// Leaves out each press, where the fault comes without it.
    fn release<P: HuntProgress>(&mut self, progress: &mut P) -> Result<(), AllocError> {
        let mut at = 0usize;
        for _ in 0..self.best.len() {
            if at >= self.best.len() || self.left == 0 {
                break;
            }
            let end = self.change_after(at);
            for bit in 0..8u32 {
                let key = 1u8 << bit;
                if self.best.get(at).copied().unwrap_or(0) & key != 0 {
                    let freer = self.released(at, end, key)?;
                    self.offer(freer, progress)?;
                }
            }
            at = end.max(at.saturating_add(1));
        }
        Ok(())
    }
}

/// A script that leads to the same fault at the same place as this one, with fewer frames and keys where that was found within so
/// many frames and while the progress goes on.
///
/// # Errors
///
/// AllocError where there is no room.
pub fn shorten<P: HuntProgress>(
    alloc: Global,
    rom: &Rom<'_>,
    region: Region,
    script: Vec<u8>,
    frames: u64,
    progress: &mut P,
) -> Result<Vec<u8>, AllocError> {
    let Some(wanted) = play_again(alloc, rom, &script, region)? else {
        return Ok(script);
    };
    let mut shorter = Shorter {
        alloc,
        rom,
        region,
        wanted,
        best: script,
        left: frames,
    };
    let mut count = shorter.best.len();
    for _ in 0..16 {
        count /= 2;
        if count < LEAST_CUT {
            break;
        }
        shorter.cut(count, progress)?;
    }
    shorter.release(progress)?;
    Ok(shorter.best)
}
