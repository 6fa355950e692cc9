//! Scripts that are played.

use bitflags::Flags;
use gb_ops::machine::Region;
use gb_trace::{Console, Ending, Keys, Rom, Sighting, Watched, watch_frame};
use std::alloc::{AllocError, Global};

/// A fault that a script leads to.
#[derive(Clone, Copy)]
pub struct Find {
    /// The number of the frame.
    pub frame: usize,
    pub sighting: Sighting,
}

/// The keys of a byte of a script.
pub(crate) fn keys_of(byte: u8) -> Keys {
    Keys::from_bits_retain(byte)
}

/// The seconds that pass with a frame: one with each sixtieth.
pub(crate) fn seconds_of(number: usize) -> u32 {
    u32::from(number % 60 == 59)
}

/// A script's run up to its end or its first fault, and the console after that.
#[derive(Drop)]
pub struct Replay<'a> {
    pub console: Console<'a>,
    /// The first fault of the stack region, if one came.
    pub find: Option<Find>,
}

/// Plays a script on a console, frame by frame to its end. Answers the first fault of the stack region, if one comes.
fn play(console: &mut Console<'_>, script: &[u8], region: Region) -> Option<Find> {
    for (frame, byte) in script.iter().enumerate() {
        match watch_frame(console, keys_of(*byte), seconds_of(frame), region) {
            Watched::Ended(Ending::Whole) => {}
            Watched::Ended(Ending::Locked | Ending::Stopped) => return None,
            Watched::Faulted(sighting) => return Some(Find { frame, sighting }),
        }
    }
    None
}

/// Plays a script from power-up, up to its first fault of the stack region.
///
/// # Errors
///
/// AllocError where there is no room.
pub fn replayed<'a>(
    alloc: Global,
    rom: &Rom<'a>,
    script: &[u8],
    region: Region,
) -> Result<Replay<'a>, AllocError> {
    let mut console = Console::new(alloc, rom)?;
    let find = play(&mut console, script, region);
    Ok(Replay { console, find })
}

/// The first fault of the stack region to which a script leads from power-up, if one comes.
///
/// # Errors
///
/// AllocError where there is no room.
pub fn play_again(
    alloc: Global,
    rom: &Rom<'_>,
    script: &[u8],
    region: Region,
) -> Result<Option<Find>, AllocError> {
    let mut console = Console::new(alloc, rom)?;
    Ok(play(&mut console, script, region))
}
