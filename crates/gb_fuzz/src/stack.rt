//! Where a state says that SP is, and what it says of the bytes on the stack.

use crate::reached::ReachedState;
use crate::values::{Entered, is_in};
use gb_cpu::Bus;
use gb_domain::types::{Abs, Setting};
use gb_domain::{Bounds, Val};
use gb_ops::registers::{Ime, Processor};

/// Whether SP is in the bounds of a stack that is put aside. Interrupts would push there, so they are off.
fn stands_aside(processor: &Processor, within: Bounds) -> bool {
    within.first <= processor.sp && processor.sp <= within.last && processor.ime == Ime::Off
}

impl ReachedState<'_> {
    /// The address above the items: SP and their number give it. None is answered where the procedure's base is another number.
    fn base_by_sp(&self, known: Option<u32>, count: usize) -> Option<u32> {
        let count = u32::try_from(count).unwrap_or(u32::MAX);
        let base = u32::from(self.processor.sp).saturating_add(count);
        if known.unwrap_or(base) == base {
            Some(base)
        } else {
            None
        }
    }

    /// Whether the bytes below an address are the items, the oldest first.
    fn keeps_items(&mut self, base: u32, items: &[Val], entered: Entered) -> bool {
        let mut above = base;
        for item in items {
            above = above.saturating_sub(1);
            let Ok(address) = u16::try_from(above) else {
                return false;
            };
            if !is_in(self.memory.read(address), item, entered) {
                return false;
            }
        }
        true
    }

    /// Whether the items are on the stack by the base that is known; without one, one state alone doesn't tell where they are.
    fn keeps_items_by(&mut self, known: Option<u32>, items: &[Val], entered: Entered) -> bool {
        match known {
            Some(base) => self.keeps_items(base, items, entered),
            None => true,
        }
    }

    /// The address so many bytes below the base, where that is known, or where SP stands where the items end.
    pub fn address_below(&self, setting: Setting, state: &Abs, mark: u8) -> Option<u16> {
        let is_located = state.core().stack_set && state.summary().aside().is_none();
        let base = match setting.known_base() {
            Some(base) => u32::from(base),
            None if is_located => self.base_by_sp(None, state.items().len())?,
            None => return None,
        };
        u16::try_from(base.checked_sub(u32::from(mark))?).ok()
    }

    /// Whether SP is where a state says, and its items are on the stack. Where the stack is put aside, SP doesn't tell where they are.
    pub fn keeps_stack(&mut self, setting: Setting, state: &Abs, entered: Entered) -> bool {
        let known = setting.known_base().map(|base| u32::from(base));
        let items = state.items();
        if let Some(within) = state.summary().aside() {
            return stands_aside(&self.processor, within)
                && self.keeps_items_by(known, items, entered);
        }
        if !state.core().stack_set {
            return self.keeps_items_by(known, items, entered);
        }
        match self.base_by_sp(known, items.len()) {
            Some(base) => self.keeps_items(base, items, entered),
            None => false,
        }
    }
}
