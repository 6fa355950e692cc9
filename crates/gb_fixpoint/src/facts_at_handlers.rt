//! Facts where handlers come. A byte may be beyond its fact for a while, as a counter that is raised and then compared. A handler that
//! has nothing to do with it is entered with fewer facts, and these come last. For others the fact grows.

use crate::types::Run;
use arrayvec::ArrayVec;
use gb_joining::claims::with_level;
use gb_joining::gb_domain::interval::lies_in;
use gb_joining::gb_domain::values::interval_of;
use gb_joining::gb_verify::{Abs, Cell};
use gb_joining::stop::RunStop;

impl<'a> Run<'a> {
    /// A handler is entered in a state: without the cells that are beyond their facts, and with the facts before those that come last.
    pub(crate) fn lower_at_handler(&mut self, entered: &mut Abs) -> Result<(), RunStop> {
        if !self.has_facts() {
            return Ok(());
        }
        let mut level = entered.summary().level();
        let mut cells = ArrayVec::new();
        for cell in entered.cells() {
            match self.number_beyond(level, cell) {
                Some(number) => {
                    self.fact_news
                        .go_beyond(cell.address, interval_of(cell.val))?;
                    if number >= self.configuration.early_facts {
                        level = level.min(u16::try_from(number).unwrap_or(u16::MAX));
                    }
                }
                None => {
                    let _ = cells.try_push(*cell);
                }
            }
        }
        let mut fills = ArrayVec::new();
        for fill in entered.summary().fills() {
            let _ = fills.try_push(*fill);
        }
        let summary = with_level(entered.summary(), level, fills);
        entered.set_cells(cells);
        entered.set_summary(summary);
        Ok(())
    }

    /// The number of the fact below a level that a cell is beyond.
    fn number_beyond(&self, level: u16, cell: &Cell) -> Option<usize> {
        let number = self.fact_news.number_at(cell.address)?;
        let fact = self.configuration.facts.get(number)?;
        if number < usize::from(level) && !lies_in(interval_of(cell.val), fact.value) {
            Some(number)
        } else {
            None
        }
    }

    /// Whether a handler may write a byte, or it is read while interrupts are off.
    pub(crate) fn is_handlers_byte(&self, address: u16) -> bool {
        for procedure in &self.procedures {
            let ranges = procedure.ranges.as_slice();
            if procedure.key.is_handler
                && ranges
                    .iter()
                    .any(|range| range.first <= address && address <= range.last)
            {
                return true;
            }
        }
        self.fact_news.is_read_apart(address)
    }
}
