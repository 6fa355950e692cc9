//! A state of a certificate, in the bytes of its file.

ghost use Rattle.std.specs.Prelude.{◌≡◌, ◌≤◌, ◌*◌, true, false, [], length, IfSome};
ghost use Rattle.gb_domain.specs.Relations.{no_relations};
ghost use Rattle.gb_domain.specs.Silent.{level_alone};
ghost use Rattle.std.specs.List.{flat_map, list_all};
ghost use Rattle.gb_domain.specs.declared.rules.Rules.TheVariants.{Extended};
ghost use Rattle.gb_domain.specs.RelationRules.{compared, test_alone};
ghost use Rattle.gb_domain.specs.Summaries.{no_summary};
ghost use Rattle.gb_states.specs.Below.gb_fields.Format.{Gives};
ghost use Rattle.gb_states.specs.Checked as checked;
ghost use Rattle.gb_states.specs.Forms.{is_fourth};
ghost use Rattle.gb_states.specs.Rules.{is_sayable, is_core_sayable, is_cell_sayable};
ghost use Rattle.gb_states.specs.Spelling as spelled;
ghost use Rattle.gb_cert.specs.Borrowed.{item_width, older_kept, told_by};

use gb_domain::relations::Relations;
use gb_domain::summary::Summary;
use gb_domain::types::{Abs, Core, Rules};
use gb_ops::machine::Region;
use gb_states::fields::{core_in, put_core, test_in};
use gb_states::form::are_none;
use gb_states::listed::{append_cells, append_items};
use gb_states::relations::relations_by;
use gb_states::role::Role;
use gb_states::whole_states::{level_at, may_be_aside_in, stack_bytes, told_at};
use gb_states::{CertFault, Form, counted, from_place};
use std::marker::Model;

/// The bytes of a state before its items.
const CORE: usize = 40;

/// Where in them stands what is kept of the controller.
const KEPT: usize = 13;

/// The bytes of a value.
const VAL: usize = 3;

/// The bytes of a cell: its address, the low byte first, and its value.
const CELL: usize = 5;

/// The bytes of one of what items are counted in: of a word in versions 1 and 2, three for each of its bytes; of a byte from
/// version 3 on.
#[inline(always)]
#[tactic(auto, unfolding(crate::specs::Opened::unit))]
fn item_width(form: Form) -> usize
    ensures exact { result ≡ item_width form }
    ensures few { result ≤ 6 }
{
    match form {
        Form::Older(Rules::Simple) => 6,
        Form::Older(Rules::Extended) | Form::Fourth(_, _) => 3,
    }
}

/// What is kept of the controller, where it is all or nothing, as versions 1 to 3 spell it.
fn older_kept(number: u8) -> u8
    ensures { result ≡ older_kept number }
{
    u8::from(number != 0)
}

/// What is known of several parts of a state together and what it says of the whole program, after so many items; its core is known.
#[inline(always)]
fn told_by<'b>(
    form: Form,
    role: Role,
    region: Region,
    count: u8,
    core: &[u8],
    bytes: &'b [u8],
) -> Result<((Relations, Summary), &'b [u8]), CertFault>
    requires { 40 ≤ length core.now }
    ensures { Gives (λ x. ((x.0.0, x.0.1), x.1.now)) result (told_by form role region count (checked.core_in (is_fourth form) core.now) (checked.test_in core.now) bytes.now) }
{
    let test = test_in(core);
    match form {
        Form::Older(rules) => {
            let (relations, rest) = relations_by(rules, region, test, bytes)?;
            Ok(((relations, Summary::none()), rest))
        }
        Form::Fourth(facts, form) => {
            // Only this version asks whether the stack may be put aside, and names items.
            let may_be_aside = may_be_aside_in(role, core);
            let stack = stack_bytes(form, role, region, count);
            told_at(facts, stack, may_be_aside, test, bytes)
        }
    }
}

/// What a state says after its items.
#[derive(Drop)]
pub struct Told<'a> {
    /// What is known of several of its parts together.
    pub relations: Relations,
    /// What it says of the whole program: nothing in versions 1 to 3.
    pub summary: Summary,
    /// The bytes of its memory cells, five each, in order of address.
    pub cells: &'a [u8],
}

/// A state, of a node or an exit. It borrows the certificate's bytes.
#[derive(Drop)]
pub struct StateRef<'a> {
    form: Form,
    role: Role,
    region: Region,
    bytes: &'a [u8],
}

impl<'a> Model for StateRef<'a> {
    ghost use Rattle.gb_domain.specs.Types.{AbsState};

    ghost Value = { AbsState };

    ghost use Rattle.gb_cert.specs.Borrowed.{state_in, StateStands};

    ghost view = { λ s. state_in s.form s.role s.region s.bytes.now };

    ghost invariant = { λ s. StateStands s.form s.role s.region s.bytes.now (state_in s.form s.role s.region s.bytes.now) };
}

impl<'a> StateRef<'a> {
    ghost use Rattle.gb_cert.specs.Borrowed.{state_in, StateStands};

    /// The state at the front of the bytes.
    #[inline(always)]
    pub(crate) fn of_parts(form: Form, role: Role, region: Region, bytes: &'a [u8]) -> StateRef<'a>
        requires { StateStands form role region bytes.now (state_in form role region bytes.now) }
        ensures { result ≡ state_in form role region bytes.now }
    {
        StateRef {
            form,
            role,
            region,
            bytes,
        }
    }

    /// What its flags say of A where nothing else is known of several parts together: the value that its test compares with.
    #[inline(always)]
    pub fn test(&self) -> Option<u8>
        ensures { result ≡ compared self.now.relations.byte.test }
    {
        test_in(self.bytes)
    }

    /// The bytes of its core and its test, as versions 1 to 3 spell them. They differ from those of version 4 in what is kept of
    /// the controller alone.
    pub fn older_core(&self) -> [u8; 40]
        requires { is_core_sayable Extended self.now.core ≡ true }
        ensures { result ≡ spelled.core self.now.core (compared self.now.relations.byte.test) }
    {
        let mut core = [0; CORE];
        core.copy_from_slice(&self.bytes[..CORE]);
        core[KEPT] = older_kept(core[KEPT]);
        core
    }

    /// Whether its core is spelled as in version 4, and its bytes, and what comes after it.
    #[inline(always)]
    pub fn core_bytes(&self) -> (bool, &'a [u8])
        ensures core { checked.core_in result.0 result.1.now ≡ self.now.core }
        ensures long { 40 ≤ length result.1.now }
    {
        (self.form.is_fourth(), self.bytes)
    }

    /// Whether it may hold items or cells, know more of several parts together than a test of A, or say something of the whole
    /// program.
    #[inline(always)]
    pub fn has_lists(&self) -> bool
        ensures lists { result ≡ false → (self.now.items ≡ []) × (self.now.cells ≡ []) }
        ensures relations { result ≡ false → self.now.relations ≡ test_alone (compared self.now.relations.byte.test) }
        ensures summary { result ≡ false → self.now.summary ≡ no_summary }
    {
        !are_none(self.form, from_place(self.bytes, CORE))
    }

    /// Its core.
    #[inline(always)]
    pub fn known_core(&self) -> Core
        ensures { result ≡ self.now.core }
    {
        core_in(self.form.is_fourth(), self.bytes)
    }

    /// Its core, in the place of another one.
    #[inline(always)]
    pub(crate) fn put_core(&self, core: &mut Core)
        ensures { core.new ≡ self.now.core }
    {
        put_core(self.form.is_fourth(), self.bytes, core);
    }

    /// The bytes of its stack items, three each, the oldest first.
    pub fn items(&self) -> &'a [u8]
        ensures listed { checked.listed_items result.now ≡ self.now.items }
        ensures long { length result.now ≡ 3 * length self.now.items }
        ensures few { length self.now.items ≤ 255 }
        // What versions 1 to 3 can say has the same bytes in all versions.
        ensures older { list_all (is_sayable Extended) self.now.items ≡ true → result.now ≡ flat_map spelled.val self.now.items }
    {
        counted(from_place(self.bytes, CORE), item_width(self.form)).0
    }

    /// How many stack items it has.
    pub fn item_count(&self) -> u8
        ensures { result ≡ length self.now.items }
    {
        (self.items().len() / VAL) as u8
    }

    /// What it says after its items, whatever that is.
    #[inline(never)]
    fn told_in_full(&self) -> Told<'a>
        ensures relations { result.relations ≡ self.now.relations }
        ensures summary { result.summary ≡ self.now.summary }
        ensures listed { checked.listed_cells result.cells.now ≡ self.now.cells }
        ensures long { length result.cells.now ≡ 5 * length self.now.cells }
        ensures few { length self.now.cells ≤ 64 }
        // What versions 1 to 3 can say has the same bytes in all versions.
        ensures older { list_all (is_cell_sayable Extended) self.now.cells ≡ true → result.cells.now ≡ flat_map spelled.cell self.now.cells }
    {
        let (items, behind) = counted(from_place(self.bytes, CORE), item_width(self.form));
        let count = (items.len() / VAL) as u8;
        let told = told_by(self.form, self.role, self.region, count, self.bytes, behind);
        let Ok((said, cells)) = told else {
            unreachable!();
        };
        let cells = counted(cells, CELL).0;
        let (relations, summary) = said;
        Told {
            relations,
            summary,
            cells,
        }
    }

    /// What is known of several of its parts together, what it says of the whole program, and the bytes of its memory cells. Mostly
    /// it is said alone how many facts hold.
    pub fn told(&self) -> Told<'a>
        ensures relations { result.relations ≡ self.now.relations }
        ensures summary { result.summary ≡ self.now.summary }
        ensures listed { checked.listed_cells result.cells.now ≡ self.now.cells }
        ensures long { length result.cells.now ≡ 5 * length self.now.cells }
        ensures few { length self.now.cells ≤ 64 }
        // What versions 1 to 3 can say has the same bytes in all versions.
        ensures older { list_all (is_cell_sayable Extended) self.now.cells ≡ true → result.cells.now ≡ flat_map spelled.cell self.now.cells }
    {
        let (_items, behind) = counted(from_place(self.bytes, CORE), item_width(self.form));
        if let Form::Fourth(facts, _) = self.form
            && let Some((level, cells)) = level_at(facts, test_in(self.bytes), behind)
        {
            return Told {
                relations: Relations::default(),
                summary: Summary::of_level(level),
                cells: counted(cells, CELL).0,
            };
        }
        self.told_in_full()
    }

    /// How many facts hold, where it says that and nothing else behind its core.
    #[inline(always)]
    pub fn level(&self) -> Option<u16>
        ensures items { IfSome result (λ n. self.now.items ≡ []) }
        ensures cells { IfSome result (λ n. self.now.cells ≡ []) }
        ensures relations { IfSome result (λ n. self.now.relations ≡ no_relations) }
        ensures summary { IfSome result (λ n. self.now.summary ≡ level_alone n) }
    {
        let (items, behind) = counted(from_place(self.bytes, CORE), item_width(self.form));
        if let Form::Fourth(facts, _) = self.form
            && items.len() == 0
            && let Some((level, cells)) = level_at(facts, test_in(self.bytes), behind)
            && counted(cells, CELL).0.len() == 0
        {
            return Some(level);
        }
        None
    }

    /// What is known of several of its parts together.
    pub fn relations(&self) -> Relations
        ensures { result ≡ self.now.relations }
    {
        self.told().relations
    }

    /// What it says of the whole program: nothing in versions 1 to 3.
    pub fn summary(&self) -> Summary
        ensures { result ≡ self.now.summary }
    {
        match self.form {
            Form::Older(_) => Summary::none(),
            Form::Fourth(_, _) => self.told().summary,
        }
    }

    /// The bytes of its memory cells, five each, in order of address.
    pub fn cells(&self) -> &'a [u8]
        ensures listed { checked.listed_cells result.now ≡ self.now.cells }
        ensures long { length result.now ≡ 5 * length self.now.cells }
        ensures few { length self.now.cells ≤ 64 }
        ensures older { list_all (is_cell_sayable Extended) self.now.cells ≡ true → result.now ≡ flat_map spelled.cell self.now.cells }
    {
        self.told().cells
    }

    /// How many memory cells it has.
    pub fn cell_count(&self) -> u8
        ensures { result ≡ length self.now.cells }
    {
        (self.cells().len() / CELL) as u8
    }

    /// It is put in the place of another state. It takes no memory.
    pub fn read(&self, state: &mut Abs)
        ensures { state.new ≡ self.now }
    {
        let Told {
            relations,
            summary,
            cells,
        } = self.told();
        self.put_core(state.core_mut());
        state.clear_lists(relations);
        state.set_summary(summary);
        append_items(state, self.items());
        append_cells(state, cells);
    }

    /// It, as a state of its own. It takes no memory.
    pub fn state(&self) -> Abs
        ensures { result ≡ self.now }
    {
        let mut state = Abs::new(self.known_core());
        self.read(&mut state);
        state
    }
}
