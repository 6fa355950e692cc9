//! A node of a certificate, in the bytes of its file.

ghost use Rattle.std.specs.Prelude.{◌≡◌, false, []};
ghost use Rattle.gb_domain.specs.Types.{state_of};
ghost use Rattle.gb_domain.specs.RelationRules.{compared, test_alone};
ghost use Rattle.gb_domain.specs.Relations.{no_relations};
ghost use Rattle.gb_domain.specs.Silent.{level_alone};
ghost use Rattle.gb_domain.specs.Summaries.{no_summary};

use crate::state::StateRef;
use gb_domain::relations::Relations;
use gb_domain::summary::Summary;
use gb_domain::types::{Abs, Core};
use gb_ops::machine::Region;
use gb_states::Form;
use gb_states::relations::test_alone;
use gb_states::role::Role;
use std::marker::Model;

/// What a certificate claims for one address of a procedure: the bank shown there, and a state.
/// It borrows the certificate's bytes.
#[derive(Drop)]
pub struct NodeRef<'a> {
    form: Form,
    procedure: u16,
    address: u16,
    bank: u16,
    region: Region,
    state: &'a [u8],
}

impl<'a> Model for NodeRef<'a> {
    ghost use Rattle.gb_domain.specs.Types.{Node};

    ghost Value = { Node };

    ghost use Rattle.gb_states.specs.Rules.{role_of};
    ghost use Rattle.gb_cert.specs.Borrowed.{state_in, StateStands};

    ghost view = { λ n. record { procedure = n.procedure; address = n.address; bank = n.bank; state = state_in n.form (role_of n.procedure) n.region n.state.now } };

    ghost invariant = { λ n. StateStands n.form (role_of n.procedure) n.region n.state.now (state_in n.form (role_of n.procedure) n.region n.state.now) };
}

impl<'a> NodeRef<'a> {
    ghost use Rattle.gb_states.specs.Rules.{role_of};
    ghost use Rattle.gb_cert.specs.Borrowed.{state_in, StateStands};

    /// The node of these parts, its state at the front of the bytes.
    pub(crate) fn of_parts(
        form: Form,
        procedure: u16,
        address: u16,
        bank: u16,
        region: Region,
        state: &'a [u8],
    ) -> NodeRef<'a>
        requires { StateStands form (role_of procedure) region state.now (state_in form (role_of procedure) region state.now) }
        ensures { result ≡ record { procedure = procedure; address = address; bank = bank; state = state_in form (role_of procedure) region state.now } }
    {
        NodeRef {
            form,
            procedure,
            address,
            bank,
            region,
            state,
        }
    }

    /// The number of the procedure that it is a node of.
    pub fn procedure(&self) -> u16
        ensures { result ≡ self.now.procedure }
    {
        self.procedure
    }

    pub fn address(&self) -> u16
        ensures { result ≡ self.now.address }
    {
        self.address
    }

    /// The bank shown at the address: 0 to 511.
    pub fn bank(&self) -> u16
        ensures { result ≡ self.now.bank }
    {
        self.bank
    }

    /// The core of its state.
    #[inline(always)]
    pub fn core(&self) -> Core
        ensures { result ≡ self.now.state.core }
    {
        self.lent().known_core()
    }

    /// What its state's flags say of A where nothing else is known of several parts together: the value that the state's
    /// test compares with.
    #[inline(always)]
    pub fn test(&self) -> Option<u8>
        ensures { result ≡ compared self.now.state.relations.byte.test }
    {
        self.lent().test()
    }

    /// Whether its state may hold items or cells, know more of several parts together than a test of A, or say something of the
    /// whole program.
    #[inline(always)]
    pub fn has_lists(&self) -> bool
        ensures lists { result ≡ false → (self.now.state.items ≡ []) × (self.now.state.cells ≡ []) }
        ensures relations { result ≡ false → self.now.state.relations ≡ test_alone (compared self.now.state.relations.byte.test) }
        ensures summary { result ≡ false → self.now.state.summary ≡ no_summary }
    {
        self.lent().has_lists()
    }

    /// Its state, in the place of another one. It takes no memory.
    #[inline(always)]
    #[tactic(auto, using(crate::proofs::StateLending::plain_state))]
    pub fn read(&self, state: &mut Abs)
        ensures { state.new ≡ self.now.state }
    {
        if self.has_lists() {
            self.read_lists(state);
        } else {
            self.read_plain(state);
        }
    }

    /// Reads the state of a node without items and cells, as most nodes of straight code are: its core alone is put.
    #[inline(always)]
    fn read_plain(&self, state: &mut Abs)
        ensures { state.new ≡ record (state_of self.now.state.core) { relations = test_alone (compared self.now.state.relations.byte.test) } }
    {
        self.lent().put_core(state.core_mut());
        state.clear_lists(test_alone(self.test()));
    }

    /// Reads the state of a node that says alone how many facts hold.
    fn read_level(&self, level: u16, state: &mut Abs)
        ensures { state.new ≡ record (state_of self.now.state.core) { relations = no_relations; summary = level_alone level } }
    {
        self.lent().put_core(state.core_mut());
        state.clear_lists(Relations::default());
        state.set_summary(Summary::of_level(level));
    }

    /// Reads the state of a node with items or cells, or that says something of the whole program: out of line, so that a state is
    /// cleared and copied only then.
    #[inline(never)]
    fn read_lists(&self, state: &mut Abs)
        ensures { state.new ≡ self.now.state }
    {
        match self.lent().level() {
            Some(level) => self.read_level(level, state),
            None => self.lent().read(state),
        }
    }

    /// Its state. It takes no memory.
    pub fn state(&self) -> Abs
        ensures { result ≡ self.now.state }
    {
        self.lent().state()
    }

    /// Its state, in the certificate's bytes.
    #[inline(always)]
    pub fn lent(&self) -> StateRef<'a>
        ensures { result ≡ self.now.state }
    {
        StateRef::of_parts(self.form, Role::of(self.procedure), self.region, self.state)
    }
}
