//! What a state in a certificate is for.

ghost use Rattle.std.specs.Prelude.{◌≡◌};
ghost use Rattle.gb_states.specs.Rules.{role_of, needs_stack, may_have_items};
ghost use Rattle.gb_states.specs.WholeRules.{named_items};

use gb_domain::types::Rules;

/// What a state is for: a node of main, a node of another procedure, or a procedure's exit.
#[derive(Clone, Copy)]
pub enum Role {
    Main,
    Other,
    Exit,
}

impl Role {
    /// Of a node of this procedure.
    pub fn of(procedure: u16) -> Role
        ensures { result ≡ role_of procedure }
    {
        if procedure == 0 {
            Role::Main
        } else {
            Role::Other
        }
    }

    /// Whether SP must be where the items say.
    pub fn needs_stack(self) -> bool
        ensures { result ≡ needs_stack self }
    {
        !matches!(self, Role::Main)
    }

    /// Whether there may be items.
    pub fn may_have_items(self, rules: Rules) -> bool
        ensures { result ≡ may_have_items rules self }
    {
        match self {
            Role::Main | Role::Other => true,
            Role::Exit => matches!(rules, Rules::Extended),
        }
    }

    /// How many of so many items may be named as a place of the one byte.
    pub fn named_items(self, count: u8) -> u8
        ensures { result ≡ named_items self count }
    {
        match self {
            Role::Main | Role::Other => count,
            Role::Exit => 0,
        }
    }
}
