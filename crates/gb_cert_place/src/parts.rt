//! Readers of parts of states, by the version.

ghost use Rattle.std.specs.Prelude.{◌≡◌};
ghost use Rattle.gb_fields.specs.Format.{Gives};
ghost use Rattle.gb_cert_place.specs.Forms.{rules_in, core_by};

use gb_cert::CertFault;
use gb_domain::types::{Core, Rules};
use gb_states::form::Form;
use gb_states::role::Role;
use gb_states::{fields, whole_states};

/// By which rules a state's items and cells are counted.
pub(crate) fn rules_in(form: Form) -> Rules
    ensures { result ≡ rules_in form }
{
    match form {
        Form::Older(rules) => rules,
        Form::Fourth(..) => Rules::Extended,
    }
}

/// A core, and the test that stands in it.
pub(crate) fn core_by(
    form: Form,
    role: Role,
    bytes: &[u8],
) -> Result<((Core, Option<u8>), &[u8]), CertFault>
    ensures { Gives (λ x. (x.0, x.1.now)) result (core_by form role bytes.now) }
{
    match form {
        Form::Older(rules) => fields::core_at(rules, role, bytes),
        Form::Fourth(_, form) => whole_states::core_at(form.kept, role, bytes),
    }
}
