//! A procedure of a certificate, in the bytes of its file.

ghost use Rattle.std.specs.Prelude.{◌≡◌, ◌<◌, ◌==◌, true, is_ok};
ghost use Rattle.gb_states.specs.Below.gb_fields.Format.{Gives, mapped};
ghost use Rattle.gb_states.specs.Below.gb_fields.Rules.{usual_base};
ghost use Rattle.gb_states.specs.Forms.{IsFit};
ghost use Rattle.gb_cert.specs.Borrowed.{exit_by, exit_in, names_by, exit_form};

use crate::state::StateRef;
use crate::walk::{skip_base, skip_front};
use arrayvec::ArrayVec;
use gb_domain::types::{Abs, Range, Rules};
use gb_ops::machine::Region;
use gb_states::role::Role;
use gb_states::states::ranges_at;
use gb_states::whole::kept_addresses_at;
use gb_states::{CertFault, Form, ProcedureForm, base_at, byte, need_at, returns_at};
use std::marker::Model;

/// A procedure: where it begins, above which address its items end, how many bytes of stack it needs, what it may write, which
/// addresses it names to be kept, its mark, and in what state it returns, if it does. It borrows the certificate's bytes.
#[derive(Drop)]
pub struct ProcedureRef<'a> {
    version: u8,
    facts: u16,
    is_main: bool,
    entry: u32,
    region: Region,
    body: &'a [u8],
}

impl<'a> Model for ProcedureRef<'a> {
    ghost use Rattle.gb_domain.specs.Types.{ProcedureParts};

    ghost Value = { ProcedureParts };

    ghost use Rattle.std.specs.Prelude.{◌==◌};
    ghost use Rattle.gb_cert.specs.Borrowed.{procedure_in, BodyStands};

    ghost view = { λ p. procedure_in (p.version == 4) p.version p.facts p.is_main p.entry p.region p.body.now };

    ghost invariant = { λ p. BodyStands (p.version == 4) p.version p.facts p.is_main p.region p.body.now (procedure_in (p.version == 4) p.version p.facts p.is_main p.entry p.region p.body.now) };
}

/// In what state a procedure returns, if it does, in the bytes.
fn exit_lent<'a>(form: Form, is_main: bool, region: Region, bytes: &'a [u8]) -> Option<StateRef<'a>>
    requires fit { IsFit form }
    requires right { is_ok (exit_by form is_main region bytes.now) ≡ true }
    ensures { result ≡ exit_in form is_main region bytes.now }
{
    let Ok((returns, exit)) = returns_at(is_main, bytes) else {
        unreachable!();
    };
    if returns {
        Some(StateRef::of_parts(form, Role::Exit, region, exit))
    } else {
        None
    }
}

/// The base that versions 1 and 2 don't say.
fn usual_base(is_main: bool, region: Region) -> u16
    requires { region.last < 65535 }
    ensures { result ≡ usual_base is_main region }
{
    if is_main { region.last + 1 } else { 0 }
}

/// The addresses whose bytes are to be kept, and the mark: none, and 0, in versions 1 to 3.
fn names_by(
    version: u8,
    is_main: bool,
    region: Region,
    bytes: &[u8],
) -> Result<((ArrayVec<u16, 16>, u8), &[u8]), CertFault>
    ensures { Gives (λ x. ((x.0.0.items, x.0.1), x.1.now)) result (names_by (version == 4) is_main region bytes.now) }
{
    if version == 4 {
        let (kept, rest) = kept_addresses_at(is_main, region, bytes)?;
        let (mark, rest) = byte(rest)?;
        Ok(((kept, mark), rest))
    } else {
        Ok(((ArrayVec::new(), 0), bytes))
    }
}

/// How the state of an exit is spelled, which may name the addresses that are to be kept, and the exit's bytes; the base is known.
fn exit_form(
    version: u8,
    facts: u16,
    base: u16,
    is_main: bool,
    region: Region,
    bytes: &[u8],
) -> Result<(Form, &[u8]), CertFault>
    ensures { Gives (λ x. (x.0, x.1.now)) result (mapped (exit_form (version == 4) version facts base) (names_by (version == 4) is_main region) bytes.now) }
{
    let ((kept, _mark), rest) = names_by(version, is_main, region, bytes)?;
    let form = ProcedureForm {
        kept: kept.len() as u8,
        base,
    };
    Ok((Form::of(version, facts, form), rest))
}

impl<'a> ProcedureRef<'a> {
    ghost use Rattle.gb_cert.specs.Borrowed.{procedure_in, BodyStands};

    /// The procedure with this entry, of a certificate of so many facts, its other parts at the front of the bytes.
    pub(crate) fn of_parts(
        version: u8,
        facts: u16,
        is_main: bool,
        entry: u32,
        region: Region,
        body: &'a [u8],
    ) -> ProcedureRef<'a>
        requires { BodyStands (version == 4) version facts is_main region body.now (procedure_in (version == 4) version facts is_main entry region body.now) }
        ensures { result ≡ procedure_in (version == 4) version facts is_main entry region body.now }
    {
        ProcedureRef {
            version,
            facts,
            is_main,
            entry,
            region,
            body,
        }
    }

    /// The number of its first node.
    pub fn entry(&self) -> u32
        ensures { result ≡ self.now.entry }
    {
        self.entry
    }

    /// The address above its items, 0 where it isn't known.
    pub fn base(&self) -> u16
        ensures { result ≡ self.now.base }
    {
        match Rules::of(self.version) {
            Rules::Simple => usual_base(self.is_main, self.region),
            Rules::Extended => match base_at(self.is_main, self.region, self.body) {
                Ok((base, _)) => base,
                Err(_) => unreachable!(),
            },
        }
    }

    /// The bytes of stack that it needs below its base.
    pub fn need(&self) -> u16
        ensures { result ≡ self.now.need }
    {
        let rules = Rules::of(self.version);
        let Ok(rest) = skip_base(rules, self.is_main, self.region, self.body) else {
            unreachable!();
        };
        match need_at(rules, self.is_main, self.region, rest) {
            Ok((need, _)) => need,
            Err(_) => unreachable!(),
        }
    }

    /// What it may write.
    pub fn ranges(&self) -> ArrayVec<Range, 8>
        ensures { result.items ≡ self.now.ranges }
    {
        let rules = Rules::of(self.version);
        let Ok(rest) = skip_base(rules, self.is_main, self.region, self.body) else {
            unreachable!();
        };
        let Ok((_, rest)) = need_at(rules, self.is_main, self.region, rest) else {
            unreachable!();
        };
        match ranges_at(rules, self.is_main, self.region, rest) {
            Ok((ranges, _)) => ranges,
            Err(_) => unreachable!(),
        }
    }

    /// The addresses whose bytes are to be kept: none in versions 1 to 3.
    pub fn kept(&self) -> ArrayVec<u16, 16>
        ensures { result.items ≡ self.now.kept }
    {
        if self.version != 4 {
            return ArrayVec::new();
        }
        let rules = Rules::of(self.version);
        let Ok(rest) = skip_front(rules, self.is_main, self.region, self.body) else {
            unreachable!();
        };
        match names_by(self.version, self.is_main, self.region, rest) {
            Ok(((kept, _), _)) => kept,
            Err(_) => unreachable!(),
        }
    }

    /// Its mark: 0 in versions 1 to 3.
    pub fn mark(&self) -> u8
        ensures { result ≡ self.now.mark }
    {
        let rules = Rules::of(self.version);
        let Ok(rest) = skip_front(rules, self.is_main, self.region, self.body) else {
            unreachable!();
        };
        match names_by(self.version, self.is_main, self.region, rest) {
            Ok(((_, mark), _)) => mark,
            Err(_) => unreachable!(),
        }
    }

    /// In what state it returns, if it does. It takes no memory.
    pub fn exit(&self) -> Option<Abs>
        ensures { result ≡ self.now.exit }
    {
        Some(self.lent_exit()?.state())
    }

    /// In what state it returns, if it does, in the certificate's bytes.
    pub fn lent_exit(&self) -> Option<StateRef<'a>>
        ensures { result ≡ self.now.exit }
    {
        let rules = Rules::of(self.version);
        let Ok(rest) = skip_front(rules, self.is_main, self.region, self.body) else {
            unreachable!();
        };
        let exit = exit_form(
            self.version,
            self.facts,
            self.base(),
            self.is_main,
            self.region,
            rest,
        );
        let Ok((form, rest)) = exit else {
            unreachable!();
        };
        exit_lent(form, self.is_main, self.region, rest)
    }
}
