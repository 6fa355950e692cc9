//! The check of a certificate.

ghost use Rattle.std.specs.Prelude.{◌≡◌, ◌<◌, length, slice_get, Option, Some};
ghost use Rattle.gb_rules.specs.Procedures.{stack_of, program_of};
ghost use Rattle.gb_ops.specs.declared.machine.Region.{Region};
ghost use Rattle.gb_verify.specs.PowerUp.{own, core_at_power_up, state_at_power_up};
ghost use Rattle.gb_verify.specs.Verdict.{IsVerdict, verdict_of, IgnoresVersion, is_bad_entry, main_entry, reason_against_at, entry_of, is_bad_node};
ghost use Rattle.gb_verify.specs.Headline.{IfAccepted, IsSafe};

use crate::verdict::Verdict;
use gb_ops::machine::Region;
use gb_ops::op::Register;
use gb_ops::registers::Registers;
use gb_rules::interrupts::lacks_handler;
use gb_rules::procedures::{program_of, stack_of};
use gb_rules::room::Room;
use gb_rules::rules::reason_near;
use gb_rules::{
    Abs, Cert, Core, Ctl, Flg, ImeSet, KeptBanks, NodeRef, Origin, Program, Reason, Stack, Val,
    covers, holds_bytes, known,
};
use gb_text::Rom;

/// A register's value at power-up, which is its own origin.
fn own(register: Register, value: u8) -> Val
    ensures { result ≡ own register value }
{
    Val {
        lo: value,
        hi: value,
        low_bits: 0,
        origin: Some(Origin::of(register)),
    }
}

/// The core at power-up (Power-up sequence): each value is known, and each is its own origin.
#[tactic(auto, unfolding(crate::specs::PowerUp::core_at_power_up))]
pub fn core_at_power_up(rom: &Rom<'_>, region: Region) -> Core
    ensures { result ≡ core_at_power_up rom.now region }
{
    let others = known(rom.checksum() != 0);
    Core {
        ime: ImeSet {
            off: true,
            pending: false,
            on: false,
        },
        bound: 0,
        stack_set: region.last == 0xFFFD,
        ctl: Ctl {
            bank_lo: 1,
            bank_hi: 1,
            second_lo: 0,
            second_hi: 0,
            gate: known(false),
            mode: known(false),
            kept: KeptBanks::all_or_none(true),
        },
        flags: Flg {
            zero: known(true),
            subtract: known(false),
            half_carry: others,
            carry: others,
            is_own: true,
        },
        ie: Val {
            lo: 0,
            hi: 0,
            low_bits: 0,
            origin: Some(Origin::Ie),
        },
        registers: Registers {
            a: own(Register::A, 0x01),
            b: own(Register::B, 0x00),
            c: own(Register::C, 0x13),
            d: own(Register::D, 0x00),
            e: own(Register::E, 0xD8),
            h: own(Register::H, 0x01),
            l: own(Register::L, 0x4D),
        },
    }
}

/// The number of the node where main, procedure 0, begins.
fn main_entry(cert: &Cert<'_>) -> u32
    ensures { result ≡ main_entry cert.now }
{
    if cert.procedures() == 0 {
        0
    } else {
        cert.procedure(0).entry()
    }
}

/// Whether main doesn't begin at 0100 in bank 0, or not in a state that covers power-up.
#[tactic(auto, unfolding(crate::specs::Verdict::is_bad_entry))]
fn is_bad_entry(rom: &Rom<'_>, cert: &Cert<'_>, entry: u32) -> bool
    requires { entry ≡ main_entry cert.now }
    ensures { result ≡ is_bad_entry rom.now cert.now }
{
    if entry >= cert.nodes() {
        return true;
    }
    let node = cert.node(entry);
    let state = node.state();
    let start = Abs::new(core_at_power_up(rom, cert.region()));
    node.address() != 0x100 || node.bank() != 0 || !covers(&program_of(rom, cert), &start, &state)
}

/// The lowest reason against the node with a number. The node's state is read in the place of another one, so that no
/// room for it has to be cleared.
#[tactic(auto, unfolding(crate::specs::Verdict::reason_against))]
fn reason_against(
    rom: &Rom<'_>,
    program: &Program<'_>,
    cert: &Cert<'_>,
    i: u32,
    stack: Stack,
    node: &NodeRef<'_>,
    state: &mut Abs,
    room: &mut Room,
) -> Option<Reason>
    requires program { program.now ≡ program_of rom.now cert.now }
    requires node { slice_get cert.now.nodes i ≡ Some node.now }
    requires stack { stack ≡ stack_of cert.now node.now.procedure }
    ensures { result ≡ reason_against_at rom.now cert.now i }
{
    node.read(state);
    match reason_near(rom, cert, i, stack, node, state, room) {
        Some(reason) => Some(reason),
        None if lacks_handler(program, cert, i, stack, node, state, room) => Some(
            Reason::Interrupt,
        ),
        None => None,
    }
}

/// The verdict, as a function. What is known of a procedure's stack is looked up where its first node comes.
#[tactic(auto, using(crate::proofs::VerdictLaws::verdict_at), unfolding(crate::specs::Verdict::verdict_of))]
fn verdict(rom: &Rom<'_>, cert: &Cert<'_>) -> Verdict
    ensures { result ≡ verdict_of rom.now cert.now }
{
    let entry = main_entry(cert);
    if is_bad_entry(rom, cert, entry) {
        return Verdict::Refused {
            node: entry,
            reason: Reason::Entry,
        };
    }
    let program = program_of(rom, cert);
    let start = core_at_power_up(rom, cert.region());
    let mut state = Abs::new(start);
    let mut room = Room::new(start);
    let mut procedure = 0;
    let mut stack = stack_of(cert, procedure);
    for i in 0..cert.nodes() {
        let node = cert.node(i);
        if node.procedure() != procedure {
            procedure = node.procedure();
            stack = stack_of(cert, procedure);
        }
        let reason = reason_against(rom, &program, cert, i, stack, &node, &mut state, &mut room);
        if let Some(reason) = reason {
            return Verdict::Refused { node: i, reason };
        }
    }
    Verdict::Accepted {
        nodes: cert.nodes(),
        procedures: u32::from(cert.procedures()),
    }
}

/// The verdict on a certificate for a cartridge: accepted, or the first wrong node with its lowest
/// reason (own rules).
pub fn check(rom: &Rom<'_>, cert: &Cert<'_>) -> Verdict
    // Accepted exactly where the certificate is right, with its counts; else main's entry node
    // where that is wrong, else the first wrong node with its lowest reason.
    ensures exact { IsVerdict rom.now cert.now result }
    // The verdict as a function of the cartridge and the certificate.
    ensures verdict { result ≡ verdict_of rom.now cert.now }
    // Where it accepts, every run from power-up is safe.
    ensures safe { IfAccepted result (IsSafe rom.now cert.now) }
{
    // Behind the promise stand that a cartridge holds bytes, and the rules of certificates.
    holds_bytes(rom);
    let _region = cert.region();
    verdict(rom, cert)
}

/// States that a verdict looks at nothing of the version but its rules: two certificates that differ in it alone, versions 1
/// and 2, have equal verdicts.
pub fn verdict_ignores_version()
    ensures { IgnoresVersion }
{}
