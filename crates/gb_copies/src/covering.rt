//! Whether places hold one byte wherever others do.

ghost use Rattle.std.specs.Prelude.{◌≡◌, true};
ghost use Rattle.gb_copies.specs.Covering as Covering;
ghost use Rattle.gb_copies.specs.Sound.{IsPartOf};

use gb_domain::places::{OneByte, Test};
use gb_ops::registers::Registers;

fn implied(a: bool, b: bool) -> bool
    ensures { result ≡ Covering.implied a b }
{
    !a || b
}

fn covers_registers(s: &Registers<bool>, t: &Registers<bool>) -> bool
    ensures { result ≡ Covering.covers_registers s.now t.now }
{
    implied(t.a, s.a)
        && implied(t.b, s.b)
        && implied(t.c, s.c)
        && implied(t.d, s.d)
        && implied(t.e, s.e)
        && implied(t.h, s.h)
        && implied(t.l, s.l)
}

fn covers_address(s: Option<u16>, t: Option<u16>) -> bool
    ensures { result ≡ Covering.covers_address s t }
{
    match (s, t) {
        (_, None) => true,
        (None, Some(_)) => false,
        (Some(b), Some(a)) => b == a,
    }
}

fn is_same_test(s: Test, t: Test) -> bool
    ensures { result ≡ Covering.is_same_test s t }
{
    match (s, t) {
        (Test::Compare(n), Test::Compare(m)) => n == m,
        (Test::Bits(n), Test::Bits(m)) => n == m,
        _ => false,
    }
}

fn covers_test(s: Option<Test>, t: Option<Test>) -> bool
    ensures { result ≡ Covering.covers_test s t }
{
    match (s, t) {
        (_, None) => true,
        (None, Some(_)) => false,
        (Some(s), Some(t)) => is_same_test(s, t),
    }
}

/// Whether t holds wherever s does: t's places are among s's, and t's test is none or the same.
#[tactic(auto, using(crate::proofs::CoveringLaws::covers_byte_sound), unfolding(crate::specs::Covering::covers_byte))]
pub fn covers_byte(s: &OneByte, t: &OneByte) -> bool
    ensures exact { result ≡ Covering.covers_byte s.now t.now }
    ensures sound { result ≡ true → IsPartOf s.now t.now }
{
    covers_registers(&s.registers, &t.registers)
        && covers_address(s.address, t.address)
        && covers_test(s.test, t.test)
}
