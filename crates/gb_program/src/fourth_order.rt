//! In which order the procedures of a certificate stand in version 4, and how many nodes each has.

ghost use Rattle.std.specs.Prelude.{◌≡◌, ◌≤◌, ◌<◌, ◌+◌, ◌-◌, length, take};
ghost use Rattle.arrayvec.specs.ArrayVec.{array_vec_len};
ghost use Rattle.gb_command_line.specs.Below.gb_verify.Below.gb_states.Rules.{IsCertificate};
ghost use Rattle.gb_command_line.specs.Below.gb_verify.Widened.{widened};
ghost use Rattle.gb_program.specs.Fourth.{AreNumbers, entry_address, place, sorted, order, nodes_of};

use arrayvec::ArrayVec;
use gb_command_line::Cert;

/// The address at which a procedure begins.
fn entry_address(cert: &Cert<'_>, number: u16) -> u16
    requires certificate { IsCertificate cert.now }
    requires number { number < length cert.now.procedures }
    ensures { result ≡ entry_address (widened cert.now) number }
{
    cert.node(cert.procedure(number).entry()).address()
}

/// How many of these procedures, from the first one on, begin at this address or at a lower one.
fn place(cert: &Cert<'_>, numbers: &[u16], address: u16) -> usize
    requires certificate { IsCertificate cert.now }
    requires numbers { AreNumbers (length cert.now.procedures) numbers.now }
    ensures exact { result ≡ place (entry_address (widened cert.now)) address numbers.now }
    ensures fits { result ≤ length numbers.now }
{
    for i in 0..numbers.len() {
        if address < entry_address(cert, numbers[i]) {
            return i;
        }
    }
    numbers.len()
}

/// The procedures but main, by the addresses at which they begin. Those of one address stay as they stood.
fn sorted(cert: &Cert<'_>) -> ArrayVec<u16, 254>
    requires certificate { IsCertificate cert.now }
    ensures exact { result.items ≡ sorted (entry_address (widened cert.now)) (length cert.now.procedures - 1) }
    ensures numbers { AreNumbers (length cert.now.procedures) result.items }
{
    let mut numbers = ArrayVec::new();
    for number in 1..cert.procedures() {
        let place = place(cert, numbers.as_slice(), entry_address(cert, number));
        numbers.insert(place, number);
    }
    numbers
}

/// All procedures, main first.
pub fn order(cert: &Cert<'_>) -> ArrayVec<u16, 255>
    requires certificate { IsCertificate cert.now }
    ensures exact { result.items ≡ order (widened cert.now) }
    ensures numbers { AreNumbers (length cert.now.procedures) result.items }
{
    let mut numbers = ArrayVec::new();
    numbers.push(0);
    if numbers
        .try_extend_from_slice(sorted(cert).as_slice())
        .is_err()
    {
        unreachable!();
    }
    numbers
}

/// How many of the first nodes a procedure has.
pub fn count(cert: &Cert<'_>, number: u16, end: u32) -> u32
    requires { end ≤ length cert.now.nodes }
    ensures exact { result ≡ length (nodes_of number (take end (widened cert.now).nodes)) }
    ensures few { result ≤ end }
{
    let mut count = 0;
    for i in 0..end {
        if cert.node(i).procedure() == number {
            count += 1;
        }
    }
    count
}
