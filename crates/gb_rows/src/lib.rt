//! Rows in order of their keys, and the rows with a key, found by halving: `find_in` says which
//! they are, and how many keys it asks for at most.
#![tactic(auto)]

ghost use Rattle.std.specs.Prelude.{◌≡◌, ℕ, ◌+◌, ◌-◌, ◌*◌, ◌^◌, ◌≤◌, ◌<◌, true, false, List, length, slice_get, Some};
ghost use Rattle.gb_rows.specs.Rows.{is_before, AreInOrder, is_counted, IsBetween, IsFound, AskedAtMost};

/// Rows, each with a key: a procedure's number and an address. Contracts see the keys, and how
/// many of them have been asked for.
pub trait Rows {
    /// The keys of all rows.
    ghost keys: { Self → List (ℕ × ℕ) };

    /// So many keys have been asked for.
    ghost asked: { Self → ℕ → Type 0 };

    /// The number of rows.
    fn len(&self) -> u32
        ensures { result ≡ length (keys self.now) };

    /// The key of a row, by its number.
    fn key(&mut self, i: u32) -> (u16, u16)
        requires { i < length (keys self.old) }
        ensures key { slice_get (keys self.old) i ≡ Some result }
        ensures same { keys self.new ≡ keys self.old }
        ensures asked { (n : ℕ) → asked self.old n → asked self.new (n + 1) };
}

/// The rows with a key: those from `first` to below `after`. Where there is none both are the
/// number of the rows before.
#[derive(Clone, Copy, PartialEq, Eq)]
pub struct Found {
    pub first: u32,
    pub after: u32,
}

/// Whether the first key comes before the second, and is another.
fn is_before(a: (u16, u16), b: (u16, u16)) -> bool
    ensures { result ≡ is_before a b }
{
    a.0 < b.0 || a.0 == b.0 && a.1 < b.1
}

/// Whether a key comes before a target, or, with the targets, may be the target too.
fn is_counted(with_targets: bool, target: (u16, u16), key: (u16, u16)) -> bool
    ensures { result ≡ is_counted with_targets target key }
{
    if with_targets {
        !is_before(target, key)
    } else {
        is_before(key, target)
    }
}

/// The number of rows that come before a target, or, with the targets, that may be the target too: it lies from low
/// to high.
fn count_between<R: Rows>(
    rows: &mut R,
    with_targets: bool,
    target: (u16, u16),
    from: u32,
    to: u32,
) -> u32
    requires order { AreInOrder (R.keys rows.old) }
    requires between { IsBetween (R.keys rows.old) with_targets target from to }
    ensures count { IsBetween (R.keys rows.old) with_targets target result result }
    ensures same { R.keys rows.new ≡ R.keys rows.old }
    ensures asked { (bits : ℕ) → to - from < 2 ^ bits → AskedAtMost (R.asked rows.old) (R.asked rows.new) bits }
{
    let mut low = from;
    let mut high = to;
    while low < high {
        let middle = low + (high - low) / 2;
        let key = rows.key(middle);
        if is_counted(with_targets, target, key) {
            low = middle + 1;
        } else {
            high = middle;
        }
    }
    low
}

/// How many of all rows come before a target, as `count_between` counts them.
fn count_before<R: Rows>(rows: &mut R, with_targets: bool, target: (u16, u16)) -> u32
    requires { AreInOrder (R.keys rows.old) }
    ensures count { IsBetween (R.keys rows.old) with_targets target result result }
    ensures same { R.keys rows.new ≡ R.keys rows.old }
    ensures asked { (bits : ℕ) → length (R.keys rows.old) < 2 ^ bits → AskedAtMost (R.asked rows.old) (R.asked rows.new) bits }
{
    let after = rows.len();
    count_between(rows, with_targets, target, 0, after)
}

/// Numbers that it lies between, found from a row on by steps that double: few keys are asked for where it is a
/// little above that row's.
fn bracket<R: Rows>(rows: &mut R, with_targets: bool, target: (u16, u16), near: u32) -> (u32, u32)
    requires { AreInOrder (R.keys rows.old) }
    ensures between { IsBetween (R.keys rows.old) with_targets target result.0 result.1 }
    ensures same { R.keys rows.new ≡ R.keys rows.old }
    ensures asked { (bits : ℕ) → length (R.keys rows.old) < 2 ^ bits → AskedAtMost (R.asked rows.old) (R.asked rows.new) bits }
{
    let mut low = 0;
    let mut high = rows.len();
    let mut probe = near;
    let mut step: u32 = 0;
    while probe < high {
        let key = rows.key(probe);
        if is_counted(with_targets, target, key) {
            low = probe + 1;
            probe = low.saturating_add(step);
            step = step.saturating_mul(2).saturating_add(1);
        } else {
            high = probe;
        }
    }
    (low, high)
}

/// How many of all rows come before a target, looked for from a row on: mostly the next key is near the last one.
fn count_near<R: Rows>(rows: &mut R, with_targets: bool, target: (u16, u16), near: u32) -> u32
    requires { AreInOrder (R.keys rows.old) }
    ensures count { IsBetween (R.keys rows.old) with_targets target result result }
    ensures same { R.keys rows.new ≡ R.keys rows.old }
    ensures asked { (bits : ℕ) → length (R.keys rows.old) < 2 ^ bits → AskedAtMost (R.asked rows.old) (R.asked rows.new) (2 * bits) }
{
    let (low, high) = bracket(rows, with_targets, target, near);
    count_between(rows, with_targets, target, low, high)
}

/// The rows with a key, among rows in order. Among fewer than 2 ^ n rows it asks for at most
/// 2 * n keys: 32 among 65,535 rows, 42 among 1,048,576.
pub fn find_in<R: Rows>(rows: &mut R, procedure: u16, address: u16) -> Found
    requires { AreInOrder (R.keys rows.old) }
    ensures found { IsFound (R.keys rows.old) (procedure, address) result.first result.after }
    ensures same { R.keys rows.new ≡ R.keys rows.old }
    ensures asked { (bits : ℕ) → length (R.keys rows.old) < 2 ^ bits → AskedAtMost (R.asked rows.old) (R.asked rows.new) (2 * bits) }
    ensures few { length (R.keys rows.old) ≤ 65535 → AskedAtMost (R.asked rows.old) (R.asked rows.new) 32 }
    ensures most { length (R.keys rows.old) ≤ 1048576 → AskedAtMost (R.asked rows.old) (R.asked rows.new) 42 }
{
    let key = (procedure, address);
    let first = count_before(rows, false, key);
    let after = count_before(rows, true, key);
    Found { first, after }
}

/// The number of rows before a key, which is the first row with it where there is one. It is looked for from a row on: few
/// keys are asked for where it is a little behind it, and wherever it is at most 2 * n among fewer than 2 ^ n rows: 32 among
/// 65,535 rows, 42 among 1,048,576.
pub fn first_near<R: Rows>(rows: &mut R, near: u32, procedure: u16, address: u16) -> u32
    requires { AreInOrder (R.keys rows.old) }
    ensures first { IsBetween (R.keys rows.old) false (procedure, address) result result }
    ensures same { R.keys rows.new ≡ R.keys rows.old }
    ensures asked { (bits : ℕ) → length (R.keys rows.old) < 2 ^ bits → AskedAtMost (R.asked rows.old) (R.asked rows.new) (2 * bits) }
    ensures few { length (R.keys rows.old) ≤ 65535 → AskedAtMost (R.asked rows.old) (R.asked rows.new) 32 }
    ensures most { length (R.keys rows.old) ≤ 1048576 → AskedAtMost (R.asked rows.old) (R.asked rows.new) 42 }
{
    count_near(rows, false, (procedure, address), near)
}

/// The rows with a key, where the number of those before them is known: as many keys are asked for at most.
pub fn found_from<R: Rows>(rows: &mut R, first: u32, procedure: u16, address: u16) -> Found
    requires order { AreInOrder (R.keys rows.old) }
    requires first { IsBetween (R.keys rows.old) false (procedure, address) first first }
    ensures found { IsFound (R.keys rows.old) (procedure, address) result.first result.after }
    ensures same { R.keys rows.new ≡ R.keys rows.old }
    ensures asked { (bits : ℕ) → length (R.keys rows.old) < 2 ^ bits → AskedAtMost (R.asked rows.old) (R.asked rows.new) (2 * bits) }
    ensures few { length (R.keys rows.old) ≤ 65535 → AskedAtMost (R.asked rows.old) (R.asked rows.new) 32 }
    ensures most { length (R.keys rows.old) ≤ 1048576 → AskedAtMost (R.asked rows.old) (R.asked rows.new) 42 }
{
    let after = count_near(rows, true, (procedure, address), first);
    Found { first, after }
}
