//! The program's help below its list of words.

/// Below the help.
pub(crate) const BELOW: &str = "\
certify analyses every path through the game, makes a certificate, has the proved checker of gulmyrek check it, and
writes it to CERT. If the game doesn't pass, it doesn't write CERT. Then stderr shows each finding: where it is, what can go
wrong, how the code gets there, and the fix. docs/FINDINGS.md explains each kind of finding. On a terminal, certify also hunts
for keys that crash the game, for 10 seconds. If it finds some, it shows the crash first, and writes the keys next to CERT.

  certify game.gb game.cert --sym game.sym       check a game, with your labels in the findings
  certify game.gb game.cert --lines game.cdb     with your source lines too, as in game.c:120
  certify --report page.html game.gb game.cert   write a page for a browser: stack, interrupts, banks, RAM, routines
  certify --explain game.gb game.cert            explain why an existing certificate is refused
  certify --list game.gb game.cert               list its nodes with instructions, registers and RAM
  certify --compare old.cert game.gb game.cert   show what changed since an older build
  certify --hunt 60 game.gb game.cert            if it doesn't pass, hunt for a crash for 60 seconds: game.crash.keys

It prints one line on standard output:
  ACCEPTED nodes N procedures P  the game passes, and CERT is written (status 0)
  NO CERTIFICATE obstacles N     N findings (status 1); with --json, a line of JSON for each instead
  REFUSED node I reason R        with --explain or --report: the checker refuses CERT (status 1)
  CARTRIDGE Hn, CERTIFICATE Cn   not a valid ROM, not a valid certificate (status 2)
  FAULT memory, FAULT device     not enough memory, or a file can't be read or written (status 3)
With --compare, status 0 also means that nothing changed. Status 2 also means wrong arguments or symbols.
ROM can be - for standard input; so can CERT where it is read.

A finding doesn't prove that the game is wrong: the analysis is conservative and may reject a safe game. You don't have to
trust certify: `gulmyrek verify game.gb game.cert` checks the certificate on its own.";
