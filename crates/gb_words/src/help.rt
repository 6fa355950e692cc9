//! The program's help below its lists of commands and words.

/// Below the help of the program.
pub(crate) const PROGRAM: &str = "\
Without a command, gulmyrek checks its built-in cartridge and certificate.

One file of a command can be - for standard input. For a file named -, write ./-

Status:
  0  accepted; all frames ran; no fault was found; the header, the certificate's lines or its bytes were written
  1  refused; a run locked up, stopped or had a fault
  2  wrong arguments, not a valid ROM, or not a valid certificate
  3  not enough memory (FAULT memory, CERTIFICATE C9), or a file can't be read or written (FAULT device)
stderr says which file is meant, and what is wrong with it.";

/// Below the help of `verify`.
pub(crate) const VERIFY: &str = "\
It prints one line:
  ACCEPTED nodes N procedures P  the game is safe in every run from power-up (status 0)
  REFUSED node I reason R        node I breaks rule R; nodes count from 0 (status 1)
  CARTRIDGE Hn                   ROM isn't a valid ROM (status 2)
  CERTIFICATE Cn                 CERT isn't a valid certificate (status 2); C9: not enough memory (status 3)
H1 to H7: too short, its type, its ROM size, its length, its RAM size, too large for its type, its checksum.
For a refused certificate, stderr shows the place, the problem and the fix. A certificate fits one build only.

Either file can be - for standard input.";

/// Below the help of `header`.
pub(crate) const HEADER: &str = "\
It prints one line:
  type TT NAME rom N ram M clock yes checksum CC  (or clock no; status 0)
  CARTRIDGE Hn                                    ROM isn't a valid ROM (status 2)
TT and CC are hexadecimal. NAME is the controller. N counts banks of 16 KiB, M banks of 8 KiB.
H1 to H7: too short, its type, its ROM size, its length, its RAM size, too large for its type, its checksum.

ROM can be - for standard input.";

/// Below the help of `show`.
pub(crate) const SHOW: &str = "\
It prints these lines (status 0):
  stack BBBB..TTTT procedures P nodes N                         the stack's addresses and the two counts
  procedure I entry E need W ranges R returns yes               for each procedure (or returns no)
  node I procedure P address AAAA bank BBB                      for each node
Addresses and banks are hexadecimal. E is the number of a node. W counts words of stack. Numbers begin with 0.
In version 3, W counts bytes, and `base BBBB` comes before the need: the address above the procedure's bytes.
If CERT isn't valid, it prints one line instead:
  CERTIFICATE Cn  what is wrong with it (C1 to C8, status 2), or not enough memory (C9, status 3)

CERT can be - for standard input.";

/// Below the help of `upgrade`.
pub(crate) const UPGRADE: &str = "\
It writes a certificate of version 1 in version 2 to standard output (status 0):
  gulmyrek upgrade old.cert > new.cert
With --to 3 it writes one of version 1 or 2 in version 3. Write these words before CERT:
  gulmyrek upgrade --to 3 old.cert > new.cert
With --to 4 it writes one of version 1, 2 or 3 in version 4, by way of version 3. Procedures change their order there.
A certificate of that version or a later one comes out unchanged. In version 2 the verdict stays the same. In versions 3
and 4 their rules apply.
If CERT isn't valid, it prints one line instead:
  CERTIFICATE Cn  what is wrong with it (C1 to C8, status 2), or not enough memory (C9, status 3)

CERT can be - for standard input.";

/// Below the help of `run`.
pub(crate) const RUN: &str = "\
Byte k of SCRIPT holds the keys of frame k, in bits 0 to 7:
  A, B, Select, Start, Right, Left, Up, Down
After the script ends, no keys are held, so /dev/null presses none. 60 frames are about a second.

It prints the last screen as 144 lines of 80 hexadecimal digits. Each byte is four pixels, the leftmost in the high bits;
0 is the lightest shade. Then it prints one line:
  WHOLE frames N           all frames ran (status 0)
  LOCKED frame I pc AAAA   an undefined opcode locked up the CPU at address AAAA in frame I, counted from 0 (status 1)
  STOPPED frame I pc AAAA  STOP stopped it (status 1)
If ROM isn't a valid ROM, it prints CARTRIDGE Hn only (status 2).

ROM or SCRIPT can be - for standard input.";

/// Below the help of `hunt`.
pub(crate) const HUNT: &str = "\
It plays the cartridge with keys of its own and looks for a fault, as watch names them. It prints one line:
  FAULT Fn frame I pc AAAA bank BBB  the fault that the keys lead to, as watch prints it (status 1)
  NO FAULT frames N                  it played N frames and found none (status 0)
  CARTRIDGE Hn                       ROM isn't a valid ROM (status 2)
NO FAULT proves nothing: other keys may lead to one. `certify` can prove that a game has none.
With --any-timing it looks for interrupts and bytes from hardware instead of keys, and counts events.
For a fault, stderr shows the place, the instruction, the open calls, the last instructions, and how to play it again.

Write the options after ROM, in any order:
  --frames N           play at most N frames; without --frames and --seconds, 60000
  --seconds N          stop the search after N seconds
  --seed N             try other keys; the same seed and frames always give the same result (without it, 0)
  --stack FIRST..LAST  the stack's addresses, as in DF00..DFFF
  --keys OUT           write the keys to OUT, a byte for each frame, as run and watch read them
  --any-timing         let interrupts come between any two instructions, and let hardware give any byte
  --events OUT         with --any-timing, write the events to OUT, as watch --events reads them
  --sym FILE           show your labels: RGBDS .sym, SDCC .noi or .map
Without --stack, the first `ld sp, n16` that runs gives the stack.
It is the RAM from C000 or FF80 up to the byte below that address.

ROM can be - for standard input.";

/// Below the help of `watch`.
pub(crate) const WATCH: &str = "\
It plays SCRIPT as run does, and stops at the first event that a certified game never has. It prints one line:
  WHOLE frames N                     all frames ran without a fault (status 0)
  FAULT Fn frame I pc AAAA bank BBB  a fault in frame I, counted from 0; the instruction is at AAAA (status 1)
  LOCKED frame I pc AAAA             as for run (status 1)
  STOPPED frame I pc AAAA            as for run (status 1)
F1: an undefined opcode runs. F2: code is fetched from VRAM, SRAM, OAM, I/O or echo RAM. F3: a push stores outside the
stack. F4: SRAM is used while it is disabled. F5: memory other than HRAM is used during OAM DMA.
stderr shows the place, the instruction, the open calls and the last instructions.

With --events instead of SCRIPT and FRAMES, it plays a list of events, one a line, and counts events:
  WHOLE events N                     all events ran without a fault (status 0)
  FAULT Fn event N pc AAAA bank BBB  a fault at event N, counted from 0 (status 1)

Write the options after FRAMES, in any order:
  --events FILE        after ROM: play these events, as hunt --any-timing writes them
  --stack FIRST..LAST  the stack's addresses, as in DF00..DFFF
  --cert CERT          take them from this certificate
  --sym FILE           show your labels: RGBDS .sym, SDCC .noi or .map
Without --stack and --cert, the first `ld sp, n16` that runs gives the stack.
It is the RAM from C000 or FF80 up to the byte below that address.

If ROM isn't a valid ROM, it prints CARTRIDGE Hn only; for CERT, CERTIFICATE Cn only (status 2).
ROM, SCRIPT, FILE or CERT can be - for standard input.";
