//! What the program alone says on standard error.

use gb_command_line::{explain, shown_name};
use std::io;

/// The program's name, in its messages.
pub const PROGRAM: &str = "gulmyrek";

/// Says which node of a refused certificate is wrong, why, and how to fix that. The certificate is checked again; where memory
/// runs out, nothing is said.
pub fn tell_refusal<R: Eprint + AllocGlobal>(rt: &R, name: &str, rom: &[u8], cert: &[u8]) {
    if let Some(explanation) = explain(rt.alloc(), rom, cert) {
        let name = shown_name(name);
        let _ = eprintln!(rt; "{PROGRAM}: {name}: {explanation}");
        let _ = eprintln!(rt;
            "{PROGRAM}: {name}: a certificate fits one build only: after a change, make a new one with certify"
        );
    }
}

/// Says why a file can't be written.
pub fn tell_written<R: Eprint>(rt: &R, name: &str, error: &io::Error) {
    let _ = match error.kind() {
        io::ErrorKind::NotFound => eprintln!(rt; "{PROGRAM}: {name}: no such folder"),
        io::ErrorKind::PermissionDenied => eprintln!(rt;
            "{PROGRAM}: {name}: no permission to write it"
        ),
        io::ErrorKind::IsADirectory => eprintln!(rt; "{PROGRAM}: {name}: is a folder"),
        io::ErrorKind::OutOfMemory => eprintln!(rt;
            "{PROGRAM}: {name}: not enough memory to write it"
        ),
        _ => eprintln!(rt; "{PROGRAM}: {name}: {error}"),
    };
}
