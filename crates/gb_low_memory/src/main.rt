//! Want of memory: calls that take memory, with no more of it than a hole of a given size. The answer has to be want of
//! memory or the right one, with each hole, and nothing else.
//!
//! The program first uses a MiB of its stack, which can't grow later, makes each call with all memory, and then takes all
//! addresses that it may have, in blocks that are never written (hoard.rt), so that each further growth is refused. Then it
//! gives one block back, takes all of it again but a hole, makes the call (calls.rt), and takes the addresses again. The
//! holes of a call grow from nothing to more than it needs, by 16 to 1,024 bytes. A line for each call says what it answered
//! with no hole, with the largest, and whether it ever answered anything but want of memory and what is right.
#![tactic(auto)]

mod calls;
mod hoard;

use calls::{CallAnswer, GivenFiles, NODES, Request};
use gb_events::Console;
use gb_events::gb_trace::gb_calls::gb_cert::{Cert, NodePlan, ProcedurePlan};
use gb_header::Rom;
use gb_samples::cartridges::{PLAIN, put, small};
use gb_samples::certificates::write_nodes;
use gb_samples::programs::LOOP;
use gb_words::Task;
use hoard::{Hoard, use_stack};
use std::alloc::{AllocError, Global};
use std::io;

/// A call with its name, how many holes it is made with, and by how much each is larger than the one before. Blocks of 128 KiB
/// an allocator may give back to the system, and no smaller one is then found in their place: so the largest hole is below.
struct CallRow {
    name: &'static str,
    call: Request,
    holes: usize,
    step: usize,
}

/// The bytes of the certificate: head and main, and 47 a node.
const LENGTH: usize = 18 + 47 * NODES;

/// Main, which begins at the first node.
const MAIN: ProcedurePlan<'static> = ProcedurePlan {
    entry: 0,
    base: 0xE000,
    need: 0,
    ranges: &[],
    kept: &[],
    mark: 0,
    exit: None,
};

const VERIFY: Task<'static> = Task::Verify {
    rom: "A",
    cert: "B",
};

const RUN: Task<'static> = Task::Run {
    rom: "A",
    script: "B",
    frames: 60,
};

const ROWS: &[CallRow] = &[
    CallRow {
        name: "Cert::parse",
        call: Request::Parse,
        holes: 96,
        step: 16,
    },
    CallRow {
        name: "Cert::parse with a byte left over",
        call: Request::ParseLonger,
        holes: 96,
        step: 16,
    },
    CallRow {
        name: "encode",
        call: Request::Encode,
        holes: 96,
        step: 64,
    },
    CallRow {
        name: "write_certificate",
        call: Request::WriteCertificate,
        holes: 512,
        step: 64,
    },
    CallRow {
        name: "upgrade_bytes",
        call: Request::Upgrade,
        holes: 96,
        step: 16,
    },
    CallRow {
        name: "verify_bytes",
        call: Request::Verify,
        holes: 96,
        step: 16,
    },
    CallRow {
        name: "verify_bytes with no cartridge",
        call: Request::VerifyNoCartridge,
        holes: 4,
        step: 16,
    },
    CallRow {
        name: "Memory::new",
        call: Request::Memory,
        holes: 704,
        step: 64,
    },
    CallRow {
        name: "Console::new and a frame",
        call: Request::Console,
        holes: 704,
        step: 64,
    },
    CallRow {
        name: "Console::try_clone and a frame",
        call: Request::CloneConsole,
        holes: 704,
        step: 64,
    },
    CallRow {
        name: "watch_bytes",
        call: Request::Watch,
        holes: 704,
        step: 64,
    },
    CallRow {
        name: "read_events and replay_bytes",
        call: Request::Replay,
        holes: 704,
        step: 64,
    },
    CallRow {
        name: "Facts::of",
        call: Request::Facts,
        holes: 112,
        step: 1_024,
    },
    CallRow {
        name: "facts_json",
        call: Request::FactsJson,
        holes: 112,
        step: 1_024,
    },
    CallRow {
        name: "page_of",
        call: Request::Page,
        holes: 120,
        step: 1_024,
    },
    CallRow {
        name: "findings_page",
        call: Request::ObstaclesPage,
        holes: 256,
        step: 128,
    },
    CallRow {
        name: "findings_page with a crash, and crash_json",
        call: Request::CrashPage,
        holes: 256,
        step: 128,
    },
    CallRow {
        name: "Changes::of and changes_json",
        call: Request::Changes,
        holes: 112,
        step: 1_024,
    },
    CallRow {
        name: "read_words of `verify A B`",
        call: Request::Words(&["verify", "A", "B"], Some(VERIFY)),
        holes: 512,
        step: 64,
    },
    CallRow {
        name: "read_words of `run A B 60`",
        call: Request::Words(&["run", "A", "B", "60"], Some(RUN)),
        holes: 512,
        step: 64,
    },
    CallRow {
        name: "read_words of `turn A`",
        call: Request::Words(&["turn", "A"], None),
        holes: 512,
        step: 64,
    },
];

/// What the holes of a call met.
#[derive(Drop)]
struct HolesMet {
    /// Whether nothing was left beside each hole.
    is_complete: bool,
    /// Whether one of them had another answer than want of memory and the right one.
    other: bool,
    first: CallAnswer,
    last: CallAnswer,
}

/// What is taken again of a block that is given back; the rest of it is the hole.
const TAKEN_AGAIN: usize = 2_048;

/// The blocks that the holes are made in, the largest first.
fn blocks(alloc: Global, row: &CallRow) -> Result<Vec<Vec<u8>>, AllocError> {
    let count = row.holes;
    let mut blocks = Vec::with_capacity(alloc, count)?;
    for number in 0..count {
        let hole = row.step.wrapping_mul(count - 1 - number);
        blocks.push(Vec::with_capacity(alloc, TAKEN_AGAIN.wrapping_add(hole))?)?;
    }
    Ok(blocks)
}

/// Makes a call with each of its holes, the smallest first.
fn sweep(alloc: Global, row: &CallRow, files: &GivenFiles<'_>) -> Result<HolesMet, AllocError> {
    let mut hoard = Hoard::new(alloc)?;
    let mut blocks = blocks(alloc, row)?;
    let mut met = HolesMet {
        is_complete: true,
        other: false,
        first: CallAnswer::Other,
        last: CallAnswer::Other,
    };
    for number in 0..row.holes {
        hoard.take_all();
        let is_complete = hoard.is_complete();
        drop(blocks.pop());
        let taken = Vec::<u8>::with_capacity(alloc, TAKEN_AGAIN);
        met.last = row.call.answer(alloc, files);
        met.is_complete = met.is_complete && is_complete && taken.is_ok();
        met.other = met.other || met.last == CallAnswer::Other;
        if number == 0 {
            met.first = met.last;
        }
        drop(taken);
    }
    Ok(met)
}

/// An answer in a word.
fn text(answer: CallAnswer) -> &'static str {
    match answer {
        CallAnswer::Refused => "refused",
        CallAnswer::Right => "right",
        CallAnswer::Other => "wrong",
    }
}

/// Says what the holes of a call met.
fn write_met<W: io::Write>(out: &mut W, row: &CallRow, met: &HolesMet) -> io::Result<()> {
    let name = row.name;
    let first = text(met.first);
    let last = text(met.last);
    let between = if met.other {
        "something else"
    } else {
        "one of both"
    };
    let complete = if met.is_complete {
        ""
    } else {
        "; but memory couldn't be used up"
    };
    writeln!(
        out,
        "{name}: {first} with no memory, {last} with enough, {between} in between{complete}"
    )
}

/// The addresses of the nodes of a cartridge whose program is 97 times NOP and then a loop: `NODES` in a row.
fn addresses() -> [u16; NODES] {
    let mut addresses = [0x0100; NODES];
    for (i, address) in addresses.iter_mut().enumerate() {
        *address = match i {
            0 => 0x0100,
            1 => 0x0101,
            _ => 0x014E + i as u16,
        };
    }
    addresses
}

/// Writes the same certificate in version 2: the number of nodes and main's entry take four bytes.
fn write_upgraded(bytes: &mut [u8], cert: &[u8]) {
    put(bytes, 4, cert.get(4..).unwrap_or(&[]));
    put(bytes, 0, &[0x47, 0x42, 0x42, 0x43, 0x02]);
    put(bytes, 10, &[NODES as u8, 0, 0, 0, 0, 0, 0, 0]);
    put(bytes, 18, cert.get(14..).unwrap_or(&[]));
}

/// Nodes as this one, one at each of the addresses.
fn plans(node: NodePlan<'_>) -> [NodePlan<'_>; NODES] {
    let mut plans = [node; NODES];
    for (plan, address) in plans.iter_mut().zip(addresses()) {
        plan.address = address;
    }
    plans
}

/// The first call whose answer isn't right with all memory.
fn first_wrong(alloc: Global, files: &GivenFiles<'_>) -> Option<&'static str> {
    for row in ROWS {
        if row.call.answer(alloc, files) != CallAnswer::Right {
            return Some(row.name);
        }
    }
    None
}

/// Makes each call with its holes, and says what they met.
fn sweep_all<W: io::Write>(alloc: Global, files: &GivenFiles<'_>, out: &mut W) -> io::Result<()> {
    for row in ROWS {
        let met = sweep(alloc, row, files)?;
        write_met(out, row, &met)?;
    }
    Ok(())
}

fn main(rt: HostRuntime) -> io::Result<()> {
    let mut program = [0; 99];
    put(&mut program, 97, LOOP);
    let bytes = small(PLAIN, &program);
    let mut longer = [0; LENGTH + 1];
    write_nodes(&mut longer, &addresses());
    let mut upgraded = [0; LENGTH + 4];
    write_upgraded(&mut upgraded, &longer[..LENGTH]);
    let (Ok(rom), Ok(cert)) = (
        Rom::parse(&bytes),
        Cert::parse(rt.alloc(), &longer[..LENGTH]),
    ) else {
        return println!(rt; "the files can't be read");
    };
    if cert.nodes() == 0 {
        return println!(rt; "there are no nodes");
    }
    let state = cert.node(0).state();
    let nodes = plans(NodePlan {
        procedure: 0,
        address: 0x0100,
        bank: 0,
        state: &state,
    });
    let console = Console::new(rt.alloc(), &rom)?;
    let files = GivenFiles {
        rom: &rom,
        cert: &cert,
        longer: &longer,
        upgraded: &upgraded,
        console: &console,
        procedures: &[MAIN],
        nodes: &nodes,
    };
    if use_stack(cert.nodes() as usize, cert.procedures() as usize) != 0 {
        return println!(rt; "the stack can't be used");
    }
    if let Some(name) = first_wrong(rt.alloc(), &files) {
        return println!(rt; "{name}: wrong with all memory");
    }
    sweep_all(rt.alloc(), &files, &mut io::writer(&rt))
}
