//! The texts of findings, each once: what goes wrong on the console, how to fix it, and where the documents say more.

/// What a kind of finding means, what fixes it, and its section of docs/FINDINGS.md.
#[derive(Clone, Copy)]
pub struct Advice {
    /// What goes wrong on the console, or what the analysis needs.
    pub problem: &'static str,
    /// What to change, in the imperative, with a line of code where that helps.
    pub remedy: &'static str,
    /// What to change in a program in C, where that differs.
    pub remedy_in_c: Option<&'static str>,
    /// The section's anchor.
    pub anchor: &'static str,
}

impl Advice {
    /// The fix in the program's language.
    pub fn remedy_in(&self, is_in_c: bool) -> &'static str {
        match self.remedy_in_c {
            Some(remedy) if is_in_c => remedy,
            _ => self.remedy,
        }
    }
}

pub const AREA: Advice = Advice {
    problem: "Code can run from ROM ($0000-$7FFF), WRAM ($C000-$DFFF) and HRAM ($FF80-$FFFE) only, and no instruction may cross their ends.",
    remedy: "Look for a wrong jump, or for a missing `jp`, `jr` or `ret` before a table or before the end of the bank.",
    remedy_in_c: None,
    anchor: "runs-outside-code",
};

pub const BANK: Advice = Advice {
    problem: "Code at $4000-$7FFF needs a known ROM bank, or the CPU runs another bank's bytes.",
    remedy: "Write the bank number to a variable first, then to $2000. Check a number from RAM or a table: `cp BANKS` / `ret nc`.",
    remedy_in_c: None,
    anchor: "unknown-bank",
};

/// A bank that was left mapped.
const WRONG_BANK: Advice = Advice {
    problem: "Code at $4000-$7FFF needs its own ROM bank mapped, or the CPU runs another bank's bytes.",
    ..BANK
};

/// An interrupt handler returns with another bank mapped.
pub const BANK_NOT_RESTORED: Advice = Advice {
    remedy: "Map the old bank again at the handler's end: `ldh a, [hBank]` or `pop af`, then `ld [$2000], a`. Writing the variable alone maps nothing.",
    remedy_in_c: Some(
        "Save the bank at the handler's start and map it again at its end: `uint8_t bank = CURRENT_BANK;` .. `SWITCH_ROM(bank);`.",
    ),
    ..WRONG_BANK
};

/// An interrupt handler maps the bank in a variable, which isn't the one that was mapped.
pub const BANK_VARIABLE_LATE: Advice = Advice {
    remedy: "The handler maps what the variable has: wherever you map a bank, write the variable first, then $2000.",
    remedy_in_c: Some(
        "The handler maps what the variable has: map banks by `SWITCH_ROM`, which writes the variable before the register.",
    ),
    ..WRONG_BANK
};

/// A routine returns with another bank mapped to code in the switched bank.
pub const BANK_OF_ROUTINE: Advice = Advice {
    remedy: "Let the routine save the bank and map it again before `ret`: `ldh a, [hBank]` / `push af`, at its end `pop af` / `ld [$2000], a`.",
    remedy_in_c: Some(
        "Let the function map its caller's bank again: `uint8_t bank = CURRENT_BANK;` .. `SWITCH_ROM(bank);`. Or make it `BANKED`.",
    ),
    ..WRONG_BANK
};

/// Code in the switched bank maps another one.
pub const BANK_OF_ITSELF: Advice = Advice {
    remedy: "Map banks in ROM0 ($0000-$3FFF) only: call a routine there that maps the bank, calls its code, and maps this bank again.",
    remedy_in_c: Some(
        "Call `SWITCH_ROM` in functions of bank 0 only (`NONBANKED`), or make the function in the other bank `BANKED`.",
    ),
    ..WRONG_BANK
};

pub const PATCHED_CODE: Advice = Advice {
    problem: "Each byte of code in RAM must be known: an unknown byte can be any opcode, and some lock the CPU.",
    remedy: "Copy the routine to RAM before anything can call it, and keep other stores off it. Pass values in registers instead of patching operands.",
    remedy_in_c: None,
    anchor: "unknown-code-in-ram",
};

pub const UNDEFINED_OPCODE: Advice = Advice {
    problem: "The CPU locks up on this opcode until the console is switched off.",
    remedy: "Look for data that runs as code: a wrong jump, a wrong bank, or a missing `jp`, `jr` or `ret` before a table.",
    remedy_in_c: None,
    anchor: "undefined-opcode",
};

pub const STOP: Advice = Advice {
    problem: "STOP puts the whole console to sleep until a button is pressed.",
    remedy: "Wait with `halt` / `nop` instead, or make sure that nothing reaches this code.",
    remedy_in_c: None,
    anchor: "stop",
};

pub const HALT: Advice = Advice {
    problem: "With interrupts off, the CPU can read the byte after HALT twice (the HALT bug).",
    remedy: "Put a `nop` right after `halt`, or an `ei` before it.",
    remedy_in_c: None,
    anchor: "halt-without-nop",
};

pub const STACK_NOT_SET: Advice = Advice {
    problem: "Until the game sets SP, the analysis doesn't know where the stack is, and pushes overwrite HRAM below $FFFE.",
    remedy: "Set SP first in main: `ld sp, $E000`, before the first call, push, pop, rst or ei.",
    remedy_in_c: None,
    anchor: "stack-not-set",
};

pub const POPS_TOO_MUCH: Advice = Advice {
    problem: "Taking more than was pushed uses up the caller's bytes, and a later `ret` jumps anywhere.",
    remedy: "Balance pushes and pops on every path. Look for a `pop` or `add sp` that runs more often than its push.",
    remedy_in_c: Some(
        "Give caller and function the same prototype, in one header. In inline assembly, balance each `push` with a `pop`.",
    ),
    anchor: "pops-too-much",
};

pub const STACK_MOVED: Advice = Advice {
    problem: "If SP leaves the known stack, the next push, call or interrupt overwrites other memory.",
    remedy: "Copy with `ld a, [hl+]` instead of `pop`. Restore a saved SP in the same routine, with no store by pointer in between.",
    remedy_in_c: None,
    anchor: "sp-moved",
};

pub const STACK_BORROWED: Advice = Advice {
    problem: "While SP points at data, an interrupt or a call pushes over it, so SP may point at the stack only.",
    remedy: "Copy with `ld a, [hl+]` / `ld [de], a` / `inc de` instead of `pop` or `push`.",
    remedy_in_c: None,
    anchor: "sp-borrowed",
};

pub const STACK_SET_IN_CALLEE: Advice = Advice {
    problem: "Setting SP in a routine throws its return address away. Certificates of versions 1 and 2 allow it in main only.",
    remedy: "For a soft reset, set a variable, return, and let main's loop jump to the start.",
    remedy_in_c: None,
    anchor: "sp-set-in-routine",
};

pub const STACK_SET_AGAIN: Advice = Advice {
    problem: "SP may point at the stack only, at most 255 bytes below its end. Elsewhere, the next push or interrupt overwrites other memory.",
    remedy: "Load the same address in every `ld sp`. To copy by `pop`, write `di`, save SP with `ld [n], sp`, and load it again before `ei`, `call` or `ret`.",
    remedy_in_c: None,
    anchor: "sp-set-twice",
};

pub const PUSHES_TOO_MUCH: Advice = Advice {
    problem: "The analysis follows at most 255 bytes of one routine on the stack. A loop that only pushes overwrites all RAM.",
    remedy: "Look for a loop that pushes more than it pops, or keep these values in variables.",
    remedy_in_c: None,
    anchor: "pushes-too-much",
};

pub const RECURSION: Advice = Advice {
    problem: "A routine that starts again while it runs can nest without limit, and the stack then overwrites RAM.",
    remedy: "Turn the recursion into a loop that keeps its work in an array.",
    remedy_in_c: Some("Turn the recursion into a loop that keeps its work in a `static` array."),
    anchor: "recursion",
};

/// An interrupt handler that its own interrupt can interrupt.
pub const HANDLER_REENTERED: Advice = Advice {
    remedy: "Leave interrupts off in the handler and end it with `reti`. If it needs `ei`, clear its own bit in IE first.",
    remedy_in_c: Some(
        "Make the handler `__critical`, as in `void vblank(void) __critical __interrupt(0)`: else SDCC starts it with `ei`.",
    ),
    ..RECURSION
};

pub const PADDING: Advice = Advice {
    problem: "Unused ROM is filled with $FF, which is `rst $38`. At $0038 it calls itself until the stack has overwritten RAM.",
    remedy: "Look where the way leaves your code: a jump into unused ROM, a missing `ret`, `jp` or `jr`, or a wrong ROM bank.",
    remedy_in_c: Some(
        "Look where the way leaves your code: a call by a pointer that isn't set, a function in another bank that isn't `BANKED`, or an index past its array.",
    ),
    anchor: "runs-into-padding",
};

/// Padding that runs because an interrupt's vector is empty.
pub const NO_HANDLER: Advice = Advice {
    remedy: "Write a handler at this interrupt's vector, at least `reti`, or keep its bit in IE clear.",
    remedy_in_c: Some(
        "Write a handler for this interrupt, at least an empty one, or keep its bit in IE clear.",
    ),
    ..PADDING
};

pub const CLEARS_STACK: Advice = Advice {
    problem: "Overwriting the stack changes return addresses, and a later `ret` jumps anywhere.",
    remedy: "Stop the loop below the stack, or clear RAM in main, before the first call. Bound an index before you add it: `and 31`.",
    remedy_in_c: Some(
        "Mask the index right before the store: `buffer[i & 31] = x;`. Make local arrays `static`.",
    ),
    anchor: "store-reaches-stack",
};

pub const KEPT_POINTER: Advice = Advice {
    problem: "A pointer that comes from RAM can hold any address, so the store can hit the stack, code or registers.",
    remedy: "Keep an index in RAM, not the pointer: `ld a, [index]` / `ld l, a` / `ld h, HIGH(page)`. Or mask its high byte: `and $0F` / `add $C0` for $C000-$CFFF, `and $1F` / `add $80` for VRAM.",
    remedy_in_c: Some(
        "Keep a `uint8_t` index in RAM, not the pointer, and bound it: `if (i < 32) buffer[i] = x;`.",
    ),
    anchor: "pointer-from-ram",
};

pub const LOADED_POINTER: Advice = Advice {
    problem: "A pointer that comes from RAM can hold any address, so the store can hit the stack, code or registers.",
    remedy: "Mask the high byte after it is loaded: `and $1F` / `add $80` for VRAM, `and $0F` / `add $C0` for $C000-$CFFF.",
    remedy_in_c: Some(
        "Keep a `uint8_t` index in RAM, not the pointer, and bound it: `if (i < 32) buffer[i] = x;`.",
    ),
    anchor: "pointer-from-ram",
};

/// An access to cartridge RAM by a pointer that comes from RAM.
pub const KEPT_TO_CARTRIDGE_RAM: Advice = Advice {
    problem: "A pointer that comes from RAM can hold any address, and while cartridge RAM is disabled, $A000-$BFFF returns garbage.",
    remedy: "Mask the high byte after it is loaded: `and $7F` if it only points to ROM, `and $0F` / `add $C0` if only to $C000-$CFFF. If to both, keep an index in RAM.",
    remedy_in_c: Some(
        "Keep a `uint8_t` index in RAM, not the pointer, and bound it: `if (i < 32) x = table[i];`.",
    ),
    anchor: "pointer-from-ram",
};

pub const POINTER: Advice = Advice {
    problem: "A pointer without a bound can hit the stack, code or registers.",
    remedy: "Bound the index before you add it: `and 31`, or `cp 32` / `ret nc`.",
    remedy_in_c: Some(
        "Mask the index right before the store: `buffer[i & 31] = x;`. Or compare it as a `uint8_t`: `if (i < 32) buffer[i] = x;`.",
    ),
    anchor: "unbounded-pointer",
};

/// An unbounded pointer in a loop.
pub const POINTER_IN_LOOP: Advice = Advice {
    remedy: "Bound the index before you add it (`and 31`, or `cp 32` / `ret nc`), or end the loop by a smaller count.",
    ..POINTER
};

/// An unbounded pointer that the instruction itself moves, as a loop does.
pub const POINTER_OF_LOOP: Advice = Advice {
    remedy: "Start the pointer at a known address, and end the loop by a counter with a known start, or by its page: `ld a, h` / `cp HIGH(buffer_end)` / `jr nz, .loop`.",
    remedy_in_c: Some(
        "Count the loop down to 0 from a number that is known: `for (n = 32; n != 0; n--) *p++ = 0;`.",
    ),
    ..POINTER
};

pub const STORE: Advice = Advice {
    problem: "Bytes of the stack and of echo RAM ($E000-$FDFF) belong to other code, which reads them changed.",
    remedy: "Move this variable out of the stack: set SP higher, or place it lower in WRAM.",
    remedy_in_c: None,
    anchor: "store-outside-ram",
};

/// A store to echo RAM.
pub const STORE_TO_ECHO: Advice = Advice {
    remedy: "Name the byte in WRAM instead ($C000-$DDFF): echo RAM shows the same bytes $2000 higher.",
    remedy_in_c: None,
    ..STORE
};

/// A pointer into cartridge RAM that may be disabled.
pub const POINTER_TO_CARTRIDGE_RAM: Advice = Advice {
    problem: "While cartridge RAM is disabled, reads return garbage and writes are lost.",
    remedy: "To use cartridge RAM, enable it first: `ld a, $0A` / `ld [$0000], a`. Else bound the index: `and 31`, or `cp 32` / `ret nc`.",
    remedy_in_c: Some(
        "To use cartridge RAM, enable it first (`ENABLE_RAM` in GBDK). Else mask the index (`buffer[i & 31]`), or compare it as a `uint8_t`: `if (i < 32)`.",
    ),
    anchor: "pointer-reaches-sram",
};

/// A pointer that a loop moves into cartridge RAM.
pub const LOOP_TO_CARTRIDGE_RAM: Advice = Advice {
    remedy: "To use cartridge RAM, enable it first: `ld a, $0A` / `ld [$0000], a`. Else end the loop before $A000: `ld a, h` / `cp HIGH(end)` / `jr nz, .loop`.",
    remedy_in_c: Some(
        "To use cartridge RAM, enable it first (`ENABLE_RAM` in GBDK). Else end the loop before $A000: `for (n = 32; n != 0; n--) *p++ = 0;`.",
    ),
    ..POINTER_TO_CARTRIDGE_RAM
};

/// A pointer to where cartridge RAM would be, of a cartridge without.
pub const POINTER_TO_NO_RAM: Advice = Advice {
    remedy: "Keep the pointer out of $A000-$BFFF: bound its index, `and 31` or `cp 32` / `ret nc`.",
    remedy_in_c: Some(
        "Mask the index, so that it stays out of $A000-$BFFF: `x = buffer[i & 31];`. Or compare it as a `uint8_t`: `if (i < 32)`.",
    ),
    ..POINTER_TO_CARTRIDGE_RAM
};

/// The same in a loop.
pub const IN_LOOP_TO_NO_RAM: Advice = Advice {
    remedy: "Keep the pointer out of $A000-$BFFF: end its loop by a smaller count, or bound its index (`and 31`, or `cp 32` / `ret nc`).",
    ..POINTER_TO_NO_RAM
};

/// The same of a pointer that a loop moves there.
pub const LOOP_TO_NO_RAM: Advice = Advice {
    remedy: "End the loop before the pointer reaches $A000, by a counter or its page: `ld a, h` / `cp HIGH(end)` / `jr nz, .loop`.",
    remedy_in_c: Some(
        "End the loop before it reaches $A000: `for (n = 32; n != 0; n--) *p++ = 0;`.",
    ),
    ..POINTER_TO_CARTRIDGE_RAM
};

pub const GATE_CLOSED: Advice = Advice {
    problem: "While cartridge RAM is disabled, reads return garbage and writes are lost.",
    remedy: "Enable it first, on every path to this access: `ld a, $0A` / `ld [$0000], a`. Interrupt handlers must leave it as it was.",
    remedy_in_c: Some(
        "Enable it first, on every path to this access (`ENABLE_RAM` in GBDK): `*(volatile uint8_t *)0x0000 = 0x0A;`. Handlers must leave it as it was.",
    ),
    anchor: "sram-closed",
};

pub const NO_CARTRIDGE_RAM: Advice = Advice {
    problem: "The header says that this cartridge has no RAM, so nothing answers at $A000-$BFFF.",
    remedy: "Set the type and RAM size in the header, for example `rgbfix -m MBC5+RAM+BATTERY -r 2` or `makebin -yt 0x1B -ya 1`.",
    remedy_in_c: None,
    anchor: "no-sram",
};

pub const COPIES_CARTRIDGE_RAM: Advice = Advice {
    problem: "From disabled cartridge RAM, OAM DMA copies garbage into the sprites.",
    remedy: "Load the page right before you start DMA: `ld a, HIGH(shadow_oam)` / `ldh [$FF46], a`.",
    remedy_in_c: None,
    anchor: "dma-from-sram",
};

pub const TRANSFER_CODE: Advice = Advice {
    problem: "During OAM DMA the CPU can use HRAM only, and reads garbage instead of these instructions.",
    remedy: "Copy the DMA routine to HRAM and call it there. It must wait 160 M-cycles: `ld a, 40`, then `dec a` / `jr nz` until 0.",
    remedy_in_c: None,
    anchor: "code-during-dma",
};

pub const TRANSFER_ACCESS: Advice = Advice {
    problem: "During OAM DMA the CPU can use HRAM only: other reads return garbage, and other writes are lost.",
    remedy: "Do nothing but wait until DMA has ended: `ld a, 40`, then `dec a` / `jr nz` until 0.",
    remedy_in_c: None,
    anchor: "access-during-dma",
};

pub const TRANSFER_STACK: Advice = Advice {
    problem: "During OAM DMA the CPU can use HRAM only, so pushes and pops of a stack in WRAM go wrong.",
    remedy: "Wait for 160 M-cycles before `ret` (`ld a, 40`, then `dec a` / `jr nz` until 0), without push, pop or call.",
    remedy_in_c: None,
    anchor: "stack-during-dma",
};

pub const TRANSFER_INTERRUPT: Advice = Advice {
    problem: "During OAM DMA an interrupt pushes its return address to a stack that the CPU can't reach.",
    remedy: "Start DMA with interrupts off: in the VBlank handler, or between `di` and `ei`.",
    remedy_in_c: None,
    anchor: "interrupt-during-dma",
};

pub const TRANSFER_START: Advice = Advice {
    problem: "A write to $FF46 starts OAM DMA at once, and then the CPU can use HRAM only.",
    remedy: "If it isn't meant to start OAM DMA, bound the pointer, or end its loop below $FF46. Else name the register: `ldh [$FF46], a`.",
    remedy_in_c: Some(
        "Bound the index or the pointer, so that the store stays below $FF46: `if (i < 32) buffer[i] = x;`.",
    ),
    anchor: "dma-by-pointer",
};

pub const JUMP_HL: Advice = Advice {
    problem: "A jump to an unknown address can run any bytes as code.",
    remedy: "Check the index right before you read the jump table: `cp STATES` / `ret nc`. Keep state numbers in RAM, not code pointers.",
    remedy_in_c: Some(
        "Compare a copy of the index, since SDCC may load the variable twice: `uint8_t now = state; if (now < 3) functions[now]();`. Before a `switch`, bound its value: `switch (state & 7)`.",
    ),
    anchor: "unknown-jump",
};

pub const RETURN_IN_MAIN: Advice = Advice {
    problem: "Nothing called main, so `ret` jumps to whatever is on the stack.",
    remedy: "End main in a loop: `.forever: jr .forever`. Use `call` instead of a pushed return address.",
    remedy_in_c: None,
    anchor: "main-returns",
};

pub const RETURN_WITH_BYTES: Advice = Advice {
    problem: "`ret` takes pushed bytes for the return address and jumps there.",
    remedy: "On every path to this return, pop as often as you pushed: a `pop` is missing, or the return comes before it.",
    remedy_in_c: Some(
        "Give caller and function the same prototype, in one header. In inline assembly, pop as often as you push before each return.",
    ),
    anchor: "return-with-pushed",
};

pub const RETURN_TO_UNKNOWN: Advice = Advice {
    problem: "A `ret` to an unknown address can run any bytes as code.",
    remedy: "Pop on every path what you pushed. To jump by `ret`, check the index before you read the table: `cp COUNT` / `ret nc`.",
    remedy_in_c: Some(
        "Bound each index into a local array, or make the array `static`: a store past it overwrites the return address.",
    ),
    anchor: "unknown-return",
};

pub const INTERRUPT_WITHOUT_STACK: Advice = Advice {
    problem: "An interrupt pushes its return address, and before SP is set that overwrites HRAM.",
    remedy: "Set SP before the first `ei`: `ld sp, $E000`.",
    remedy_in_c: None,
    anchor: "interrupt-before-stack",
};

pub const TOO_MANY_NODES: Advice = Advice {
    problem: "The analysis keeps a node for each state of each instruction, up to a limit.",
    remedy: "Bound what multiplies: end such a loop by `ld a, h` / `cp HIGH(end)`, not by a counter. Or allow more with --nodes.",
    remedy_in_c: Some(
        "Bound each index right before its use, and count loops down to 0: `for (n = 32; n != 0; n--)`. Or allow more with --nodes.",
    ),
    anchor: "too-large",
};

/// The fix of a pointer or a jump shortly behind a division.
pub const DIVIDED: Advice = Advice {
    remedy: "Nothing bounds what a division gives: compare it right before you use it, `cp 3` / `jr c, .ok` / `xor a`. Or mask it there.",
    remedy_in_c: Some(
        "Nothing bounds what `%` and `/` give. Compare a copy right before you use it: `n = x % 3; if (n >= 3) n = 0;`. Or mask it there: `n & 3`.",
    ),
    ..POINTER
};

/// The fix of an access that reads a text up to its end.
pub const TEXT: Advice = Advice {
    remedy: "The text may have no 0 at its end: count its characters (`ld b, 20` .. `dec b` / `jr nz`), or store the 0 in code before.",
    remedy_in_c: Some(
        "The text may have no 0 at its end. Store it in code before (`name[3] = 0;`), print with a count (`for (i = 0; i < 20 && s[i]; i++)`), or have `char names[3][8]` for `char *names[3]`.",
    ),
    ..POINTER
};

/// Too many nodes, and none for the same place.
pub const TOO_MANY_PLACES: Advice = Advice {
    remedy: "Allow more with --nodes: each place has one state, so the game alone needs more.",
    remedy_in_c: None,
    ..TOO_MANY_NODES
};

/// Too many nodes, where a byte of RAM has many values.
pub const TOO_MANY_VALUES: Advice = Advice {
    remedy: "Let this byte have fewer values: mask it (`and 15`) or compare it (`cp 16`) right before its use. Or allow more nodes with --nodes.",
    remedy_in_c: Some(
        "Let this variable have fewer values: mask it (`i & 15`) or compare it (`if (i < 16)`) right before its use. Or allow more nodes with --nodes.",
    ),
    ..TOO_MANY_NODES
};

/// Too many nodes, where code runs with many banks mapped.
pub const TOO_MANY_BANKS: Advice = Advice {
    remedy: "Keep what runs each frame in one bank, and map others with interrupts off. Or allow more with --nodes.",
    remedy_in_c: None,
    ..TOO_MANY_NODES
};

/// Too many nodes, where the stack has many contents.
pub const TOO_MANY_STACKS: Advice = Advice {
    remedy: "Keep counters and pointers in registers or variables, not on the stack, and call this routine from fewer places. Or allow more with --nodes.",
    remedy_in_c: Some(
        "Make local variables `static`, and bound each index right before its use. Or allow more with --nodes.",
    ),
    ..TOO_MANY_NODES
};

/// Too many copies of routines for one certificate.
pub const TOO_MANY_PROCEDURES: Advice = Advice {
    problem: "The analysis keeps a copy of a routine for each bank and value that matters to it, and 255 copies in all.",
    remedy: "Call the routines above with fewer banks or values, for example with one bank mapped.",
    remedy_in_c: None,
    ..TOO_MANY_NODES
};

/// Too many steps in one run of the analysis.
pub const TOO_MANY_STEPS: Advice = Advice {
    remedy: "Bound what multiplies: end such a loop by `ld a, h` / `cp HIGH(end)`, not by a counter.",
    remedy_in_c: Some(
        "Bound each index right before its use, and count loops down to 0: `for (n = 32; n != 0; n--)`.",
    ),
    ..TOO_MANY_NODES
};

pub const NO_STACK: Advice = Advice {
    problem: "The stack must be in WRAM ($C000-$DFFF) or HRAM ($FF80-$FFFE).",
    remedy: "Set SP to the address above the stack: `ld sp, $E000` for WRAM, or `ld sp, $FFFE` for HRAM.",
    remedy_in_c: None,
    anchor: "no-stack",
};

pub const STACK_TOO_DEEP: Advice = Advice {
    problem: "The deepest calls and the interrupts on top of them must fit, or the stack overwrites variables.",
    remedy: "Move the stack to where there is more room, allow more with --stack, or nest calls less deeply. Handlers with `ei` add up.",
    remedy_in_c: Some(
        "Make large local variables `static`, nest calls less deeply, or move the stack to where there is more room.",
    ),
    anchor: "stack-too-deep",
};

pub const OUT_OF_ROUNDS: Advice = Advice {
    problem: "The analysis isn't finished. A finding above may only be where it stood, and go away if it can go on.",
    remedy: "Check the finding above. If there is no mistake, please report the ROM.",
    remedy_in_c: None,
    anchor: "out-of-rounds",
};

/// Too many steps in all rounds together.
pub const OUT_OF_STEPS: Advice = Advice {
    remedy: "Allow more work with a larger --nodes before you change code for the finding above.",
    remedy_in_c: None,
    ..OUT_OF_ROUNDS
};

/// The time that was allowed for the search ended.
pub const OUT_OF_TIME: Advice = Advice {
    remedy: "Allow more time with a larger --seconds before you change code for the finding above.",
    remedy_in_c: None,
    ..OUT_OF_ROUNDS
};

pub const INTERNAL: Advice = Advice {
    problem: "The checker rejects what certify made, so nothing was written.",
    remedy: "This is a bug in certify: please report it with the ROM.",
    remedy_in_c: None,
    anchor: "internal",
};
