//! Spellings of single instructions, by hand from Pan Docs' table of instructions.

use gb_ops::decode::decode;
use gb_spelling::Spelling;
use std::test::Fail;

/// Bytes at 0150, and how their instruction is spelled.
const CASES: [([u8; 3], &str); 24] = [
    ([0x00, 0, 0], "NOP"),
    ([0x01, 0x34, 0x12], "LD BC,$1234"),
    ([0x08, 0x00, 0xC0], "LD ($C000),SP"),
    ([0x17, 0, 0], "RLA"),
    ([0x20, 0x10, 0], "JR NZ,$0162"),
    ([0x18, 0xFE, 0], "JR $0150"),
    ([0x2A, 0, 0], "LD A,(HL+)"),
    ([0x36, 0x0A, 0], "LD (HL),$0A"),
    ([0x39, 0, 0], "ADD HL,SP"),
    ([0x46, 0, 0], "LD B,(HL)"),
    ([0x97, 0, 0], "SUB A"),
    ([0xC6, 0x7F, 0], "ADD A,$7F"),
    ([0xD8, 0, 0], "RET C"),
    ([0xD9, 0, 0], "RETI"),
    ([0xDA, 0x00, 0x40], "JP C,$4000"),
    ([0xCD, 0x00, 0x40], "CALL $4000"),
    ([0xE0, 0x46, 0], "LDH ($FF00+$46),A"),
    ([0xE8, 0xFE, 0], "ADD SP,-2"),
    ([0xF8, 0x05, 0], "LD HL,SP+5"),
    ([0xEA, 0x00, 0xC0], "LD ($C000),A"),
    ([0xF5, 0, 0], "PUSH AF"),
    ([0xFF, 0, 0], "RST $38"),
    ([0xCB, 0x37, 0], "SWAP A"),
    ([0xCB, 0x7C, 0], "BIT 7,H"),
];

#[test]
fn spellings_of_the_table(rt: HostRuntime) -> Result<(), Fail> {
    for (bytes, text) in CASES {
        let row = decode(&bytes).ok_or("an instruction")?;
        let spelling = Spelling::new(row, 0x150);
        assert_eq!(rt; format!(in rt.alloc(); "{spelling}")?.as_str(), text);
    }
    Ok(())
}
