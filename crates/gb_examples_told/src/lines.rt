//! The printed lines of a refused node.

use gb_abs::reason::Reason;
use gb_ops::decode::decode;
use gb_page::{Code, Explanation};
use gb_spelling::Spelling;
use std::test::Fail;

#[test]
fn lines_of_a_node(rt: HostRuntime) -> Result<(), Fail> {
    let row = decode(&[0x28, 0xFE, 0x00]).ok_or("an instruction")?;
    let mut told = Explanation {
        node: 4,
        procedure: 0,
        address: 0x0152,
        bank: 0x01F,
        code: Code::Instruction(Spelling::new(row, 0x0152)),
        reason: Reason::Unreadable,
        gaps: None,
    };
    let text = format!(in rt.alloc(); "{told}")?;
    assert_eq!(rt;
        text.as_str(),
        "node 4, procedure 0, 1F:0152: JR Z,$0152\n  Each byte of code in RAM must be known: an unknown byte can be any opcode, and some lock the CPU.\n  Fix: Copy the routine to RAM before anything can call it, and keep other stores off it. Pass values in registers instead of patching operands.\n  Rule 4. More: docs/FINDINGS.md#unknown-code-in-ram"
    );
    for (code, text) in [
        (Code::Undefined(0xD3), "undefined opcode $D3"),
        (Code::Begins(0x3E), "$3E and unknown bytes"),
        (Code::Unknown, "unknown bytes"),
    ] {
        told.code = code;
        let shown = format!(in rt.alloc(); "{}", told.code)?;
        assert_eq!(rt; shown.as_str(), text);
    }
    told.reason = Reason::Callee;
    let text = format!(in rt.alloc(); "{told}")?;
    assert_eq!(rt;
        text.as_str(),
        "node 4, procedure 0, 1F:0152: unknown bytes\n  No procedure of the certificate can be called here.\n  Fix: Make a new certificate with certify. By hand, add a procedure there, or put its ranges inside its caller's.\n  Rule 15. More: docs/FINDINGS.md#wrong-callee"
    );
    Ok(())
}
