use ent_script::{Cause, ReadFault, ScriptCause};
use std::alloc::{AllocError, Global};
use std::test::Fail;

// Why a text is no script, and how that is printed.
const SCRIPT_FAULTS: &[(ReadFault, &str)] = &[
    (ReadFault::Json, "no JSON text"),
    (ReadFault::Script(ScriptCause::Slots), "no script"),
    (ReadFault::Frame { frame: 7 }, "no frame at 7"),
    (
        ReadFault::System {
            frame: 8,
            system: 9,
        },
        "no system at 8 9",
    ),
    (
        ReadFault::Operation {
            frame: 10,
            system: 11,
            operation: 12,
            cause: Cause::Count,
        },
        "no operation at 10 11 12",
    ),
    (ReadFault::Memory, "out of memory"),
];

#[test]
fn a_fault_of_a_script_is_printed(rt: HostRuntime) -> Result<(), Fail> {
    for (fault, text) in SCRIPT_FAULTS {
        assert!(rt; is_printed(rt.alloc(), fault, text)?);
    }
    Ok(())
}

fn is_printed(alloc: Global, fault: &ReadFault, text: &str) -> Result<bool, AllocError> {
    Ok(format!(in alloc; "{fault}")?.as_str() == text)
}
