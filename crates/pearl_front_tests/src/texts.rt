// Texts by hand, each with a source of the tree that is written so.

use crate::cases::{expect, tree_of};
use pearl_print::print::print;
use std::alloc::{AllocError, Global};
use std::test::Fail;

static TEXTS: [(&str, &str); 2] = table![
    "MODULE(m);PROBLEM;t:TASK;IF a EQ 1 THEN FIN;END;MODEND;"
        => "MODULE ( m ) ;\nPROBLEM ;\nt : TASK ;\nIF a == 1 THEN FIN ;\nEND ;\nMODEND ;\n";
    "MODULE m;PROBLEM;DCL x(3) INV FIXED(7) INIT(1 HRS 75 MIN 61.5 SEC,'0101'B,9:5:7.05,'''');\
        t:TASK MAIN PRIO 5;p;END;MODEND"
        => "MODULE ( m ) ;\nPROBLEM ;\nDCL x ( 3 ) INV FIXED ( 7 ) \
            INIT ( 2 HRS 16 MIN 1.500 SEC , '0101'B , 09:05:07.050 , '''' ) ;\n\
            t : TASK PRIO 5 MAIN ;\nCALL p ;\nEND ;\nMODEND ;\n";
];

fn writes(alloc: Global, source: &[u8], text: &str) -> Result<bool, AllocError> {
    let Some(tree) = tree_of(alloc, source) else {
        return Ok(false);
    };
    let written = print(alloc, &tree)?;
    Ok(written.as_slice() == text.as_bytes())
}

#[test]
fn trees_are_written_as_their_texts(rt: HostRuntime) -> Result<(), Fail> {
    for &(source, text) in &TEXTS {
        expect(&rt, writes(rt.alloc(), source.as_bytes(), text)?, source);
    }
    Ok(())
}
