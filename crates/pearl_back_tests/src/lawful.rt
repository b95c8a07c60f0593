// An object as each object is to be, which `verify` gives back.

use crate::objects::letter;
use pearl_instructions::instr::Instr;
use pearl_instructions::object::{Code, Object, Parts, Task};
use pearl_value::listing::Listing;
use pearl_verify::verify::verify;
use std::alloc::{AllocError, Global};
use std::test::Fail;

// One task, which ends.
fn smallest(alloc: Global) -> Result<Object, AllocError> {
    let code = Code {
        cells: Listing::new(Vec::new(alloc)),
        depth: 0,
        instructions: Listing::new(vec![in alloc; Instr::End]?),
        shapes: Listing::new(Vec::new(alloc)),
    };
    let task = Task {
        name: letter(),
        priority: 1,
        main: true,
        code,
    };
    Ok(Object::new(Parts {
        devices: Listing::new(Vec::new(alloc)),
        semaphores: Listing::new(Vec::new(alloc)),
        leaves: Listing::new(Vec::new(alloc)),
        formats: Listing::new(Vec::new(alloc)),
        procedures: Listing::new(Vec::new(alloc)),
        tasks: Listing::new(vec![in alloc; task]?),
    }))
}

#[test]
fn a_valid_object_is_given_back(rt: HostRuntime) -> Result<(), Fail> {
    let alloc = rt.alloc();
    let mut tasks = 0;
    if let Ok(valid) = verify(alloc, smallest(alloc)?) {
        tasks = valid.into_object().parts().tasks.as_slice().len();
    }
    assert!(rt; tasks == 1);
    Ok(())
}
