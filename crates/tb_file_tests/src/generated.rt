// The generated files.

use std::alloc::Global;
use tb_gen::files_of;

fn has_person(alloc: Global) -> bool {
    match files_of(alloc, 1, 1) {
        Ok(files) => {
            files.people.as_slice()
                == b"person,record_key,AREA,AGE,SEX,TENURE\n1,136,a0,19,2,3\n".as_slice()
        }
        Err(_) => false,
    }
}

#[test]
fn generated_person(rt: HostRuntime) {
    assert!(rt; has_person(rt.alloc()));
}
