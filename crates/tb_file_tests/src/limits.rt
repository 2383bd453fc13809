// Files at the limits of how many names and categories there may be.

use crate::faults::{ACCEPTED, File, Told, header_of, told};
use std::alloc::Global;
use std::test::Fail;
use tb_base::{Memory, print_number};

// A file with a record for each number below `n`, which stands between two texts.
type Many = (File, &'static [u8], u32, &'static [u8], Told);

static LIMITS: [Many; 6] = [
    (File::Classes, b"V", 64, b",1,\n", ACCEPTED),
    (File::Classes, b"V", 65, b",1,\n", (12, "TooMany", 65)),
    (File::Classes, b"A,", 10_000, b",\n", ACCEPTED),
    (
        File::Classes,
        b"A,",
        10_001,
        b",\n",
        (12, "TooMany", 10_001),
    ),
    (
        File::Recodes,
        b"G",
        256,
        b",SEX,1,g\n",
        (8, "CodeMissing", 1),
    ),
    (
        File::Recodes,
        b"G",
        257,
        b",SEX,1,g\n",
        (12, "TooMany", 257),
    ),
];

fn limits() -> &'static [Many] {
    &LIMITS
}

fn add_number(text: &mut Vec<u8>, before: &[u8], number: u32, after: &[u8]) -> Result<(), Memory> {
    let mut digits = [b'0'; 10];
    let len = print_number(number, &mut digits);
    text.extend_from_slice(before)?;
    text.extend_from_slice(&digits[..len])?;
    text.extend_from_slice(after)?;
    Ok(())
}

fn told_of_many(alloc: Global, many: &Many) -> Result<Told, Memory> {
    let (file, before, n, after, _) = many;
    let mut bytes = Vec::from_slice(alloc, header_of(file))?;
    for number in 0..*n {
        add_number(&mut bytes, before, number, after)?;
    }
    Ok(told(alloc, file, bytes.as_slice()))
}

#[test]
fn most_records(rt: HostRuntime) -> Result<(), Fail> {
    for many in limits() {
        assert!(rt; told_of_many(rt.alloc(), many)? == many.4, "{}", many.2);
    }
    Ok(())
}
