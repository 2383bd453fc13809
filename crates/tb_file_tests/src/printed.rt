// The texts of errors, and how large the types are.

use std::mem::size_of;
use std::test::Fail;
use tb_base::{Cell, Record};
use tb_ptable::{PTableFault, PTableKind};
use tb_records::{PeopleFault, PeopleKind};
use tb_schema::{ClassFile, SchemaFault, SchemaKind};

#[test]
fn text_of_schema_fault(rt: HostRuntime) -> Result<(), Fail> {
    let fault = SchemaFault::Refused {
        file: ClassFile::Recodes,
        kind: SchemaKind::BadCsv,
        at: 3,
    };
    let text = format!(in rt.alloc(); "{fault}; {}", SchemaFault::Memory)?;
    assert_eq!(rt;
        text.as_str(),
        "recodes, record 3: the record has not as many fields as the header; out of memory"
    );
    Ok(())
}

#[test]
fn text_of_ptable_fault(rt: HostRuntime) -> Result<(), Fail> {
    let fault = PTableFault::Refused {
        kind: PTableKind::OutOfRange,
        at: 7,
    };
    let text = format!(in rt.alloc(); "{fault}")?;
    assert_eq!(rt;
        text.as_str(),
        "record 7: pcv must be at most 750, ckey at most 255 (or 4095 if the classification says \
            so) and pvalue from -1000 to 1000"
    );
    Ok(())
}

#[test]
fn text_of_people_fault(rt: HostRuntime) -> Result<(), Fail> {
    let fault = PeopleFault::Refused {
        kind: PeopleKind::BadKey,
        at: 12,
    };
    let text = format!(in rt.alloc(); "{fault}; {}", PeopleFault::Memory)?;
    assert_eq!(rt;
        text.as_str(),
        "record 12: record_key must be a number from 0 to 255, or to 4095 if the classification \
            says so; out of memory"
    );
    Ok(())
}

// Counting reads every record, or else their columns, and walks over cells: so their size is the
// time of a table.
#[test]
fn sizes(rt: HostRuntime) {
    assert_eq!(rt; size_of::<Record>(), 24);
    assert_eq!(rt; size_of::<Cell>(), 8);
}
