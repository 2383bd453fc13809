// Edits that fit a setup: two variables, with two and three categories.

use std::alloc::Global;
use std::test::Fail;
use tb_base::{Codes, Keys, Memory, Shape};
use tb_journal::fits;
use tb_release::{Edit, Edits, Sets};

// Whether one edit fits.
fn one_fits(alloc: Global, keys: Keys, edit: Edit) -> Result<bool, Memory> {
    let shape = Shape::of(alloc, &[2, 3])?;
    let mut edits = Edits::new(alloc);
    match edits.push(edit) {
        Ok(()) => Ok(fits(&shape, keys, &edits)),
        Err(_) => Err(Memory),
    }
}

// Adds, as a person, a key and codes, and whether they fit the key range 256 and 4096.
static ADDS: [(u32, u16, &[u16], bool, bool); 7] = [
    (1, 255, &[1, 2], true, true),
    (1, 256, &[1, 2], false, true),
    (1, 4_096, &[1, 2], false, false),
    (0, 255, &[1, 2], false, false),
    (1, 255, &[1], false, false),
    (1, 255, &[1, 2, 0], false, false),
    (1, 255, &[1, 3], false, false),
];

fn adds() -> &'static [(u32, u16, &'static [u16], bool, bool)] {
    &ADDS
}

fn add_fits(
    alloc: Global,
    keys: Keys,
    person: u32,
    key: u16,
    codes: &[u16],
) -> Result<bool, Memory> {
    let codes = Codes::of(alloc, codes)?;
    one_fits(alloc, keys, Edit::Add { person, key, codes })
}

// Amends, as a person and one setting, and whether they fit.
static AMENDS: [(u32, u16, u16, bool); 4] = [
    (1, 1, 2, true),
    (0, 1, 2, false),
    (1, 2, 0, false),
    (1, 1, 3, false),
];

fn amends() -> &'static [(u32, u16, u16, bool)] {
    &AMENDS
}

fn amend_fits(alloc: Global, person: u32, variable: u16, category: u16) -> Result<bool, Memory> {
    let sets = Sets::of(alloc, &[(variable, category)])?;
    one_fits(alloc, Keys::K256, Edit::Amend { person, sets })
}

// Pvalues, and whether they fit.
static PVALUES: [(u16, u16, i16, bool); 4] = [
    (750, 255, -750, true),
    (751, 255, 0, false),
    (3, 256, 0, false),
    (3, 64, -4, false),
];

fn pvalues() -> &'static [(u16, u16, i16, bool)] {
    &PVALUES
}

#[test]
fn adds_that_fit(rt: HostRuntime) -> Result<(), Fail> {
    for (i, (person, key, codes, small, large)) in adds().iter().enumerate() {
        let alloc = rt.alloc();
        assert_eq!(rt;
            add_fits(alloc, Keys::K256, *person, *key, codes)?,
            *small,
            "at {i}"
        );
        assert_eq!(rt;
            add_fits(alloc, Keys::K4096, *person, *key, codes)?,
            *large,
            "at {i}"
        );
    }
    Ok(())
}

#[test]
fn amends_that_fit(rt: HostRuntime) -> Result<(), Fail> {
    for (i, (person, variable, category, wanted)) in amends().iter().enumerate() {
        assert_eq!(rt;
            amend_fits(rt.alloc(), *person, *variable, *category)?,
            *wanted,
            "at {i}"
        );
    }
    Ok(())
}

#[test]
fn edits_of_the_rules_that_fit(rt: HostRuntime) -> Result<(), Fail> {
    for (i, (row, key, pvalue, wanted)) in pvalues().iter().enumerate() {
        let edit = Edit::Pvalue {
            row: *row,
            key: *key,
            pvalue: *pvalue,
        };
        assert_eq!(rt; one_fits(rt.alloc(), Keys::K256, edit)?, *wanted, "at {i}");
    }
    Ok(())
}

#[test]
fn other_edits_that_fit(rt: HostRuntime) -> Result<(), Fail> {
    let alloc = rt.alloc();
    for (value, wanted) in [(1, true), (0, false)] {
        assert_eq!(rt;
            one_fits(alloc, Keys::K256, Edit::Drop { person: value })?,
            wanted
        );
    }
    for (value, wanted) in [(1_000_000, true), (1_000_001, false)] {
        assert_eq!(rt;
            one_fits(alloc, Keys::K256, Edit::Threshold { value })?,
            wanted
        );
    }
    for release in [0, 4294967295] {
        assert!(rt; one_fits(alloc, Keys::K256, Edit::Oldest { release })?);
    }
    Ok(())
}
