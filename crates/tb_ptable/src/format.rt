// How a perturbation file is read, record by record.

ghost use Rattle.std.specs.Prelude.{length};
ghost use Rattle.tb_model.specs.declared.names.PerturbationLine.{PerturbationLine};
ghost use Rattle.tb_ptable.specs.Lines.{perturbation_file};

use crate::fault::{PTableFault, PTableKind};
use crate::line::read_line;
use crate::slots::Slots;
use crate::table::PTable;
use std::alloc::Global;
use tb_base::{Keys, Memory};
use tb_rows::{Fault, Fields, FileFormat};

/// A perturbation file under a key range.
#[derive(Drop)]
pub struct PerturbationFile {
    pub keys: Keys,
}

impl FileFormat for PerturbationFile {
    type SoFar = Slots;

    type Value = PTable;

    type Kind = PTableKind;

    ghost Line = { PerturbationLine };

    ghost format = { λ f. perturbation_file f.keys };

    ghost count = { λ lines. length lines };

    fn columns(&self) -> usize {
        3
    }

    fn column(&self, i: usize) -> &[u8] {
        match i {
            0 => b"pcv",
            1 => b"ckey",
            _ => b"pvalue",
        }
    }

    fn bad_header(&self) -> PTableKind {
        PTableKind::BadHeader
    }

    fn bad_csv(&self) -> PTableKind {
        PTableKind::BadCsv
    }

    fn start(&self, alloc: Global, _bytes: usize) -> Result<Slots, Memory> {
        Slots::with_room(alloc, self.keys)
    }

    fn step(&self, slots: &mut Slots, at: u32, fields: &Fields<'_>) -> Result<(), PTableFault> {
        let line = match read_line(self.keys, fields) {
            Ok(line) => line,
            Err(kind) => return Err(Fault::Refused { kind, at }),
        };
        if slots.add(line)? {
            Ok(())
        } else {
            Err(Fault::Refused {
                kind: PTableKind::PairTwice,
                at,
            })
        }
    }

    fn finish(&self, slots: Slots) -> Result<PTable, PTableFault> {
        Ok(PTable {
            keys: self.keys,
            slots,
        })
    }
}
