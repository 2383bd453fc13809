// The number to which each link leads, noted at the link's place.

ghost use Rattle.std.specs.Prelude.{◌≡◌, ◌≤◌, flat_map, length};
ghost use Rattle.tb_base.specs.Records.{AllFit};
ghost use Rattle.tb_base.specs.declared.tallies.TheConstants.{CHUNK};
ghost use Rattle.tb_unit_cells.specs.Noting.{number_in, AreNoted};

use crate::link_numbers::note_record;
use tb_base::{CHUNK, Record};
use tb_plan::Plan;
use tb_release::Lent;
use tb_scan::numbers_of;
use tb_units::Units;

// Notes the numbers of a chunk of records.
fn note_chunk(
    units: &Units,
    plan: &Plan,
    chunk: &[Record],
    start: usize,
    numbers: &mut [u32],
) -> usize
    requires long { length numbers.old ≡ length units.now.links }
    requires fit { AllFit plan.now.shape chunk.now }
    requires few { length chunk.now ≤ CHUNK }
    ensures { AreNoted (number_in plan.now) units.now.links chunk.now numbers.old numbers.new }
{
    let found = numbers_of(plan, chunk);
    let mut guess = start;
    for j in 0..chunk.len() {
        guess = note_record(units, &chunk[j], found[j], guess, numbers);
    }
    guess
}

// Notes the numbers of a piece's records.
fn note_piece(
    units: &Units,
    plan: &Plan,
    piece: &[Record],
    start: usize,
    numbers: &mut [u32],
) -> usize
    requires long { length numbers.old ≡ length units.now.links }
    requires fit { AllFit plan.now.shape piece.now }
    ensures { AreNoted (number_in plan.now) units.now.links piece.now numbers.old numbers.new }
{
    let mut guess = start;
    for chunk in piece.chunks(CHUNK) {
        guess = note_chunk(units, plan, chunk, guess, numbers);
    }
    guess
}

/// Notes the number of each record that is lent at the link of its person. It takes no memory.
pub fn note_numbers(units: &Units, plan: &Plan, lent: &Lent<'_>, numbers: &mut [u32])
    requires long { length numbers.old ≡ length units.now.links }
    requires fit { AllFit plan.now.shape (flat_map (λ piece. piece) lent.now) }
    ensures { AreNoted (number_in plan.now) units.now.links (flat_map (λ piece. piece) lent.now)
        numbers.old numbers.new }
{
    let mut guess = 0;
    for i in 0..lent.pieces() {
        guess = note_piece(units, plan, lent.piece(i), guess, numbers);
    }
}
