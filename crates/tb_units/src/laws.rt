//! What it means for a whole file that it is accepted or refused. Each function does nothing, and
//! its contract is a law of the definitions that `Units::read` cites.

ghost use Rattle.std.specs.Prelude.{◌≡◌, ◌↔◌, ℕ, List, Ok, Err};
ghost use Rattle.tb_base.specs.declared.keys.Keys.{Keys};
ghost use Rattle.tb_rows.specs.declared.fault.Fault.TheVariants.{Refused};
ghost use Rattle.tb_model.specs.Units.{PairValue};
ghost use Rattle.tb_units.specs.Dwellings.{dwellings_of};
ghost use Rattle.tb_units.specs.Links.{links_of};
ghost use Rattle.tb_units.specs.WholeFiles.{AcceptsDwellings, AcceptsLinks};
ghost use Rattle.tb_units.specs.WholeFiles.{RefusesDwellings, RefusesLinks};
ghost use Rattle.tb_units.specs.declared.fault.UnitsKind.{UnitsKind};

/// A file of dwellings is accepted under a limit and a key range exactly where its header has each
/// column once, each record says a dwelling, no two have the same number, and they are no more than
/// the limit. The dwellings are these, in their order.
pub fn accepted_dwellings()
    ensures { (most : ℕ) (keys : Keys) (bytes : List ℕ) (dwellings : List PairValue) →
        (dwellings_of most keys bytes ≡ Ok dwellings)
        ↔ AcceptsDwellings most keys bytes dwellings }
{}

/// It is refused with number 0 exactly where it has no record, or a column is missing in the first
/// or stands there more than once: that is a bad header. It is refused with a record's number
/// exactly where the records before that one are accepted, and it has this fault by itself or, by
/// the reading's own step, beside them.
pub fn refused_dwellings()
    ensures { (most : ℕ) (keys : Keys) (bytes : List ℕ) (kind : UnitsKind) (n : ℕ) →
        (dwellings_of most keys bytes ≡ Err (Refused kind n))
        ↔ RefusesDwellings most keys bytes kind n }
{}

/// A file of links over dwellings is accepted under a limit exactly where its header has each
/// column once, each record says a link to one of the dwellings, no person has two, and they are no
/// more than the limit. The links are these, in their order.
pub fn accepted_links()
    ensures { (most : ℕ) (dwellings : List PairValue) (bytes : List ℕ) (links : List PairValue) →
        (links_of most dwellings bytes ≡ Ok links) ↔ AcceptsLinks most dwellings bytes links }
{}

/// It is refused as a file of dwellings is.
pub fn refused_links()
    ensures { (most : ℕ) (dwellings : List PairValue) (bytes : List ℕ) (kind : UnitsKind) (n : ℕ) →
        (links_of most dwellings bytes ≡ Err (Refused kind n))
        ↔ RefusesLinks most dwellings bytes kind n }
{}
