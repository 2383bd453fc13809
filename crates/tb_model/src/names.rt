use tb_base::Codes;

/// What a name in a query stands for: the number of a variable or of a recode, from 0 in the order
/// of its first appearance in its file.
#[derive(Clone, Copy, Debug, PartialEq, Eq)]
pub enum NameOf {
    Variable(u16),
    Recode(u16),
}

/// A condition on records: their category under the name is one of these, or, negated, is none of
/// them.
#[derive(Debug, Drop)]
pub struct Filter {
    pub of: NameOf,
    pub negated: bool,
    pub codes: Codes,
}

/// One coordinate of a place in a table.
#[derive(Clone, Copy, Debug, PartialEq, Eq)]
pub enum Entry {
    Category(u16),
    Total,
}

/// What stands in a table for a cell: a perturbed count of persons, or that it is below the
/// threshold.
#[derive(Clone, Copy, Debug, PartialEq, Eq)]
pub enum Shown {
    Number(u32),
    Suppressed,
}

/// A line of the perturbation table: the pvalue at a row and a cell key.
#[derive(Clone, Copy, Debug, PartialEq, Eq)]
pub struct PerturbationLine {
    pub pcv: u16,
    pub ckey: u16,
    pub pvalue: i16,
}
