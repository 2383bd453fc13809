/// The most persons of a generated population.
pub const MOST_GENERATED: usize = 1_000_000;
