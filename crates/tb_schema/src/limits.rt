// How much a classification and its recodes may hold.

/// How many persons there may be at most where a classification states no limit.
pub const MOST_UNSTATED: usize = 1_000_000;

/// The most variables of a classification.
pub const MOST_VARIABLES: usize = 64;

/// The most categories of a variable.
pub const MOST_CATEGORIES: usize = 10_000;

/// The most recodes.
pub const MOST_RECODES: usize = 256;

/// The most bytes of the name of a variable or recode.
pub const MOST_NAME_BYTES: usize = 32;

/// The most bytes of the code of a category or group.
pub const MOST_CODE_BYTES: usize = 16;

/// The most bytes of a category's label.
pub const MOST_LABEL_BYTES: usize = 200;
