// The version of the program, which is that of the file `VERSION`.

/// The version.
pub const VERSION: &str = "0.1.0";
